//! The table of queues and the limits as ipcs(1) of util-linux writes them. Where memory runs out,
//! a part of the text may have been appended.

ghost use Rattle.std.specs.Prelude.{◌≡◌, ◌-◌, ◌++◌, OnOk, replicate};
ghost use Rattle.mq_table.specs.Ids.{id_of as id_in_slot};
ghost use Rattle.mq_trace.specs.Ipcs.{eight_digits, hex_digit, key_column, left_aligned};
ghost use Rattle.mq_trace.specs.Ipcs.{limit_lines, limits_table, queue_access};
ghost use Rattle.mq_trace.specs.Ipcs.{queue_filled, queue_named, queue_row};
ghost use Rattle.mq_trace.specs.Ipcs.{queue_rows, queues_head, queues_table};

use crate::record::write_field;
use itoa::{Buffer, Integer};
use mq_queue::{BoardRow, MSGMAX, MSGMNB};
use mq_table::MAX_SLOTS;
use std::alloc::AllocError;

/// How keys are written.
#[derive(Clone, Copy, Debug, PartialEq, Eq)]
pub enum Keys {
    /// As msgget(2) is given them.
    Decimal,
    /// As ipcs(1) has them: `0x` and the eight digits of the key's bits.
    Hexadecimal,
}

/// Appends the table of `ipcs -q`, with a line for each slot whose queue is live. The rows are
/// those of slot 0, slot 1 and so on, as a caller's `report` fills them.
pub fn write_queues(out: &mut Vec<u8>, keys: Keys, rows: &[BoardRow]) -> Result<(), AllocError>
    ensures { OnOk result (out.new.items ≡ out.old.items ++ queues_table keys rows.now) }
{
    write_queues_head(out)?;
    write_rows(out, keys, rows)?;
    out.push(b'\n')?;
    Ok(())
}

/// The lines of that table.
fn write_rows(out: &mut Vec<u8>, keys: Keys, rows: &[BoardRow]) -> Result<(), AllocError>
    ensures { OnOk result (out.new.items ≡ out.old.items ++ queue_rows keys 0 rows.now) }
{
    for (slot, row) in rows.iter().enumerate() {
        write_queue(out, keys, slot, *row)?;
    }
    Ok(())
}

/// Appends what stands in that table before the queues: an empty line, the title and the names of
/// the columns.
#[tactic(auto, unfolding(crate::specs::Ipcs::queues_head))]
pub fn write_queues_head(out: &mut Vec<u8>) -> Result<(), AllocError>
    ensures { OnOk result (out.new.items ≡ out.old.items ++ queues_head) }
{
    out.extend_from_slice(
        b"\n------ Message Queues --------\n\
          key        msqid      owner      perms      used-bytes   messages    \n",
    )?;
    Ok(())
}

/// Appends the line of a slot, by its row. Where no queue is live it has none.
pub fn write_queue(
    out: &mut Vec<u8>,
    keys: Keys,
    slot: usize,
    row: BoardRow,
) -> Result<(), AllocError>
    ensures { OnOk result (out.new.items ≡ out.old.items ++ queue_row keys slot row) }
{
    if !row.live {
        return Ok(());
    }
    write_named(out, keys, slot, row)?;
    write_access(out)?;
    write_filled(out, row)
}

/// Appends the part of `ipcs -l` that is about queues, for a system of `slots` slots.
pub fn write_limits(out: &mut Vec<u8>, slots: u8) -> Result<(), AllocError>
    ensures { OnOk result (out.new.items ≡ out.old.items ++ limits_table slots) }
{
    write_limit_lines(out, slots)?;
    out.extend_from_slice(b"\n\n")
}

#[tactic(auto, unfolding(crate::specs::Ipcs::limit_lines))]
fn write_limit_lines(out: &mut Vec<u8>, slots: u8) -> Result<(), AllocError>
    ensures { OnOk result (out.new.items ≡ out.old.items ++ limit_lines slots) }
{
    write_field(
        out,
        b"\n------ Messages Limits --------\nmax queues system wide = ",
        slots,
    )?;
    write_field(out, b"\nmax size of message (bytes) = ", MSGMAX)?;
    write_field(out, b"\ndefault max size of queue (bytes) = ", MSGMNB)?;
    Ok(())
}

/// The key and the id.
#[tactic(auto, unfolding(crate::specs::Ipcs::queue_named))]
fn write_named(out: &mut Vec<u8>, keys: Keys, slot: usize, row: BoardRow) -> Result<(), AllocError>
    ensures { OnOk result (out.new.items ≡ out.old.items ++ queue_named keys slot row) }
{
    write_key(out, keys, row.key)?;
    out.push(b' ')?;
    write_number(out, 10, id_of(slot, row.made))?;
    out.push(b' ')?;
    Ok(())
}

/// A queue has no owner, and each seat may send and receive.
#[tactic(auto, unfolding(crate::specs::Ipcs::queue_access))]
fn write_access(out: &mut Vec<u8>) -> Result<(), AllocError>
    ensures { OnOk result (out.new.items ≡ out.old.items ++ queue_access) }
{
    out.extend_from_slice(b"-          666        ")
}

/// How many bytes and messages are pending.
#[tactic(auto, unfolding(crate::specs::Ipcs::queue_filled))]
fn write_filled(out: &mut Vec<u8>, row: BoardRow) -> Result<(), AllocError>
    ensures { OnOk result (out.new.items ≡ out.old.items ++ queue_filled row) }
{
    write_number(out, 12, row.figures.cbytes)?;
    out.push(b' ')?;
    write_number(out, 12, row.figures.qnum)?;
    out.push(b'\n')?;
    Ok(())
}

/// The id of the queue that was made last in a slot.
fn id_of(slot: usize, made: u32) -> u128
    ensures { result ≡ id_in_slot slot (made - 1) }
{
    u128::from(made.saturating_sub(1)) * u128::from(MAX_SLOTS) + slot as u128
}

/// A key in its column.
fn write_key(out: &mut Vec<u8>, keys: Keys, key: i32) -> Result<(), AllocError>
    ensures { OnOk result (out.new.items ≡ out.old.items ++ key_column keys key) }
{
    match keys {
        Keys::Decimal => write_number(out, 10, key),
        Keys::Hexadecimal => {
            out.extend_from_slice(b"0x")?;
            out.extend_from_slice(&eight_digits_of(key.cast_unsigned()))
        }
    }
}

/// A number of 32 bits in hexadecimal.
#[tactic(auto, unfolding(crate::specs::Ipcs::eight_digits))]
fn eight_digits_of(bits: u32) -> [u8; 8]
    ensures { result ≡ eight_digits bits }
{
    [
        digit_of(bits / 0x1000_0000),
        digit_of(bits / 0x100_0000),
        digit_of(bits / 0x10_0000),
        digit_of(bits / 0x1_0000),
        digit_of(bits / 0x1000),
        digit_of(bits / 0x100),
        digit_of(bits / 0x10),
        digit_of(bits),
    ]
}

/// The last digit of a number in hexadecimal.
fn digit_of(value: u32) -> u8
    ensures { result ≡ hex_digit value }
{
    let digit = (value % 16) as u8;
    if digit < 10 {
        b'0' + digit
    } else {
        b'a' + (digit - 10)
    }
}

/// A number at the left end of its column.
fn write_number<I: Integer>(out: &mut Vec<u8>, width: usize, number: I) -> Result<(), AllocError>
    ensures { OnOk result (out.new.items ≡ out.old.items ++ left_aligned width (I.text number)) }
{
    let mut buffer = Buffer::new();
    let digits = buffer.format(number).as_bytes();
    out.extend_from_slice(digits)?;
    write_spaces(out, width.saturating_sub(digits.len()))
}

fn write_spaces(out: &mut Vec<u8>, count: usize) -> Result<(), AllocError>
    ensures { OnOk result (out.new.items ≡ out.old.items ++ replicate count 32) }
{
    for _ in 0..count {
        out.push(b' ')?;
    }
    Ok(())
}
