//! The formatting of the table of queues.

ghost use Rattle.std.specs.Prelude.{◌≡◌, ◌++◌, OnOk, length, replicate};
ghost use Rattle.mq_cli.specs.Reports.{IsRow, filled_of, header, line_of_row, named_of, rows_to};
ghost use Rattle.mq_cli.specs.Reports.{right_aligned};
ghost use Rattle.mq_cli.specs.Transcript.{output, table};
ghost use Rattle.mq_cli.specs.declared.listing.Listing.TheVariants.{Queues, Table};
ghost use Rattle.mq_trace.specs.Ipcs.{queue_row};

use crate::listing::Listing;
use itoa::{Buffer, Integer};
use mq_local::OneThread;
use mq_queue::BoardRow;
use mq_table::Id;
use mq_trace::ipcs::{Keys, write_limits, write_queue, write_queues_head};
use std::alloc::AllocError;
use std::sync::ledger::Ledger;

/// Writes what is listed, and the end of its last line.
pub(crate) fn write_listing<L: Ledger>(
    out: &mut Vec<u8>,
    listing: Listing,
    queues: &OneThread<L>,
) -> Result<(), AllocError>
    ensures { OnOk result (out.new.items ≡ out.old.items ++ output (table listing queues.now)) }
{
    match listing {
        Listing::Table => write_table(out, queues),
        Listing::Queues(keys) => write_queues(out, keys, queues),
        Listing::Limits => write_limits(out, queues.slots()),
    }
}

/// The table of all figures.
fn write_table<L: Ledger>(out: &mut Vec<u8>, queues: &OneThread<L>) -> Result<(), AllocError>
    ensures { OnOk result (out.new.items ≡ out.old.items ++ output (table Table queues.now)) }
{
    write_header(out)?;
    write_rows(out, queues)?;
    out.push(b'\n')?;
    Ok(())
}

/// The table of ipcs(1).
fn write_queues<L: Ledger>(
    out: &mut Vec<u8>,
    keys: Keys,
    queues: &OneThread<L>,
) -> Result<(), AllocError>
    ensures { OnOk result
        (out.new.items ≡ out.old.items ++ output (table (Queues keys) queues.now)) }
{
    write_queues_head(out)?;
    write_queue_rows(out, keys, queues)?;
    out.push(b'\n')?;
    Ok(())
}

fn write_queue_rows<L: Ledger>(
    out: &mut Vec<u8>,
    keys: Keys,
    queues: &OneThread<L>,
) -> Result<(), AllocError>
    ensures { OnOk result (out.new.items
        ≡ out.old.items ++ rows_to (queue_row keys) queues.now (length queues.now.slots)) }
{
    for slot in 0..queues.slots() {
        write_queue(out, keys, usize::from(slot), queues.row(slot))?;
    }
    Ok(())
}

/// The names of the columns.
#[tactic(auto, unfolding(crate::specs::Reports::header))]
fn write_header(out: &mut Vec<u8>) -> Result<(), AllocError>
    ensures { OnOk result (out.new.items ≡ out.old.items ++ header) }
{
    out.extend_from_slice(b"slot      id         key   qnum  cbytes  qbytes lspid lrpid")?;
    Ok(())
}

fn write_rows<L: Ledger>(out: &mut Vec<u8>, queues: &OneThread<L>) -> Result<(), AllocError>
    ensures { OnOk result
        (out.new.items
        ≡ out.old.items ++ rows_to line_of_row queues.now (length queues.now.slots)) }
{
    for slot in 0..queues.slots() {
        write_row(out, slot, queues.row(slot))?;
    }
    Ok(())
}

/// The line of a slot with a live queue, after the end of the line before it.
fn write_row(out: &mut Vec<u8>, slot: u8, row: BoardRow) -> Result<(), AllocError>
    requires { IsRow slot row }
    ensures { OnOk result (out.new.items ≡ out.old.items ++ line_of_row slot row) }
{
    if !row.live {
        return Ok(());
    }
    out.push(b'\n')?;
    write_named(out, slot, row)?;
    write_filled(out, row)
}

#[tactic(auto, unfolding(crate::specs::Reports::named_of))]
fn write_named(out: &mut Vec<u8>, slot: u8, row: BoardRow) -> Result<(), AllocError>
    requires { IsRow slot row }
    ensures { OnOk result (out.new.items ≡ out.old.items ++ named_of slot row) }
{
    let id = Id::of(slot, row.made.saturating_sub(1));
    write_number(out, 4, slot)?;
    write_number(out, 8, id.number())?;
    write_number(out, 12, row.key)
}

#[tactic(auto, unfolding(crate::specs::Reports::filled_of))]
fn write_filled(out: &mut Vec<u8>, row: BoardRow) -> Result<(), AllocError>
    ensures { OnOk result (out.new.items ≡ out.old.items ++ filled_of row) }
{
    write_number(out, 7, row.figures.qnum)?;
    write_number(out, 8, row.figures.cbytes)?;
    write_number(out, 8, row.figures.qbytes)?;
    write_number(out, 6, row.figures.lspid)?;
    write_number(out, 6, row.figures.lrpid)
}

/// A number at the right end of its column.
fn write_number<I: Integer>(out: &mut Vec<u8>, width: usize, number: I) -> Result<(), AllocError>
    ensures { OnOk result (out.new.items ≡ out.old.items ++ right_aligned width (I.text number)) }
{
    let mut buffer = Buffer::new();
    let digits = buffer.format(number).as_bytes();
    write_spaces(out, width.saturating_sub(digits.len()))?;
    out.extend_from_slice(digits)
}

fn write_spaces(out: &mut Vec<u8>, count: usize) -> Result<(), AllocError>
    ensures { OnOk result (out.new.items ≡ out.old.items ++ replicate count 32) }
{
    for _ in 0..count {
        out.push(b' ')?;
    }
    Ok(())
}
