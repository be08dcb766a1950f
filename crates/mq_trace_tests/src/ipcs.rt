//! The tables of ipcs(1): each byte, of live queues and of slots that have none.

use mq_queue::{BoardRow, Figures, NO_FIGURES};
use mq_trace::ipcs::{Keys, write_limits, write_queue, write_queues, write_queues_head};
use std::test::Fail;

/// The first lines of `ipcs -q`.
const HEAD: &str = "\
    \n------ Message Queues --------\
    \nkey        msqid      owner      perms      used-bytes   messages    \n";

/// The row of a slot in which so many queues were made.
fn row(made: u32, live: bool, key: i32, qnum: u64, cbytes: u64) -> BoardRow {
    BoardRow {
        made,
        live,
        key,
        figures: Figures {
            qnum,
            cbytes,
            ..NO_FIGURES
        },
    }
}

/// Two slots whose queues are live, and between them one whose queue was removed.
fn rows() -> [BoardRow; 3] {
    [
        row(1, true, 7, 2, 13),
        row(3, false, 0, 0, 0),
        row(2, true, -2, 0, 0),
    ]
}

#[test]
fn a_table_has_a_line_for_each_live_queue(rt: HostRuntime) -> Result<(), Fail> {
    for (keys, lines) in [
        (
            Keys::Decimal,
            "7          0          -          666        13           2           \
             \n-2         66         -          666        0            0           \n",
        ),
        (
            Keys::Hexadecimal,
            "0x00000007 0          -          666        13           2           \
             \n0xfffffffe 66         -          666        0            0           \n",
        ),
    ] {
        let mut written = Vec::new(rt.alloc());
        write_queues(&mut written, keys, &rows())?;
        let wanted = format!(in rt.alloc(); "{HEAD}{lines}\n")?;
        holds!(rt; written.as_slice() == wanted.as_bytes());
    }
    Ok(())
}

#[test]
fn a_table_of_no_queue_has_its_head_alone(rt: HostRuntime) -> Result<(), Fail> {
    let mut written = Vec::new(rt.alloc());
    write_queues(&mut written, Keys::Hexadecimal, &[row(4, false, 0, 0, 0)])?;
    let wanted = format!(in rt.alloc(); "{HEAD}\n")?;
    holds!(rt; written.as_slice() == wanted.as_bytes());
    let mut head = Vec::new(rt.alloc());
    write_queues_head(&mut head)?;
    holds!(rt; head.as_slice() == HEAD.as_bytes());
    Ok(())
}

/// A text that is as wide as its column, or wider, is written whole.
#[test]
fn the_bounds_of_a_row_are_written_whole(rt: HostRuntime) -> Result<(), Fail> {
    let great = row(32768, true, i32::MIN, u64::MAX, 999_999_999_999);
    for (keys, wanted) in [
        (
            Keys::Decimal,
            "-2147483648 2097151    -          666        999999999999 18446744073709551615\n",
        ),
        (
            Keys::Hexadecimal,
            "0x80000000 2097151    -          666        999999999999 18446744073709551615\n",
        ),
    ] {
        let mut written = Vec::new(rt.alloc());
        write_queue(&mut written, keys, 63, great)?;
        holds!(rt; written.as_slice() == wanted.as_bytes());
    }
    let mut written = Vec::new(rt.alloc());
    write_queue(
        &mut written,
        Keys::Hexadecimal,
        0,
        row(1, true, 0x89ab_cdef_u32.cast_signed(), 0, 0),
    )?;
    holds!(rt; written.starts_with(b"0x89abcdef 0 "));
    Ok(())
}

#[test]
fn the_limits_are_those_of_the_manual(rt: HostRuntime) -> Result<(), Fail> {
    let mut written = Vec::new(rt.alloc());
    write_limits(&mut written, 16)?;
    let wanted = "\
        \n------ Messages Limits --------\
        \nmax queues system wide = 16\
        \nmax size of message (bytes) = 65536\
        \ndefault max size of queue (bytes) = 131072\n\n";
    holds!(rt; written.as_slice() == wanted.as_bytes());
    Ok(())
}
