//! What a program prints, the sizes that it sets, and what `?` makes of a refusal.

use mq::{
    BoardRow, Config, ConfigError, DEFAULTS, DraftError, Errno, Event, Figures, Id, MAX_HEIGHT,
    MAX_SEATS, MAX_SEQ, MAX_SLOTS, Refused, Selection, SendRefused,
};
use std::alloc::Global;
use std::fmt::Display;
use std::process::Abort;

/// Whether this is what is printed. Where there is no memory for it, the test ends.
fn is_printed(rt: &impl Abort, alloc: Global, value: impl Display + Drop, words: &str) -> bool {
    match format!(in alloc; "{value}") {
        Ok(printed) => printed.as_str() == words,
        Err(_) => panic!(rt; "ENOMEM"),
    }
}

const FIGURES: Figures = Figures {
    qnum: 1,
    cbytes: 2,
    qbytes: 3,
    stime: 4,
    rtime: 5,
    ctime: 6,
    lspid: 7,
    lrpid: 8,
};

const ROW: BoardRow = BoardRow {
    made: 2,
    live: true,
    key: -9,
    figures: FIGURES,
};

#[test]
fn selections_events_figures_rows_and_ids_are_printed_in_words(rt: HostRuntime) {
    let alloc = rt.alloc();
    let selections = [
        (Selection::Any, "any"),
        (Selection::Exact(5), "type 5"),
        (Selection::Except(6), "not type 6"),
        (Selection::UpTo(7), "up to 7"),
    ];
    for (selection, words) in selections {
        holds!(rt; is_printed(&rt, alloc, selection, words), words);
    }
    let events = [
        (
            Event::Made {
                seat: 1,
                moment: 76,
                key: -5,
            },
            "made seat=1 moment=76 key=-5",
        ),
        (
            Event::Sent {
                seat: 1,
                moment: 77,
                tag: 4,
                mtype: 5,
                length: 3,
            },
            "sent seat=1 moment=77 type=5 length=3 tag=4",
        ),
        (
            Event::Received {
                seat: 2,
                moment: 78,
                place: 1,
                selection: Selection::Exact(5),
                size: 100,
                noerror: false,
            },
            "received seat=2 moment=78 place=1 size=100 noerror=false selection=type 5",
        ),
        (
            Event::Changed {
                seat: 1,
                moment: 79,
                qbytes: 3,
            },
            "changed seat=1 moment=79 qbytes=3",
        ),
        (
            Event::Removed {
                seat: 1,
                moment: 80,
            },
            "removed seat=1 moment=80",
        ),
    ];
    for (event, words) in events {
        holds!(rt; is_printed(&rt, alloc, event, words), words);
    }
    let figures = "qnum=1 cbytes=2 qbytes=3 lspid=7 lrpid=8 stime=4 rtime=5 ctime=6";
    holds!(rt; is_printed(&rt, alloc, FIGURES, figures));
    let row = "made=2 live=true key=-9 qnum=1 cbytes=2 qbytes=3 lspid=7 lrpid=8 stime=4 rtime=5 \
               ctime=6";
    holds!(rt; is_printed(&rt, alloc, ROW, row));
    let id = Id::of(3, 1);
    holds!(rt; is_printed(&rt, alloc, id, "67"));
    holds!(rt; u32::from(id) == 67 && Id::from(67) == id);
}

#[test]
fn sizes_are_set_within_their_limits(rt: HostRuntime) {
    let sizes = Config::default();
    holds!(rt; sizes == DEFAULTS);
    let set = Config {
        height: MAX_HEIGHT,
        slots: MAX_SLOTS,
        seats: MAX_SEATS,
        last_seq: MAX_SEQ,
    };
    holds!(rt; sizes.with_slots(MAX_SLOTS) == Ok(set));
    holds!(rt; set.with_height(MAX_HEIGHT + 1) == Err(ConfigError::Height));
    holds!(rt; set.with_height(2) == Ok(Config { height: 2, ..set }));
    holds!(rt; set.with_slots(0) == Err(ConfigError::Slots));
    holds!(rt; set.with_slots(MAX_SLOTS + 1) == Err(ConfigError::Slots));
    holds!(rt; set.with_seats(0) == Err(ConfigError::Seats));
    holds!(rt; set.with_seats(MAX_SEATS + 1) == Err(ConfigError::Seats));
    holds!(rt; set.with_seats(3) == Ok(Config { seats: 3, ..set }));
    holds!(rt; set.with_last_seq(MAX_SEQ + 1) == Err(ConfigError::LastSeq));
    holds!(rt; set.with_last_seq(0) == Ok(Config { last_seq: 0, ..set }));
    let alloc = rt.alloc();
    let refusals = [
        (ConfigError::Height, "the height is above 10"),
        (ConfigError::Slots, "the number of slots is not 1 to 64"),
    ];
    for (refusal, words) in refusals {
        holds!(rt; is_printed(&rt, alloc, refusal, words), words);
    }
}

/// A refusal of each kind, as `?` returns it.
fn refused(kind: u8) -> Result<(), Errno> {
    let errno = Errno::EIDRM;
    let refused = Refused { errno, entry: None };
    match kind {
        0 => Err(ConfigError::Seats)?,
        1 => Err(DraftError::NoRun)?,
        2 => Err(refused)?,
        _ => Err(SendRefused { refused, text: () })?,
    }
    Ok(())
}

#[test]
fn each_refusal_becomes_an_errno_with_the_words_of_strerror(rt: HostRuntime) {
    let kinds = [
        (0, Errno::EINVAL),
        (1, Errno::ENOMEM),
        (2, Errno::EIDRM),
        (3, Errno::EIDRM),
    ];
    for (kind, errno) in kinds {
        holds!(rt; refused(kind) == Err(errno));
    }
    let words = [
        (Errno::EINVAL, "Invalid argument"),
        (Errno::EIDRM, "Identifier removed"),
        (Errno::EAGAIN, "Resource temporarily unavailable"),
        (Errno::ENOMEM, "Cannot allocate memory"),
        (Errno::ENOMSG, "No message of desired type"),
        (Errno::E2BIG, "Argument list too long"),
        (Errno::EPERM, "Operation not permitted"),
        (Errno::EEXIST, "File exists"),
        (Errno::ENOENT, "No such file or directory"),
        (Errno::ENOSPC, "No space left on device"),
    ];
    for (errno, message) in words {
        holds!(rt; errno.message() == message, message);
    }
}
