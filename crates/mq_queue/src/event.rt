//! The events of a queue's log: one for each call that changed the queue.

ghost use Rattle.std.specs.Prelude.{Some};
ghost use Rattle.mq_queue.specs.Shown.{event_text};

use mq_message::Selection;
use std::fmt;

/// A change of a queue, by the seat that called and at the moment that the caller named. A place is
/// an index in the queue's log, from 0.
#[derive(Clone, Copy, Debug, PartialEq, Eq)]
pub enum Event {
    /// The queue was made.
    Made {
        seat: u16,
        moment: u64,
        key: i32,
    },
    /// A message was sent. Its place is that of this event.
    Sent {
        seat: u16,
        moment: u64,
        tag: u64,
        mtype: i64,
        length: u64,
    },
    /// The message with this place was received.
    Received {
        seat: u16,
        noerror: bool,
        moment: u64,
        place: u64,
        selection: Selection,
        size: u64,
    },
    /// The quota was set.
    Changed {
        seat: u16,
        moment: u64,
        qbytes: u64,
    },
    /// The queue was removed.
    Removed {
        seat: u16,
        moment: u64,
    },
}

/// In words, as `sent seat=1 moment=77 type=5 length=3 tag=0`.
impl fmt::Display for Event {
    ghost output = { λ event. Some (event_text event) };

    fn fmt<W: fmt::Write>(&self, f: &mut fmt::Formatter<W>) -> fmt::Result {
        match *self {
            Event::Made { seat, moment, key } => {
                write!(f, "made seat={seat} moment={moment} key={key}")
            }
            Event::Sent {
                seat,
                moment,
                tag,
                mtype,
                length,
            } => write!(
                f,
                "sent seat={seat} moment={moment} type={mtype} length={length} tag={tag}"
            ),
            Event::Received {
                seat,
                moment,
                place,
                selection,
                size,
                noerror,
            } => write!(
                f,
                "received seat={seat} moment={moment} place={place} size={size} noerror={noerror} \
                 selection={selection}"
            ),
            Event::Changed {
                seat,
                moment,
                qbytes,
            } => write!(f, "changed seat={seat} moment={moment} qbytes={qbytes}"),
            Event::Removed { seat, moment } => { write!(f, "removed seat={seat} moment={moment}") }
        }
    }
}
