//! Which marks a picture has, and writers that fail.

use mq_calls::Errno;
use mq_message::Selection;
use mq_queue::Event;
use mq_trace::{CallName, Refusal, SlotEntries, TimeScale, TraceError, write_picture};
use std::alloc::Global;
use std::io::{ErrorKind, Write};
use std::test::Fail;
use std::{io, str};

/// A writer that takes a number of bytes, and then fails or takes nothing.
#[derive(Drop)]
struct Narrow {
    room: usize,
    fails: bool,
}

impl Write for Narrow {
    fn write(&mut self, buf: &[u8]) -> io::Result<usize> {
        if self.room == 0 && self.fails {
            return Err(ErrorKind::Other.into());
        }
        let count = self.room.min(buf.len());
        self.room -= count;
        Ok(count)
    }

    fn flush(&mut self) -> io::Result<()> {
        Ok(())
    }
}

fn sending(moment: u64, mtype: i64) -> Event {
    Event::Sent {
        seat: 1,
        moment,
        tag: 0,
        mtype,
        length: 3,
    }
}

fn making(moment: u64, key: i32) -> Event {
    Event::Made {
        seat: 1,
        moment,
        key,
    }
}

/// A queue in which a message of type 5 is received, and one of type 6 goes with the queue.
fn removed() -> [Event; 6] {
    [
        making(1, 7),
        sending(2, 5),
        sending(3, 6),
        Event::Changed {
            seat: 2,
            moment: 4,
            qbytes: 100,
        },
        Event::Received {
            seat: 3,
            moment: 7,
            place: 1,
            selection: Selection::Any,
            size: 9,
            noerror: false,
        },
        Event::Removed { seat: 1, moment: 9 },
    ]
}

fn slot_of<'a>(past: &'a [Event], last: &'a [Event]) -> SlotEntries<'a> {
    SlotEntries {
        slot: 0,
        first: 0,
        made: 0,
        base: None,
        past,
        last,
    }
}

fn refusal(id: Option<u32>) -> Refusal {
    Refusal {
        moment: 5,
        seat: 2,
        call: CallName::Send,
        id,
        errno: Errno::EAGAIN,
    }
}

/// The picture of these, as text.
fn drawn(
    alloc: Global,
    slots: &[SlotEntries<'_>],
    refusals: &[Refusal],
    scale: TimeScale,
) -> Result<String, Fail> {
    // It has room, so that no write runs out of memory.
    let mut bytes = Vec::with_capacity(alloc, 65536)?;
    write_picture(alloc, &mut bytes, slots, refusals, scale)?;
    Ok(String::from_str(alloc, str::from_utf8(&bytes)?)?)
}

fn count(text: &str, part: &str) -> usize {
    text.matches(part).count()
}

#[test]
fn each_message_has_a_bar_to_its_end(rt: HostRuntime) -> Result<(), Fail> {
    let (past, last) = (removed(), [making(10, 0), sending(12, 8)]);
    let slots = [slot_of(&past, &last)];
    let text = drawn(rt.alloc(), &slots, &[], TimeScale::Moments)?;
    let received = "<title>type 5, 3 bytes, tag 0, from seat 1 at 2 to seat 3 at 7</title>";
    let removed = "<title>type 6, 3 bytes, tag 0, from seat 1 at 3 to the removal at 9</title>";
    let waiting = "<title>type 8, 3 bytes, tag 0, from seat 1 at 12, still waiting</title>";
    assert_eq!(rt; count(&text, received), 1);
    assert_eq!(rt; count(&text, removed), 1);
    assert_eq!(rt; count(&text, waiting), 1);
    assert_eq!(rt; count(&text, "<title>type "), 3);
    assert_eq!(rt; count(&text, "2 queues, 3 messages, 0 refusals"), 2);
    assert_eq!(rt; count(&text, "quota 100"), 2);
    assert_eq!(rt; count(&text, ">removed<"), 1);
    assert_eq!(rt; count(&text, ">key 7<"), 1);
    assert_eq!(rt; count(&text, ">private<"), 1);
    Ok(())
}

#[test]
fn entries_are_times_too(rt: HostRuntime) -> Result<(), Fail> {
    let past = removed();
    let slots = [slot_of(&past, &[])];
    let text = drawn(rt.alloc(), &slots, &[], TimeScale::Entries)?;
    assert_eq!(rt; count(&text, "from seat 1 at 1 to seat 3 at 4<"), 1);
    assert_eq!(rt; count(&text, ">entry<"), 2);
    Ok(())
}

#[test]
fn refusals_are_marked_in_the_band_of_their_queue(rt: HostRuntime) -> Result<(), Fail> {
    let past = removed();
    let slots = [slot_of(&past, &[])];
    let refusals = [refusal(Some(0)), refusal(Some(0)), refusal(None)];
    let text = drawn(rt.alloc(), &slots, &refusals, TimeScale::Moments)?;
    assert_eq!(rt; count(&text, "1 queue, 2 messages, 3 refusals"), 2);
    assert_eq!(rt; count(&text, ">EAGAIN ×2<"), 1);
    assert_eq!(rt; count(&text, ">EAGAIN of msgsnd, by seat 2 at 5<"), 1);
    assert_eq!(rt; count(&text, "other refusals"), 1);
    Ok(())
}

#[test]
fn labels_of_refusals_do_not_meet(rt: HostRuntime) -> Result<(), Fail> {
    let past = [making(1, 7), sending(100, 5)];
    let slots = [slot_of(&past, &[])];
    let mut refusals = [refusal(None), refusal(None)];
    refusals[0].moment = 85;
    refusals[1].moment = 96;
    let text = drawn(rt.alloc(), &slots, &refusals, TimeScale::Moments)?;
    assert_eq!(rt; count(&text, ">EAGAIN ×2<"), 1);
    assert_eq!(rt; count(&text, "<path class='x'"), 2);
    refusals[0].moment = 75;
    let text = drawn(rt.alloc(), &slots, &refusals, TimeScale::Moments)?;
    assert_eq!(rt; count(&text, ">EAGAIN<"), 2);
    Ok(())
}

#[test]
fn an_empty_run_has_an_axis(rt: HostRuntime) -> Result<(), Fail> {
    let text = drawn(rt.alloc(), &[], &[], TimeScale::Moments)?;
    assert_eq!(rt; count(&text, "0 queues, 0 messages, 0 refusals"), 2);
    assert_eq!(rt; count(&text, ">moment<"), 2);
    assert!(rt; text.starts_with("<svg "));
    assert!(rt; text.ends_with("</svg>\n"));
    Ok(())
}

#[test]
fn the_greatest_moments_are_drawn(rt: HostRuntime) -> Result<(), Fail> {
    let last = [
        making(u64::MAX, i32::MIN),
        sending(0, i64::MIN),
        sending(u64::MAX, i64::MAX),
    ];
    let slots = [slot_of(&[], &last)];
    let text = drawn(rt.alloc(), &slots, &[], TimeScale::Moments)?;
    assert_eq!(rt; count(&text, "still waiting"), 2);
    Ok(())
}

#[test]
fn a_fault_of_the_writer_is_reported(rt: HostRuntime) -> Result<(), Fail> {
    let past = removed();
    let slots = [slot_of(&past, &[])];
    for fails in [false, true] {
        for room in [0, 100, 3000] {
            let mut writer = Narrow { room, fails };
            let told = write_picture(rt.alloc(), &mut writer, &slots, &[], TimeScale::Moments);
            assert_eq!(rt; told, Err(TraceError::Write));
        }
    }
    Ok(())
}
