//! Several messages by one call, which answers as a call for each. They go to the first queue of
//! slot 0, and seat 2 receives. A call that was out of memory is retried: what it did before stays
//! done.

use crate::calls::{CREATE, Wanted, first, get, remove, set, spent, written};
use crate::day::{Day, config, lives};
use crate::holds;
use crate::system::Calls;
use mq_calls::{Delivered, Errno, Refused, SendRefused};
use mq_message::Message;
use mq_table::Id;
use std::alloc::Global;
use std::collections::VecDeque;
use std::process::Abort;

/// How a call ends that is refused for its type.
const UNTYPED: Result<(), Refused> = Err(Refused {
    errno: Errno::EINVAL,
    entry: None,
});

/// How a call ends that is refused for this, after so many entries.
fn ends(errno: Errno, entries: u64) -> Result<(), Refused> {
    Err(Refused {
        errno,
        entry: Some(entries),
    })
}

fn found_no_memory(ended: Result<(), Refused>) -> bool {
    matches!(ended, Err(refused) if refused.errno == Errno::ENOMEM)
}

/// By which calls: one for several messages, or one for each.
#[derive(Clone, Copy)]
enum By {
    Many,
    Each,
}

/// Messages of these types, each with this text, whose senders and tags count from 1.
fn messages<S: Calls>(
    rt: &impl Abort,
    alloc: Global,
    system: &mut S,
    sending: Sending<'_>,
) -> VecDeque<Message<S::Text>> {
    let mut messages = VecDeque::new(alloc);
    let mut sender = 0u16;
    for mtype in sending.types {
        sender = sender.saturating_add(1);
        let message = Message {
            mtype: *mtype,
            sender,
            tag: u64::from(sender),
            body: written(rt, system, sending.bytes),
        };
        match messages.push_back(message) {
            Ok(()) => (),
            Err(_unsent) => panic!(rt; "out of memory"),
        }
    }
    messages
}

/// Sends them by a call for each, up to the first refusal.
fn send_each<S: Calls>(
    system: &mut S,
    messages: &mut VecDeque<Message<S::Text>>,
) -> Result<(), Refused> {
    for _ in 0..messages.len() {
        let Some(message) = messages.pop_front() else {
            return Ok(());
        };
        let Message {
            mtype,
            sender,
            tag,
            body,
        } = message;
        match system.msgsnd(sender, Id::from_number(0), mtype, tag, body, 5) {
            Ok(_entry) => (),
            Err(SendRefused { refused, text }) => {
                let body = text;
                messages.push_front_reserved(Message {
                    mtype,
                    sender,
                    tag,
                    body,
                });
                return Err(refused);
            }
        }
    }
    Ok(())
}

fn send_once<S: Calls>(
    system: &mut S,
    by: By,
    messages: &mut VecDeque<Message<S::Text>>,
) -> Result<(), Refused> {
    match by {
        By::Many => system.msgsnd_many(Id::from_number(0), messages, 5),
        By::Each => send_each(system, messages),
    }
}

/// So many messages are left, the first of which has this tag, and all are spent.
fn is_left<S: Calls>(
    rt: &impl Abort,
    system: &mut S,
    messages: VecDeque<Message<S::Text>>,
    sending: Sending<'_>,
) {
    let left = messages.len();
    holds(rt, left == sending.left, "other messages are left");
    let mut messages = messages;
    let mut place = sending.types.len().saturating_sub(left);
    while let Some(message) = messages.pop_front() {
        let Message {
            mtype,
            tag,
            body,
            ..
        } = message;
        let same = sending.types.get(place) == Some(&mtype);
        holds(rt, same, "they are left with other types");
        place = place.saturating_add(1);
        holds(rt, tag == place as u64, "they are left in another order");
        holds(rt, system.has(&body, sending.bytes), "another text is left");
        spent(rt, system, body);
    }
    messages.destroy_empty();
}

/// Messages that are to be sent, and what becomes of them.
#[derive(Clone, Copy)]
struct Sending<'a> {
    bytes: &'a [u8],
    types: &'a [i64],
    ended: Result<(), Refused>,
    /// How many are left.
    left: usize,
}

fn sends<S: Calls>(rt: &impl Abort, alloc: Global, system: &mut S, by: By, sending: Sending<'_>) {
    let mut messages = messages(rt, alloc, system, sending);
    let mut ended = send_once(system, by, &mut messages);
    if found_no_memory(ended) {
        ended = send_once(system, by, &mut messages);
    }
    holds(rt, ended == sending.ended, "a sending ends otherwise");
    is_left(rt, system, messages, sending);
}

/// Receives up to so many by a call for each, up to the first refusal.
fn receive_each<S: Calls>(
    rt: &impl Abort,
    system: &mut S,
    wanted: Wanted,
    n: usize,
    out: &mut Vec<Delivered<S::Text>>,
) -> Result<(), Refused> {
    let Wanted {
        size,
        msgtyp,
        except,
        noerror,
    } = wanted;
    for _ in 0..n {
        let id = Id::from_number(0);
        let delivered = system.msgrcv(2, id, size, msgtyp, except, noerror, 6)?;
        match out.push(delivered) {
            Ok(()) => (),
            Err(_lost) => panic!(rt; "out of memory"),
        }
    }
    Ok(())
}

/// A message that was received: the entry of its receipt, its type and its tag.
#[derive(Clone, Copy, PartialEq)]
struct Receipt {
    entry: u64,
    mtype: i64,
    tag: u64,
}

fn got(entry: u64, mtype: i64, tag: u64) -> Receipt {
    Receipt { entry, mtype, tag }
}

/// What is to be received, and how that ends.
#[derive(Clone, Copy)]
struct Receiving<'a> {
    n: usize,
    wanted: Wanted,
    bytes: &'a [u8],
    got: &'a [Receipt],
    ended: Result<(), Refused>,
}

fn is_got<S: Calls>(
    rt: &impl Abort,
    system: &mut S,
    delivered: Delivered<S::Text>,
    bytes: &[u8],
    wanted: Option<&Receipt>,
) {
    let Delivered {
        entry,
        mtype,
        sender,
        tag,
        length,
        text,
    } = delivered;
    let same = wanted == Some(&got(entry, mtype, tag));
    holds(rt, same, "another message of several");
    holds(rt, u64::from(sender) == tag, "another sender");
    holds(rt, length == bytes.len() as u64, "another length");
    holds(rt, system.has(&text, bytes), "another text");
    spent(rt, system, text);
}

/// Receives up to so many more, behind those that were received before; how many there are then.
fn receive_on<S: Calls, R: Abort>(
    rt: &R,
    alloc: Global,
    system: &mut S,
    by: By,
    receiving: Receiving<'_>,
    done: usize,
) -> (usize, Result<(), Refused>) {
    let n = receiving.n.saturating_sub(done);
    let Ok(mut out) = Vec::with_capacity(alloc, n) else {
        panic!(rt; "out of memory");
    };
    let wanted = receiving.wanted;
    let ended = match by {
        By::Many => system.msgrcv_many(rt, 2, Id::from_number(0), wanted, n, 6, &mut out),
        By::Each => receive_each(rt, system, wanted, n, &mut out),
    };
    let mut out = VecDeque::from_vec(out);
    let mut done = done;
    while let Some(delivered) = out.pop_front() {
        let wanted = receiving.got.get(done);
        is_got(rt, system, delivered, receiving.bytes, wanted);
        done = done.saturating_add(1);
    }
    out.destroy_empty();
    (done, ended)
}

fn receives<S: Calls, R: Abort>(
    rt: &R,
    alloc: Global,
    system: &mut S,
    by: By,
    receiving: Receiving<'_>,
) {
    let (mut done, mut ended) = receive_on(rt, alloc, system, by, receiving, 0);
    if found_no_memory(ended) {
        (done, ended) = receive_on(rt, alloc, system, by, receiving, done);
    }
    holds(rt, done == receiving.got.len(), "as many are received");
    holds(rt, ended == receiving.ended, "a receipt ends otherwise");
}

/// What is tried with a new queue.
#[derive(Clone, Copy)]
enum Plot {
    Through,
    Full,
    Untyped,
    Long,
    Chosen,
    Short,
    Gone,
}

/// Four messages in three sendings, of which one has none.
fn through<S: Calls, R: Abort>(rt: &R, alloc: Global, system: &mut S, by: By) {
    let one = Sending {
        bytes: b"x",
        types: &[5],
        ended: Ok(()),
        left: 0,
    };
    sends(rt, alloc, system, by, one);
    sends(rt, alloc, system, by, Sending { types: &[], ..one });
    let types = &[1, 2, 1];
    sends(rt, alloc, system, by, Sending { types, ..one });
    received_through(rt, alloc, system, by);
}

/// They are received by a call for none, for one, and for more than are pending.
fn received_through<S: Calls, R: Abort>(rt: &R, alloc: Global, system: &mut S, by: By) {
    let none = Receiving {
        n: 0,
        wanted: first(9),
        bytes: b"x",
        got: &[],
        ended: Ok(()),
    };
    receives(rt, alloc, system, by, none);
    let one = Receiving {
        n: 1,
        got: &[got(5, 5, 1)],
        ..none
    };
    receives(rt, alloc, system, by, one);
    let rest = Receiving {
        n: 5,
        got: &[got(6, 1, 1), got(7, 2, 2), got(8, 1, 3)],
        ended: ends(Errno::ENOMSG, 9),
        ..none
    };
    receives(rt, alloc, system, by, rest);
    let nothing = Receiving { got: &[], ..rest };
    receives(rt, alloc, system, by, nothing);
}

/// Of five messages three are sent, of three then two: there is room for three bytes.
fn full<S: Calls, R: Abort>(rt: &R, alloc: Global, system: &mut S, by: By) {
    holds(rt, set(system, 0, 3, 4) == Ok(1), "no new quota");
    let five = Sending {
        bytes: b"x",
        types: &[1, 2, 3, 4, 5],
        ended: ends(Errno::EAGAIN, 5),
        left: 2,
    };
    sends(rt, alloc, system, by, five);
    sends(rt, alloc, system, by, Sending { left: 5, ..five });
    let two = Receiving {
        n: 2,
        wanted: first(9),
        bytes: b"x",
        got: &[got(5, 1, 1), got(6, 2, 2)],
        ended: Ok(()),
    };
    receives(rt, alloc, system, by, two);
    let three = Sending {
        types: &[8, 9, 10],
        ended: ends(Errno::EAGAIN, 9),
        left: 1,
        ..five
    };
    sends(rt, alloc, system, by, three);
    let rest = Receiving {
        n: 9,
        got: &[got(9, 3, 3), got(10, 8, 1), got(11, 9, 2)],
        ended: ends(Errno::ENOMSG, 12),
        ..two
    };
    receives(rt, alloc, system, by, rest);
}

/// A type below 1 ends a sending, whatever is behind it.
fn untyped<S: Calls, R: Abort>(rt: &R, alloc: Global, system: &mut S, by: By) {
    let second = Sending {
        bytes: b"x",
        types: &[1, 0, 2],
        ended: UNTYPED,
        left: 2,
    };
    sends(rt, alloc, system, by, second);
    let first_of_two = Sending {
        types: &[i64::MIN, 1],
        ..second
    };
    sends(rt, alloc, system, by, first_of_two);
    let rest = Receiving {
        n: 3,
        wanted: first(9),
        bytes: b"x",
        got: &[got(2, 1, 1)],
        ended: ends(Errno::ENOMSG, 3),
    };
    receives(rt, alloc, system, by, rest);
}

/// 70 messages are sent by one call, and 70 received.
fn long<S: Calls, R: Abort>(rt: &R, alloc: Global, system: &mut S, by: By) {
    let all = Sending {
        bytes: b"x",
        types: &[1; 70],
        ended: Ok(()),
        left: 0,
    };
    sends(rt, alloc, system, by, all);
    let mut receipts = [got(0, 1, 0); 70];
    for (place, one) in receipts.iter_mut().enumerate() {
        *one = got(71 + place as u64, 1, 1 + place as u64);
    }
    let receiving = Receiving {
        n: 70,
        wanted: first(9),
        bytes: b"x",
        got: &receipts,
        ended: Ok(()),
    };
    receives(rt, alloc, system, by, receiving);
}

/// Of five messages three have type 1, and two another one.
fn chosen<S: Calls, R: Abort>(rt: &R, alloc: Global, system: &mut S, by: By) {
    let five = Sending {
        bytes: b"x",
        types: &[1, 2, 1, 3, 1],
        ended: Ok(()),
        left: 0,
    };
    sends(rt, alloc, system, by, five);
    let others = Wanted {
        msgtyp: 1,
        except: true,
        ..first(9)
    };
    let one = Receiving {
        n: 1,
        wanted: others,
        bytes: b"x",
        got: &[got(6, 2, 2)],
        ended: Ok(()),
    };
    receives(rt, alloc, system, by, one);
    let ones = Receiving {
        n: 5,
        wanted: Wanted {
            msgtyp: 1,
            ..first(9)
        },
        got: &[got(7, 1, 1), got(8, 1, 3), got(9, 1, 5)],
        ended: ends(Errno::ENOMSG, 10),
        ..one
    };
    receives(rt, alloc, system, by, ones);
    let rest = Receiving {
        n: 2,
        got: &[got(10, 3, 4)],
        ended: ends(Errno::ENOMSG, 11),
        ..one
    };
    receives(rt, alloc, system, by, rest);
}

/// A message with more bytes than are asked for ends a receipt, and stays pending.
fn short<S: Calls, R: Abort>(rt: &R, alloc: Global, system: &mut S, by: By) {
    let one = Sending {
        bytes: b"x",
        types: &[1],
        ended: Ok(()),
        left: 0,
    };
    sends(rt, alloc, system, by, one);
    let bytes = b"four";
    sends(rt, alloc, system, by, Sending { bytes, ..one });
    let fits = Receiving {
        n: 3,
        wanted: first(3),
        bytes: b"x",
        got: &[got(3, 1, 1)],
        ended: ends(Errno::E2BIG, 4),
    };
    receives(rt, alloc, system, by, fits);
    let rest = Receiving {
        wanted: first(4),
        bytes: b"four",
        got: &[got(4, 1, 1)],
        ended: ends(Errno::ENOMSG, 5),
        ..fits
    };
    receives(rt, alloc, system, by, rest);
}

/// The queue is removed while two messages are pending.
fn gone<S: Calls, R: Abort>(rt: &R, alloc: Global, system: &mut S, by: By) {
    let two = Sending {
        bytes: b"x",
        types: &[1, 2],
        ended: Ok(()),
        left: 0,
    };
    sends(rt, alloc, system, by, two);
    holds(rt, remove(system, 0, 7).is_ok(), "not removed");
    let none = Sending {
        ended: ends(Errno::EIDRM, 4),
        left: 2,
        ..two
    };
    sends(rt, alloc, system, by, none);
    let nothing = Receiving {
        n: 3,
        wanted: first(9),
        bytes: b"x",
        got: &[],
        ended: ends(Errno::EIDRM, 4),
    };
    receives(rt, alloc, system, by, nothing);
}

#[derive(Drop)]
struct Batches {
    alloc: Global,
    plot: Plot,
    by: By,
}

impl Day for Batches {
    fn spend<S: Calls, R: Abort>(&self, rt: &R, system: &mut S) {
        let alloc = self.alloc;
        let by = self.by;
        holds(rt, get(system, 9, CREATE, 4).is_ok(), "no queue");
        match self.plot {
            Plot::Through => through(rt, alloc, system, by),
            Plot::Full => full(rt, alloc, system, by),
            Plot::Untyped => untyped(rt, alloc, system, by),
            Plot::Long => long(rt, alloc, system, by),
            Plot::Chosen => chosen(rt, alloc, system, by),
            Plot::Short => short(rt, alloc, system, by),
            Plot::Gone => gone(rt, alloc, system, by),
        }
    }
}

/// It holds of a system where one call does several, and of another where each does one.
fn plays<R: Abort>(rt: &R, alloc: Global, plot: Plot) {
    for by in [By::Many, By::Each] {
        lives(rt, alloc, config(7, 1, 9), &Batches { alloc, plot, by });
    }
}

#[test]
fn batches_of_one_thread_are_received_as_they_were_sent(rt: HostRuntime) {
    plays(&rt, rt.alloc(), Plot::Through);
}

#[test]
fn a_full_queue_takes_a_part_of_a_batch(rt: HostRuntime) {
    plays(&rt, rt.alloc(), Plot::Full);
}

#[test]
fn a_message_of_no_type_ends_a_batch(rt: HostRuntime) {
    plays(&rt, rt.alloc(), Plot::Untyped);
}

#[test]
fn a_batch_of_one_thread_has_no_bound(rt: HostRuntime) {
    plays(&rt, rt.alloc(), Plot::Long);
}

#[test]
fn a_batch_of_one_thread_has_only_messages_of_its_selection(rt: HostRuntime) {
    plays(&rt, rt.alloc(), Plot::Chosen);
    plays(&rt, rt.alloc(), Plot::Short);
}

#[test]
fn a_batch_of_one_thread_to_a_removed_queue_answers_eidrm(rt: HostRuntime) {
    plays(&rt, rt.alloc(), Plot::Gone);
}
