//! Each call reaches the slot of its id. A call that acquired the lock of another slot would search
//! for its own there for ever, so each is made in slots that are not the first, in bounded time.

use crate::calls::{Nothing, queue, receive, remove, send, set};
use crate::watch::in_time;
use mq::{
    Caller, Config, Cut, Delivered, Errno, GetFlags, Id, Message, Names, RecvFlags, Seat,
    Selection, System, SystemProgram, with_system,
};
use std::alloc::Global;
use std::process::Abort;
use std::sync::Wait;
use std::thread::Threads;
use std::time::Clock;

const SIZE: Config = Config {
    height: 3,
    slots: 3,
    seats: 1,
    last_seq: 1,
};

const AT_ONCE: RecvFlags = RecvFlags {
    nowait: true,
    noerror: false,
    except: false,
};

/// The calls of a seat, and those of a caller at it.
#[derive(Clone, Copy, Drop)]
enum Call {
    Find,
    Send,
    Receive,
    Set,
    Show,
    Cut,
    Remove,
    Make,
    CallerFinds,
    CallerSends,
    CallerReceives,
    CallerCuts,
    CallerRemoves,
}

/// Makes a call in each slot but the first. In each there is a queue with a message.
#[derive(Drop)]
struct Elsewhere {
    call: Call,
}

/// The key of the queue in this slot.
fn key_of(slot: u8) -> i32 {
    i32::from(slot) + 1
}

/// Whether so many messages and such a quota are shown.
fn shows<N: Names>(
    system: &System<Nothing, N>,
    seat: &mut Seat<N>,
    id: Id,
    qnum: u64,
    qbytes: u64,
) -> bool {
    match system.stat(seat, id) {
        Ok(figures) => figures.qnum == qnum && figures.qbytes == qbytes,
        Err(_) => false,
    }
}

/// Whether a drain has the making and the sending.
fn has_both(cut: Cut) -> bool {
    cut.first == 0 && cut.past.is_empty() && cut.last.len() == 2
}

/// Whether a call at the seat answers as it must.
fn called<N: Names, R: Wait>(
    rt: &R,
    system: &System<Nothing, N>,
    seat: &mut Seat<N>,
    call: Call,
    id: Id,
) -> Result<bool, Errno> {
    let flags = GetFlags {
        create: false,
        exclusive: false,
    };
    match call {
        Call::Find => {
            let got = system.msgget(rt, seat, key_of(id.slot()), flags, 1)?;
            Ok(got.id == id && got.made.is_none())
        }
        Call::Send => {
            send(rt, system, seat, id, 2, 9)?;
            Ok(shows(system, seat, id, 2, 131_072))
        }
        Call::Receive => {
            let first = receive(rt, system, seat, id, 9, 0)?;
            let none = match system.msgrcv(rt, seat, id, 9, 0, AT_ONCE, 1) {
                Err(refused) => refused.errno == Errno::ENOMSG,
                Ok(received) => {
                    let Delivered { text, .. } = received;
                    system.spend(rt, text);
                    false
                }
            };
            Ok(first == (5, 3) && none)
        }
        Call::Set => {
            set(rt, system, seat, id, 77)?;
            Ok(shows(system, seat, id, 1, 77))
        }
        Call::Show => Ok(shows(system, seat, id, 1, 131_072)),
        Call::Cut if id.slot() < system.slots() => match system.cut_log(rt, seat, id.slot()) {
            Ok(cut) => Ok(has_both(cut)),
            Err(refused) => Err(refused.errno),
        },
        Call::Remove => {
            remove(rt, system, seat, id)?;
            Ok(matches!(system.stat(seat, id), Err(Errno::EIDRM)))
        }
        Call::Make => {
            remove(rt, system, seat, id)?;
            let next = queue(rt, system, seat, key_of(id.slot()))?;
            Ok(next == Id::of(id.slot(), 1))
        }
        _ => Ok(false),
    }
}

/// Whether a caller's call answers as it must.
fn asked<N: Names, R: Wait + Clock>(
    caller: &mut Caller<'_, Nothing, N, R>,
    call: Call,
    id: Id,
) -> Result<bool, Errno> {
    match call {
        Call::CallerFinds => Ok(caller.queue(key_of(id.slot()))? == id),
        Call::CallerSends => {
            let own = caller.send(id, Message::new(2, b"word"))?;
            Ok(own == 2 && caller.try_send(id, Message::new(2, b""))? == 3)
        }
        Call::CallerReceives => {
            let first = caller.receive(id, Selection::Any)?;
            let none = caller.try_receive(id, Selection::Any).err();
            Ok(first.entry == 2 && first.length == 3 && none == Some(Errno::ENOMSG))
        }
        Call::CallerCuts if id.slot() < caller.slots() => {
            let cut = caller.cut_log(id.slot())?;
            Ok(has_both(cut) && caller.count(id.slot() as usize) == 2)
        }
        Call::CallerRemoves => Ok(caller.remove(id)?.entry == 2),
        _ => Ok(false),
    }
}

impl SystemProgram<Nothing> for Elsewhere {
    type Answer = Result<bool, Errno>;

    fn run<N: Names, R: Wait + Clock>(
        self,
        _config: Config,
        callers: &mut [Caller<'_, Nothing, N, R>],
    ) -> Result<bool, Errno> {
        let Some(caller) = callers.first_mut() else {
            return Ok(false);
        };
        let (rt, system) = (caller.rt, caller.system);
        for slot in 0..3u8 {
            let id = caller.queue(key_of(slot))?;
            send(rt, system, &mut caller.seat, id, 5, 3)?;
        }
        for slot in 1..3u8 {
            let id = Id::of(slot, 0);
            if !called(rt, system, &mut caller.seat, self.call, id)?
                && !asked(caller, self.call, id)?
            {
                return Ok(false);
            }
        }
        Ok(true)
    }
}

/// Checks that the call ends, and answers as it must.
fn reaches<R: Abort + Threads + Wait + Clock + Sync>(
    rt: &R,
    alloc: Global,
    name: &str,
    call: Call,
) {
    let ended = in_time(rt, name, || {
        with_system(rt, alloc, SIZE, Elsewhere { call })
    });
    match ended {
        Ok(ended) => match ended.answer {
            Ok(right) => assert!(rt; right, "{name} answers otherwise"),
            Err(Errno::ENOMEM) => panic!(rt; "out of memory"),
            Err(errno) => panic!(rt; "{name}: {errno}"),
        },
        Err(error) => panic!(rt; "{error}"),
    }
}

#[test]
fn each_call_reaches_the_slot_of_its_id(rt: HostRuntime) {
    let calls: [(&str, Call); 13] = [
        ("msgget finds", Call::Find),
        ("msgget makes", Call::Make),
        ("msgsnd", Call::Send),
        ("msgrcv", Call::Receive),
        ("set", Call::Set),
        ("stat", Call::Show),
        ("cut_log", Call::Cut),
        ("rmid", Call::Remove),
        ("a caller finds", Call::CallerFinds),
        ("a caller sends", Call::CallerSends),
        ("a caller receives", Call::CallerReceives),
        ("a caller cuts", Call::CallerCuts),
        ("a caller removes", Call::CallerRemoves),
    ];
    for (name, call) in calls {
        reaches(&rt, rt.alloc(), name, call);
    }
}
