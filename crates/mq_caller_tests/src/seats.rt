ghost use Rattle.std.specs.Prelude.{◌≡◌, ◌%◌, IfOk, slice_index_or};

use crate::runs::SMALL;
use mq::{
    Caller, Clock, ClosedSlot, Config, Ended, Errno, Id, Message, Names, Pledge, Selection,
    SysError, SystemProgram, Wait, with_system,
};
use std::alloc::Global;

/// Each text begins with the last byte of its sender's number.
struct Signed;

impl Pledge for Signed {
    ghost kept = { λ seat _ _ bytes. slice_index_or bytes 0 0 ≡ seat % 256 };
}

/// At seat 1, sends one text to the queue that it makes.
fn send<N: Names, R: Wait + Clock>(caller: &mut Caller<'_, Signed, N, R>) -> Result<Id, Errno> {
    let id = caller.queue(5)?;
    let number = (caller.number() % 256) as u8;
    caller.send(id, Message::new(1, &[number]))?;
    Ok(id)
}

/// The first byte, or 0 where there is none.
fn first_of(bytes: &[u8]) -> u8
    ensures { result ≡ slice_index_or bytes.now 0 0 }
{
    match bytes.first() {
        Some(byte) => *byte,
        None => 0,
    }
}

/// At seat 2, receives the pending message, and returns its sender and its first byte.
fn receive<N: Names, R: Wait + Clock>(
    caller: &mut Caller<'_, Signed, N, R>,
    id: Id,
) -> Result<(u16, u8), Errno>
    ensures { IfOk result (λ a. a.1 ≡ a.0 % 256) }
{
    match caller.receive(id, Selection::Any) {
        Ok(d) => Ok((d.sender, first_of(d.text.as_slice()))),
        Err(errno) => Err(errno),
    }
}

/// Sends at one seat and receives at the next.
#[derive(Drop)]
struct Both;

impl SystemProgram<Signed> for Both {
    type Answer = Result<(u16, u8), Errno>;

    ghost after = { λ _ _ _ answer. IfOk answer (λ a. a.1 ≡ a.0 % 256) };

    fn run<N: Names, R: Wait + Clock>(
        self,
        _config: Config,
        callers: &mut [Caller<'_, Signed, N, R>],
    ) -> Result<(u16, u8), Errno> {
        let id = match callers.get_mut(0) {
            Some(caller) => send(caller)?,
            None => return Err(Errno::EINVAL),
        };
        match callers.get_mut(1) {
            Some(caller) => receive(caller, id),
            None => Err(Errno::EINVAL),
        }
    }
}

type Answered = Result<Ended<Result<(u16, u8), Errno>>, SysError>;

fn answered<R: Wait + Clock>(rt: &R, alloc: Global, config: Config) -> Answered {
    with_system(rt, alloc, config, Both)
}

/// Whether there was no memory.
fn wanted_memory(answered: &Answered) -> bool {
    match answered {
        Err(error) => *error == SysError::Memory,
        Ok(ended) => matches!(ended.answer, Err(Errno::ENOMEM)),
    }
}

/// Runs it, and once more where it found no memory.
fn ended<R: Wait + Clock>(rt: &R, alloc: Global, config: Config) -> Answered {
    let first = answered(rt, alloc, config);
    if wanted_memory(&first) {
        return answered(rt, alloc, config);
    }
    first
}

/// Whether four slots are empty but for the three entries of the first one.
fn are_left(slots: &[ClosedSlot]) -> bool {
    let mut events = 3;
    for slot in slots {
        if slot.last.len() != events || slot.left != 0 {
            return false;
        }
        events = 0;
    }
    slots.len() == 4
}

#[test]
fn one_thread_calls_at_all_seats(rt: HostRuntime) {
    match ended(&rt, rt.alloc(), SMALL) {
        Ok(ended) => {
            holds!(rt; ended.answer == Ok((1, 1)));
            holds!(rt; are_left(ended.slots.as_slice()));
            holds!(rt; ended.free_pages == 32);
        }
        Err(error) => panic!(rt; "{error}"),
    }
}

#[test]
fn a_system_out_of_its_limits_is_not_made(rt: HostRuntime) {
    let config = Config {
        height: 11,
        ..SMALL
    };
    match ended(&rt, rt.alloc(), config) {
        Err(error) => holds!(rt; error == SysError::Config),
        Ok(_) => panic!(rt; "2,048 pages"),
    }
}
