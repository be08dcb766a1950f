//! A worker's queue interface at a seat of several threads, and its message invariant.

ghost use Rattle.std.specs.Prelude.{◌≡◌, ◌+◌, ◌<◌, ◌≤◌, [], length, map, IfOk, MatchResult};
ghost use Rattle.std.specs.Prelude.{vec_capacity};
ghost use Rattle.std.specs.List.{range_with_len, sum};
ghost use Rattle.mq_queue.specs.declared.limits.TheConstants.{MSGMAX};
ghost use Rattle.mq_cli.specs.Batches.{TakesMany};
ghost use Rattle.mq_cli.specs.Drafts.{DraftsBytes, letter};
ghost use Rattle.mq_cli.specs.Letters.{AreLetters, letters_from};
ghost use Rattle.mq_cli.specs.Ports.{Receives, Removes, Sends, taken_of};
ghost use Rattle.mq_cli.specs.declared.threads.system_port.TheConstants.{LETTERS};

mod receive;

use crate::draft::letters;
use crate::{Port, PutCall, TakeCall, Taken};
use mq_calls::{DraftError, Errno, Removal, SendRefused};
use mq_queue::MSGMAX;
use mq_system::{MAX_BATCH, Names, Patience, Pledge, Seat, SendFlags, System, TextOf};
use mq_table::Id;
use std::alloc::{AllocError, Global};
use std::sync::Wait;

/// What the workers of a threads script pledge of their texts: byte i is the letter at
/// `seat + tag + i`, `a` to `z` over and over.
pub struct Letters;

impl Pledge for Letters {
    ghost kept = { AreLetters };
}

/// The number of letters of which each text is a slice: the longest one may begin with any.
pub(crate) const LETTERS: u64 = MSGMAX + 26;

/// The calls of a worker at its seat, each of which waits where it has to, until its patience ends.
#[derive(Drop)]
pub struct SystemPort<'a, N: Names> {
    seat: &'a mut Seat<N>,
    /// Of the messages of a batch until their texts are spent.
    alloc: Global,
    letters: &'a [u8],
    ghost letters_are: { letters.now ≡ map letter (range_with_len 0 LETTERS) },
}

impl<'a, N: Names> SystemPort<'a, N> {
    pub fn new(alloc: Global, seat: &'a mut Seat<N>, letters: &'a [u8]) -> SystemPort<'a, N>
        requires { letters.now ≡ map letter (range_with_len 0 LETTERS) }
    {
        SystemPort {
            seat,
            alloc,
            letters,
        }
    }
}

/// The letters of which the texts of ports are slices.
pub fn letters_of_ports(alloc: Global) -> Result<Vec<u8>, AllocError>
    ensures { IfOk result (λ all. all.items ≡ map letter (range_with_len 0 LETTERS)) }
{
    letters(alloc, LETTERS)
}

/// A port for each of the seats, in their order.
pub(crate) fn ports_of<'a, N: Names>(
    alloc: Global,
    seats: &'a mut [Seat<N>],
    letters: &'a [u8],
) -> Result<Vec<SystemPort<'a, N>>, AllocError>
    requires { letters.now ≡ map letter (range_with_len 0 LETTERS) }
    ensures count { IfOk result (λ ports. length ports.items ≡ length seats.old) }
    ensures seats { IfOk result (λ ports. map (λ port. port.seat.now) ports.items ≡ seats.old) }
{
    let mut ports = Vec::with_capacity(alloc, seats.len())?;
    for seat in seats.iter_mut() {
        ports.push_reserved(SystemPort {
            seat,
            alloc,
            letters,
        });
    }
    Ok(ports)
}

/// The bytes of the text with this tag that the seat sends.
fn bytes_of(letters: &[u8], seat: u16, tag: u64, count: u64) -> &[u8]
    requires letters { letters.now ≡ map letter (range_with_len 0 LETTERS) }
    requires few { count ≤ MSGMAX }
    ensures letters { result.now ≡ letters_from (seat + tag) (length result.now) }
    ensures count { length result.now ≡ count }
{
    let start = ((tag % 26 + u64::from(seat)) % 26) as usize;
    &letters[start..start + count as usize]
}

/// The text of these bytes. With `pages` it waits for pages until the patience ends.
fn draft<N: Names, R: Wait, T: Patience>(
    rt: &R,
    system: &System<Letters, N>,
    seat: &Seat<N>,
    bytes: &[u8],
    pages: bool,
    patience: &mut T,
) -> Result<TextOf<N>, DraftError>
    ensures answer { DraftsBytes bytes.now result }
{
    if pages {
        system.draft_by_within(rt, seat, bytes, patience)
    } else {
        system.draft_by(rt, seat, bytes)
    }
}

impl<'a, N: Names> Port for SystemPort<'a, N> {
    type Shared = System<Letters, N>;

    ghost calls = { λ p. sum p.seat.now.by_slot };

    ghost puts = { λ old id mtype tag n ends moment answer new.
        Sends N.slots old.seat.now new.seat.now id mtype tag n ends moment answer };

    ghost takes = { λ old id msgtyp ends moment answer new.
        Receives N.slots old.seat.now new.seat.now id msgtyp ends moment answer };

    ghost removes = { λ old id moment answer new.
        Removes N.slots N.last_seq old.seat.now new.seat.now id moment answer };

    fn put<R: Wait, T: Patience>(
        &mut self,
        rt: &R,
        system: &System<Letters, N>,
        call: &PutCall,
        tag: u64,
        patience: &mut T,
    ) -> Result<u64, Errno> {
        let PutCall {
            id,
            mtype,
            length,
            pages,
            moment,
        } = *call;
        if length > MSGMAX {
            return Err(DraftError::TooLong.errno());
        }
        let bytes = bytes_of(self.letters, self.seat.number(), tag, length);
        let text = match draft(rt, system, self.seat, bytes, pages, patience) {
            Ok(text) => text,
            Err(refusal) => return Err(refusal.errno()),
        };
        let flags = SendFlags { nowait: false };
        match system.msgsnd_within(rt, self.seat, id, mtype, tag, text, flags, patience, moment) {
            Ok(entry) => Ok(entry),
            Err(refusal) => {
                let SendRefused { refused, text } = refusal;
                system.spend_by(rt, self.seat, text);
                Err(refused.errno)
            }
        }
    }

    fn take_many<R: Wait, T: Patience>(
        &mut self,
        rt: &R,
        system: &System<Letters, N>,
        call: &TakeCall,
        patience: &mut T,
        most: usize,
        out: &mut Vec<Taken>,
    ) -> Result<(), Errno> {
        if most > 1 {
            if let Ok(batch) = Vec::with_capacity(self.alloc, most.min(MAX_BATCH)) {
                return self.take_batch(rt, system, call, patience, batch, out);
            }
        }
        match self.take_one(rt, system, call, patience) {
            Ok(taken) => {
                out.push_reserved(taken);
                Ok(())
            }
            Err(errno) => Err(errno),
        }
    }

    fn remove<R: Wait>(
        &mut self,
        rt: &R,
        system: &System<Letters, N>,
        id: Id,
        moment: u64,
    ) -> Result<u64, Errno> {
        match system.rmid(rt, self.seat, id, moment) {
            Ok(Removal { entry, log: _ }) => Ok(entry),
            Err(refused) => Err(refused.errno),
        }
    }
}
