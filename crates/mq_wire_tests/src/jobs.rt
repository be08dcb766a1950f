//! Values as a program has them: a struct of three fields, and an enum of three cases. No proof is
//! written for them.
ghost use Rattle.std.specs.Prelude.{[], ◌∷◌, ◌++◌, false};
ghost use Rattle.mq_wire_tests.specs.declared.jobs.Kind.TheVariants.{Add, Move, Stop};

use crate::trips::{has_none, is_kept, returns};
use mq_wire::{Bytes, UnreadError, Wire};
use std::alloc::{AllocError, Global};
use std::test::Fail;

#[derive(Clone, Copy, PartialEq)]
enum Kind {
    Stop,
    Add(u16),
    Move { from: u16, to: u16 },
}

#[derive(Clone, Copy, PartialEq)]
struct Job {
    id: u16,
    kind: Kind,
    urgent: bool,
}

impl Wire for Kind {
    ghost bytes_of = { elim [
      | Stop ↦ 0 ∷ []
      | Add n ↦ 1 ∷ ⟦<u16 as Wire>⟧.bytes_of n
      | Move from to ↦ 2 ∷ ⟦<u16 as Wire>⟧.bytes_of from ++ ⟦<u16 as Wire>⟧.bytes_of to
    ] };

    ghost allocates = { false };

    fn write(&self, out: &mut Vec<u8>) -> Result<(), AllocError> {
        match self {
            Kind::Stop => 0u8.write(out),
            Kind::Add(n) => {
                1u8.write(out)?;
                n.write(out)
            }
            Kind::Move { from, to } => {
                2u8.write(out)?;
                from.write(out)?;
                to.write(out)
            }
        }
    }

    fn read(alloc: Global, from: &mut &[u8]) -> Result<Kind, UnreadError> {
        match u8::read(alloc, from)? {
            0 => Ok(Kind::Stop),
            1 => Ok(Kind::Add(u16::read(alloc, from)?)),
            2 => Ok(Kind::Move {
                from: u16::read(alloc, from)?,
                to: u16::read(alloc, from)?,
            }),
            _ => Err(UnreadError::NoValue),
        }
    }
}

impl Wire for Job {
    ghost bytes_of = { λ job. ⟦<u16 as Wire>⟧.bytes_of job.id
        ++ ⟦<Kind as Wire>⟧.bytes_of job.kind ++ ⟦<bool as Wire>⟧.bytes_of job.urgent };

    ghost allocates = { false };

    fn write(&self, out: &mut Vec<u8>) -> Result<(), AllocError> {
        self.id.write(out)?;
        self.kind.write(out)?;
        self.urgent.write(out)
    }

    fn read(alloc: Global, from: &mut &[u8]) -> Result<Job, UnreadError> {
        Ok(Job {
            id: u16::read(alloc, from)?,
            kind: Kind::read(alloc, from)?,
            urgent: bool::read(alloc, from)?,
        })
    }
}

/// A value that takes memory: what may take it is the default.
#[derive(Drop)]
struct Note {
    number: u32,
    text: Bytes,
    cost: Option<u64>,
}

impl Wire for Note {
    ghost bytes_of = { λ note. ⟦<u32 as Wire>⟧.bytes_of note.number
        ++ ⟦<Bytes as Wire>⟧.bytes_of note.text ++ ⟦<Option<u64> as Wire>⟧.bytes_of note.cost };

    fn write(&self, out: &mut Vec<u8>) -> Result<(), AllocError> {
        self.number.write(out)?;
        self.text.write(out)?;
        self.cost.write(out)
    }

    fn read(alloc: Global, from: &mut &[u8]) -> Result<Note, UnreadError> {
        Ok(Note {
            number: u32::read(alloc, from)?,
            text: Bytes::read(alloc, from)?,
            cost: Option::<u64>::read(alloc, from)?,
        })
    }
}

fn of_kind(kind: Kind) -> Job {
    Job {
        id: 258,
        kind,
        urgent: true,
    }
}

#[test]
fn a_job_of_each_kind_is_read_back(rt: HostRuntime) -> Result<(), Fail> {
    let alloc = rt.alloc();
    is_kept(&rt, alloc, &of_kind(Kind::Stop), &[2, 1, 0, 1])?;
    is_kept(&rt, alloc, &of_kind(Kind::Add(513)), &[2, 1, 1, 1, 2, 1])?;
    let kind = Kind::Move { from: 3, to: 4 };
    is_kept(&rt, alloc, &of_kind(kind), &[2, 1, 2, 3, 0, 4, 0, 1])?;
    has_none::<Job>(&rt, alloc, &[2, 1, 3, 0, 0, 1]);
    has_none::<Job>(&rt, alloc, &[2, 1, 0, 2]);
    Ok(())
}

#[test]
fn a_note_is_read_back_with_its_text(rt: HostRuntime) -> Result<(), Fail> {
    let alloc = rt.alloc();
    let note = Note {
        number: 6,
        text: Bytes::from_slice(alloc, &[9, 8])?,
        cost: Some(5),
    };
    let bytes = [
        6, 0, 0, 0, 2, 0, 0, 0, 0, 0, 0, 0, 9, 8, 1, 5, 0, 0, 0, 0, 0, 0, 0,
    ];
    let back = returns(&rt, alloc, &note, &bytes)?;
    holds!(rt; back.number == note.number);
    holds!(rt; back.text.as_slice() == note.text.as_slice());
    holds!(rt; back.cost == note.cost);
    Ok(())
}
