//! The formatting of answers.

ghost use Rattle.std.specs.Prelude.{◌≡◌, ◌≢◌, ◌++◌, ◌∷◌, [], OnOk};
ghost use Rattle.mq_cli.specs.Seen.{arena_shown};
ghost use Rattle.mq_cli.specs.Transcript.{callers_of, counts_of, message_head, moments_of};
ghost use Rattle.mq_cli.specs.Transcript.{order_name, arena_head};
ghost use Rattle.mq_cli.specs.Transcript.{output, refused, given, at, message, gone, figures};
ghost use Rattle.mq_cli.specs.Transcript.{cut_off, in_use, limits_of, usage};

use itoa::{Buffer, Integer};
use mq_arena::Text;
use mq_calls::{Delivered, Errno, Usage};
use mq_queue::{Figures, MSGMAX, MSGMNB};
use std::alloc::AllocError;
use std::sync::ledger::Ledger;

/// Appends a word and the number that it names.
// Where it is inlined, the word's length is known, and the word is written without a call.
#[inline(always)]
pub(crate) fn write_field<I: Integer>(
    out: &mut Vec<u8>,
    word: &[u8],
    number: I,
) -> Result<(), AllocError>
    ensures { OnOk result (out.new.items ≡ out.old.items ++ word.now ++ I.text number) }
{
    let mut digits = Buffer::new();
    out.extend_from_slice(word)?;
    out.extend_from_slice(digits.format(number).as_bytes())
}

/// The same, and the end of the line.
#[inline(always)]
pub(crate) fn write_last<I: Integer>(
    out: &mut Vec<u8>,
    word: &[u8],
    number: I,
) -> Result<(), AllocError>
    ensures { OnOk result
        (out.new.items ≡ out.old.items ++ word.now ++ I.text number ++ 10 ∷ []) }
{
    write_field(out, word, number)?;
    out.push(b'\n')?;
    Ok(())
}

/// What `arena` answers.
#[derive(Clone, Copy)]
pub struct ArenaFigures {
    pub pages: u32,
    pub free: u32,
    pub largest: Option<u8>,
}

/// `pages P free F largest K`
pub(crate) fn write_arena(out: &mut Vec<u8>, f: ArenaFigures) -> Result<(), AllocError>
    ensures { OnOk result
        (out.new.items ≡ out.old.items ++ output (arena_shown f)) }
{
    write_pages(out, f.pages, f.free)?;
    write_order(out, f.largest)
}

/// All of that line before the order.
#[tactic(auto, unfolding(crate::specs::Transcript::arena_head))]
fn write_pages(out: &mut Vec<u8>, pages: u32, free: u32) -> Result<(), AllocError>
    ensures { OnOk result (out.new.items ≡ out.old.items ++ arena_head pages free) }
{
    write_field(out, b"pages ", pages)?;
    write_field(out, b" free ", free)?;
    out.extend_from_slice(b" largest ")
}

/// The order, and the end of the line.
fn write_order(out: &mut Vec<u8>, order: Option<u8>) -> Result<(), AllocError>
    ensures { OnOk result (out.new.items ≡ out.old.items ++ order_name order ++ 10 ∷ []) }
{
    match order {
        Some(order) => write_last(out, b"", order),
        None => out.extend_from_slice(b"none\n"),
    }
}

/// `id ID`
pub(crate) fn write_id(out: &mut Vec<u8>, id: u32) -> Result<(), AllocError>
    ensures { OnOk result (out.new.items ≡ out.old.items ++ output (given id)) }
{
    write_last(out, b"id ", id)
}

/// `at E`
pub(crate) fn write_entry(out: &mut Vec<u8>, entry: u64) -> Result<(), AllocError>
    ensures { OnOk result (out.new.items ≡ out.old.items ++ output (at entry)) }
{
    write_last(out, b"at ", entry)
}

/// `at E events K`
pub(crate) fn write_removal(out: &mut Vec<u8>, entry: u64, events: u64) -> Result<(), AllocError>
    ensures { OnOk result (out.new.items ≡ out.old.items ++ output (gone entry events)) }
{
    write_field(out, b"at ", entry)?;
    write_last(out, b" events ", events)
}

/// `cut from A to B`
pub(crate) fn write_cut(out: &mut Vec<u8>, first: u64, end: u128) -> Result<(), AllocError>
    ensures { OnOk result (out.new.items ≡ out.old.items ++ output (cut_off first end)) }
{
    write_field(out, b"cut from ", first)?;
    write_last(out, b" to ", end)
}

/// `qnum A cbytes B qbytes C lspid D lrpid E stime F rtime G ctime H`
pub(crate) fn write_figures(out: &mut Vec<u8>, f: Figures) -> Result<(), AllocError>
    ensures { OnOk result (out.new.items ≡ out.old.items ++ output (figures f)) }
{
    write_counts(out, f)?;
    write_callers(out, f)?;
    write_moments(out, f)?;
    out.push(b'\n')?;
    Ok(())
}

#[tactic(auto, unfolding(crate::specs::Transcript::counts_of))]
fn write_counts(out: &mut Vec<u8>, f: Figures) -> Result<(), AllocError>
    ensures { OnOk result (out.new.items ≡ out.old.items ++ counts_of f) }
{
    write_field(out, b"qnum ", f.qnum)?;
    write_field(out, b" cbytes ", f.cbytes)?;
    write_field(out, b" qbytes ", f.qbytes)
}

#[tactic(auto, unfolding(crate::specs::Transcript::callers_of))]
fn write_callers(out: &mut Vec<u8>, f: Figures) -> Result<(), AllocError>
    ensures { OnOk result (out.new.items ≡ out.old.items ++ callers_of f) }
{
    write_field(out, b" lspid ", f.lspid)?;
    write_field(out, b" lrpid ", f.lrpid)
}

#[tactic(auto, unfolding(crate::specs::Transcript::moments_of))]
fn write_moments(out: &mut Vec<u8>, f: Figures) -> Result<(), AllocError>
    ensures { OnOk result (out.new.items ≡ out.old.items ++ moments_of f) }
{
    write_field(out, b" stime ", f.stime)?;
    write_field(out, b" rtime ", f.rtime)?;
    write_field(out, b" ctime ", f.ctime)
}

/// `queues Q messages M bytes B slots S pages P msgmax X msgmnb Y`
pub(crate) fn write_usage(out: &mut Vec<u8>, u: Usage) -> Result<(), AllocError>
    ensures { OnOk result (out.new.items ≡ out.old.items ++ output (usage u)) }
{
    write_in_use(out, u)?;
    write_limits(out, u)?;
    out.push(b'\n')?;
    Ok(())
}

#[tactic(auto, unfolding(crate::specs::Transcript::in_use))]
fn write_in_use(out: &mut Vec<u8>, u: Usage) -> Result<(), AllocError>
    ensures { OnOk result (out.new.items ≡ out.old.items ++ in_use u) }
{
    write_field(out, b"queues ", u.queues)?;
    write_field(out, b" messages ", u.messages)?;
    write_field(out, b" bytes ", u.bytes)
}

#[tactic(auto, unfolding(crate::specs::Transcript::limits_of))]
fn write_limits(out: &mut Vec<u8>, u: Usage) -> Result<(), AllocError>
    ensures { OnOk result (out.new.items ≡ out.old.items ++ limits_of u) }
{
    write_field(out, b" slots ", u.slots)?;
    write_field(out, b" pages ", u.pages)?;
    write_field(out, b" msgmax ", MSGMAX)?;
    write_field(out, b" msgmnb ", MSGMNB)
}

/// `msg TYPE seat S tag T len L =BYTES`
pub(crate) fn write_message<L: Ledger>(
    out: &mut Vec<u8>,
    m: &Delivered<Text<L>>,
) -> Result<(), AllocError>
    ensures { OnOk result (out.new.items ≡ out.old.items ++ output (message m.now)) }
{
    write_head(out, m.mtype, m.sender, m.tag, m.length)?;
    write_parts(out, &m.text)?;
    out.push(b'\n')?;
    Ok(())
}

/// The bytes of a text.
fn write_parts<L: Ledger>(out: &mut Vec<u8>, text: &Text<L>) -> Result<(), AllocError>
    ensures { OnOk result (out.new.items ≡ out.old.items ++ text.now.bytes) }
{
    for part in text.parts() {
        out.extend_from_slice(part)?;
    }
    Ok(())
}

/// All of that line before the text.
#[tactic(auto, unfolding(crate::specs::Transcript::message_head))]
fn write_head(
    out: &mut Vec<u8>,
    mtype: i64,
    sender: u16,
    tag: u64,
    length: u64,
) -> Result<(), AllocError>
    ensures { OnOk result (out.new.items ≡ out.old.items ++ message_head mtype sender tag length) }
{
    write_field(out, b"msg ", mtype)?;
    write_field(out, b" seat ", sender)?;
    write_field(out, b" tag ", tag)?;
    write_field(out, b" len ", length)?;
    out.extend_from_slice(b" =")
}

/// The manual's name of a refusal.
pub(crate) fn write_errno(out: &mut Vec<u8>, errno: Errno) -> Result<(), AllocError>
    ensures { OnOk result (out.new.items ≡ out.old.items ++ output (refused errno)) }
{
    out.extend_from_slice(errno.name().as_bytes())?;
    out.push(b'\n')?;
    Ok(())
}

/// The manual's name of the refusal of a call; `ENOMEM` has no line there.
pub(crate) fn write_refused(out: &mut Vec<u8>, errno: Errno) -> Result<(), AllocError>
    ensures ok { OnOk result (out.new.items ≡ out.old.items ++ output (refused errno)) }
    ensures memory { OnOk result (errno ≢ Errno.ENOMEM) }
{
    if errno == Errno::ENOMEM {
        return Err(AllocError);
    }
    write_errno(out, errno)
}
