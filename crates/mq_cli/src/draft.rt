//! The texts of scripts: their letters, and how a text is drafted.

ghost use Rattle.std.specs.Prelude.{◌≡◌, ◌≤◌, IfOk, map, length};
ghost use Rattle.std.specs.List.{range_with_len};
ghost use Rattle.mq_queue.specs.declared.limits.TheConstants.{MSGMAX};
ghost use Rattle.mq_cli.specs.Drafts.{Drafts, bytes_of_text};
ghost use Rattle.mq_cli.specs.Drafts.{letter as letter_at};
ghost use Rattle.mq_cli.specs.Seen.{text_seen};

use crate::command::TextForm;
use mq_arena::Text;
use mq_calls::DraftError;
use mq_local::OneThread;
use mq_queue::MSGMAX;
use std::alloc::{AllocError, Global};
use std::sync::ledger::Ledger;

/// The letters, in their order.
const ALPHABET: [u8; 26] = *b"abcdefghijklmnopqrstuvwxyz";

/// `count` letters: `a` to `z`, over and over.
pub(crate) fn letters(alloc: Global, count: u64) -> Result<Vec<u8>, AllocError>
    ensures { IfOk result (λ bytes. bytes.items ≡ map letter_at (range_with_len 0 count)) }
{
    let mut letters = Vec::with_capacity(alloc, count as usize)?;
    for _ in 0..count / 26 {
        letters.extend_from_slice(&ALPHABET)?;
    }
    letters.extend_from_slice(&ALPHABET[..(count % 26) as usize])?;
    Ok(letters)
}

/// Makes the text of a message, each byte written once, in place. The refusals are those of
/// `OneThread::draft_of`.
pub(crate) fn draft<L: Ledger>(
    queues: &mut OneThread<L>,
    letters: &[u8],
    text: TextForm<'_>,
) -> Result<Text<L>, DraftError>
    requires letters { letters.now ≡ map letter_at (range_with_len 0 MSGMAX) }
    ensures answer { Drafts queues.old queues.new (text_seen text.entry) result }
{
    if text.len() > MSGMAX {
        return Err(DraftError::TooLong);
    }
    queues.draft_of(bytes_of(letters, text))
}

/// The bytes that the text is made of.
#[tactic(auto, using(crate::proofs::DraftLemmas::letters_length))]
fn bytes_of<'a>(letters: &'a [u8], text: TextForm<'a>) -> &'a [u8]
    requires letters { letters.now ≡ map letter_at (range_with_len 0 MSGMAX) }
    requires fits { length (bytes_of_text (text_seen text)) ≤ MSGMAX }
    ensures { result.now ≡ bytes_of_text (text_seen text.entry) }
{
    match text {
        TextForm::Plain(bytes) => bytes,
        TextForm::Letters(count) => &letters[..count as usize],
    }
}
