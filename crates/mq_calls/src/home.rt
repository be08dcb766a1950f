//! Freeing of texts: their blocks go back to the arena.

ghost use Rattle.std.specs.Prelude.{◌≡◌, []};
ghost use Rattle.mq_calls.specs.Texts.{comes_home, spends, spends_all};

use mq_arena::{ArenaState, Homecoming, Text};
use mq_message::Waiting;
use std::sync::ledger::Ledger;

/// Frees a text: its block goes back to the arena.
// Inlined for the same reason as `ArenaState::put`.
#[inline(always)]
pub fn take_back<L: Ledger>(arena: &mut ArenaState<L>, text: Text<L>) -> Homecoming
    ensures back { arena.new ≡ spends text arena.old }
    ensures home { result ≡ comes_home text arena.old }
{
    match text.into_block() {
        Some(block) => arena.put(block),
        None => Homecoming::Home,
    }
}

/// Frees the texts of all pending messages, and leaves an empty list.
pub fn take_home<L: Ledger, W: Waiting<Text<L>>>(arena: &mut ArenaState<L>, waiting: &mut W)
    ensures arena { arena.new ≡ spends_all (W.messages waiting.old) arena.old }
    ensures empty { W.messages waiting.new ≡ [] }
{
    while let Some(message) = waiting.pop_any() {
        take_back(arena, message.into_body());
    }
}
