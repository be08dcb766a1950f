//! The trivial message invariant, for a system whose receivers assume nothing of a text.

use mq_system::Pledge;

/// The pledge of a system whose senders promise nothing of their texts.
pub struct NoPledge;

impl Pledge for NoPledge {
    ghost use Rattle.std.specs.Prelude.{⊤};

    ghost kept = { λ _seat _tag _mtype _bytes. ⊤ };
}
