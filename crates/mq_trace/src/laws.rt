//! What holds of the steps of any entries: each law is the contract of an empty function.

ghost use Rattle.mq_trace.specs.Laws.{EachEntryIsAStep};

/// Each entry is a step once, in order, and nothing else is.
pub fn each_entry_is_a_step()
    ensures { EachEntryIsAStep }
{}
