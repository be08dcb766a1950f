//! Facts about the definitions that the contracts name: each is the contract of an empty function.

ghost use Rattle.mq_message.specs.Laws.{FindsTheLowest};

/// The lowest type within a bound is one of the types, is within it, and none within it is lower.
pub fn lowest_type_is_least()
    ensures { FindsTheLowest }
{}
