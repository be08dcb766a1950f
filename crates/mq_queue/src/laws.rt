//! What holds of each lawful log: each law is the contract of an empty function.

ghost use Rattle.mq_queue.specs.LawfulFrom.{GoesOnFromBase};
ghost use Rattle.mq_queue.specs.Laws.{ReceivesOnce, ReceivesInOrder, PrefixesAreLawful};
ghost use Rattle.mq_queue.specs.Laws.{IsReplayed};

/// No message is received twice.
pub fn a_message_is_received_once()
    ensures { ReceivesOnce }
{}

/// Messages of one type are received in the order in which they were sent.
pub fn messages_of_one_type_come_in_order()
    ensures { ReceivesInOrder }
{}

/// Each prefix of a lawful log is lawful, but for the empty one.
pub fn each_prefix_is_lawful()
    ensures { PrefixesAreLawful }
{}

/// A replay of the log finds the pending messages, and the result of each call.
pub fn a_log_is_replayed()
    ensures { IsReplayed }
{}

/// A log whose beginning was drained is lawful exactly where the events since then are from the
/// base of that beginning, and the pending messages and the figures are found from it.
pub fn a_drained_log_continues()
    ensures { GoesOnFromBase }
{}
