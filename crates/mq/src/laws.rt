//! Facts about what a seat has observed: each is the contract of an empty function.

ghost use Rattle.mq.specs.Laws.{BeginsLawfully, StaysRefused, StaysWritten};

/// A seat reads back what it wrote: a change that it made stays at its entry in all that it
/// observes later.
pub fn a_change_stays_at_its_entry()
    ensures { StaysWritten }
{}

/// The first events of a slot's list are a slot's list: so each seat has observed of each slot a
/// list of its own.
pub fn what_a_seat_knows_is_a_slots_list()
    ensures { BeginsLawfully }
{}

/// A seat that has observed a removal gets EIDRM from each call of the removed id from then on: in
/// a valid list, as each is shown to be at the end.
pub fn a_removed_id_is_refused_from_then_on()
    ensures { StaysRefused }
{}
