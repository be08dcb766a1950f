//! Facts about the definitions that the contracts name: each is the contract of an empty function.

ghost use Rattle.mq_table.specs.Laws.{IdsInvert, StaysRemoved};

/// An id is determined by its slot and its seq, and determines them.
pub fn ids_invert()
    ensures { IdsInvert }
{}

/// An id whose queue was removed stays so, whatever else happens in its slot.
pub fn a_removed_id_stays_removed()
    ensures { StaysRemoved }
{}
