//! What is recorded of a run, for traces and pictures.

ghost use Rattle.mq_cli.specs.Recorded.{Leaves};

use crate::RunFault;
use mq_calls::ClosedSlot;
use mq_trace::Refusal;

/// What is left of a run for who draws what happened in it.
#[derive(Drop)]
pub struct Recorded {
    /// What each slot leaves, in the order of their numbers.
    pub slots: Vec<ClosedSlot>,
    /// The calls that were refused, in the order of their lines.
    pub refusals: Vec<Refusal>,
}

/// What is left of a run that ended so, of which its system left these slots.
pub(crate) fn left_of(
    ended: Result<Vec<Refusal>, RunFault>,
    slots: Vec<ClosedSlot>,
) -> Result<Recorded, RunFault>
    ensures { Leaves ended slots result }
{
    match ended {
        Ok(refusals) => Ok(Recorded { slots, refusals }),
        Err(fault) => Err(fault),
    }
}
