//! Selections as the msgtyp argument and the MSG_EXCEPT flag of msgrcv (msgop(2)).

ghost use Rattle.std.specs.Prelude.{◌≡◌, false, IfSome, IsNone};
ghost use Rattle.mq_message.specs.Selection.{selection_of};
ghost use Rattle.mq.specs.Caller.{is_selectable};

use mq_message::Selection;

/// The msgtyp of a selection, and whether MSG_EXCEPT goes with it; or that no msgtyp stands for it.
#[inline(always)]
pub(crate) fn msgtyp_of(selection: Selection) -> Option<(i64, bool)>
    ensures some { IfSome result (λ m. selection_of m.0 m.1 ≡ selection) }
    ensures none { IsNone result → is_selectable selection ≡ false }
{
    match selection {
        Selection::Any => Some((0, false)),
        Selection::Exact(mtype) if mtype > 0 => Some((mtype, false)),
        Selection::Except(mtype) if mtype > 0 => Some((mtype, true)),
        Selection::UpTo(bound) if 0 < bound && bound <= i64::MAX as u64 => {
            Some((-(bound as i64), false))
        }
        Selection::UpTo(bound) if bound == 1 << 63 => Some((i64::MIN, false)),
        _ => None,
    }
}
