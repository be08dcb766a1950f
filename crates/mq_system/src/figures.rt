//! The calls that only read figures, each by its seat alone. A seat has readers of the boards, and
//! no lock: so none of these can take one, try one or wait for one.
ghost use Rattle.std.specs.Prelude.{◌≡◌, ◌^◌, length, map};
ghost use Rattle.mq_queue.specs.Row.{row};
ghost use Rattle.mq_table.specs.Ids.{slot_of};
ghost use Rattle.mq_system.specs.Outcome.{IsLook};
ghost use Rattle.mq_system.specs.Seat.{front_of};
ghost use Rattle.mq_system.specs.Shown.{known_usage, stat_of};

use crate::{Errno, Names, Seat};
use mq_calls::Usage;
use mq_queue::{BoardRow, Figures};
use mq_table::Id;

impl<N: Names> Seat<N> {
    /// The figures of the id's queue (msgctl(2), IPC_STAT), as its slot's board has them. It takes
    /// no memory. EINVAL for an id that was never issued, then EIDRM.
    #[tactic(auto, using(crate::proofs::LaterLemmas::look_self))]
    pub fn stat(&mut self, id: Id) -> Result<Figures, Errno>
        ensures answer { result ≡ stat_of N.slots (front_of self.new (slot_of id)) id }
        ensures look { IsLook self.old self.new }
    {
        if id.slot() >= self.slots() {
            return Err(Errno::EINVAL);
        }
        let shown = self.row(id.slot());
        if shown.made <= id.seq() {
            Err(Errno::EINVAL)
        } else if shown.live && id.seq() + 1 == shown.made {
            Ok(shown.figures)
        } else {
            Err(Errno::EIDRM)
        }
    }

    /// A row for each slot, each as its board has it. It takes no memory.
    pub fn report(&mut self, rows: &mut [BoardRow])
        requires { length rows.old ≡ N.slots }
        ensures rows { rows.new ≡ map row self.new.fronts }
        ensures look { IsLook self.old self.new }
    {
        self.holds();
        for number in 0..self.slots() {
            rows[number as usize] = self.row(number);
        }
    }

    /// What is in use of `pages` pages, and of all slots together (msgctl(2), IPC_INFO and
    /// MSG_INFO), each as its board has it. It takes no memory.
    pub fn info(&mut self, pages: u32) -> Usage
        requires { pages ≡ 2 ^ N.height }
        ensures answer { result ≡ known_usage N.slots N.height self.new N.slots }
        ensures look { IsLook self.old self.new }
    {
        self.holds();
        let mut usage = Usage::none(self.slots(), pages);
        for number in 0..self.slots() {
            usage = usage.with_slot(number, self.row(number));
        }
        usage
    }
}
