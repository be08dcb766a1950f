//! msgop(2) for one thread: msgsnd and msgrcv with IPC_NOWAIT.

ghost use Rattle.std.specs.Prelude.{◌≡◌, ◌<◌, Err, MatchResult, length};
ghost use Rattle.mq_calls.specs.Calls.{msgsnd as msgsnd_answer, msgrcv as msgrcv_answer};
ghost use Rattle.mq_calls.specs.Look.{IsSlotOfId, look, refused_at, refused_in};
ghost use Rattle.mq_local.specs.Outcome.{Answers, AnswersSend};

use crate::OneThread;
use mq_arena::Text;
use mq_calls::{Delivered, Errno, Refused, SendRefused};
use mq_message::{Message, Selection};
use mq_queue::NoNotice;
use mq_table::{Id, IdRefusal};
use std::sync::ledger::Ledger;

impl<L: Ledger> OneThread<L> {
    /// Sends a text as this seat (msgop(2), msgsnd with IPC_NOWAIT), and returns the entry. EINVAL
    /// for the type, EINVAL for the id, EIDRM, EAGAIN, then ENOMEM; the text is then returned.
    pub fn msgsnd(
        &mut self,
        seat: u16,
        id: Id,
        mtype: i64,
        tag: u64,
        text: Text<L>,
        moment: u64,
    ) -> Result<u64, SendRefused<Text<L>>>
        ensures answer { AnswersSend (msgsnd_answer self.old seat id mtype tag text moment)
            (refused_at self.old id Errno.ENOMEM) self.old self.new text result }
    {
        if mtype < 1 {
            let refused = Refused {
                errno: Errno::EINVAL,
                entry: None,
            };
            return Err(SendRefused { refused, text });
        }
        let k = match self.slot_of_id(id) {
            Ok(k) => k,
            Err(refused) => return Err(SendRefused { refused, text }),
        };
        let message = Message {
            mtype,
            sender: seat,
            tag,
            body: text,
        };
        match self.slots[k].send(message, moment, &mut NoNotice) {
            Ok(entry) => Ok(entry),
            Err((refusal, message)) => Err(SendRefused {
                refused: self.refused(k, Errno::from(refusal)),
                text: message.into_body(),
            }),
        }
    }

    /// Receives the first message that the selection names (msgop(2), msgrcv with IPC_NOWAIT). With
    /// `noerror`, the flag MSG_NOERROR, a longer text is truncated to `size` bytes. EINVAL, EIDRM,
    /// ENOMSG, E2BIG, then ENOMEM.
    pub fn msgrcv(
        &mut self,
        seat: u16,
        id: Id,
        size: u64,
        msgtyp: i64,
        except: bool,
        noerror: bool,
        moment: u64,
    ) -> Result<Delivered<Text<L>>, Refused>
        ensures answer { Answers
            (msgrcv_answer self.old seat id size msgtyp except noerror moment)
            (refused_at self.old id Errno.ENOMEM) self.old self.new result }
    {
        let k = self.slot_of_id(id)?;
        let selection = Selection::read(msgtyp, except);
        match self.slots[k].receive(size, selection, noerror, seat, moment, &mut NoNotice) {
            Ok(received) => Ok(Delivered::of(received)),
            Err(refusal) => Err(self.refused(k, Errno::from(refusal))),
        }
    }

    /// The slot of the live queue with this id, or why there is none.
    pub(crate) fn slot_of_id(&self, id: Id) -> Result<usize, Refused>
        ensures { MatchResult result (IsSlotOfId self.now id) (λ r. look self.now id ≡ Err r) }
    {
        let k = id.slot() as usize;
        if k >= self.slots.len() {
            return Err(Refused {
                errno: Errno::EINVAL,
                entry: None,
            });
        }
        match self.slots[k].look(id) {
            Ok(()) => Ok(k),
            Err(refusal) => Err(self.refused(k, Errno::from(refusal))),
        }
    }

    /// The refusal after all that has happened in the slot.
    pub(crate) fn refused(&self, k: usize, errno: Errno) -> Refused
        requires { k < length self.now.slots }
        ensures { result ≡ refused_in self.now k errno }
    {
        Refused {
            errno,
            entry: Some(self.slots[k].events()),
        }
    }
}
