//! Batched sends and receives, each as a loop of single calls that ends at the first error.

ghost use Rattle.std.specs.Prelude.{◌≡◌, ◌≤◌, [], vec_capacity};
ghost use Rattle.mq_local.specs.Many.{AnswersMany, AnswersSendMany, receive_of};

use crate::OneThread;
use mq_arena::Text;
use mq_calls::{Delivered, Refused, SendRefused};
use mq_message::Message;
use mq_table::Id;
use std::collections::VecDeque;
use std::sync::ledger::Ledger;

impl<L: Ledger> OneThread<L> {
    /// Receives up to `n` messages, as so many calls of `msgrcv`, one after another at consecutive
    /// entries. The first refusal ends it.
    pub fn msgrcv_many(
        &mut self,
        seat: u16,
        id: Id,
        size: u64,
        msgtyp: i64,
        except: bool,
        noerror: bool,
        n: usize,
        moment: u64,
        out: &mut Vec<Delivered<Text<L>>>,
    ) -> Result<(), Refused>
        requires empty { out.old.items ≡ [] }
        requires room { n ≤ vec_capacity out.old }
        ensures answer { AnswersMany (receive_of seat id size msgtyp except noerror moment) id n
            self.old self.new out.new.items result }
        ensures capacity { vec_capacity out.new ≡ vec_capacity out.old }
    {
        for _done in 0..n {
            match self.msgrcv(seat, id, size, msgtyp, except, noerror, moment) {
                Ok(delivered) => out.push_reserved(delivered),
                Err(refused) => return Err(refused),
            }
        }
        Ok(())
    }

    /// Sends all these messages, each as its sender's seat, as so many calls of `msgsnd`, one after
    /// another at consecutive entries. The first refusal ends it; that message and those behind it
    /// stay in the list.
    pub fn msgsnd_many(
        &mut self,
        id: Id,
        messages: &mut VecDeque<Message<Text<L>>>,
        moment: u64,
    ) -> Result<(), Refused>
        ensures answer { AnswersSendMany id moment self.old self.new messages.old.items
            messages.new.items result }
    {
        for _done in 0..messages.len() {
            let Some(message) = messages.pop_front() else {
                return Ok(());
            };
            let Message {
                mtype,
                sender,
                tag,
                body,
            } = message;
            match self.msgsnd(sender, id, mtype, tag, body, moment) {
                Ok(_entry) => (),
                Err(SendRefused { refused, text }) => {
                    let message = Message {
                        mtype,
                        sender,
                        tag,
                        body: text,
                    };
                    messages.push_front_reserved(message);
                    return Err(refused);
                }
            }
        }
        Ok(())
    }
}
