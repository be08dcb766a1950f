//! Seat 1 sends `hello` to the queue with key 1234, and seat 2 receives it.
#![tactic(auto)]

use anyhow::Result;
use mq::{
    Config, DEFAULTS, Errno, Ledger, LocalQueues, Message, QueueProgram, Selection, with_queues,
};

#[derive(Drop)]
struct Hello;

impl QueueProgram for Hello {
    type Answer = Result<Vec<u8>, Errno>;

    fn run<L: Ledger>(self, _: Config, queues: &mut LocalQueues<L>) -> Self::Answer {
        let id = queues.caller(1).queue(1234)?;
        queues.caller(1).send(id, Message::new(7, b"hello"))?;
        Ok(queues.caller(2).receive(id, Selection::Any)?.text)
    }
}

fn main(rt: HostRuntime) -> Result<()> {
    let ended = with_queues(rt.alloc(), DEFAULTS, Hello)?;
    println!(rt; "{}", ended.answer?.escape_ascii())?;
    Ok(())
}
