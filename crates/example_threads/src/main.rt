//! Three threads in a ring: each sends its number to the next, and waits for a text of one byte.
#![tactic(auto)]

ghost use Rattle.std.specs.Prelude.{◌≡◌, length};

use anyhow::Result;
use mq::{
    Caller, Clock, DEFAULTS, Errno, Message, Names, Pledge, Selection, Wait, Worker, with_workers,
};

struct OneByte;

impl Pledge for OneByte {
    ghost kept = { λ _seat _tag _mtype bytes. length bytes ≡ 1 };
}

#[derive(Drop)]
struct Player;

impl Worker<OneByte> for Player {
    type Answer = Result<u8, Errno>;

    fn work<N: Names, R: Wait + Clock>(
        self,
        caller: &mut Caller<'_, OneByte, N, R>,
    ) -> Self::Answer {
        let own = caller.number();
        let id = caller.queue(1234)?;
        let text = [(own % 10) as u8];
        caller.send(id, Message::new(i64::from(own % 3 + 1), &text))?;
        Ok(caller.receive(id, Selection::Exact(i64::from(own)))?.text[0])
    }
}

fn main(rt: HostRuntime) -> Result<()> {
    let players = vec![in rt.alloc(); Player, Player, Player]?;
    for answer in with_workers(&rt, rt.alloc(), DEFAULTS, players)?.answer {
        println!(rt; "{}", answer?)?;
    }
    Ok(())
}
