//! What the scripts of bench/ measure, by the first word: `bench tree`, `cycle`, `system`,
//! `batches`, `stat`, `channel`, `waiting`, `board` or `start`, each with words of its own. Without
//! words it does a little of each.
#![tactic(auto)]

mod batches;
mod board;
mod channel;
mod cycle;
mod start;
mod stat;
mod system;
mod tree;
mod waiting;
mod words;

use anyhow::{Result, bail};
use std::env;
use words::Words;

fn main(rt: HostRuntime) -> Result<()> {
    let mut words = Vec::new(rt.alloc());
    let mut args = env::args(&rt)?;
    let _program = args.next();
    for word in args {
        words.push(word)?;
    }
    let words = Words { words };
    let alloc = rt.alloc();
    match words.word(0) {
        "tree" => tree::run(&rt, alloc, &words),
        "cycle" => cycle::run(&rt, alloc, &words),
        "system" => system::run(&rt, alloc, &words),
        "batches" => batches::run(&rt, alloc, &words),
        "stat" => stat::run(&rt, alloc, &words),
        "channel" => channel::run(&rt, alloc, &words),
        "waiting" => waiting::run(&rt, alloc, &words),
        "board" => board::run(&rt, alloc, &words),
        "start" => start::run(&rt, alloc, &words),
        "" => {
            tree::run(&rt, alloc, &words)?;
            cycle::run(&rt, alloc, &words)?;
            system::run(&rt, alloc, &words)?;
            batches::run(&rt, alloc, &words)?;
            stat::run(&rt, alloc, &words)?;
            channel::run(&rt, alloc, &words)?;
            waiting::run(&rt, alloc, &words)?;
            board::run(&rt, alloc, &words)?;
            start::run(&rt, alloc, &words)
        }
        other => bail!("nothing to measure: {other}"),
    }
}
