//! A threads script, parsed.

ghost use Rattle.std.specs.Prelude.{◌≡◌, ◌≤◌, OnOk, length};
ghost use Rattle.mq_cli.specs.ThreadsParsed.{Parses, wanted_seen};
ghost use Rattle.mq_cli.specs.ThreadsScript.{nothing, wanted_of, with_line};

use super::line::read_threads_line;
use crate::lines::Lines;
use crate::{RunFault, SCRIPT_LIMIT, Step};
use mq_calls::GetFlags;
use mq_table::Id;
use std::alloc::{AllocError, Global};

/// A call of the main part. Its moment is the number of its line.
#[derive(Clone, Copy)]
pub enum MainCall {
    /// msgget.
    Get {
        key: i32,
        flags: GetFlags,
        moment: u64,
    },
    /// IPC_SET.
    Set {
        id: Id,
        qbytes: u64,
        moment: u64,
    },
}

/// What a line of a threads script says.
#[derive(Clone, Copy)]
pub enum ThreadsLine {
    /// A section begins.
    Worker,
    Main(MainCall),
    Section(Step),
}

/// A threads script that has been read.
#[derive(Drop)]
pub struct ThreadsScript {
    pub calls: Vec<MainCall>,
    /// The steps of each worker.
    pub sections: Vec<Vec<Step>>,
}

impl ThreadsScript {
    fn new(alloc: Global) -> ThreadsScript
        ensures { wanted_seen result ≡ nothing }
    {
        ThreadsScript {
            calls: Vec::new(alloc),
            sections: Vec::new(alloc),
        }
    }

    /// Takes in what one line more says.
    fn add(&mut self, alloc: Global, line: ThreadsLine) -> Result<(), AllocError>
        ensures { OnOk result (wanted_seen self.new ≡ with_line (wanted_seen self.old) line) }
    {
        match line {
            ThreadsLine::Worker => {
                self.sections.push(Vec::new(alloc))?;
            }
            ThreadsLine::Main(call) => {
                self.calls.push(call)?;
            }
            ThreadsLine::Section(step) => {
                if let Some(section) = self.sections.last_mut() {
                    section.push(step)?;
                }
            }
        }
        Ok(())
    }
}

/// Reads the lines of a threads script, up to the first that is not well formed.
pub(crate) fn read_threads_script(alloc: Global, script: &[u8]) -> Result<ThreadsScript, RunFault>
    requires fits { length script.now ≤ SCRIPT_LIMIT }
    ensures { Parses (wanted_of script.now) result }
{
    let mut wanted = ThreadsScript::new(alloc);
    let mut number = 0;
    for line in Lines::new(script) {
        number += 1;
        let said = match read_threads_line(wanted.sections.len(), number, line) {
            Ok(Some(said)) => said,
            Ok(None) => continue,
            Err(cause) => return Err(RunFault::Script {
                line: number,
                cause,
            }),
        };
        let Ok(()) = wanted.add(alloc, said) else {
            return Err(RunFault::Memory);
        };
    }
    Ok(wanted)
}
