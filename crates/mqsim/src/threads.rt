//! A run in several threads.

ghost use Rattle.mq_cli.specs.Input.{IsRunSize};
ghost use Rattle.mqsim.specs.Runs.{RanKind};

use crate::command_line::Kind;
use crate::serial::OUTPUT_LEN;
use mq_calls::Config;
use mq_cli::{RunFault, run_threads};
use std::alloc::Global;
use std::io::{BufWriter, Read, Write};
use std::sync::Wait;
use std::thread::Threads;
use std::time::Clock;

/// Runs the threads script of the reader, and writes its report to the writer, many lines at a
/// time.
pub fn run_in_threads<T: Threads + Wait + Clock + Sync, R: Read, W: Write + Drop>(
    rt: &T,
    alloc: Global,
    reader: &mut R,
    writer: W,
    config: Config,
) -> Result<(), RunFault>
    requires { IsRunSize config }
    ensures ran { RanKind Kind.Threads config (R.remaining reader.old) (R.remaining reader.new)
        result }
{
    match BufWriter::with_capacity(alloc, OUTPUT_LEN, writer) {
        Ok(mut buffered) => run_threads(rt, alloc, reader, &mut buffered, config),
        Err(_) => Err(RunFault::Memory),
    }
}
