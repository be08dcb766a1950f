//! A run in one thread.

ghost use Rattle.mq_cli.specs.Input.{IsRunSize};
ghost use Rattle.mqsim.specs.Runs.{RanKind};

use crate::command_line::Kind;
use mq_calls::Config;
use mq_cli::{RunFault, run_serial};
use std::alloc::Global;
use std::io::{BufWriter, Read, Write};

/// The number of bytes that are written at a time.
pub const OUTPUT_LEN: usize = 65_536;

/// Runs the script of the reader, and writes its answers to the writer, many lines at a time.
pub fn run<R: Read, W: Write + Drop>(
    alloc: Global,
    reader: &mut R,
    writer: W,
    config: Config,
) -> Result<(), RunFault>
    requires { IsRunSize config }
    ensures ran { RanKind Kind.Serial config (R.remaining reader.old) (R.remaining reader.new)
        result }
{
    match BufWriter::with_capacity(alloc, OUTPUT_LEN, writer) {
        Ok(mut buffered) => run_serial(alloc, reader, &mut buffered, config),
        Err(_) => Err(RunFault::Memory),
    }
}
