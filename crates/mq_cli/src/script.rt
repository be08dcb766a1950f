//! Reading of a script to its end.

ghost use Rattle.mq_cli.specs.Input.{ReadsScript};

use crate::limits::READ_CALLS;
use crate::{RunFault, SCRIPT_LIMIT};
use std::alloc::Global;
use std::io::Read;

/// All that the reader gives, which is a script where it is no longer than one may be. Each
/// error of a read call is a fault.
pub(crate) fn read_script<R: Read>(alloc: Global, reader: &mut R) -> Result<Vec<u8>, RunFault>
    ensures { ReadsScript (R.remaining reader.old) (R.remaining reader.new) result }
{
    let mut script = Vec::new(alloc);
    let mut chunk = [0u8; 4096];
    for _ in 0..READ_CALLS {
        let Ok(count) = reader.read(&mut chunk) else {
            return Err(RunFault::Read);
        };
        if count == 0 {
            return Ok(script);
        }
        if count > SCRIPT_LIMIT - script.len() {
            return Err(RunFault::Size);
        }
        if script.extend_from_slice(&chunk[..count]).is_err() {
            return Err(RunFault::Memory);
        }
    }
    Err(RunFault::Read)
}
