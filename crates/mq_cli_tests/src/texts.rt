//! The texts of the faults, which no clause says. Another text of a fault or of a cause was tried.

use mq_cli::{Cause, RunFault};
use std::test::Fail;

const CAUSES: [(Cause, &str); 4] = [
    (Cause::Long, "long"),
    (Cause::Byte, "byte"),
    (Cause::Words, "words"),
    (Cause::Number, "number"),
];

const FAULTS: [(RunFault, &str); 4] = [
    (RunFault::Size, "script too long"),
    (RunFault::Read, "read failed"),
    (RunFault::Write, "write failed"),
    (RunFault::Memory, "out of memory"),
];

#[test]
fn each_fault_has_its_text(rt: HostRuntime) -> Result<(), Fail> {
    for (fault, text) in FAULTS {
        let shown = format!(in rt.alloc(); "{fault}")?;
        holds!(rt; shown.as_str() == text);
    }
    for (cause, text) in CAUSES {
        let shown = format!(in rt.alloc(); "{cause}")?;
        holds!(rt; shown.as_str() == text);
        let fault = RunFault::Script { line: 17, cause };
        let shown = format!(in rt.alloc(); "{fault}")?;
        let expected = format!(in rt.alloc(); "line 17: {text}")?;
        holds!(rt; shown.as_str() == expected.as_str());
    }
    Ok(())
}
