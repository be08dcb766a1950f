//! Records that are gathered until there are enough bytes to be written.

ghost use Rattle.std.specs.Prelude.{◌≡◌, ◌++◌, OnOk, true};
ghost use Rattle.mq_trace.specs.Trace.{separator};

use std::alloc::AllocError;

/// The end of a text that is not written yet.
#[derive(Drop)]
pub(crate) struct Sheet {
    pub(crate) text: Vec<u8>,
    /// Whether there was a record.
    pub(crate) begun: bool,
}

impl Sheet {
    /// Begins a record: one that is not the first stands behind a comma, on a line of its own.
    pub(crate) fn separate(&mut self) -> Result<(), AllocError>
        ensures text { OnOk result
            (self.new.text.items ≡ self.old.text.items ++ separator self.old.begun) }
        ensures begun { self.new.begun ≡ true }
    {
        let begun = self.begun;
        self.begun = true;
        if begun {
            self.text.extend_from_slice(b",\n")
        } else {
            Ok(())
        }
    }
}
