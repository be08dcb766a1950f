//! Records that are added to a sheet.

ghost use Rattle.std.specs.Prelude.{◌∷◌, [], OnOk};
ghost use Rattle.mq_queue.specs.Log.{key_told};
ghost use Rattle.mq_trace.specs.Records.{refusal_record, refused_process};
ghost use Rattle.mq_trace.specs.Trace.{counter_records, name_records, step_records};
ghost use Rattle.mq_trace.specs.Records.{event_record, process_record};
ghost use Rattle.mq_trace.specs.Written.{Adds};

use crate::record::{write_counter, write_event, write_process};
use crate::refused::{write_refusal, write_refused_process};
use crate::sheet::Sheet;
use crate::{Refusal, Step, TimeScale};
use mq_queue::Event;
use std::alloc::AllocError;

impl Sheet {
    /// The name of a queue's process.
    fn add_process(&mut self, id: u32, key: Option<i32>) -> Result<(), AllocError>
        ensures { OnOk result (Adds self.old self.new (process_record id key ∷ [])) }
    {
        self.separate()?;
        write_process(&mut self.text, id, key)
    }

    /// The same where the queue is met first.
    fn add_name(&mut self, first: bool, id: u32, event: Event) -> Result<(), AllocError>
        ensures { OnOk result (Adds self.old self.new (name_records first id (key_told event))) }
    {
        match event {
            Event::Made { key, .. } => self.add_process(id, Some(key)),
            _ if first => self.add_process(id, None),
            _ => Ok(()),
        }
    }

    fn add_event(&mut self, scale: TimeScale, step: Step) -> Result<(), AllocError>
        ensures { OnOk result (Adds self.old self.new (event_record scale step ∷ [])) }
    {
        self.separate()?;
        write_event(&mut self.text, scale, step)
    }

    /// The pending messages, where these may have changed.
    fn add_counter(&mut self, scale: TimeScale, step: Step) -> Result<(), AllocError>
        ensures { OnOk result (Adds self.old self.new (counter_records scale step step.event)) }
    {
        if let Event::Changed { .. } = step.event {
            return Ok(());
        }
        self.separate()?;
        write_counter(&mut self.text, scale, step)
    }

    /// The records of a step.
    pub(crate) fn add_step(
        &mut self,
        scale: TimeScale,
        first: bool,
        step: Step,
    ) -> Result<(), AllocError>
        ensures { OnOk result (Adds self.old self.new (step_records scale first step)) }
    {
        self.add_name(first, step.id, step.event)?;
        self.add_event(scale, step)?;
        self.add_counter(scale, step)
    }

    /// The name of the process of the refused calls.
    pub(crate) fn add_refused_process(&mut self) -> Result<(), AllocError>
        ensures { OnOk result (Adds self.old self.new (refused_process ∷ [])) }
    {
        self.separate()?;
        write_refused_process(&mut self.text)
    }

    pub(crate) fn add_refusal(&mut self, refusal: Refusal) -> Result<(), AllocError>
        ensures { OnOk result (Adds self.old self.new (refusal_record refusal ∷ [])) }
    {
        self.separate()?;
        write_refusal(&mut self.text, refusal)
    }
}
