//! What is written of a trace: each byte, with writers that fail at each.

use crate::fakes::{Counted, Narrow};
use crate::lists::{base, changed, made, received, removed, sent, since};
use mq_calls::Errno;
use mq_message::Selection;
use mq_queue::Event;
use mq_trace::{CallName, Refusal, SlotEntries, TimeScale, TraceError, write_trace};
use std::test::Fail;

/// A queue of which all happens.
fn events() -> [Event; 5] {
    [
        made(1, 7),
        sent(2, 5, 3, 4),
        received(4, 1, Selection::Any),
        changed(5, 100),
        removed(6),
    ]
}

/// A call that names an id, and one that does not.
const REFUSALS: [Refusal; 2] = [
    Refusal {
        moment: 9,
        seat: 2,
        call: CallName::Receive,
        id: Some(0),
        errno: Errno::ENOMSG,
    },
    Refusal {
        moment: 10,
        seat: 1,
        call: CallName::Get,
        id: None,
        errno: Errno::ENOENT,
    },
];

/// What is written of these by moments.
const TRACE: &str = "\
    {\"displayTimeUnit\":\"ms\",\"traceEvents\":[\
    {\"ph\":\"M\",\"name\":\"process_name\",\"pid\":1,\"args\":{\"name\":\"queue 0 key 7\"}},\n\
    {\"ph\":\"i\",\"s\":\"p\",\"name\":\"made\",\"pid\":1,\"tid\":1,\"ts\":1,\
    \"args\":{\"entry\":0,\"seat\":1,\"key\":7}},\n\
    {\"ph\":\"C\",\"name\":\"waiting\",\"pid\":1,\"ts\":1,\"args\":{\"messages\":0,\
    \"bytes\":0}},\n\
    {\"ph\":\"b\",\"cat\":\"message\",\"id\":\"0.1\",\"name\":\"type 3\",\"pid\":1,\"tid\":1,\
    \"ts\":2,\"args\":{\"entry\":1,\"seat\":1,\"length\":4,\"tag\":5}},\n\
    {\"ph\":\"C\",\"name\":\"waiting\",\"pid\":1,\"ts\":2,\"args\":{\"messages\":1,\
    \"bytes\":4}},\n\
    {\"ph\":\"e\",\"cat\":\"message\",\"id\":\"0.1\",\"name\":\"type 3\",\"pid\":1,\"tid\":2,\
    \"ts\":4,\"args\":{\"entry\":2,\"seat\":2,\"place\":1,\"size\":9,\"noerror\":false,\
    \"selection\":\"any\"}},\n\
    {\"ph\":\"C\",\"name\":\"waiting\",\"pid\":1,\"ts\":4,\"args\":{\"messages\":0,\
    \"bytes\":0}},\n\
    {\"ph\":\"i\",\"s\":\"p\",\"name\":\"quota\",\"pid\":1,\"tid\":1,\"ts\":5,\
    \"args\":{\"entry\":3,\"seat\":1,\"qbytes\":100}},\n\
    {\"ph\":\"i\",\"s\":\"p\",\"name\":\"removed\",\"pid\":1,\"tid\":1,\"ts\":6,\
    \"args\":{\"entry\":4,\"seat\":1}},\n\
    {\"ph\":\"C\",\"name\":\"waiting\",\"pid\":1,\"ts\":6,\"args\":{\"messages\":0,\
    \"bytes\":0}},\n\
    {\"ph\":\"M\",\"name\":\"process_name\",\"pid\":0,\"args\":{\"name\":\"refused calls\"}},\n\
    {\"ph\":\"i\",\"s\":\"p\",\"name\":\"ENOMSG\",\"pid\":0,\"tid\":2,\"ts\":9,\
    \"args\":{\"call\":\"msgrcv\",\"id\":0,\"seat\":2}},\n\
    {\"ph\":\"i\",\"s\":\"p\",\"name\":\"ENOENT\",\"pid\":0,\"tid\":1,\"ts\":10,\
    \"args\":{\"call\":\"msgget\",\"seat\":1}}]}\n";

/// What is written of a cut log by entries.
const CUT: &str = "\
    {\"displayTimeUnit\":\"ms\",\"traceEvents\":[\
    {\"ph\":\"M\",\"name\":\"process_name\",\"pid\":65,\"args\":{\"name\":\"queue 64\"}},\n\
    {\"ph\":\"e\",\"cat\":\"message\",\"id\":\"64.4\",\"name\":\"type 5\",\"pid\":65,\"tid\":2,\
    \"ts\":30,\"args\":{\"entry\":30,\"seat\":2,\"place\":4,\"size\":9,\"noerror\":false,\
    \"selection\":\"type 5\"}},\n\
    {\"ph\":\"C\",\"name\":\"waiting\",\"pid\":65,\"ts\":30,\"args\":{\"messages\":1,\
    \"bytes\":4}},\n\
    {\"ph\":\"b\",\"cat\":\"message\",\"id\":\"64.6\",\"name\":\"type 6\",\"pid\":65,\"tid\":1,\
    \"ts\":31,\"args\":{\"entry\":31,\"seat\":1,\"length\":7,\"tag\":50}},\n\
    {\"ph\":\"C\",\"name\":\"waiting\",\"pid\":65,\"ts\":31,\"args\":{\"messages\":2,\
    \"bytes\":11}},\n\
    {\"ph\":\"e\",\"cat\":\"message\",\"id\":\"64.6\",\"name\":\"type 6\",\"pid\":65,\"tid\":2,\
    \"ts\":32,\"args\":{\"entry\":32,\"seat\":2,\"place\":6,\"size\":9,\"noerror\":false,\
    \"selection\":\"not type 3\"}},\n\
    {\"ph\":\"C\",\"name\":\"waiting\",\"pid\":65,\"ts\":32,\"args\":{\"messages\":1,\
    \"bytes\":4}},\n\
    {\"ph\":\"e\",\"cat\":\"message\",\"id\":\"64.2\",\"name\":\"type 3\",\"pid\":65,\"tid\":2,\
    \"ts\":33,\"args\":{\"entry\":33,\"seat\":2,\"place\":2,\"size\":9,\"noerror\":false,\
    \"selection\":\"any\"}},\n\
    {\"ph\":\"C\",\"name\":\"waiting\",\"pid\":65,\"ts\":33,\"args\":{\"messages\":0,\
    \"bytes\":0}},\n\
    {\"ph\":\"e\",\"cat\":\"message\",\"id\":\"64.3\",\"name\":\"unknown\",\"pid\":65,\"tid\":2,\
    \"ts\":34,\"args\":{\"entry\":34,\"seat\":2,\"place\":3,\"size\":9,\"noerror\":false,\
    \"selection\":\"any\"}},\n\
    {\"ph\":\"C\",\"name\":\"waiting\",\"pid\":65,\"ts\":34,\"args\":{\"messages\":0,\
    \"bytes\":0}}]}\n";

/// What is written of nothing.
const EMPTY: &str = "{\"displayTimeUnit\":\"ms\",\"traceEvents\":[]}\n";

fn entries(past: &[Event]) -> SlotEntries<'_> {
    SlotEntries {
        slot: 0,
        first: 0,
        made: 0,
        base: None,
        past,
        last: &[],
    }
}

#[test]
fn a_trace_is_written_byte_by_byte(rt: HostRuntime) -> Result<(), Fail> {
    let mut written = Vec::with_capacity(rt.alloc(), TRACE.len())?;
    let all = events();
    let slots = [entries(&all)];
    let ended = write_trace(
        rt.alloc(),
        &mut written,
        &slots,
        &REFUSALS,
        TimeScale::Moments,
    );
    holds!(rt; ended != Err(TraceError::Memory), "out of memory");
    holds!(rt; ended == Ok(()));
    holds!(rt; written.as_slice() == TRACE.as_bytes());
    Ok(())
}

#[test]
fn a_cut_log_is_named_at_its_first_step(rt: HostRuntime) -> Result<(), Fail> {
    let base = base(rt.alloc())?;
    let entries = since();
    let slot = SlotEntries {
        slot: 0,
        first: 30,
        made: 2,
        base: Some(&base),
        past: &[],
        last: &entries,
    };
    let mut written = Vec::with_capacity(rt.alloc(), CUT.len())?;
    let ended = write_trace(rt.alloc(), &mut written, &[slot], &[], TimeScale::Entries);
    holds!(rt; ended != Err(TraceError::Memory), "out of memory");
    holds!(rt; ended == Ok(()));
    holds!(rt; written.as_slice() == CUT.as_bytes());
    Ok(())
}

#[test]
fn nothing_is_an_empty_list(rt: HostRuntime) -> Result<(), Fail> {
    let mut written = Vec::with_capacity(rt.alloc(), EMPTY.len())?;
    let slots = [entries(&[]), entries(&[])];
    let ended = write_trace(rt.alloc(), &mut written, &slots, &[], TimeScale::Moments);
    holds!(rt; ended != Err(TraceError::Memory), "out of memory");
    holds!(rt; ended == Ok(()));
    holds!(rt; written.as_slice() == EMPTY.as_bytes());
    Ok(())
}

#[test]
fn a_writer_that_fails_has_a_prefix_of_the_trace(rt: HostRuntime) -> Result<(), Fail> {
    let all = events();
    let slots = [entries(&all)];
    for fails in [true, false] {
        for room in 0..=TRACE.len() {
            let mut writer = Narrow {
                taken: Vec::with_capacity(rt.alloc(), TRACE.len())?,
                room,
                fails,
            };
            let ended = write_trace(
                rt.alloc(),
                &mut writer,
                &slots,
                &REFUSALS,
                TimeScale::Moments,
            );
            let expected = if room < TRACE.len() {
                Err(TraceError::Write)
            } else {
                Ok(())
            };
            holds!(rt; ended != Err(TraceError::Memory), "out of memory");
            assert!(rt; ended == expected, "with room for {room}");
            assert!(rt;
                writer.taken.as_slice() == &TRACE.as_bytes()[..room],
                "with room for {room}"
            );
        }
    }
    Ok(())
}

/// How many parts of 32 KiB so many bytes have at most.
fn parts_of(bytes: usize) -> usize {
    bytes / 32_768 + 1
}

/// A long trace is written in parts of some 32 KiB.
#[test]
fn what_is_not_written_does_not_grow(rt: HostRuntime) -> Result<(), Fail> {
    let events = vec![in rt.alloc(); sent(2, 5, 3, 4); 10000]?;
    let slots = [entries(&events)];
    let mut writer = Counted {
        calls: 0,
        bytes: 0,
        most: 0,
    };
    let ended = write_trace(rt.alloc(), &mut writer, &slots, &[], TimeScale::Entries);
    holds!(rt; ended != Err(TraceError::Memory), "out of memory");
    holds!(rt; ended == Ok(()));
    holds!(rt; writer.bytes > 2_000_000);
    holds!(rt; writer.most < 34_000);
    holds!(rt; writer.calls <= parts_of(writer.bytes));
    Ok(())
}
