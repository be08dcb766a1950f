//! The round trip of a value through its bytes. A call that is out of memory is retried once.

use mq_wire::{UnreadError, Wire};
use std::alloc::{AllocError, Global};
use std::process::Abort;

/// What a reader finds behind each value.
const REST: [u8; 2] = [7, 8];

/// Appends the value's bytes.
fn write<T: Wire>(value: &T, out: &mut Vec<u8>) -> Result<(), AllocError> {
    let length = out.len();
    if value.write(out).is_ok() {
        return Ok(());
    }
    out.truncate(length);
    value.write(out)
}

/// Takes the value at the front of these bytes.
pub(crate) fn read<T: Wire>(alloc: Global, from: &mut &[u8]) -> Result<T, UnreadError> {
    let before = *from;
    match T::read(alloc, from) {
        Err(UnreadError::NoMemory) => {
            *from = before;
            T::read(alloc, from)
        }
        answer => answer,
    }
}

/// No value stands at the front of these bytes.
pub(crate) fn has_none<T: Wire>(rt: &impl Abort, alloc: Global, bytes: &[u8]) {
    let mut from = bytes;
    match read::<T>(alloc, &mut from) {
        Ok(_) => holds!(rt; false, "a value is read where there is none"),
        Err(why) => holds!(rt; why == UnreadError::NoValue),
    }
}

/// The value has these bytes and is read from them, whatever follows, and from no proper prefix of
/// them.
pub(crate) fn returns<T: Wire>(
    rt: &impl Abort,
    alloc: Global,
    value: &T,
    bytes: &[u8],
) -> Result<T, AllocError> {
    let mut out = Vec::new(alloc);
    out.push(99)?;
    write(value, &mut out)?;
    holds!(rt; out.first() == Some(&99));
    out.extend_from_slice(&REST)?;
    let Some((_, mut from)) = out.split_first() else {
        panic!(rt; "nothing is written");
    };
    holds!(rt; from.starts_with(bytes));
    let answer = read(alloc, &mut from);
    for length in 0..bytes.len() {
        has_none::<T>(rt, alloc, &bytes[..length]);
    }
    holds!(rt; from == REST.as_slice());
    match answer {
        Ok(value) => Ok(value),
        Err(_) => panic!(rt; "no value is read"),
    }
}

/// The same value is read back from its bytes.
pub(crate) fn is_kept<T: Wire + PartialEq>(
    rt: &impl Abort,
    alloc: Global,
    value: &T,
    bytes: &[u8],
) -> Result<(), AllocError> {
    let back = returns(rt, alloc, value, bytes)?;
    holds!(rt; back == *value);
    Ok(())
}
