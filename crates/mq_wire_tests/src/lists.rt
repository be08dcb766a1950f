//! Lists of bytes, and why no value is read.

use crate::trips::{has_none, returns};
use mq_wire::{Bytes, UnreadError};
use std::alloc::{AllocError, Global};
use std::process::Abort;
use std::test::Fail;

/// A list is read back with the bytes that it was made of.
fn comes_back(
    rt: &impl Abort,
    alloc: Global,
    list: &Bytes,
    bytes: &[u8],
) -> Result<(), AllocError> {
    let back = returns(rt, alloc, list, bytes)?;
    holds!(rt; back.as_slice() == list.as_slice());
    holds!(rt; back.into_vec().as_slice() == list.as_slice());
    Ok(())
}

#[test]
fn a_list_of_bytes_follows_its_length(rt: HostRuntime) -> Result<(), Fail> {
    let alloc = rt.alloc();
    let none = Bytes::from_vec(Vec::new(alloc));
    comes_back(&rt, alloc, &none, &[0; 8])?;
    let two = Bytes::from_slice(alloc, &[9, 255])?;
    holds!(rt; two.as_slice() == [9, 255].as_slice());
    comes_back(&rt, alloc, &two, &[2, 0, 0, 0, 0, 0, 0, 0, 9, 255])?;
    let mut many = vec![in alloc; 0, 1, 0, 0, 0, 0, 0, 0]?;
    many.extend_from_slice(&[5; 256])?;
    comes_back(&rt, alloc, &Bytes::from_slice(alloc, &[5; 256])?, &many)?;
    // A length that is over the bytes that follow.
    has_none::<Bytes>(&rt, alloc, &[255; 8]);
    has_none::<Bytes>(&rt, alloc, &[2, 0, 0, 0, 0, 0, 0, 0, 9]);
    has_none::<Bytes>(&rt, alloc, &[0, 0, 0, 0, 0, 0, 0, 128, 9]);
    Ok(())
}

#[test]
fn a_list_within_others_is_read_back(rt: HostRuntime) -> Result<(), Fail> {
    let alloc = rt.alloc();
    let value = (true, Some(Bytes::from_slice(alloc, &[9])?), 258u16);
    let bytes = [1, 1, 1, 0, 0, 0, 0, 0, 0, 0, 9, 2, 1];
    let (first, second, third) = returns(&rt, alloc, &value, &bytes)?;
    holds!(rt; first);
    match second {
        Some(list) => holds!(rt; list.as_slice() == [9].as_slice()),
        None => holds!(rt; false, "the list is missing"),
    }
    holds!(rt; third == 258);
    Ok(())
}

#[test]
fn an_unread_error_is_printed_in_words(rt: HostRuntime) -> Result<(), Fail> {
    let alloc = rt.alloc();
    holds!(rt; format!(in alloc; "{}", UnreadError::NoMemory)?.as_str() == "out of memory");
    holds!(rt; format!(in alloc; "{}", UnreadError::NoValue)?.as_str() == "no value");
    Ok(())
}
