//! Numbers, bools and nothing.

use crate::trips::{has_none, is_kept};
use std::test::Fail;

#[test]
fn an_unsigned_number_has_its_lowest_byte_first(rt: HostRuntime) -> Result<(), Fail> {
    let alloc = rt.alloc();
    for (value, bytes) in [(0u8, [0]), (7, [7]), (255, [255])] {
        is_kept(&rt, alloc, &value, &bytes)?;
    }
    for (value, bytes) in [(0u16, [0, 0]), (258, [2, 1]), (u16::MAX, [255, 255])] {
        is_kept(&rt, alloc, &value, &bytes)?;
    }
    for (value, bytes) in [
        (0u32, [0, 0, 0, 0]),
        (16_909_060, [4, 3, 2, 1]),
        (u32::MAX, [255, 255, 255, 255]),
    ] {
        is_kept(&rt, alloc, &value, &bytes)?;
    }
    for (value, bytes) in [
        (0u64, [0, 0, 0, 0, 0, 0, 0, 0]),
        (72_623_859_790_382_856, [8, 7, 6, 5, 4, 3, 2, 1]),
        (u64::MAX, [255, 255, 255, 255, 255, 255, 255, 255]),
    ] {
        is_kept(&rt, alloc, &value, &bytes)?;
    }
    Ok(())
}

#[test]
fn a_signed_number_is_a_twos_complement(rt: HostRuntime) -> Result<(), Fail> {
    let alloc = rt.alloc();
    for (value, bytes) in [(i8::MIN, [128]), (-1, [255]), (0, [0]), (i8::MAX, [127])] {
        is_kept(&rt, alloc, &value, &bytes)?;
    }
    for (value, bytes) in [
        (i16::MIN, [0, 128]),
        (-2, [254, 255]),
        (258, [2, 1]),
        (i16::MAX, [255, 127]),
    ] {
        is_kept(&rt, alloc, &value, &bytes)?;
    }
    for (value, bytes) in [
        (i32::MIN, [0, 0, 0, 128]),
        (-2, [254, 255, 255, 255]),
        (16_909_060, [4, 3, 2, 1]),
        (i32::MAX, [255, 255, 255, 127]),
    ] {
        is_kept(&rt, alloc, &value, &bytes)?;
    }
    for (value, bytes) in [
        (i64::MIN, [0, 0, 0, 0, 0, 0, 0, 128]),
        (-2, [254, 255, 255, 255, 255, 255, 255, 255]),
        (72_623_859_790_382_856, [8, 7, 6, 5, 4, 3, 2, 1]),
        (i64::MAX, [255, 255, 255, 255, 255, 255, 255, 127]),
    ] {
        is_kept(&rt, alloc, &value, &bytes)?;
    }
    Ok(())
}

#[test]
fn a_bool_is_a_byte_of_0_or_1(rt: HostRuntime) -> Result<(), Fail> {
    let alloc = rt.alloc();
    is_kept(&rt, alloc, &false, &[0])?;
    is_kept(&rt, alloc, &true, &[1])?;
    for byte in 2..=255 {
        has_none::<bool>(&rt, alloc, &[byte, 0]);
    }
    Ok(())
}

#[test]
fn nothing_has_no_bytes(rt: HostRuntime) -> Result<(), Fail> {
    is_kept(&rt, rt.alloc(), &(), &[])?;
    Ok(())
}
