//! Values that are made of others.

use crate::trips::{has_none, is_kept};
use std::test::Fail;

#[test]
fn an_array_is_its_bytes_alone(rt: HostRuntime) -> Result<(), Fail> {
    let alloc = rt.alloc();
    is_kept::<[u8; 0]>(&rt, alloc, &[], &[])?;
    is_kept(&rt, alloc, &[9u8, 0, 255], &[9, 0, 255])?;
    Ok(())
}

#[test]
fn a_tuple_is_its_parts_in_their_order(rt: HostRuntime) -> Result<(), Fail> {
    let alloc = rt.alloc();
    is_kept(&rt, alloc, &(1u8, 2u8), &[1, 2])?;
    is_kept(&rt, alloc, &(258u16, true), &[2, 1, 1])?;
    is_kept(&rt, alloc, &(1u8, 2u8, 3u8), &[1, 2, 3])?;
    is_kept(&rt, alloc, &(3u8, 513u16, false), &[3, 1, 2, 0])?;
    is_kept(&rt, alloc, &((1u8, 2u8), (3u8, 4u8, 5u8)), &[1, 2, 3, 4, 5])?;
    has_none::<(u8, bool)>(&rt, alloc, &[1, 2]);
    has_none::<(u8, bool, u8)>(&rt, alloc, &[1, 2, 1]);
    Ok(())
}

#[test]
fn an_option_is_a_tag_and_what_it_has(rt: HostRuntime) -> Result<(), Fail> {
    let alloc = rt.alloc();
    is_kept::<Option<u16>>(&rt, alloc, &None, &[0])?;
    is_kept(&rt, alloc, &Some(258u16), &[1, 2, 1])?;
    is_kept::<Option<Option<u8>>>(&rt, alloc, &Some(None), &[1, 0])?;
    is_kept(&rt, alloc, &Some(Some(9u8)), &[1, 1, 9])?;
    for tag in 2..=255 {
        has_none::<Option<u8>>(&rt, alloc, &[tag, 0]);
    }
    has_none::<Option<bool>>(&rt, alloc, &[1, 2]);
    Ok(())
}
