//! A page, and what is written into it.
ghost use Rattle.std.specs.Prelude.{◌≡◌, ◌-◌, ◌≤◌, [], ◌++◌, length, take, drop, replicate, IfOk};
ghost use Rattle.std.specs.Borrow.{sem};

use std::alloc::{AllocError, Global};
use std::default::MadeWith;
use std::marker::Model;

/// How many bytes a page has.
pub const PAGE_LEN: usize = 1024;

/// A page of memory of its own, seen as its bytes. Each page of a block has `PAGE_LEN` of them; a
/// blank page, which fills an unused place of a vector and takes no memory, has none.
#[derive(Drop)]
pub struct Page {
    bytes: Vec<u8>,
}

impl Model for Page {
    ghost use Rattle.std.specs.Prelude.{ℕ, List};

    ghost Value = { List ℕ };

    ghost view = { λ page. page.bytes.items };
}

impl MadeWith<Global> for Page {
    ghost is_made_with = { λ page. page ≡ [] };

    fn made_with(alloc: Global) -> Page {
        Page {
            bytes: Vec::new(alloc),
        }
    }
}

impl Page {
    ghost use Rattle.mq_arena.specs.Lends.{LendsPage};

    pub(crate) fn zeroed(alloc: Global) -> Result<Page, AllocError>
        ensures { IfOk result (λ page. page ≡ replicate PAGE_LEN 0) }
    {
        let bytes = vec![in alloc; 0; PAGE_LEN]?;
        Ok(Page { bytes })
    }

    pub fn bytes(&self) -> &[u8]
        ensures { result.now ≡ self.now }
    {
        self.bytes.as_slice()
    }

    /// The bytes, to be written in place: the page keeps its length.
    pub fn bytes_mut(&mut self) -> &mut [u8]
        ensures* writes_back { sem 𝓛 (LendsPage self.entry result) }
        ensures value { result.now ≡ self.old }
    {
        self.bytes.as_mut_slice()
    }

    /// The first `len` bytes, to be written in place: the page keeps its length.
    pub fn front_mut(&mut self, len: usize) -> &mut [u8]
        requires { len ≤ length self.old }
        ensures* writes_back { sem 𝓛 (LendsPage self.entry result) }
        ensures value { result.now ≡ take len self.old }
    {
        self.bytes.slice_mut(..len)
    }

    /// Writes over the first bytes and leaves the rest as they are.
    pub fn write(&mut self, bytes: &[u8])
        requires { length bytes.now ≤ length self.old }
        ensures { self.new ≡ bytes.now ++ drop (length bytes.now) self.old }
    {
        let (front, _) = self.bytes.as_mut_slice().split_at_mut(bytes.len());
        front.copy_from_slice(bytes);
    }

    /// Writes over the first bytes, and zeros over the rest.
    pub(crate) fn overwrite(&mut self, bytes: &[u8])
        requires { length bytes.now ≤ length self.old }
        ensures { self.new ≡ bytes.now ++ replicate (length self.old - length bytes.now) 0 }
    {
        let (first, rest) = self.bytes.as_mut_slice().split_at_mut(bytes.len());
        first.copy_from_slice(bytes);
        rest.fill(0);
    }

    /// Writes zeros over all bytes but the first `len`.
    pub(crate) fn clear_from(&mut self, len: usize)
        requires { len ≤ length self.old }
        ensures { self.new ≡ take len self.old ++ replicate (length self.old - len) 0 }
    {
        let (_, back) = self.bytes.as_mut_slice().split_at_mut(len);
        back.fill(0);
    }
}
