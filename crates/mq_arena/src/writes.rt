//! Bytes that are written over pages.
ghost use Rattle.std.specs.Prelude.{◌≡◌, ◌≤◌, ◌-◌, ◌*◌, ◌++◌, length, take, drop, replicate};
ghost use Rattle.std.specs.List.{concat};
ghost use Rattle.mq_arena.specs.Bytes.{AreWhole, filled};

use crate::page::{PAGE_LEN, Page};

/// Writes the bytes over the first ones of the pages, and leaves the rest as it is.
pub fn fill(pages: &mut [Page], bytes: &[u8])
    requires whole { AreWhole pages.old }
    requires fits { length bytes.now ≤ PAGE_LEN * length pages.old }
    ensures whole { AreWhole pages.new }
    ensures bytes { concat pages.new ≡ bytes.now ++ drop (length bytes.now) (concat pages.old) }
{
    let mut rest = bytes;
    for page in pages.iter_mut() {
        let (part, later) = rest.split_at(PAGE_LEN.min(rest.len()));
        page.write(part);
        rest = later;
    }
}

/// Writes the bytes over the first ones of the pages, and zeros over the rest: each byte once.
pub(crate) fn overwrite(pages: &mut [Page], bytes: &[u8])
    requires whole { AreWhole pages.old }
    ensures whole { AreWhole pages.new }
    ensures pages { pages.new
        ≡ filled PAGE_LEN (replicate (length pages.old) (replicate PAGE_LEN 0)) bytes.now }
{
    let mut rest = bytes;
    for page in pages.iter_mut() {
        let (part, later) = rest.split_at(PAGE_LEN.min(rest.len()));
        page.overwrite(part);
        rest = later;
    }
}

/// Writes zeros over all bytes of the pages but the first `len`.
pub(crate) fn clear_from(pages: &mut [Page], len: usize)
    requires { AreWhole pages.old }
    ensures whole { AreWhole pages.new }
    ensures bytes { concat pages.new
        ≡ take len (concat pages.old) ++ replicate (PAGE_LEN * length pages.old - len) 0 }
{
    let mut rest = len;
    for page in pages.iter_mut() {
        let front = PAGE_LEN.min(rest);
        page.clear_from(front);
        rest -= front;
    }
}
