//! Preallocated storage for the page handles of a block, so that a small one needs no heap later.
ghost use Rattle.std.specs.Prelude.{◌≡◌, ◌^◌, ◌<◌, ◌≤◌, [], IfOk, IsErr};

use crate::account::page_count;
use crate::limits::{INLINE_ORDER, INLINE_PAGES, MAX_ORDER};
use crate::page::Page;
use smallvec::SmallVec;
use std::alloc::{AllocError, Global};
use std::marker::Model;

/// Where the pages of a block are, in memory of its own: a block that moves leaves them in place.
/// Those of a block of more than `INLINE_PAGES` pages are in an allocation behind it, which lasts
/// until the block is freed.
pub(crate) type Places = Box<SmallVec<Page, INLINE_PAGES>>;

/// The places of a block's pages while no block has them: all are empty.
#[derive(Drop)]
pub(crate) struct Shell {
    places: Places,
}

impl Model for Shell {
    ghost use Rattle.std.specs.Prelude.{◌≡◌, []};
    ghost use Rattle.mq_arena.specs.declared.limits.TheConstants.{INLINE_PAGES};

    ghost Value = { Unit {0} };

    ghost view = { λ _. tt };

    ghost invariant = { λ shell.
        (shell.places.value.items ≡ []) × (shell.places.value.capacity ≡ INLINE_PAGES) };
}

impl Shell {
    pub(crate) fn new(alloc: Global) -> Result<Shell, AllocError> {
        let places = Box::new(alloc, SmallVec::new(alloc))?;
        Ok(Shell { places })
    }

    /// The shell of these places, once the pages have left them. It keeps the inline places alone.
    pub(crate) fn of(mut places: Places) -> Shell
        requires empty { places.value.items ≡ [] }
    {
        if places.spilled() {
            places.shrink_to_fit();
        }
        Shell { places }
    }

    /// Places for the pages of a block of that order. It fails only where memory runs out for an
    /// order over `INLINE_ORDER`; then the shell is as it was.
    #[tactic(auto, using(crate::proofs::Stock::few_pages))]
    pub(crate) fn into_places(self, order: u8) -> Result<Places, Shell>
        requires { order ≤ MAX_ORDER }
        ensures empty { IfOk result (λ places. places.value.items ≡ []) }
        ensures room { IfOk result (λ places. 2 ^ order ≤ places.value.capacity) }
        ensures spilled { IsErr result → INLINE_ORDER < order }
    {
        let Shell { mut places } = self;
        if order <= INLINE_ORDER {
            return Ok(places);
        }
        match places.reserve_exact(page_count(order) as usize) {
            Ok(()) => Ok(places),
            Err(_) => Err(Shell { places }),
        }
    }
}
