//! The construction of an arena: its memory is allocated before its ledger is opened.
ghost use Rattle.std.specs.Prelude.{◌≡◌, ◌^◌, ◌<◌, ◌↔◌, [], vec_len, vec_capacity, replicate, IfOk, IsErrOf};

use crate::limits::LEDGER_PARTS;
use crate::page::{PAGE_LEN, Page};
use crate::shell::Shell;
use crate::state::ArenaState;
use mq_tree::{MAX_HEIGHT, OrderTree, TreeError};
use std::alloc::{AllocError, Global};
use std::marker::Model;
use std::sync::ledger::{Blank, Ledger};

/// The memory of an arena, seen as its height. It becomes an `ArenaState` once a ledger is opened
/// for it, which can't fail.
#[derive(Drop)]
pub struct Unopened {
    tree: OrderTree,
    homes: Vec<Page>,
    shells: Vec<Shell>,
}

impl Model for Unopened {
    ghost use Rattle.std.specs.Prelude.{ℕ, vec_len, vec_capacity};
    ghost use Rattle.mq_arena.specs.Stocked.{IsFreshArena};

    ghost Value = { ℕ };

    ghost view = { λ u. u.tree.height };

    ghost invariant = { λ u. IsFreshArena u.tree u.homes.items (vec_len u.shells)
        (vec_capacity u.shells) };
}

fn made_pages(alloc: Global, count: u32) -> Result<Vec<Page>, AllocError>
    ensures { IfOk result (λ pages. pages.items ≡ replicate count (replicate PAGE_LEN 0)) }
{
    let mut pages = Vec::with_capacity(alloc, count as usize)?;
    for _ in 0..count {
        pages.push(Page::zeroed(alloc)?)?;
    }
    Ok(pages)
}

/// That many empty shells, and room for no more.
fn made_shells(alloc: Global, count: u32) -> Result<Vec<Shell>, AllocError>
    ensures count { IfOk result (λ shells. vec_len shells ≡ count) }
    ensures room { IfOk result (λ shells. vec_capacity shells ≡ count) }
{
    let mut shells = Vec::with_capacity(alloc, count as usize)?;
    for _ in 0..count {
        shells.push_reserved(Shell::new(alloc)?);
    }
    Ok(shells)
}

impl Unopened {
    /// An arena of `2 ^ height` pages: fewer than `LEDGER_PARTS`. `Height` where the height is over
    /// `MAX_HEIGHT`, then `Memory`.
    pub fn new(alloc: Global, height: u8) -> Result<Unopened, TreeError>
        ensures ok { IfOk result (λ unopened. unopened ≡ height) }
        ensures parts { IfOk result (λ unopened. 2 ^ unopened < LEDGER_PARTS) }
        ensures err { IsErrOf result TreeError.Height ↔ (MAX_HEIGHT < height) }
    {
        let tree = OrderTree::new(alloc, height)?;
        let Ok(homes) = made_pages(alloc, tree.pages()) else {
            return Err(TreeError::Memory);
        };
        let Ok(shells) = made_shells(alloc, tree.pages()) else {
            return Err(TreeError::Memory);
        };
        Ok(Unopened {
            tree,
            homes,
            shells,
        })
    }

    /// The arena, all pages free. A ledger of more parts than the arena has pages counts for it.
    pub fn open<L: Ledger>(self, ledger: Blank) -> ArenaState<L>
        requires name { ledger.name ≡ L.name }
        requires parts { ledger.parts ≡ L.parts }
        requires enough { 2 ^ self < ledger.parts }
        ensures { result ≡ record { height = self; lent = [] } }
    {
        let Unopened {
            tree,
            homes,
            shells,
        } = self;
        let (out, parts) = ledger.open();
        ArenaState {
            tree,
            homes,
            shells,
            out,
            parts,
        }
    }
}
