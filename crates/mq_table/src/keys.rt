//! The map from keys to ids, in which msgget(2) finds the queue of a key.

ghost use Rattle.std.specs.Prelude.{◌≡◌, ◌≢◌, ◌<◌, ◌==◌, ℤ, ℕ, not, ◌++◌, ◌∷◌, [], None, Some, pos, length, slice_get};
ghost use Rattle.std.specs.Prelude.{MatchResult};
ghost use Rattle.std.specs.Option.{option_map};
ghost use Rattle.std.specs.Ordering.{int_eq};
ghost use Rattle.mq_table.specs.Keys.{id_of_key, forget, forget_key, AreKeys};

use crate::{Id, KeyEntry};
use indexmap::IndexMap;
use std::alloc::{AllocError, Global};
use std::marker::Model;

/// The keys of the live queues, seen as the list of each key with its queue's id, in the order in
/// which the queues were made.
#[derive(Drop)]
pub struct KeyTable {
    ids: IndexMap<i32, Id>,
}

impl Model for KeyTable {
    ghost use Rattle.std.specs.Prelude.{ℤ, ℕ, List};
    ghost use Rattle.mq_table.specs.Keys.{AreKeys};

    ghost Value = { List (ℤ × ℕ) };

    ghost view = { λ table. table.ids.entries };

    ghost invariant = { λ table. AreKeys table.ids.entries };
}

impl KeyTable {
    pub fn new(alloc: Global) -> KeyTable
        ensures { result ≡ [] }
    {
        KeyTable {
            ids: IndexMap::new(alloc),
        }
    }

    /// The invariant: no key is there twice, and none is 0.
    pub fn holds(&self)
        ensures { AreKeys self.now }
    {
        let _ = &self.ids;
    }

    /// The id of the queue with this key, if there is one.
    pub fn look(&self, key: i32) -> Option<Id>
        ensures { result ≡ id_of_key self.now key }
    {
        self.ids.get(&key).copied()
    }

    /// Puts a key that is not in the table last.
    pub fn enter(&mut self, key: i32, id: Id) -> Result<(), AllocError>
        requires key { key ≢ pos 0 }
        requires absent { id_of_key self.old key ≡ None }
        ensures { MatchResult result (λ _. self.new ≡ self.old ++ (key, id) ∷ [])
            (λ _. self.new ≡ self.old) }
    {
        self.ids.insert(key, id)?;
        Ok(())
    }

    /// Takes out each entry with this id. The others keep their order.
    pub fn forget(&mut self, id: Id)
        ensures { self.new ≡ forget id self.old }
    {
        self.ids.retain(
            |_key: &i32, entry: &mut Id| -> bool
                ensures { (result ≡ not (entry.old == id)) × (entry.new ≡ entry.old) }
            { *entry != id },
        );
    }

    /// Takes out the entry with this key, if there is one. The others keep their order.
    pub fn forget_key(&mut self, key: i32)
        ensures left { self.new ≡ forget_key key self.old }
        ensures absent { id_of_key self.new key ≡ None }
    {
        self.ids.retain(
            |entry: &i32, id: &mut Id| -> bool
                ensures { (result ≡ not (int_eq entry.now key)) × (id.new ≡ id.old) }
            { *entry != key },
        );
    }

    /// Takes out the entry that was entered last.
    pub(crate) fn drop_last(&mut self)
        requires { 0 < length self.old }
        ensures { (entry : ℤ × ℕ) × (self.old ≡ self.new ++ entry ∷ []) }
    {
        let _last = self.ids.pop();
    }

    pub fn len(&self) -> usize
        ensures { result ≡ length self.now }
    {
        self.ids.len()
    }

    /// The entry at an index.
    pub fn entry(&self, i: usize) -> Option<KeyEntry>
        ensures { option_map (λ e. (e.key, e.id)) result ≡ slice_get self.now i }
    {
        let (key, id) = self.ids.get_index(i)?;
        Some(KeyEntry { key: *key, id: *id })
    }
}
