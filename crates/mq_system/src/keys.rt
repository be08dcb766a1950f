//! The key table and its lock. msgget(2) and IPC_RMID hold it throughout, so that a key is entered
//! with its queue and forgotten with it.

ghost use Rattle.std.specs.Prelude.{◌≡◌, ◌<◌, [], None, IfSome, All};
ghost use Rattle.mq_table.specs.Ids.{slot_of};
ghost use Rattle.mq_table.specs.Keys.{id_of_key, forget_key, AreKeys};
ghost use Rattle.mq_system.specs.Shared.{AreWithin};

use crate::Names;
use mq_table::{Id, KeyTable};
use std::alloc::Global;
use std::marker::{Model, PhantomData};
use std::sync::{Mutex, MutexGuard, Wait};

/// The keys of a system's queues, under their lock. Each id is of one of the system's slots.
#[derive(Drop)]
pub struct Keys<N: Names> {
    pub(crate) table: KeyTable,
    names: PhantomData<N>,
}

impl<N: Names> Model for Keys<N> {
    ghost use Rattle.std.specs.Prelude.{List, ℤ, ℕ};
    ghost use Rattle.mq_system.specs.Shared.{AreWithin};

    ghost Value = { List (ℤ × ℕ) };

    ghost view = { λ keys. keys.table };

    ghost invariant = { λ keys. AreWithin N.slots keys.table };
}

impl<N: Names> Keys<N> {
    pub fn new(alloc: Global) -> Keys<N>
        ensures { result ≡ [] }
    {
        Keys {
            table: KeyTable::new(alloc),
            names: PhantomData,
        }
    }

    /// What holds of the keys: none is there twice or is 0, and each id's slot is one of the
    /// system's.
    pub fn holds(&self)
        ensures keys { AreKeys self.now }
        ensures within { AreWithin N.slots self.now }
    {
        self.table.holds();
    }

    /// The id of the queue with this key, if there is one.
    pub fn look(&self, key: i32) -> Option<Id>
        ensures value { result ≡ id_of_key self.now key }
        ensures within { IfSome result (λ id. slot_of id < N.slots) }
    {
        self.table.look(key)
    }

    /// Takes out the entry with this key, if there is one.
    pub fn forget_key(&mut self, key: i32)
        ensures left { self.new ≡ forget_key key self.old }
        ensures absent { id_of_key self.new key ≡ None }
    {
        self.table.forget_key(key);
    }
}

/// The keys' lock. Only a call that may wait can take it, and none can try it.
#[derive(Drop)]
pub(crate) struct KeyLock<N: Names> {
    held: Mutex<Keys<N>>,
}

impl<N: Names> KeyLock<N> {
    pub(crate) fn new(keys: Keys<N>) -> KeyLock<N> {
        KeyLock {
            held: Mutex::new(keys),
        }
    }

    pub(crate) fn lock<R: Wait>(&self, rt: &R) -> MutexGuard<'_, Keys<N>> {
        self.held.lock(rt)
    }
}
