//! A table by key over an `IndexMap`, seen as the list of its keys with their values.
ghost use Rattle.std.specs.Prelude.{◌≡◌, ◌<◌, ◌↔◌, [], Option, None, length, map, option_map, slice_get, is_some, IfOk, IfSome, OnOk, OnErr, OnSome, IsSome};
ghost use Rattle.std.specs.Borrow.{LendsSo, sem};
ghost use Rattle.std.specs.List.{position};
ghost use Rattle.std.specs.Map.Iter.{deref_pair};
ghost use Rattle.std.specs.Option.{option_copied, option_copied_mut};
ghost use Rattle.key_table.specs.Table.{get, put, keys, same_key};
ghost use Rattle.key_table.specs.contracts.table.KeyTable.{the_row};

use indexmap::IndexMap;
use rp_base::{Key, NoMemory};
use std::alloc::Global;
use std::marker::Model;

/// Values by key, in the order in which the keys came. A key has one value.
#[derive(Drop)]
pub struct KeyTable<V> {
    rows: IndexMap<Key, V>,
}

impl<V> Model for KeyTable<V> {
    ghost use Rattle.std.specs.Coded.{coded_list, coded×, coded_ℕ};
    ghost use Rattle.key_table.specs.Table.{Table};

    ghost Value = { Table V };

    ghost coded = { coded_list (coded× (coded_list coded_ℕ) V.code) };

    ghost view = { λ t. t.rows.entries };
}

impl<V> KeyTable<V> {
    /// No key has a value. Takes no memory.
    pub fn new(alloc: Global) -> KeyTable<V>
        ensures { result ≡ [] }
    {
        KeyTable {
            rows: IndexMap::new(alloc),
        }
    }

    /// How many keys have a value.
    pub fn len(&self) -> usize
        ensures { result ≡ length self.now }
    {
        self.rows.len()
    }

    /// The value of a key, if there is one.
    pub fn get(&self, key: &Key) -> Option<&V>
        ensures { option_copied result ≡ get self.now key.now }
    {
        self.rows.get(key)
    }

    /// The key at a place, counted from 0, with its value; `None` exactly at or past the length.
    pub fn at(&self, place: usize) -> Option<(&Key, &V)>
        ensures { option_map deref_pair result ≡ slice_get self.now place }
    {
        self.rows.get_index(place)
    }

    /// The value of a key, if there is one, to write.
    pub fn get_mut(&mut self, key: &Key) -> Option<&mut V>
        ensures* writes_back { sem 𝓛 (LendsSo (the_row V.row) V.row self.entry result (λ new v. OnSome result (new ≡ put self.old key.now v)) (λ new. new ≡ self.old)) }
        ensures value { option_copied_mut result ≡ get self.old key.now }
    {
        self.rows.get_mut(key)
    }

    /// The key has this value from now on; a new key comes last. Gives the value that it had.
    ///
    /// # Errors
    /// `NoMemory`; nothing changes. It comes for a new key alone.
    pub fn put(&mut self, key: Key, value: V) -> Result<Option<V>, NoMemory>
    where
        V: Drop,
        ensures ok { OnOk result (self.new ≡ put self.old key value) }
        ensures old { IfOk result (λ old. old ≡ get self.old key) }
        ensures err { OnErr result (self.new ≡ self.old) }
        ensures new { OnErr result (get self.old key ≡ None) }
    {
        Ok(self.rows.insert(key, value)?)
    }
}
