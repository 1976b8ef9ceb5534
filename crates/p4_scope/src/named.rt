//! Values by name, in the order in which they came. An ordered map says at which place a name stands, so that no choice of names makes it slow.
ghost use Rattle.std.specs.Prelude.{◌≡◌, ◌∷◌, ◌++◌, [], length, take, bytes_eq, OnOk, None};
ghost use Rattle.std.specs.Map.{lookup};
ghost use Rattle.p4_scope.specs.Index.{at_place, is_there, keeping};

use rp_base::{Bytes, NoMemory};
use std::alloc::Global;
use std::collections::BTreeMap;
use std::marker::Model;

/// Values by name. A place that the map gives is right only where the name stands there: names that were cut off stay in the map.
#[derive(Drop)]
pub struct Named<V> {
    order: Vec<(Bytes, V)>,
    places: BTreeMap<Vec<u8>, usize>,
}

impl<V> Model for Named<V> {
    ghost use Rattle.std.specs.Prelude.{List, ℕ};
    ghost use Rattle.std.specs.Coded.{coded_list, coded×, coded_ℕ};
    ghost use Rattle.std.specs.Ordering.{nat_cmp};
    ghost use Rattle.std.specs.Cmp.Lexicographic.{slice_cmp};
    ghost use Rattle.std.specs.BTreeMap.{get_by};
    ghost use Rattle.p4_scope.specs.Index.{IsIndex};

    ghost Value = { List (List ℕ × V) };

    ghost coded = { coded_list (coded× (coded_list coded_ℕ) V.code) };

    ghost view = { λ n. n.order.items };

    ghost invariant = { λ n. IsIndex n.order.items (λ x. get_by (λ k. slice_cmp nat_cmp x k.items) n.places) };
}

// The value of a name that can stand at this place alone.
fn value_at<V: Copy>(name: &[u8], order: &[(Bytes, V)], place: Option<usize>) -> Option<V>
    ensures { result ≡ at_place name.now order.now place }
{
    match place {
        None => None,
        Some(place) => match order.get(place) {
            None => None,
            Some((text, value)) => {
                if name == text.as_slice() {
                    Some(*value)
                } else {
                    None
                }
            }
        },
    }
}

impl<V: Copy + Drop> Named<V> {
    /// No names.
    pub fn new(alloc: Global) -> Named<V>
        ensures { result ≡ [] }
    {
        Named {
            order: Vec::new(alloc),
            places: BTreeMap::new(alloc),
        }
    }

    /// The value of a name.
    pub fn find(&self, name: &[u8]) -> Option<V>
        ensures { result ≡ lookup (bytes_eq name.now) self.now }
    {
        value_at(name, self.order.as_slice(), self.places.get(name).copied())
    }

    /// Adds a value under a name that has none.
    ///
    /// # Errors
    /// `NoMemory`.
    pub fn add(&mut self, alloc: Global, name: &[u8], value: V) -> Result<(), NoMemory>
        requires { lookup (bytes_eq name.now) self.old ≡ None }
        ensures { OnOk result (self.new ≡ self.old ++ (name.now, value) ∷ []) }
    {
        let mut text = Bytes::new(alloc);
        text.append(name)?;
        let key = Vec::from_slice(alloc, name)?;
        self.order.reserve(1)?;
        let place = self.order.len();
        self.places.insert(key, place)?;
        self.order.push((text, value))?;
        Ok(())
    }

    /// Whether a name has a value.
    pub fn is_there(&self, name: &[u8]) -> bool
        ensures { result ≡ is_there name.now self.now }
    {
        self.find(name).is_some()
    }

    /// Adds a value under a name, unless it has one.
    ///
    /// # Errors
    /// `NoMemory`.
    pub fn keep(&mut self, alloc: Global, name: &[u8], value: V) -> Result<(), NoMemory>
        ensures { OnOk result (self.new ≡ keeping name.now value self.old) }
    {
        if self.find(name).is_none() {
            self.add(alloc, name, value)?;
        }
        Ok(())
    }

    /// How many names.
    pub fn len(&self) -> usize
        ensures { result ≡ length self.now }
    {
        self.order.len()
    }

    /// Keeps the first of them.
    pub fn cut(&mut self, len: usize)
        ensures { self.new ≡ take len self.old }
    {
        self.order.truncate(len);
    }
}
