//! The arena: its nodes stand in one table, the ends of its lists beside it.
ghost use Rattle.std.specs.Prelude.{◌≡◌, ◌<◌, ◌↔◌, Some, IfOk, IfErr, IsErr, [], length, replicate, slice_index_or, sum_by};
ghost use Rattle.std.specs.Borrow.{Lends, sem};

use crate::chain::{ends_of_kind, move_last, put_last, take_off};
use crate::ends::Ends;
use crate::id::Id;
use crate::node::{Link, Node, Which};
use rp_base::NoMemory;
use slab::Slab;
use std::alloc::Global;
use std::marker::Model;

/// As many nodes are live as there is room for.
#[derive(Clone, Copy, Debug, PartialEq, Eq)]
pub struct Full;

/// Nodes with values, each on one list of kind A and on one of kind B.
///
/// A list is seen as the pairs of its nodes' names and values, in order. Memory is taken when the arena is made and never again, and no call's
/// time grows with the number of nodes or lists.
#[derive(Drop)]
pub struct Arena<T> {
    nodes: Slab<Node<T>>,
    lists_a: Vec<Ends>,
    lists_b: Vec<Ends>,
    room: u32,
}

impl<T> Model for Arena<T> {
    ghost use Rattle.link_arena.specs.Lists.{Lists, lists_code};

    ghost Value = { Lists T };

    ghost coded = { lists_code T.code };

    ghost use Rattle.link_arena.specs.Links.{seen, IsSound};

    ghost view = { λ s. seen s.nodes s.lists_a.items s.lists_b.items s.room };

    ghost invariant = { λ s. IsSound s.nodes s.lists_a.items s.lists_b.items s.room };
}

impl<T> Arena<T> {
    ghost use Rattle.link_arena.specs.Lists.{lists, live, IsLive, IsFree, find_in, value_of, first_id, next_in, with_node, without_node, with_moved, with_value};
    ghost use Rattle.link_arena.specs.contracts.arena.Arena.{the_row};

    /// Room for `room` nodes, and so many empty lists of either kind.
    ///
    /// # Errors
    /// `NoMemory`.
    pub fn with_room(
        alloc: Global,
        room: u32,
        lists_a: u32,
        lists_b: u32,
    ) -> Result<Arena<T>, NoMemory>
        ensures { IfOk result (λ made. made ≡ record { a = replicate lists_a []; b = replicate lists_b []; room = room }) }
    {
        let lists_a = vec![in alloc; Ends::NONE; lists_a as usize]?;
        let lists_b = vec![in alloc; Ends::NONE; lists_b as usize]?;
        Ok(Arena {
            nodes: Slab::with_capacity(alloc, room as usize)?,
            lists_a,
            lists_b,
            room,
        })
    }

    /// Adds a node, last on list `a` of kind A and last on list `b` of kind B. The list numbers are in range.
    ///
    /// # Errors
    /// `Full` with the value, exactly where as many nodes are live as there is room for; the arena is unchanged.
    pub fn add(&mut self, a: u32, b: u32, value: T) -> Result<Id, (Full, T)>
        requires a { a < length self.old.a }
        requires b { b < length self.old.b }
        ensures full { IsErr result ↔ (live self.old ≡ self.old.room) }
        ensures both { live self.old ≡ sum_by length self.old.b }
        ensures free { IfOk result (λ id. IsFree self.old id) }
        ensures ok { IfOk result (λ id. self.new ≡ with_node self.old a b id value) }
        ensures err { IfErr result (λ back. (back.1 ≡ value) × (self.new ≡ self.old)) }
    {
        if self.nodes.len() >= self.room as usize {
            return Err((Full, value));
        }
        let node = Node {
            value,
            a: Link::NONE,
            b: Link::NONE,
        };
        let at = self.nodes.insert_reserved(node);
        put_last(&mut self.nodes, &mut self.lists_a, Which::A, a, at);
        put_last(&mut self.nodes, &mut self.lists_b, Which::B, b, at);
        Ok(Id::of(at))
    }

    /// Takes a node off both its lists, and gives its value. The node is live.
    pub fn remove(&mut self, id: Id) -> T
        requires { IsLive self.old id }
        ensures lists { self.new ≡ without_node self.old id }
        ensures value { value_of self.old id ≡ Some result }
    {
        let at = id.place();
        take_off(&mut self.nodes, &mut self.lists_a, Which::A, at);
        take_off(&mut self.nodes, &mut self.lists_b, Which::B, at);
        let node = self.nodes.remove(at);
        node.value
    }

    /// Moves a node to the end of its list of this kind. The node is live.
    pub fn move_to_back(&mut self, which: Which, id: Id)
        requires { IsLive self.old id }
        ensures { self.new ≡ with_moved which self.old id }
    {
        match which {
            Which::A => {
                move_last(&mut self.nodes, &mut self.lists_a, which, id.place());
            }
            Which::B => {
                move_last(&mut self.nodes, &mut self.lists_b, which, id.place());
            }
        }
    }

    /// The first node of a list; `None` exactly where the list is empty. The list number is in range.
    pub fn front(&self, which: Which, list: u32) -> Option<Id>
        requires { list < length (lists which self.now) }
        ensures { result ≡ first_id (slice_index_or (lists which self.now) list []) }
    {
        Id::of_some(ends_of_kind(which, &self.lists_a, &self.lists_b)[list as usize].front)
    }

    /// How many nodes a list has. The list number is in range.
    pub fn count(&self, which: Which, list: u32) -> u32
        requires { list < length (lists which self.now) }
        ensures { result ≡ length (slice_index_or (lists which self.now) list []) }
    {
        ends_of_kind(which, &self.lists_a, &self.lists_b)[list as usize].count
    }

    /// The node behind this one on its list of this kind; `None` exactly where it is the last one. The node is live.
    pub fn next(&self, which: Which, id: Id) -> Option<Id>
        requires { IsLive self.now id }
        ensures { result ≡ next_in id (lists which self.now) }
    {
        Id::of_some(self.nodes[id.place()].link(which).next)
    }

    /// The value of a node. The node is live.
    pub fn get(&self, id: Id) -> &T
        requires { IsLive self.now id }
        ensures a { find_in id self.now.a ≡ Some result.now }
        ensures b { find_in id self.now.b ≡ Some result.now }
    {
        &self.nodes[id.place()].value
    }

    /// The value of a node, to be written. The node is live.
    pub fn get_mut(&mut self, id: Id) -> &mut T
        requires { IsLive self.old id }
        ensures* lends { sem 𝓛 (Lends (the_row T.row) T.row self.entry result (with_value self.old id)) }
        ensures value { value_of self.old id ≡ Some result.now }
    {
        &mut self.nodes[id.place()].value
    }
}
