//! Lists of one kind: a node is taken off its list, or put last on one.
ghost use Rattle.std.specs.Prelude.{◌≡◌, ◌<◌, IfSome, length};
ghost use Rattle.slab.specs.Slab.{ContainsKey};
ghost use Rattle.link_arena.specs.Links.{link, with_link, edited, put_next, put_prev, put_place, of_kind, list_at, lists_of, InOrder, IsLoose, TakenOff, PutLast, MovedLast};

use crate::ends::Ends;
use crate::node::{Link, Node, Which};
use slab::Slab;

impl<T> Node<T> {
    pub(crate) fn link(&self, which: Which) -> Link
        ensures { result ≡ link which self.now }
    {
        match which {
            Which::A => self.a,
            Which::B => self.b,
        }
    }

    fn set_link(&mut self, which: Which, link: Link)
        ensures { self.new ≡ with_link which self.old link }
    {
        match which {
            Which::A => self.a = link,
            Which::B => self.b = link,
        }
    }
}

// What stands behind `at`, if that is a node, is `next` from now on.
fn set_next<T>(nodes: &mut Slab<Node<T>>, which: Which, at: Option<usize>, next: Option<usize>)
    requires { IfSome at (λ x. ContainsKey nodes.old x) }
    ensures { nodes.new ≡ edited which (put_next next) nodes.old at }
{
    if let Some(at) = at {
        let node = &mut nodes[at];
        let link = node.link(which);
        node.set_link(which, Link { next, ..link });
    }
}

fn set_prev<T>(nodes: &mut Slab<Node<T>>, which: Which, at: Option<usize>, prev: Option<usize>)
    requires { IfSome at (λ x. ContainsKey nodes.old x) }
    ensures { nodes.new ≡ edited which (put_prev prev) nodes.old at }
{
    if let Some(at) = at {
        let node = &mut nodes[at];
        let link = node.link(which);
        node.set_link(which, Link { prev, ..link });
    }
}

fn set_place<T>(nodes: &mut Slab<Node<T>>, which: Which, at: usize, list: u32, prev: Option<usize>)
    requires { ContainsKey nodes.old at }
    ensures { nodes.new ≡ edited which (put_place list prev) nodes.old (Some at) }
{
    let next = None;
    nodes[at].set_link(which, Link { list, prev, next });
}

/// The ends of the lists of one kind.
pub(crate) fn ends_of_kind<'a>(which: Which, a: &'a [Ends], b: &'a [Ends]) -> &'a [Ends]
    ensures { result.now ≡ of_kind which a.now b.now }
{
    match which {
        Which::A => a,
        Which::B => b,
    }
}

/// Takes a node off its list. The node itself keeps its old link.
pub(crate) fn take_off<T>(
    nodes: &mut Slab<Node<T>>,
    ends: &mut Vec<Ends>,
    which: Which,
    at: usize,
) -> u32
    requires order { InOrder which nodes.old ends.old.items }
    requires there { ContainsKey nodes.old at }
    ensures taken { TakenOff which nodes.old ends.old.items at result nodes.new ends.new.items }
    ensures room { length (list_at (lists_of which nodes.new ends.new.items) result) < 4294967295 }
{
    let link = nodes[at].link(which);
    set_next(nodes, which, link.prev, link.next);
    set_prev(nodes, which, link.next, link.prev);
    let list = link.list as usize;
    ends[list] = ends[list].shorter(link);
    link.list
}

/// Puts a node that stands on no list last on this one.
pub(crate) fn put_last<T>(
    nodes: &mut Slab<Node<T>>,
    ends: &mut Vec<Ends>,
    which: Which,
    list: u32,
    at: usize,
)
    requires loose { IsLoose which nodes.old ends.old.items at }
    requires there { ContainsKey nodes.old at }
    requires list { list < length ends.old.items }
    requires room { length (list_at (lists_of which nodes.old ends.old.items) list) < 4294967295 }
    ensures { PutLast which nodes.old ends.old.items list at nodes.new ends.new.items }
{
    let i = list as usize;
    let back = ends[i].back;
    set_next(nodes, which, back, Some(at));
    set_place(nodes, which, at, list, back);
    ends[i] = ends[i].longer(at);
}

/// Moves a node to the end of its list, and gives the list's number.
pub(crate) fn move_last<T>(
    nodes: &mut Slab<Node<T>>,
    ends: &mut Vec<Ends>,
    which: Which,
    at: usize,
) -> u32
    requires order { InOrder which nodes.old ends.old.items }
    requires there { ContainsKey nodes.old at }
    ensures { MovedLast which nodes.old ends.old.items at result nodes.new ends.new.items }
{
    let list = take_off(nodes, ends, which, at);
    put_last(nodes, ends, which, list, at);
    list
}
