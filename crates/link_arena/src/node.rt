//! A node, and the links that hold it on its two lists.
ghost use Rattle.std.specs.Prelude.{◌≡◌};
ghost use Rattle.link_arena.specs.Links.{link, with_link};

/// The two kinds of lists. Each node stands on one list of either kind.
#[derive(Clone, Copy, Debug, PartialEq, Eq)]
pub enum Which {
    A,
    B,
}

/// Where a node stands on a list: the list's number, and the nodes before and behind it.
#[derive(Clone, Copy, Debug)]
pub(crate) struct Link {
    pub(crate) list: u32,
    pub(crate) prev: Option<usize>,
    pub(crate) next: Option<usize>,
}

/// A value with its place on two lists.
#[derive(Drop)]
pub(crate) struct Node<T> {
    pub(crate) value: T,
    pub(crate) a: Link,
    pub(crate) b: Link,
}

impl Link {
    /// On no list yet.
    pub(crate) const NONE: Link = Link {
        list: 0,
        prev: None,
        next: None,
    };
}
