//! The ends of a list.
ghost use Rattle.std.specs.Prelude.{◌≡◌, ◌<◌, ◌+◌};
ghost use Rattle.link_arena.specs.Links.{shorter, longer};

use crate::node::Link;

/// The first and last node of a list, with its length.
#[derive(Clone, Copy, Debug)]
pub(crate) struct Ends {
    pub(crate) front: Option<usize>,
    pub(crate) back: Option<usize>,
    pub(crate) count: u32,
}

impl Ends {
    /// Of an empty list.
    pub(crate) const NONE: Ends = Ends {
        front: None,
        back: None,
        count: 0,
    };

    /// Without the node that has this link.
    pub(crate) fn shorter(self, link: Link) -> Ends
        requires { 0 < self.count }
        ensures value { result ≡ shorter self link }
        ensures few { result.count < 4294967295 }
    {
        Ends {
            front: match link.prev {
                None => link.next,
                Some(_) => self.front,
            },
            back: match link.next {
                None => link.prev,
                Some(_) => self.back,
            },
            count: self.count - 1,
        }
    }

    /// With one more node at the end.
    pub(crate) fn longer(self, at: usize) -> Ends
        requires { self.count + 1 < 4294967296 }
        ensures { result ≡ longer self at }
    {
        Ends {
            front: Some(self.front.unwrap_or(at)),
            back: Some(at),
            count: self.count + 1,
        }
    }
}
