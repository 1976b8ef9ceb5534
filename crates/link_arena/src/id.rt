//! How a node is named from outside.

ghost use Rattle.std.specs.Prelude.{◌≡◌};

use std::marker::Model;

/// The name of a node of an `Arena`. It is the node's from `add` to `remove`, and may be given to another node after that.
/// The default is a name like any other; it may be no node's.
#[derive(Clone, Copy, Debug, Default, PartialEq, Eq)]
pub struct Id {
    place: usize,
}

impl Model for Id {
    ghost use Rattle.std.specs.Prelude.{ℕ};

    ghost Value = { ℕ };

    ghost view = { λ i. i.place };

    ghost inverse = { λ n. record { place = n } };
}

impl Id {
    pub(crate) fn of(place: usize) -> Id
        ensures { result ≡ place }
    {
        Id { place }
    }

    pub(crate) fn of_some(place: Option<usize>) -> Option<Id>
        ensures { result ≡ place }
    {
        match place {
            Some(place) => Some(Id::of(place)),
            None => None,
        }
    }

    pub(crate) fn place(self) -> usize
        ensures { result ≡ self }
    {
        self.place
    }
}
