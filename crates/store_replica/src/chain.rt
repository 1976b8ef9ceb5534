//! Places in a chain of replicas, which is listed head first.
ghost use Rattle.std.specs.Prelude.{◌≡◌, ◌==◌};
ghost use Rattle.std.specs.List.{list_any};
ghost use Rattle.proto_model.specs.ReplicaState.{is_head_of, is_tail_of, last_of, predecessor_of, successor_of};

/// Whether the chain has this member.
pub(crate) fn has_member(members: &[u8], n: u8) -> bool
    ensures { result ≡ list_any (λ m. m == n) members.now }
{
    match members {
        [] => false,
        [first, rest @ ..] => *first == n || has_member(rest, n),
    }
}

/// Whether this is the first member.
pub(crate) fn is_head(members: &[u8], n: u8) -> bool
    ensures { result ≡ is_head_of members.now n }
{
    match members {
        [] => false,
        [first, ..] => *first == n,
    }
}

/// Whether this is the last member.
pub(crate) fn is_tail(members: &[u8], n: u8) -> bool
    ensures { result ≡ is_tail_of members.now n }
{
    match members {
        [] => false,
        [first, rest @ ..] => match rest {
            [] => *first == n,
            [_, ..] => is_tail(rest, n),
        },
    }
}

/// The last member, if there is one.
pub(crate) fn tail(members: &[u8]) -> Option<u8>
    ensures { result ≡ last_of members.now }
{
    match members {
        [] => None,
        [first, rest @ ..] => match rest {
            [] => Some(*first),
            [_, ..] => tail(rest),
        },
    }
}

/// The member behind this one, if there is one.
pub(crate) fn successor(members: &[u8], n: u8) -> Option<u8>
    ensures { result ≡ successor_of members.now n }
{
    match members {
        [] => None,
        [first, rest @ ..] => match rest {
            [] => None,
            [second, ..] => {
                if *first == n {
                    Some(*second)
                } else {
                    successor(rest, n)
                }
            }
        },
    }
}

/// The member before this one, if there is one.
pub(crate) fn predecessor(members: &[u8], n: u8) -> Option<u8>
    ensures { result ≡ predecessor_of members.now n }
{
    match members {
        [] => None,
        [first, rest @ ..] => match rest {
            [] => None,
            [second, ..] => {
                if *second == n {
                    Some(*first)
                } else {
                    predecessor(rest, n)
                }
            }
        },
    }
}
