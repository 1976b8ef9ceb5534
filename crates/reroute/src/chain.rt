//! Chains of replicas, listed head first.
ghost use Rattle.std.specs.Prelude.{◌≡◌, ◌≤◌, ◌<◌, ◌==◌, not, true, filter, length};
ghost use Rattle.std.specs.List.{list_any};
ghost use Rattle.proto_model.specs.World.{below};

use proto_data::Chain;

/// The chain of so many replicas, in order of number.
pub(crate) fn whole(replicas: u8) -> Chain
    requires { replicas ≤ 5 }
    ensures { result ≡ below replicas }
{
    let mut chain = Chain::new();
    for n in 0..replicas {
        chain.push(n);
    }
    chain
}

/// Whether a chain has this member.
pub(crate) fn has(members: &[u8], n: u8) -> bool
    ensures { result ≡ list_any (λ m. m == n) members.now }
{
    members.iter().any(|m| *m == n)
}

/// A chain of at most 5 members without this one.
pub(crate) fn without(members: &[u8], n: u8) -> Chain
    requires { length members.now ≤ 5 }
    ensures { result ≡ filter (λ m. not (m == n)) members.now }
{
    let mut chain = Chain::new();
    for m in members {
        if *m != n {
            chain.push(*m);
        }
    }
    chain
}
