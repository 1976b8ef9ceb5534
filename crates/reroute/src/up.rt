//! The switches that are believed up, and the sum of a key's bytes, by which one of them is picked.
ghost use Rattle.std.specs.Prelude.{◌≡◌, ◌≤◌, length, sum, option_map};
ghost use Rattle.proto_model.specs.Routing.{key_sum};
ghost use Rattle.reroute.specs.Routes.{switches_up};

use arrayvec::ArrayVec;
use rp_base::Key;

/// The numbers of the switches that are believed up, of at most 8, in order.
pub(crate) fn switches_up(believed: &[bool]) -> ArrayVec<u8, 8>
    requires { length believed.now ≤ 8 }
    ensures { result.items ≡ switches_up believed.now }
{
    let mut up = ArrayVec::new();
    for n in 0..believed.len() {
        if believed[n] {
            up.push(n as u8);
        }
    }
    up
}

// The sum of at most 16 bytes.
fn byte_sum(bytes: &[u8]) -> usize
    requires { length bytes.now ≤ 16 }
    ensures { result ≡ sum bytes.now }
{
    let mut total = 0;
    for b in bytes {
        total += *b as usize;
    }
    total
}

/// The sum of a key's bytes; that of no key is 0.
pub(crate) fn key_sum(key: Option<&Key>) -> usize
    ensures { result ≡ key_sum (option_map (λ k. k.now) key.entry) }
{
    match key {
        None => 0,
        Some(key) => byte_sum(key.as_slice()),
    }
}
