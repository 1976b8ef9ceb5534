//! From state to state.
ghost use Rattle.std.specs.Prelude.{◌≡◌, IfOk};
ghost use Rattle.app_meaning.specs.Packets.{is_accept, parse};
ghost use Rattle.tree_eval.specs.Seen.{seen};
ghost use Rattle.tree_parser.specs.Parsed.{parsed};

use crate::state::run_state;
use app_data::{Scope, Value};
use p4_ast::P4State;
use rp_base::NoMemory;
use rp_bits::BitReader;
use sqlite_items::Items;
use std::alloc::Global;

// Whether a name ends the parser.
fn is_accept(name: &[u8]) -> bool
    ensures { result ≡ is_accept name.now }
{
    name == b"accept".as_slice()
}

/// The parser's run of a packet from `start` on; whether the packet is accepted. The values are then those of its headers and of what
/// the states assign, and the bits that no header took are left.
///
/// # Errors
/// `NoMemory`.
pub fn parse(
    alloc: Global,
    sc: Scope<'_>,
    states: &[P4State],
    values: &mut Items<Value>,
    left: &mut BitReader<'_>,
) -> Result<bool, NoMemory>
    ensures { IfOk result (λ accepted. parsed accepted values.new left.new ≡ parse (seen sc.entry) states.now (record { values = values.old; left = left.old })) }
{
    let mut name = b"start".as_slice();
    let mut turns = states.len();
    while !is_accept(name) {
        match run_state(alloc, sc, states, name, values, left)? {
            None => return Ok(false),
            Some(state) => name = state.text.as_slice(),
        }
        if turns == 0 {
            return Ok(false);
        }
        turns -= 1;
    }
    Ok(true)
}
