//! The values that a packet starts with.
ghost use Rattle.std.specs.Prelude.{◌≡◌, map, IfOk};
ghost use Rattle.app_meaning.specs.Values.{cut};
ghost use Rattle.app_meaning.specs.Programs.{with_held, first_values};
ghost use Rattle.tree_eval.specs.Seen.{seen};

use app_data::{Scope, Slot, Value};
use p4_ast::{P4Param, P4Program};
use rp_base::{NoMemory, Packet};
use sqlite_items::Items;
use std::alloc::Global;
use tree_assign::set_slot;
use tree_deparser::std_slot;
use value_ops::cut;

// A zero for each slot.
fn zeros(alloc: Global, slots: &[Slot]) -> Result<Items<Value>, NoMemory>
    ensures { IfOk result (λ values. values ≡ map (λ s. cut s.width 0) slots.now) }
{
    let mut values = Items::new(alloc);
    for s in slots {
        values.push(cut(s.width, 0))?;
    }
    Ok(values)
}

// `held` gets its value where there is a fourth parameter.
fn hold(rp: &Option<P4Param>, sc: Scope<'_>, held: u128, values: &mut Items<Value>)
    ensures { values.new ≡ with_held rp.now (seen sc.entry) held values.old }
{
    if let Some(rp) = rp {
        let slot = std_slot(sc, &rp.name, b"held".as_slice());
        set_slot(values, slot, cut(1, held));
    }
}

/// The values that a packet starts with: zeros, but for its port and `held`.
///
/// # Errors
/// `NoMemory`.
pub fn first_values(
    alloc: Global,
    p: &P4Program,
    sc: Scope<'_>,
    held: u128,
    packet: &Packet,
) -> Result<Items<Value>, NoMemory>
    ensures { IfOk result (λ values. values ≡ first_values p.now (seen sc.entry) held packet.now) }
{
    let mut values = zeros(alloc, sc.slots)?;
    let slot = std_slot(sc, &p.ingress.std, b"in_port".as_slice());
    set_slot(&mut values, slot, cut(16, packet.port as u128));
    hold(&p.ingress.rp, sc, held, &mut values);
    Ok(values)
}
