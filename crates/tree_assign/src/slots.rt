//! Values in their slots.
ghost use Rattle.std.specs.Prelude.{◌≡◌, ◌<◌, ◌≤◌, length, set};
ghost use Rattle.app_meaning.specs.Assigning.{set_slot};

use app_data::Value;
use sqlite_items::Items;

/// A value in the slot of this number; nothing where there is no such slot.
#[tactic(auto, using(crate::proofs::Zeroed::put_past))]
pub fn put(values: &mut Items<Value>, i: usize, v: Value)
    ensures { values.new ≡ set values.old i v }
{
    if i < values.len() {
        values.set(i, v);
    }
}

/// A value in its slot; nothing where there is no slot.
pub fn set_slot(values: &mut Items<Value>, slot: Option<usize>, v: Value)
    ensures { values.new ≡ set_slot values.old slot v }
{
    if let Some(i) = slot {
        put(values, i, v);
    }
}
