//! The fields of the parameter of type `std_t`.
ghost use Rattle.std.specs.Prelude.{◌≡◌};
ghost use Rattle.std.specs.List.{position};
ghost use Rattle.app_meaning.specs.Slots.{path_eq, slot_of, path_value};
ghost use Rattle.app_meaning.specs.Programs.{std_path};
ghost use Rattle.tree_eval.specs.Seen.{seen};

use app_data::{Scope, Slot, Value};
use p4_ast::P4Name;
use rp_base::Bytes;
use tree_eval::value_in;

// Whether a slot's path is that of a field of the parameter `std`.
#[tactic(auto, using(crate::proofs::Paths::short_path, crate::proofs::Paths::long_path))]
fn is_std(path: &[Bytes], std: &P4Name, field: &[u8]) -> bool
    ensures { result ≡ path_eq path.now (std_path std.now field.now) }
{
    match path {
        [s, f] => s.as_slice() == std.text.as_slice() && f.as_slice() == field,
        _ => false,
    }
}

fn position_of_std(slots: &[Slot], std: &P4Name, field: &[u8]) -> Option<usize>
    ensures { result ≡ position (λ s. path_eq s.path (std_path std.now field.now)) slots.now }
{
    slots
        .iter()
        .position(|s| is_std(s.path.as_slice(), std, field))
}

/// The number of the slot of a field of the parameter `std`, if it has one.
pub fn std_slot(sc: Scope<'_>, std: &P4Name, field: &[u8]) -> Option<usize>
    ensures { result ≡ slot_of (seen sc.entry) (std_path std.now field.now) }
{
    position_of_std(sc.slots, std, field)
}

/// The value of a field of the parameter `std`; 0 of no width where there is no such field.
pub fn std_value(sc: Scope<'_>, std: &P4Name, field: &[u8], values: &[Value]) -> Value
    ensures { result ≡ path_value (seen sc.entry) values.now (std_path std.now field.now) }
{
    match std_slot(sc, std, field) {
        Some(i) => value_in(values, i),
        None => Value {
            width: 0,
            number: 0,
        },
    }
}
