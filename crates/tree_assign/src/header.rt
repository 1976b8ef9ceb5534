//! Headers that become valid or invalid.
ghost use Rattle.std.specs.Prelude.{◌≡◌, suc, set, map};
ghost use Rattle.app_meaning.specs.Assigning.{header_of, is_invalid, zeroed, field_count, validate};
ghost use Rattle.app_meaning.specs.Values.{truth};
ghost use Rattle.app_meaning.specs.Slots.{text};
ghost use Rattle.tree_eval.specs.Seen.{seen};

use crate::slots::put;
use app_data::{Scope, Value};
use p4_ast::{P4Name, P4Validity};
use sqlite_items::Items;
use tree_eval::{place, value_in};
use value_ops::{cut, truth};

/// The number of the slot of the header whose field a path is; a path of a field has three names.
#[tactic(auto, using(crate::proofs::Zeroed::header_is, crate::proofs::Zeroed::header_none))]
pub fn header_of(sc: Scope<'_>, names: &[P4Name]) -> Option<usize>
    ensures { result ≡ header_of (seen sc.entry) (map text names.now) }
{
    if names.len() != 3 {
        return None;
    }
    place(sc.slots, &names[..2])
}

/// Whether a header isn't valid, where it is one.
pub fn is_invalid(values: &[Value], header: Option<usize>) -> bool
    ensures { result ≡ is_invalid values.now header }
{
    match header {
        None => false,
        Some(h) => value_in(values, h).number != 1,
    }
}

// So many values from this place on are made 0.
#[tactic(auto, using(crate::proofs::Zeroed::zeroed_past, crate::proofs::Zeroed::zeroed_more))]
fn zero_from(count: u64, first: usize, values: &mut Items<Value>)
    ensures { values.new ≡ zeroed count first values.old }
{
    let mut left = count;
    let mut i = first;
    while left > 0 && i < values.len() {
        let width = value_in(values.as_slice(), i).width;
        values.set(i, cut(width, 0));
        i += 1;
        left -= 1;
    }
}

/// How many fields the header of this slot has.
pub fn field_count(sc: Scope<'_>, header: usize) -> u64
    ensures { result ≡ field_count (seen sc.entry) header }
{
    match sc.slots.get(header) {
        Some(s) => s.fields,
        None => 0,
    }
}

/// The fields of a header are made 0, so many, and its bit is `valid`; nothing where there is no such slot.
#[tactic(auto, using(crate::proofs::Zeroed::renewed_past))]
pub fn renew(fields: u64, header: usize, valid: bool, values: &mut Items<Value>)
    ensures { values.new ≡ set (zeroed fields (suc header) values.old) header (truth valid) }
{
    if header < values.len() {
        zero_from(fields, header + 1, values);
        put(values, header, truth(valid));
    }
}

/// A header becomes valid or invalid; where it was so before, a valid one is left as it is. Nothing where there is no header.
pub fn validate(sc: Scope<'_>, v: P4Validity, header: Option<usize>, values: &mut Items<Value>)
    ensures { values.new ≡ validate (seen sc.entry) v header values.old }
{
    if let Some(h) = header {
        match v {
            P4Validity::SetInvalid => renew(field_count(sc, h), h, false, values),
            P4Validity::SetValid => {
                if value_in(values.as_slice(), h).number != 1 {
                    renew(field_count(sc, h), h, true, values);
                }
            }
        }
    }
}
