//! Headers take their fields' bits.
ghost use Rattle.std.specs.Prelude.{◌≡◌, ◌≤◌, Some};
ghost use Rattle.app_meaning.specs.Packets.{extract};
ghost use Rattle.tree_eval.specs.Seen.{seen};
ghost use Rattle.tree_parser.specs.Parsed.{next_bits, field, taken_field, fields, parsed};

use app_data::{Scope, Value};
use rp_bits::BitReader;
use sqlite_items::Items;
use tree_assign::{field_count, set_slot};
use tree_eval::value_in;
use value_ops::{cut, truth};

// The number of the next `w` bits; none where fewer are left.
fn next_bits(left: &mut BitReader<'_>, w: u8) -> Option<u128>
    requires { w ≤ 128 }
    ensures { (result, left.new) ≡ next_bits w left.old }
{
    if w == 0 {
        return Some(0);
    }
    match left.take(w) {
        Ok(n) => Some(n),
        Err(_short) => None,
    }
}

// The next `width` bits as a value; none where fewer are left.
fn field(left: &mut BitReader<'_>, width: u8) -> Option<Value>
    ensures { taken_field result left.new ≡ field width left.old }
{
    next_bits(left, width.saturating_sub(128))?;
    let n = next_bits(left, width.min(128))?;
    Some(cut(width, n))
}

// So many values from this place on take their bits; whether there were enough.
#[tactic(auto, using(crate::proofs::Fields::fields_past))]
fn fields(count: u64, first: usize, values: &mut Items<Value>, left: &mut BitReader<'_>) -> bool
    ensures { parsed result values.new left.new ≡ fields count first (record { values = values.old; left = left.old }) }
{
    let mut more = count;
    let mut i = first;
    while more > 0 && i < values.len() {
        let width = value_in(values.as_slice(), i).width;
        match field(left, width) {
            None => return false,
            Some(v) => values.set(i, v),
        }
        i += 1;
        more -= 1;
    }
    true
}

// The header of this slot takes its fields' bits and becomes valid; whether there were enough of them.
fn extract_at(
    sc: Scope<'_>,
    header: usize,
    values: &mut Items<Value>,
    left: &mut BitReader<'_>,
) -> bool
    ensures { parsed result values.new left.new ≡ extract (seen sc.entry) (Some header) (record { values = values.old; left = left.old }) }
{
    if header < values.len() {
        if !fields(field_count(sc, header), header + 1, values, left) {
            return false;
        }
        set_slot(values, Some(header), truth(true));
    }
    true
}

/// A header takes its fields' bits and becomes valid, nothing where there is no header; whether there were enough of them.
pub(crate) fn extract(
    sc: Scope<'_>,
    header: Option<usize>,
    values: &mut Items<Value>,
    left: &mut BitReader<'_>,
) -> bool
    ensures { parsed result values.new left.new ≡ extract (seen sc.entry) header (record { values = values.old; left = left.old }) }
{
    match header {
        None => true,
        Some(h) => extract_at(sc, h, values, left),
    }
}
