//! The bits of values.
ghost use Rattle.std.specs.Prelude.{◌≡◌, ◌≤◌, ◌-◌, ◌++◌, OnOk};
ghost use Rattle.rp_bits.specs.Bits.{digits};
ghost use Rattle.app_meaning.specs.Packets.{field_bits};

use app_data::Value;
use rp_base::NoMemory;
use rp_bits::BitWriter;
use tree_eval::value_in;
use value_ops::cut;

// The zeros above the lowest 128 bits of a width.
fn put_above(out: &mut BitWriter, width: u8) -> Result<(), NoMemory>
    ensures { OnOk result (out.new ≡ out.old ++ digits (width - 128) 0) }
{
    if width > 128 {
        out.put(width - 128, 0)?;
    }
    Ok(())
}

// At most 128 bits of a number.
#[tactic(auto, using(crate::proofs::Digits::digits_cut))]
fn put_lowest(out: &mut BitWriter, width: u8, n: u128) -> Result<(), NoMemory>
    requires { width ≤ 128 }
    ensures { OnOk result (out.new ≡ out.old ++ digits width n) }
{
    if width > 0 {
        out.put(width, cut(width, n).number)?;
    }
    Ok(())
}

// The bits of a number, of more than 128 first the zeros.
fn put_number(out: &mut BitWriter, width: u8, n: u128) -> Result<(), NoMemory>
    ensures { OnOk result (out.new ≡ out.old ++ digits width n) }
{
    put_above(out, width)?;
    put_lowest(out, width.min(128), n)?;
    Ok(())
}

/// The bits of so many values from this place on.
///
/// # Errors
/// `NoMemory`.
#[tactic(auto, using(crate::proofs::Digits::fields_past))]
pub(crate) fn put_fields(
    out: &mut BitWriter,
    count: u64,
    first: usize,
    values: &[Value],
) -> Result<(), NoMemory>
    ensures { OnOk result (out.new ≡ out.old ++ field_bits count first values.now) }
{
    let mut left = count;
    let mut i = first;
    while left > 0 && i < values.len() {
        let v = value_in(values, i);
        put_number(out, v.width, v.number)?;
        i += 1;
        left -= 1;
    }
    Ok(())
}
