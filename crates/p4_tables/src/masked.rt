//! Values under masks.
ghost use Rattle.std.specs.Prelude.{◌≡◌, ◌++◌, OnOk};
ghost use Rattle.p4_tables.specs.Entries.{number_bytes, row_of, number_for, full, exactly, under, is_prefix, mask_fault};

use crate::part::Masked;
use p4_ast::P4Match;
use p4_scope::Value;
use p4_scope::refusal::{fault, fault_if};
use p4_typing::Form;
use rp_base::{Bytes, NoMemory, Refused, Why};

/// Appends the bytes of a value and of its mask.
///
/// # Errors
/// `NoMemory`.
pub fn append_row(row: &mut Bytes, m: Masked) -> Result<(), NoMemory>
    ensures { OnOk result (row.new ≡ row.old ++ row_of m) }
{
    append_number(row, m.value)?;
    append_number(row, m.mask)
}

fn append_number(row: &mut Bytes, n: u128) -> Result<(), NoMemory>
    ensures { OnOk result (row.new ≡ row.old ++ number_bytes n) }
{
    row.append(&n.to_be_bytes())
}

/// The number, where it is bits of the key's width.
pub fn number_for(k: Form, v: Option<Value>) -> Option<u128>
    ensures { result ≡ number_for k v }
{
    match (k, v) {
        (Form::Bits(w), Some(Value::Bits { number, width })) => {
            if w == width { Some(number) } else { None }
        }
        _ => None,
    }
}

fn full(k: Form) -> u128
    ensures { result ≡ full k }
{
    match k {
        Form::Bits(w) => p4_typing::number::full(w.min(128)),
        _ => 0,
    }
}

/// All bits of a value.
pub fn exactly(k: Form, n: Option<u128>) -> Option<Masked>
    ensures { result ≡ exactly k n }
{
    match n {
        Some(value) => Some(Masked {
            value,
            mask: full(k),
        }),
        None => None,
    }
}

/// A value under a mask.
pub fn under(n: Option<u128>, m: Option<u128>) -> Option<Masked>
    ensures { result ≡ under n m }
{
    match (n, m) {
        (Some(n), Some(mask)) => Some(Masked {
            value: n & mask,
            mask,
        }),
        _ => None,
    }
}

// Ones and then zeros: where there is a zero, each bit below it is one.
fn is_prefix(k: Form, m: u128) -> bool
    ensures { result ≡ is_prefix k m }
{
    let zeros = full(k).saturating_sub(m);
    zeros & (zeros / 2) == zeros / 2
}

/// A mask that its key doesn't take.
pub fn mask_fault(at: u64, matching: P4Match, k: Form, m: Option<u128>) -> Option<Refused>
    ensures { result ≡ mask_fault at matching k m }
{
    match (matching, m) {
        (P4Match::Exact, _) => fault(Why::Entry, at),
        (P4Match::Lpm, Some(m)) => fault_if(!is_prefix(k, m), Why::Entry, at),
        _ => None,
    }
}
