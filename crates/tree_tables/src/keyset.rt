//! Whether keys match a keyset.
ghost use Rattle.std.specs.Prelude.{◌≡◌, map, slice_get};
ghost use Rattle.app_meaning.specs.Matches.{constants_only, fixed, one_match, keyset_row, fits, prefix, mask_of};
ghost use Rattle.tree_tables.specs.Fitting.{one_fits};
ghost use Rattle.tree_eval.specs.Seen.{seen};

use app_data::{Match, Scope, Value};
use p4_ast::{P4Expr, P4Keyset, P4One, P4UnaryOp};
use tree_eval::eval;
use value_ops::unary_value;

// The types and constants alone.
fn constants_only(sc: Scope<'_>) -> Scope<'_>
    ensures { seen result ≡ constants_only (seen sc.entry) }
{
    Scope {
        types: sc.types,
        constants: sc.constants,
        registers: &[],
        slots: &[],
        own: None,
    }
}

// The value of an expression that is built of literals and constants.
fn fixed(sc: Scope<'_>, e: &P4Expr) -> Value
    ensures { result ≡ fixed (seen sc.entry) e.now }
{
    eval(e, constants_only(sc), &[])
}

/// What a member of a keyset asks of its key.
pub fn one_match(sc: Scope<'_>, o: &P4One) -> Match
    ensures { result ≡ one_match (seen sc.entry) o.now }
{
    match o {
        P4One::Any { at: _ } => Match { value: 0, mask: 0 },
        P4One::Expr { at: _, expr, mask } => {
            let v = fixed(sc, expr.get());
            match mask {
                None => {
                    let none = Value {
                        width: v.width,
                        number: 0,
                    };
                    Match {
                        value: v.number,
                        mask: unary_value(P4UnaryOp::Complement, none).number,
                    }
                }
                Some(mask) => {
                    let mask = fixed(sc, mask.get()).number;
                    Match {
                        value: v.number & mask,
                        mask,
                    }
                }
            }
        }
    }
}

fn one_fits(sc: Scope<'_>, o: &P4One, key: Value) -> bool
    ensures { result ≡ one_fits (one_match (seen sc.entry) o.now) key }
{
    let m = one_match(sc, o);
    key.number & m.mask == m.value
}

fn ones_fit(sc: Scope<'_>, os: &[P4One], keys: &[Value]) -> bool
    ensures { result ≡ fits (map (one_match (seen sc.entry)) os.now) keys.now }
{
    match os {
        [] => true,
        [o, os @ ..] => match keys {
            [] => true,
            [key, keys @ ..] => one_fits(sc, o, *key) && ones_fit(sc, os, keys),
        },
    }
}

/// Whether all keys match.
pub fn keyset_fits(sc: Scope<'_>, k: &P4Keyset, keys: &[Value]) -> bool
    ensures { result ≡ fits (keyset_row (seen sc.entry) k.now) keys.now }
{
    match k {
        P4Keyset::Default { at: _ } => true,
        P4Keyset::One(o) => match keys {
            [] => true,
            [key, ..] => one_fits(sc, o, *key),
        },
        P4Keyset::Tuple { at: _, ones } => ones_fit(sc, ones.as_slice(), keys),
    }
}

#[tactic(auto, using(crate::proofs::Rows::get_map))]
fn mask_at(sc: Scope<'_>, os: &[P4One], i: usize) -> u128
    ensures { result ≡ mask_of (slice_get (map (one_match (seen sc.entry)) os.now) i) }
{
    match os.get(i) {
        None => 0,
        Some(o) => one_match(sc, o).mask,
    }
}

/// The prefix that a keyset asks of the lpm key, as its mask; 0 without an lpm key.
pub fn prefix(sc: Scope<'_>, lpm: Option<usize>, k: &P4Keyset) -> u128
    ensures { result ≡ prefix lpm (keyset_row (seen sc.entry) k.now) }
{
    match lpm {
        None => 0,
        Some(i) => match k {
            P4Keyset::Default { at: _ } => 0,
            P4Keyset::One(o) => { if i == 0 { one_match(sc, o).mask } else { 0 } }
            P4Keyset::Tuple { at: _, ones } => mask_at(sc, ones.as_slice(), i),
        },
    }
}
