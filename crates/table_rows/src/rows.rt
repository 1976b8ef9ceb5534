//! Keysets as lists of conditions, one for each key.
ghost use Rattle.std.specs.Prelude.{◌≡◌, ◌<◌, ◌++◌, [], All, IfOk, OnOk, length, map};
ghost use Rattle.app_meaning.specs.Matches.{keyset_row, one_match};
ghost use Rattle.table_rows.specs.Rows.{kind_of, cond_of, conds, rows_of, IsTableOf};
ghost use Rattle.tree_eval.specs.Seen.{seen};

use app_data::{Scope, Value};
use match_tables::{Entries, MatchCond, MatchKeys, MatchKind, MatchRows, Table};
use p4_ast::{P4Entry, P4Key, P4Keyset, P4Match, P4One};
use rp_base::NoMemory;
use sqlite_items::Items;
use std::alloc::Global;
use tree_eval::eval;
use tree_tables::one_match;

fn kind_of(m: P4Match) -> MatchKind
    ensures { result ≡ kind_of m }
{
    match m {
        P4Match::Exact => MatchKind::Exact,
        P4Match::Lpm => MatchKind::Lpm,
        P4Match::Ternary => MatchKind::Ternary,
    }
}

// What a member of a keyset asks of its key.
fn cond_of(sc: Scope<'_>, o: &P4One) -> MatchCond
    ensures { result ≡ cond_of (one_match (seen sc.entry) o.now) }
{
    let m = one_match(sc, o);
    MatchCond {
        value: m.value,
        mask: m.mask,
    }
}

// The conditions of some members for so many keys go behind others; a key without a member has any value.
#[tactic(auto, using(crate::proofs::Joined::append_assoc))]
fn push_conds(
    sc: Scope<'_>,
    os: &[P4One],
    n: usize,
    into: &mut Items<MatchCond>,
) -> Result<(), NoMemory>
    ensures { OnOk result (into.new ≡ into.old ++ conds n (map (one_match (seen sc.entry)) os.now)) }
{
    if n == 0 {
        return Ok(());
    }
    match os {
        [] => {
            into.push(MatchCond { value: 0, mask: 0 })?;
            push_conds(sc, os, n - 1, into)
        }
        [o, rest @ ..] => {
            into.push(cond_of(sc, o))?;
            push_conds(sc, rest, n - 1, into)
        }
    }
}

// The conditions of a keyset for so many keys.
fn row_of(
    alloc: Global,
    sc: Scope<'_>,
    k: &P4Keyset,
    n: usize,
) -> Result<Items<MatchCond>, NoMemory>
    ensures { IfOk result (λ row. row ≡ conds n (keyset_row (seen sc.entry) k.now)) }
{
    let mut row = Items::new(alloc);
    match k {
        P4Keyset::Default { at: _ } => push_conds(sc, &[], n, &mut row)?,
        P4Keyset::One(o) => {
            if n > 0 {
                row.push(cond_of(sc, o))?;
                push_conds(sc, &[], n - 1, &mut row)?;
            }
        }
        P4Keyset::Tuple { at: _, ones } => push_conds(sc, ones.as_slice(), n, &mut row)?,
    }
    Ok(row)
}

// The rows of entries for so many keys.
fn rows_of(alloc: Global, sc: Scope<'_>, es: &[P4Entry], n: usize) -> Result<MatchRows, NoMemory>
    ensures { IfOk result (λ rows. rows ≡ rows_of (seen sc.entry) n es.now) }
{
    let mut rows = Items::new(alloc);
    for e in es {
        rows.push(row_of(alloc, sc, e.keyset.get(), n)?)?;
    }
    Ok(rows)
}

// The kinds of keys, with the widths of their values over the values `first`.
fn keys_of(
    alloc: Global,
    sc: Scope<'_>,
    keys: &[P4Key],
    first: &[Value],
) -> Result<MatchKeys, NoMemory>
    ensures { IfOk result (λ made. map (λ k. k.0) made ≡ map (λ k. kind_of k.matching) keys.now) }
{
    let mut made = Items::new(alloc);
    for k in keys {
        let width = eval(k.expr.get(), sc, first).width;
        made.push((kind_of(k.matching), width))?;
    }
    Ok(made)
}

/// The table of these keys and entries; `first` are values of all slots, whose widths the keys have.
///
/// # Errors
/// `NoMemory`.
pub fn table_of(
    alloc: Global,
    sc: Scope<'_>,
    keys: &[P4Key],
    es: &[P4Entry],
    first: &[Value],
) -> Result<Table, NoMemory>
    ensures { IfOk result (λ table. IsTableOf (seen sc.entry) keys.now es.now table) }
{
    let made = keys_of(alloc, sc, keys, first)?;
    let rows = rows_of(alloc, sc, es, keys.len())?;
    let entries = Entries { keys: made, rows };
    let table = Table::build(alloc, &entries)?;
    Ok(table)
}
