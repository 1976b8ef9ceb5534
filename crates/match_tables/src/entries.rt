//! What a table matches: the kinds and widths of its keys, and its entries in order.
ghost use Rattle.std.specs.Prelude.{◌≡◌, IfOk};
ghost use Rattle.std.specs.List.{list_any};
ghost use Rattle.match_tables.specs.Winning.{fits, is_lpm, is_ternary, lpm_place};

use rp_base::NoMemory;
use sqlite_items::Items;
use std::alloc::Global;

/// How a key is matched.
#[derive(Clone, Copy, Debug, PartialEq, Eq)]
pub enum MatchKind {
    Exact,
    Lpm,
    Ternary,
}

/// What one key must be: it matches where `key & mask` is `value`. `_` has mask 0.
#[derive(Clone, Copy, Debug, PartialEq, Eq)]
pub struct MatchCond {
    pub value: u128,
    pub mask: u128,
}

/// Each key's kind, and its width in bits, 1 to 128.
pub type MatchKeys = Items<(MatchKind, u8)>;

/// The entries in order, each with one condition for each key.
pub type MatchRows = Items<Items<MatchCond>>;

/// The keys and the entries of a table.
#[derive(Drop)]
pub struct Entries {
    pub keys: MatchKeys,
    pub rows: MatchRows,
}

impl Entries {
    /// The same again.
    ///
    /// # Errors
    /// `NoMemory`.
    pub fn copy(&self, alloc: Global) -> Result<Entries, NoMemory>
        ensures { IfOk result (λ copied. copied ≡ self.now) }
    {
        let rows = copy_rows(alloc, self.rows.as_slice())?;
        Ok(Entries {
            keys: Items::from_slice(alloc, self.keys.as_slice())?,
            rows,
        })
    }
}

fn copy_rows(alloc: Global, rows: &[Items<MatchCond>]) -> Result<MatchRows, NoMemory>
    ensures { IfOk result (λ copied. copied ≡ rows.now) }
{
    let mut copied = Items::new(alloc);
    for row in rows {
        copied.push(Items::from_slice(alloc, row.as_slice())?)?;
    }
    Ok(copied)
}

// The place of the lpm key, if there is one.
pub fn lpm_place(keys: &[(MatchKind, u8)]) -> Option<usize>
    ensures { result ≡ lpm_place keys.now }
{
    keys.iter().position(|k| is_lpm(k.0))
}

fn is_lpm(kind: MatchKind) -> bool
    ensures { result ≡ is_lpm kind }
{
    match kind {
        MatchKind::Lpm => true,
        MatchKind::Exact | MatchKind::Ternary => false,
    }
}

// Whether a key is ternary.
pub fn has_ternary(keys: &[(MatchKind, u8)]) -> bool
    ensures { result ≡ list_any (λ k. is_ternary k.0) keys.now }
{
    match keys {
        [] => false,
        [k, rest @ ..] => is_ternary(k.0) || has_ternary(rest),
    }
}

fn is_ternary(kind: MatchKind) -> bool
    ensures { result ≡ is_ternary kind }
{
    match kind {
        MatchKind::Ternary => true,
        MatchKind::Exact | MatchKind::Lpm => false,
    }
}

// Whether all keys match.
pub fn fits(row: &[MatchCond], keys: &[u128]) -> bool
    ensures { result ≡ fits row.now keys.now }
{
    match row {
        [] => true,
        [m, row @ ..] => match keys {
            [] => true,
            [key, keys @ ..] => *key & m.mask == m.value && fits(row, keys),
        },
    }
}
