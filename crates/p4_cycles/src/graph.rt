//! Graphs of states, searched.
ghost use Rattle.std.specs.Prelude.{◌≡◌, [], true, false, IfOk, slice_index};
ghost use Rattle.p4_cycles.specs.Graphs.{targets, reached, leads_back, joined, at_most, falls, is_clear};

use crate::flood::Flood;
use rp_base::NoMemory;
use sqlite_items::Items;
use std::alloc::Global;

fn targets(g: &[Items<u64>], n: u64) -> &[u64]
    ensures { result.now ≡ targets g.now n }
{
    match g.get(n as usize) {
        None => &[],
        Some(ys) => ys.as_slice(),
    }
}

/// Whether a state can lead back to itself, by a search from it.
///
/// # Errors
/// `NoMemory`.
pub fn leads_back(alloc: Global, g: &[Items<u64>], n: u64) -> Result<bool, NoMemory>
    ensures { IfOk result (λ r. r ≡ leads_back g.now n) }
{
    let mut found = Flood::new(alloc, g.len())?;
    found.join(targets(g, n))?;
    for i in 0..g.len() {
        let Some(x) = found.at(i) else {
            return Ok(found.has(n));
        };
        found.join(targets(g, x))?;
    }
    Ok(found.has(n))
}

fn rank_of(ranks: &[u64], n: u64) -> u64
    ensures { result ≡ slice_index ranks.now n }
{
    match ranks.get(n as usize) {
        None => 0,
        Some(r) => *r,
    }
}

fn at_most(ranks: &[u64], b: u64, ys: &[u64]) -> bool
    ensures { result ≡ at_most ranks.now b ys.now }
{
    for y in ys {
        if !(rank_of(ranks, *y) <= b) {
            return false;
        }
    }
    true
}

/// Whether no state leads to a greater rank.
pub fn falls(ranks: &[u64], g: &[Items<u64>]) -> bool
    ensures { result ≡ falls ranks.now 0 g.now }
{
    let mut i: u64 = 0;
    for ys in g {
        if !at_most(ranks, rank_of(ranks, i), ys.as_slice()) {
            return false;
        }
        i += 1;
    }
    true
}

/// Whether a state leads to lesser ranks alone. Where ranks never rise it then can't lead back.
pub fn is_clear(ranks: &[u64], g: &[Items<u64>], n: u64) -> bool
    ensures clear { result ≡ is_clear ranks.now g.now n }
    ensures law { falls ranks.now 0 g.now ≡ true → is_clear ranks.now g.now n ≡ true → leads_back g.now n ≡ false }
{
    for y in targets(g, n) {
        if !(rank_of(ranks, *y) < rank_of(ranks, n)) {
            return false;
        }
    }
    true
}
