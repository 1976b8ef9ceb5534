//! The entries in sorted order, and the lists of masks that they have, longest prefix first. A look-up masks the keys with one list after the
//! other and searches each time among the sorted entries, until it has an entry with a longer prefix than the lists that follow.
ghost use Rattle.std.specs.Prelude.{◌≡◌, ◌<◌, ◌≤◌, ◌+◌, ◌-◌, ◌*◌, ◌^◌, ◌++◌, IfOk, OnOk, [], length, map, option_map};
ghost use Rattle.std.specs.Ordering.{nat_cmp};
ghost use Rattle.std.specs.Cmp.Lexicographic.{slice_cmp};
ghost use Rattle.std.specs.Map.{lookup, keys_of};
ghost use Rattle.std.specs.BTreeSet.{keys};
ghost use Rattle.match_tables.specs.Winning.{masks_of, prefix_of};
ghost use Rattle.match_tables.specs.Placing.{spelled, asked, ranked, rank, behind, passed, earlier, searched, Rising};
ghost use Rattle.match_tables.specs.Standing.{IsPlaced, is_same};

use crate::entries::MatchCond;
use rp_base::NoMemory;
use sqlite_items::Items;
use std::alloc::Global;
use std::cmp::Ordering;
use std::collections::{BTreeMap, BTreeSet};
use std::sync::ledger::Ledger;
use step_count::Steps;

/// The sorted entries, each spelled as its values and masks and with its number, and the lists of masks, each behind its rank.
#[derive(Drop)]
pub struct Places {
    pub masks: Items<Items<u128>>,
    pub sorted: Items<(Items<u128>, u64)>,
}

impl Places {
    // The places of some entries.
    pub fn of(
        alloc: Global,
        lpm: Option<usize>,
        rows: &[Items<MatchCond>],
    ) -> Result<Places, NoMemory>
        ensures { IfOk result (λ p. IsPlaced lpm rows.now p) }
    {
        let mut masks = BTreeSet::new(alloc);
        let mut places = BTreeMap::new(alloc);
        let mut i = rows.len();
        while i > 0 {
            i -= 1;
            let row = rows[i].as_slice();
            masks.insert(ranked(alloc, lpm, row)?)?;
            places.insert(spelled(alloc, row)?, i as u64)?;
        }
        Ok(Places {
            masks: listed(alloc, masks)?,
            sorted: sorted(alloc, places)?,
        })
    }

    // The number of the best entry that matches.
    pub fn look<L: Ledger>(&self, keys: &[u128], steps: &mut Steps<L>) -> Option<u64>
        requires { Rising (keys_of self.now.sorted) }
        ensures found { result ≡ option_map (λ b. b.1) (searched (λ x. lookup (is_same x) self.now.sorted) keys.now None self.now.masks) }
        ensures later { steps.old ≤ steps.new }
        ensures cost { length self.now.masks ≤ 1 → 2 ^ (steps.new - steps.old) ≤ 2 * length self.now.sorted + 1 }
    {
        let mut best = None;
        for s in self.masks.as_slice() {
            let rank = rank(s.as_slice());
            if passed(best, rank) {
                break;
            }
            let found = find(self.sorted.as_slice(), behind(s.as_slice()), keys, steps);
            best = earlier(best, rank, found);
        }
        best.map(|b| b.1)
    }
}

// The masks of an entry behind a number that is the less, the longer its prefix.
fn ranked(alloc: Global, lpm: Option<usize>, row: &[MatchCond]) -> Result<Vec<u128>, NoMemory>
    ensures made { IfOk result (λ v. v.items ≡ ranked lpm (masks_of row.now)) }
    ensures bounded { prefix_of lpm (masks_of row.now) < 2 ^ 128 }
{
    let mut v = Vec::new(alloc);
    v.push(u128::MAX - prefix(lpm, row))?;
    push_masks(row, &mut v)?;
    Ok(v)
}

// The masks of an entry go behind other numbers.
#[tactic(auto, using(crate::proofs::Spelled::append_assoc))]
fn push_masks(row: &[MatchCond], into: &mut Vec<u128>) -> Result<(), NoMemory>
    ensures { OnOk result (into.new.items ≡ into.old.items ++ masks_of row.now) }
{
    match row {
        [] => Ok(()),
        [m, rest @ ..] => {
            into.push(m.mask)?;
            push_masks(rest, into)
        }
    }
}

fn prefix(lpm: Option<usize>, row: &[MatchCond]) -> u128
    ensures { result ≡ prefix_of lpm (masks_of row.now) }
{
    match lpm {
        None => 0,
        Some(i) => match row.get(i) {
            None => 0,
            Some(m) => m.mask,
        },
    }
}

fn spelled(alloc: Global, row: &[MatchCond]) -> Result<Vec<u128>, NoMemory>
    ensures { IfOk result (λ v. v.items ≡ spelled row.now) }
{
    let mut v = Vec::new(alloc);
    push_spelled(row, &mut v)?;
    Ok(v)
}

// The values and masks of an entry go behind other numbers.
#[tactic(auto, using(crate::proofs::Spelled::append_assoc))]
fn push_spelled(row: &[MatchCond], into: &mut Vec<u128>) -> Result<(), NoMemory>
    ensures { OnOk result (into.new.items ≡ into.old.items ++ spelled row.now) }
{
    match row {
        [] => Ok(()),
        [m, rest @ ..] => {
            into.push(m.value)?;
            into.push(m.mask)?;
            push_spelled(rest, into)
        }
    }
}

fn listed(alloc: Global, set: BTreeSet<Vec<u128>>) -> Result<Items<Items<u128>>, NoMemory>
    ensures { IfOk result (λ made. made ≡ map (λ k. k.items) set.keys) }
{
    let mut made = Items::new(alloc);
    for k in set {
        made.push(Items::from_vec(k))?;
    }
    Ok(made)
}

fn sorted(
    alloc: Global,
    places: BTreeMap<Vec<u128>, u64>,
) -> Result<Items<(Items<u128>, u64)>, NoMemory>
    ensures { IfOk result (λ made. made ≡ map (λ e. (e.0.items, e.1)) places.entries) }
{
    let mut made = Items::new(alloc);
    for (k, number) in places {
        made.push((Items::from_vec(k), number))?;
    }
    Ok(made)
}

fn rank(s: &[u128]) -> u128
    ensures { result ≡ rank s.now }
{
    match s {
        [] => 0,
        [rank, ..] => *rank,
    }
}

fn behind(s: &[u128]) -> &[u128]
    ensures { result.now ≡ behind s.now }
{
    match s {
        [] => s,
        [_, masks @ ..] => masks,
    }
}

fn passed(best: Option<(u128, u64)>, rank: u128) -> bool
    ensures { result ≡ passed best rank }
{
    match best {
        None => false,
        Some((first, _)) => first < rank,
    }
}

fn earlier(best: Option<(u128, u64)>, rank: u128, found: Option<u64>) -> Option<(u128, u64)>
    ensures { result ≡ earlier best rank found }
{
    match found {
        None => best,
        Some(n) => match best {
            None => Some((rank, n)),
            Some((_, m)) => Some((rank, m.min(n))),
        },
    }
}

// The number of the entry with these masks that matches the keys, by halves; a step is one comparison.
fn find<L: Ledger>(
    sorted: &[(Items<u128>, u64)],
    masks: &[u128],
    keys: &[u128],
    steps: &mut Steps<L>,
) -> Option<u64>
    requires { Rising (keys_of sorted.now) }
    ensures found { result ≡ lookup (is_same (asked masks.now keys.now)) sorted.now }
    ensures later { steps.old ≤ steps.new }
    ensures cost { 2 ^ (steps.new - steps.old) ≤ 2 * length sorted.now + 1 }
{
    let mut rest = sorted;
    while !rest.is_empty() {
        let (front, back) = rest.split_at(rest.len() / 2);
        let Some((middle, after)) = back.split_first() else {
            return None;
        };
        steps.tick();
        match order(masks, keys, middle.0.as_slice()) {
            Ordering::Less => rest = front,
            Ordering::Equal => return Some(number_in(middle)),
            Ordering::Greater => rest = after,
        }
    }
    None
}

fn number_in(entry: &(Items<u128>, u64)) -> u64
    ensures { result ≡ entry.now.1 }
{
    entry.1
}

// How what is asked of an entry with these masks stands to an entry.
fn order(masks: &[u128], keys: &[u128], entry: &[u128]) -> Ordering
    ensures { result ≡ slice_cmp nat_cmp (asked masks.now keys.now) entry.now }
{
    match masks {
        [] => none_to(entry),
        [mask, masks @ ..] => match keys {
            [] => none_to(entry),
            [key, keys @ ..] => match entry {
                [] => Ordering::Greater,
                [value] => (*key & *mask).cmp(value).then(Ordering::Greater),
                [value, own, rest @ ..] => {
                    let first = (*key & *mask).cmp(value).then(mask.cmp(own));
                    match first {
                        Ordering::Equal => order(masks, keys, rest),
                        Ordering::Less | Ordering::Greater => first,
                    }
                }
            },
        },
    }
}

// How an empty list stands to an entry.
fn none_to(entry: &[u128]) -> Ordering
    ensures { result ≡ slice_cmp nat_cmp [] entry.now }
{
    match entry {
        [] => Ordering::Equal,
        [_, ..] => Ordering::Less,
    }
}
