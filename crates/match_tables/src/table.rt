//! A table whose entries are found by an index.
ghost use Rattle.std.specs.Prelude.{◌≡◌, ◌≤◌, ◌+◌, ◌-◌, ◌*◌, ◌^◌, All, IfOk, length};
ghost use Rattle.match_tables.specs.Winning.{number_of, winner, numbered};
ghost use Rattle.std.specs.Prelude.{None};

use crate::entries::{Entries, MatchCond, fits, has_ternary, lpm_place};
use crate::places::Places;
use rp_base::NoMemory;
use sqlite_items::Items;
use std::alloc::Global;
use std::marker::Model;
use std::sync::ledger::Ledger;
use step_count::Steps;

/// How the entries are searched.
#[derive(Drop)]
enum Order {
    InTurn,
    Sorted(Places),
}

/// A table's entries with what finds them: a table with ternary keys is searched entry by entry, any other by halves.
#[derive(Drop)]
pub struct Table {
    entries: Entries,
    order: Order,
}

impl Model for Table {
    ghost use Rattle.match_tables.specs.declared.entries.Entries.{Entries as EntriesValue};
    ghost use Rattle.match_tables.specs.Ordered.{IsTable};

    ghost Value = { EntriesValue };

    ghost view = { λ t. t.entries };

    ghost invariant = { λ t. IsTable t.entries t.order };
}

impl Table {
    ghost use Rattle.match_tables.specs.Winning.{look, IsPlain};

    /// The table of these entries, each of which has one condition for each key.
    ///
    /// # Errors
    /// `NoMemory`.
    pub fn build(alloc: Global, e: &Entries) -> Result<Table, NoMemory>
        requires { All (λ r. length r ≡ length e.now.keys) e.now.rows }
        ensures { IfOk result (λ t. t ≡ e.now) }
    {
        let entries = e.copy(alloc)?;
        let lpm = lpm_place(entries.keys.as_slice());
        if lpm.is_none() && has_ternary(entries.keys.as_slice()) {
            return Ok(Table {
                entries,
                order: Order::InTurn,
            });
        }
        let places = Places::of(alloc, lpm, entries.rows.as_slice())?;
        Ok(Table {
            entries,
            order: Order::Sorted(places),
        })
    }

    /// The number of the entry that wins: with an lpm key, among the entries that match with the longest prefix the first, else the first
    /// that matches. `None` exactly where none matches. There is one key for each of the table.
    ///
    /// A step is a look at one entry: where all n entries are plain values, `2^k <= 2n + 1` for the k steps.
    pub fn look<L: Ledger>(&self, keys: &[u128], steps: &mut Steps<L>) -> Option<u64>
        requires { length keys.now ≡ length self.now.keys }
        ensures found { result ≡ look self.now keys.now }
        ensures cost { IsPlain self.now → 2 ^ (steps.new - steps.old) ≤ 2 * length self.now.rows + 1 }
        ensures later { steps.old ≤ steps.new }
    {
        match &self.order {
            Order::InTurn => first_fit(self.entries.rows.as_slice(), keys, steps),
            Order::Sorted(places) => places.look(keys, steps),
        }
    }
}

// The number of the first entry that matches; a step is a look at one entry.
fn first_fit<L: Ledger>(
    rows: &[Items<MatchCond>],
    keys: &[u128],
    steps: &mut Steps<L>,
) -> Option<u64>
    ensures found { result ≡ number_of (winner None keys.now (numbered 0 rows.now)) }
    ensures later { steps.old ≤ steps.new }
{
    let mut i = 0;
    while i < rows.len() {
        steps.tick();
        if fits(rows[i].as_slice(), keys) {
            return Some(i as u64);
        }
        i += 1;
    }
    None
}
