//! The entry or the case that wins.
ghost use Rattle.std.specs.Prelude.{◌≡◌, None, option_map};
ghost use Rattle.std.specs.Borrow.{Bor};
ghost use Rattle.p4_ast.specs.declared.table.P4Entry.{P4Entry as EntryValue};
ghost use Rattle.p4_ast.specs.declared.name.P4Name.{P4Name as NameValue};
ghost use Rattle.app_meaning.specs.Slots.{text};
ghost use Rattle.app_meaning.specs.Matches.{keyset_row, winner};
ghost use Rattle.app_meaning.specs.Actions.{is_lpm, lpm_place, rows};
ghost use Rattle.app_meaning.specs.Packets.{cases, row_name};
ghost use Rattle.tree_eval.specs.Seen.{seen};

use crate::keyset::{keyset_fits, prefix};
use app_data::{Scope, Value};
use p4_ast::{P4Case, P4Entry, P4Key, P4Match, P4Name};

/// The place of the lpm key, if there is one.
pub fn lpm_place(keys: &[P4Key]) -> Option<usize>
    ensures { result ≡ lpm_place keys.now }
{
    keys.iter().position(|k| is_lpm(k.matching))
}

fn is_lpm(m: P4Match) -> bool
    ensures { result ≡ is_lpm m }
{
    match m {
        P4Match::Lpm => true,
        P4Match::Exact | P4Match::Ternary => false,
    }
}

/// The entry that wins: among the matching ones with the longest prefix the first, without an lpm key the first that matches.
pub fn won<'a>(
    sc: Scope<'_>,
    lpm: Option<usize>,
    keys: &[Value],
    es: &'a [P4Entry],
) -> Option<&'a P4Entry>
    ensures { option_map (λ (e : Bor EntryValue). (keyset_row (seen sc.entry) e.now.keyset, e.now.call)) result ≡ winner lpm keys.now (rows (seen sc.entry) es.now) }
{
    match es {
        [] => None,
        [e, rest @ ..] => {
            let later = won(sc, lpm, keys, rest);
            if !keyset_fits(sc, e.keyset.get(), keys) {
                return later;
            }
            match later {
                None => Some(e),
                Some(l) => {
                    if prefix(sc, lpm, e.keyset.get()) < prefix(sc, lpm, l.keyset.get()) {
                        Some(l)
                    } else {
                        Some(e)
                    }
                }
            }
        }
    }
}

/// The state of the first case that matches.
#[tactic(auto, using(crate::proofs::Rows::first_case))]
pub fn chosen<'a>(sc: Scope<'_>, keys: &[Value], cs: &'a [P4Case]) -> Option<&'a P4Name>
    ensures { option_map (λ (n : Bor NameValue). text n.now) result ≡ row_name (winner None keys.now (cases (seen sc.entry) cs.now)) }
{
    match cs {
        [] => None,
        [c, rest @ ..] => {
            if keyset_fits(sc, c.keyset.get(), keys) {
                Some(&c.name)
            } else {
                chosen(sc, keys, rest)
            }
        }
    }
}
