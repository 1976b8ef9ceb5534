//! Paths, slices and left sides.
ghost use Rattle.std.specs.Prelude.{◌≡◌, ◌-◌, Some, None, if◌then◌else◌, length, take};
ghost use Rattle.p4_part.specs.Made.{Finds, Gives, called_in};
ghost use Rattle.p4_grammar.specs.Tokens.{called};
ghost use Rattle.p4_grammar.specs.Trees.{alone, left_of as left_is};
ghost use Rattle.p4_grammar.specs.ReadingExpressions.{path_at};
ghost use Rattle.p4_grammar.specs.ReadingStatements.{slice_or_none_at};

use crate::list::joined;
use crate::name::{names_of, slice_of};
use crate::token::{Finding, Reading, is_next, name_of};
use crate::value::{path_of, place_of};
use p4_ast::{P4Left, P4Name, P4Slice};
use p4_lex::{Sign, Token};
use sqlite_items::Items;
use std::alloc::Global;

/// Whether behind the first name of a path this one stands, and no other.
pub fn is_only(text: &[u8], _first: &P4Name, more: &[P4Name]) -> bool
    ensures { alone (called text.now _first.now more.now) ≡ (if result then Some _first.now else None) }
{
    match more {
        [] => false,
        [y] => y.text.as_slice() == text,
        [_, _, ..] => false,
    }
}

/// The names before the last one.
pub fn front_of(names: Items<P4Name>) -> Items<P4Name>
    ensures front { result ≡ take (length names - 1) names }
    ensures called { (text : _) (front : _) → called_in text names ≡ Some front → result ≡ front }
{
    let mut front = names;
    let _ = front.pop();
    front
}

/// Reads a path.
#[tactic(auto, unfolding(p4_grammar::specs::ReadingExpressions::path_at))]
pub fn dotted_of(alloc: Global, fuel: usize, tokens: &[Token]) -> Reading<'_, Items<P4Name>>
    ensures { Gives (λ x. (x.0, x.1.now)) result (path_at fuel tokens.now) }
{
    let (first, rest) = name_of(tokens)?;
    let (more, rest) = names_of(alloc, fuel, rest)?;
    let names = joined(alloc, first, more)?;
    Ok((names, rest))
}

/// Reads a slice, or none.
#[tactic(auto, unfolding(p4_grammar::specs::ReadingStatements::slice_or_none_at))]
pub fn slice_or_none_of(tokens: &[Token]) -> Finding<'_, Option<P4Slice>>
    ensures { Finds (λ x. (x.0, x.1.now)) (λ e. e.now) result (slice_or_none_at tokens.now) }
{
    if is_next(Sign::OpenSlice, tokens) {
        let (slice, rest) = slice_of(tokens)?;
        return Ok((Some(slice), rest));
    }
    Ok((None, tokens))
}

/// A left side.
pub fn left_of(names: Items<P4Name>, slice: Option<P4Slice>) -> P4Left
    ensures { result ≡ left_is names slice }
{
    let at = place_of(names.as_slice());
    let path = path_of(names);
    P4Left { at, path, slice }
}
