//! Types, paths and slices.
ghost use Rattle.std.specs.Prelude.{◌≡◌, ◌∷◌, []};
ghost use Rattle.p4_grammar.specs.Forms.{hand, taken_at};
ghost use Rattle.p4_grammar.specs.Tokens.{name, words_at};
ghost use Rattle.p4_grammar.specs.Values.{named_type, type_place};
ghost use Rattle.p4_lex.specs.declared.token.Sign.TheVariants as sign;
ghost use Rattle.p4_grammar.specs.ReadingExpressions.{bit_type_at, bool_type_at, std_type_at, word_type_at, name_type_at, word_type, type_at, names_at, path_at, slice_at};
ghost use Rattle.p4_part.specs.Made.{Finds, Gives};

use crate::end::ReadEnd;
use crate::token::{Finding, Reading, is_next, name_of, number_of, sign_of};
use crate::value::boxed;
use p4_ast::{P4Name, P4Slice, P4Type};
use p4_lex::{Sign, Token};
use sqlite_items::{Boxed, Items};
use std::alloc::Global;

#[tactic(auto, unfolding(p4_grammar::specs::ReadingExpressions::bit_type_at))]
fn bit_type_of(tokens: &[Token]) -> Finding<'_, P4Type>
    ensures { Finds (λ x. (x.0, x.1.now)) (λ e. e.now) result (bit_type_at tokens.now) }
{
    let (at, rest) = sign_of(Sign::Bit, tokens)?;
    let (_, rest) = sign_of(Sign::Less, rest)?;
    let (width, rest) = number_of(rest)?;
    let (_, rest) = sign_of(Sign::More, rest)?;
    Ok((P4Type::Bit { at, width }, rest))
}

#[tactic(auto, unfolding(p4_grammar::specs::ReadingExpressions::bool_type_at))]
pub fn bool_type_of(tokens: &[Token]) -> Finding<'_, P4Type>
    ensures { Finds (λ x. (x.0, x.1.now)) (λ e. e.now) result (bool_type_at tokens.now) }
{
    let (at, rest) = sign_of(Sign::Bool, tokens)?;
    Ok((P4Type::Bool { at }, rest))
}

#[tactic(auto, unfolding(p4_grammar::specs::ReadingExpressions::std_type_at))]
pub fn std_type_of(tokens: &[Token]) -> Finding<'_, P4Type>
    ensures { Finds (λ x. (x.0, x.1.now)) (λ e. e.now) result (std_type_at tokens.now) }
{
    let (at, rest) = sign_of(Sign::StdT, tokens)?;
    Ok((P4Type::StdT { at }, rest))
}

/// Reads a type that begins with a word.
#[tactic(auto, unfolding(p4_grammar::specs::ReadingExpressions::word_type_at))]
pub fn word_type_of(tokens: &[Token]) -> Finding<'_, P4Type>
    ensures { Finds (λ x. (x.0, x.1.now)) (λ e. e.now) result (word_type_at tokens.now) }
{
    if is_next(Sign::Bit, tokens) {
        return bit_type_of(tokens);
    }
    if is_next(Sign::Bool, tokens) {
        return bool_type_of(tokens);
    }
    std_type_of(tokens)
}

/// The type that a name says.
pub fn type_named(name: P4Name) -> P4Type
    ensures { result ≡ named_type name }
{
    P4Type::Name { at: name.at, name }
}

#[tactic(auto, unfolding(p4_grammar::specs::ReadingExpressions::name_type_at))]
pub fn name_type_of(tokens: &[Token]) -> Reading<'_, P4Type>
    ensures { Gives (λ x. (x.0, x.1.now)) result (name_type_at tokens.now) }
{
    let (name, rest) = name_of(tokens)?;
    Ok((type_named(name), rest))
}

/// Whether a type's word is the token in hand.
pub fn is_type_next(tokens: &[Token]) -> bool
    ensures { result ≡ hand word_type tokens.now }
{
    is_next(Sign::Bit, tokens) || is_next(Sign::Bool, tokens) || is_next(Sign::StdT, tokens)
}

/// Reads a type.
#[tactic(auto, unfolding(p4_grammar::specs::ReadingExpressions::type_at))]
pub fn type_of(tokens: &[Token]) -> Reading<'_, P4Type>
    ensures { Gives (λ x. (x.0, x.1.now)) result (type_at tokens.now) }
{
    if is_type_next(tokens) {
        let (type_, rest) = word_type_of(tokens)?;
        return Ok((type_, rest));
    }
    name_type_of(tokens)
}

/// Reads a type, into a box.
pub fn boxed_type_of<'a>(alloc: Global, tokens: &'a [Token]) -> Reading<'a, Boxed<P4Type>>
    ensures { Gives (λ x. (x.0, x.1.now)) result (type_at tokens.now) }
{
    let (type_, rest) = type_of(tokens)?;
    let type_ = boxed(alloc, type_)?;
    Ok((type_, rest))
}

/// The place of a type.
pub fn place_of_type(type_: &P4Type) -> u64
    ensures { result ≡ type_place type_.now }
{
    match type_ {
        P4Type::Bit { at, width: _ } => *at,
        P4Type::Bool { at } => *at,
        P4Type::Name { at, name: _ } => *at,
        P4Type::StdT { at } => *at,
    }
}

fn dot_name_of(tokens: &[Token]) -> Reading<'_, P4Name>
    ensures { Gives (λ x. (x.0, x.1.now)) result (words_at (sign.Dot ∷ []) (taken_at name) tokens.now) }
{
    let (_, rest) = sign_of(Sign::Dot, tokens)?;
    name_of(rest)
}

/// Reads the names behind the first one of a path.
#[tactic(auto, unfolding(p4_grammar::specs::ReadingExpressions::names_at))]
pub fn names_of(alloc: Global, fuel: usize, tokens: &[Token]) -> Reading<'_, Items<P4Name>>
    ensures { Gives (λ x. (x.0, x.1.now)) result (names_at fuel tokens.now) }
{
    let mut names = Items::new(alloc);
    let mut left = fuel;
    let mut rest = tokens;
    while left > 0 {
        left -= 1;
        if !is_next(Sign::Dot, rest) {
            return Ok((names, rest));
        }
        let (name, after) = dot_name_of(rest)?;
        if names.push(name).is_err() {
            return Err(ReadEnd::NoMemory);
        }
        rest = after;
    }
    Err(ReadEnd::At(rest))
}

/// Reads a slice.
#[tactic(auto, unfolding(p4_grammar::specs::ReadingExpressions::slice_at))]
pub fn slice_of(tokens: &[Token]) -> Finding<'_, P4Slice>
    ensures { Finds (λ x. (x.0, x.1.now)) (λ e. e.now) result (slice_at tokens.now) }
{
    let (at, rest) = sign_of(Sign::OpenSlice, tokens)?;
    let (high, rest) = number_of(rest)?;
    let (_, rest) = sign_of(Sign::Colon, rest)?;
    let (low, rest) = number_of(rest)?;
    let (_, rest) = sign_of(Sign::CloseSlice, rest)?;
    Ok((P4Slice { at, high, low }, rest))
}
