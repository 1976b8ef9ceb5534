//! Types with the closing sign of what holds them.
ghost use Rattle.std.specs.Prelude.{◌≡◌};
ghost use Rattle.p4_grammar.specs.Reading.{bit_closed_at, closed_type_at};
ghost use Rattle.p4_part.specs.Made.{Finds, Gives};

use crate::name::{bool_type_of, name_type_of, std_type_of};
use crate::token::{Finding, Reading, is_next, number_of, sign_of};
use p4_ast::{P4Number, P4Type};
use p4_lex::{Sign, Token};

// Behind the width of a `bit` type: `>>` counts as two where both are due.
#[tactic(auto, unfolding(p4_grammar::specs::Reading::bit_closed_at))]
fn bit_closed_of<'a>(at: u64, width: P4Number, tokens: &'a [Token]) -> Finding<'a, P4Type>
    ensures { Finds (λ x. (x.0, x.1.now)) (λ e. e.now) result (bit_closed_at at width tokens.now) }
{
    if is_next(Sign::More, tokens) {
        let (_, rest) = sign_of(Sign::More, tokens)?;
        let (_, rest) = sign_of(Sign::More, rest)?;
        return Ok((P4Type::Bit { at, width }, rest));
    }
    let (_, rest) = sign_of(Sign::ShiftRight, tokens)?;
    Ok((P4Type::Bit { at, width }, rest))
}

/// Reads a type and the closing sign behind it.
#[tactic(auto, unfolding(p4_grammar::specs::Reading::closed_type_at))]
pub fn closed_type_of<'a>(tokens: &'a [Token]) -> Reading<'a, P4Type>
    ensures { Gives (λ x. (x.0, x.1.now)) result (closed_type_at tokens.now) }
{
    if is_next(Sign::Bit, tokens) {
        let (at, rest) = sign_of(Sign::Bit, tokens)?;
        let (_, rest) = sign_of(Sign::Less, rest)?;
        let (width, rest) = number_of(rest)?;
        let (type_, rest) = bit_closed_of(at, width, rest)?;
        return Ok((type_, rest));
    }
    if is_next(Sign::Bool, tokens) {
        let (type_, rest) = bool_type_of(tokens)?;
        let (_, rest) = sign_of(Sign::More, rest)?;
        return Ok((type_, rest));
    }
    if is_next(Sign::StdT, tokens) {
        let (type_, rest) = std_type_of(tokens)?;
        let (_, rest) = sign_of(Sign::More, rest)?;
        return Ok((type_, rest));
    }
    let (type_, rest) = name_type_of(tokens)?;
    let (_, rest) = sign_of(Sign::More, rest)?;
    Ok((type_, rest))
}
