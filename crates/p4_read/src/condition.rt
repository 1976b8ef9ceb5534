//! Conditions.
//!
//! Functions within which no statement is read are kept out of line, so that nested statements take less of the stack.
ghost use Rattle.std.specs.Prelude.{◌≡◌};
ghost use Rattle.p4_grammar.specs.ReadingStatements.{outcome_at, applied_at, negated_value as negated_value_of, cond_rest_at, place_or as place_or_of, cond_named_at, cond_at};
ghost use Rattle.p4_part.specs.Made.{Finds, Gives, Makes};
ghost use Rattle.p4_read.specs.Conditions.{cond_path_at, negated_at};

use crate::expression::{behind_of, expr_of, named_of, unary_of};
use p4_ast::{P4Cond, P4Name, P4Outcome, P4UnaryOp};
use p4_grammar::Spelled;
use p4_lex::{Sign, Token};
use p4_part::list::joined;
use p4_part::name::names_of;
use p4_part::token::{
    Finding, Reading, called_of, is_called_next, is_name_next, is_next, name_of, sign_of,
};
use p4_part::typedefs::Typedefs;
use p4_part::value::{Made, unary_value, without_mark};
use sqlite_items::Items;
use std::alloc::Global;

#[tactic(auto, unfolding(p4_grammar::specs::ReadingStatements::outcome_at))]
fn outcome_of<'a>(tokens: &'a [Token]) -> Finding<'a, P4Outcome>
    ensures { Finds (λ x. (x.0, x.1.now)) (λ e. e.now) result (outcome_at tokens.now) }
{
    if is_called_next(b"hit", tokens) {
        let (_, rest) = called_of(b"hit", tokens)?;
        return Ok((P4Outcome::Hit, rest));
    }
    let (_, rest) = called_of(b"miss", tokens)?;
    Ok((P4Outcome::Miss, rest))
}

// Behind the name of a table and a dot.
#[tactic(auto, unfolding(p4_grammar::specs::ReadingStatements::applied_at))]
fn applied_of<'a>(at: u64, negated: bool, name: P4Name, tokens: &'a [Token]) -> Reading<'a, P4Cond>
    ensures { Gives (λ x. (x.0, x.1.now)) result (applied_at at negated name tokens.now) }
{
    let (_, rest) = sign_of(Sign::Apply, tokens)?;
    let (_, rest) = sign_of(Sign::Open, rest)?;
    let (_, rest) = sign_of(Sign::Close, rest)?;
    let (_, rest) = sign_of(Sign::Dot, rest)?;
    let (outcome, rest) = outcome_of(rest)?;
    let cond = P4Cond::Apply {
        at,
        negated,
        name,
        outcome,
    };
    Ok((cond, rest))
}

fn negated_value<'a>(alloc: Global, not: Option<u64>, x: Spelled) -> Made<'a, Spelled>
    ensures { Makes result (negated_value_of not x) }
{
    match not {
        None => Ok(x),
        Some(at) => unary_value(alloc, P4UnaryOp::Not, at, x),
    }
}

fn place_or(at: u64, other: Option<u64>) -> u64
    ensures { result ≡ place_or_of at other }
{
    match other {
        None => at,
        Some(other) => other,
    }
}

// An expression, behind its first operand but for a `!`.
#[tactic(auto, unfolding(p4_grammar::specs::ReadingStatements::cond_rest_at))]
fn cond_rest_of<'a>(
    alloc: Global,
    fuel: usize,
    env: &Typedefs,
    not: Option<u64>,
    x: Spelled,
    tokens: &'a [Token],
) -> Reading<'a, P4Cond>
    ensures { Gives (λ x. (x.0, x.1.now)) result (cond_rest_at fuel env.now not x tokens.now) }
{
    let x = negated_value(alloc, not, x)?;
    let (value, rest) = behind_of(alloc, fuel, env, x, tokens)?;
    Ok((P4Cond::Expr(without_mark(value)), rest))
}

// Behind a name and a dot, where no table is applied.
fn cond_path_of<'a>(
    alloc: Global,
    fuel: usize,
    env: &Typedefs,
    not: Option<u64>,
    first: P4Name,
    tokens: &'a [Token],
) -> Reading<'a, P4Cond>
    ensures { Gives (λ x. (x.0, x.1.now)) result (cond_path_at fuel env.now not first tokens.now) }
{
    let (second, rest) = name_of(tokens)?;
    let (more, rest) = names_of(alloc, fuel, rest)?;
    let more = joined(alloc, second, more)?;
    let (x, rest) = named_of(alloc, first, more, rest)?;
    cond_rest_of(alloc, fuel, env, not, x, rest)
}

// Behind a name that may be that of a table.
#[tactic(auto, unfolding(p4_grammar::specs::ReadingStatements::cond_named_at))]
fn cond_named_of<'a>(
    alloc: Global,
    fuel: usize,
    env: &Typedefs,
    not: Option<u64>,
    first: P4Name,
    tokens: &'a [Token],
) -> Reading<'a, P4Cond>
    ensures { Gives (λ x. (x.0, x.1.now)) result (cond_named_at fuel env.now not first tokens.now) }
{
    if is_next(Sign::Dot, tokens) {
        let (_, rest) = sign_of(Sign::Dot, tokens)?;
        if is_next(Sign::Apply, rest) {
            return applied_of(place_or(first.at, not), not.is_some(), first, rest);
        }
        return cond_path_of(alloc, fuel, env, not, first, rest);
    }
    let (x, rest) = named_of(alloc, first, Items::new(alloc), tokens)?;
    cond_rest_of(alloc, fuel, env, not, x, rest)
}

// A condition that begins with `!`.
fn negated_of<'a>(
    alloc: Global,
    fuel: usize,
    env: &Typedefs,
    tokens: &'a [Token],
) -> Reading<'a, P4Cond>
    ensures { Gives (λ x. (x.0, x.1.now)) result (negated_at fuel env.now tokens.now) }
{
    let (at, rest) = sign_of(Sign::Not, tokens)?;
    if is_name_next(rest) {
        let (first, rest) = name_of(rest)?;
        return cond_named_of(alloc, fuel, env, Some(at), first, rest);
    }
    let (x, rest) = unary_of(alloc, fuel, env, rest)?;
    cond_rest_of(alloc, fuel, env, Some(at), x, rest)
}

/// Reads a condition.
#[inline(never)]
#[tactic(auto, unfolding(p4_grammar::specs::ReadingStatements::cond_at))]
pub fn cond_of<'a>(
    alloc: Global,
    fuel: usize,
    env: &Typedefs,
    tokens: &'a [Token],
) -> Reading<'a, P4Cond>
    ensures { Gives (λ x. (x.0, x.1.now)) result (cond_at fuel env.now tokens.now) }
{
    if is_next(Sign::Not, tokens) {
        return negated_of(alloc, fuel, env, tokens);
    }
    if is_name_next(tokens) {
        let (first, rest) = name_of(tokens)?;
        return cond_named_of(alloc, fuel, env, None, first, rest);
    }
    let (value, rest) = expr_of(alloc, fuel, env, tokens)?;
    Ok((P4Cond::Expr(without_mark(value)), rest))
}
