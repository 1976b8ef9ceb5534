//! Keysets.
ghost use Rattle.std.specs.Prelude.{◌≡◌};
ghost use Rattle.p4_grammar.specs.Trees.{keyset_place as keyset_place_of};
ghost use Rattle.p4_read.specs.Keysets.{tuple_end_at, masked_tuple_at, cast_keyset_at};
ghost use Rattle.p4_grammar.specs.Reading.{any_at, masked_at, tuple_rest_at, one_behind_at, grouped_at, open_keyset_at, keyset_at};
ghost use Rattle.p4_part.specs.Made.{Finds, Gives};

use crate::declaration::expression_of;
use crate::expression::{behind_of, expr_of, parens_of, unary_of};
use crate::part::{Part, parts_behind};
use p4_ast::{P4Keyset, P4One};
use p4_grammar::Spelled;
use p4_lex::{Sign, Token};
use p4_part::end::ReadEnd;
use p4_part::list::pair;
use p4_part::name::{is_type_next, word_type_of};
use p4_part::token::{Finding, Reading, is_next, sign_of};
use p4_part::typedefs::Typedefs;
use p4_part::value::{boxed, cast_name, cast_value, without_mark};
use sqlite_items::{Boxed, Items};
use std::alloc::Global;

// A value, with its mask or without one.
#[tactic(auto, unfolding(p4_grammar::specs::Reading::masked_at))]
fn masked_of<'a>(
    alloc: Global,
    fuel: usize,
    env: &Typedefs,
    x: Spelled,
    tokens: &'a [Token],
) -> Reading<'a, P4One>
    ensures { Gives (λ x. (x.0, x.1.now)) result (masked_at fuel env.now x tokens.now) }
{
    let at = x.at;
    let expr = without_mark(x);
    if is_next(Sign::Mask, tokens) {
        let (_, rest) = sign_of(Sign::Mask, tokens)?;
        let (mask, rest) = expression_of(alloc, fuel, env, rest)?;
        let mask = Some(mask);
        return Ok((P4One::Expr { at, expr, mask }, rest));
    }
    let mask = None;
    Ok((P4One::Expr { at, expr, mask }, tokens))
}

#[tactic(auto, unfolding(p4_grammar::specs::Reading::any_at))]
fn any_of<'a>(tokens: &'a [Token]) -> Finding<'a, P4One>
    ensures { Finds (λ x. (x.0, x.1.now)) (λ e. e.now) result (any_at tokens.now) }
{
    let (at, rest) = sign_of(Sign::Any, tokens)?;
    Ok((P4One::Any { at }, rest))
}

impl Part for P4One {
    ghost use Rattle.p4_grammar.specs.Reading.{one_at};

    ghost reader = { one_at };

    #[tactic(auto, unfolding(p4_grammar::specs::Reading::one_at))]
    fn read<'a>(
        alloc: Global,
        fuel: usize,
        env: &Typedefs,
        tokens: &'a [Token],
    ) -> Reading<'a, P4One> {
        if is_next(Sign::Any, tokens) {
            let (one, rest) = any_of(tokens)?;
            return Ok((one, rest));
        }
        let (x, rest) = expr_of(alloc, fuel, env, tokens)?;
        masked_of(alloc, fuel, env, x, rest)
    }
}

// Behind the first two of a tuple.
fn tuple_end_of<'a>(
    alloc: Global,
    fuel: usize,
    env: &Typedefs,
    at: u64,
    two: Items<P4One>,
    tokens: &'a [Token],
) -> Reading<'a, P4Keyset>
    ensures { Gives (λ x. (x.0, x.1.now)) result (tuple_end_at fuel env.now at two tokens.now) }
{
    let (more, rest) = parts_behind(alloc, fuel, env, tokens)?;
    let (_, rest) = sign_of(Sign::Close, rest)?;
    let mut ones = two;
    if ones.append(more).is_err() {
        return Err(ReadEnd::NoMemory);
    }
    Ok((P4Keyset::Tuple { at, ones }, rest))
}

// Behind the first of a tuple.
#[tactic(auto, unfolding(p4_grammar::specs::Reading::tuple_rest_at))]
fn tuple_rest_of<'a>(
    alloc: Global,
    fuel: usize,
    env: &Typedefs,
    at: u64,
    first: P4One,
    tokens: &'a [Token],
) -> Reading<'a, P4Keyset>
    ensures { Gives (λ x. (x.0, x.1.now)) result (tuple_rest_at fuel env.now at first tokens.now) }
{
    let (_, rest) = sign_of(Sign::Comma, tokens)?;
    let (second, rest) = P4One::read(alloc, fuel, env, rest)?;
    let two = pair(alloc, first, second)?;
    tuple_end_of(alloc, fuel, env, at, two, rest)
}

// A single one, behind the first operand of its expression.
#[tactic(auto, unfolding(p4_grammar::specs::Reading::one_behind_at))]
fn one_behind_of<'a>(
    alloc: Global,
    fuel: usize,
    env: &Typedefs,
    x: Spelled,
    tokens: &'a [Token],
) -> Reading<'a, P4Keyset>
    ensures { Gives (λ x. (x.0, x.1.now)) result (one_behind_at fuel env.now x tokens.now) }
{
    let (x, rest) = behind_of(alloc, fuel, env, x, tokens)?;
    let (one, rest) = masked_of(alloc, fuel, env, x, rest)?;
    Ok((P4Keyset::One(one), rest))
}

// A tuple behind its first value, which has a mask.
fn masked_tuple_of<'a>(
    alloc: Global,
    fuel: usize,
    env: &Typedefs,
    at: u64,
    x: Spelled,
    tokens: &'a [Token],
) -> Reading<'a, P4Keyset>
    ensures { Gives (λ x. (x.0, x.1.now)) result (masked_tuple_at fuel env.now at x tokens.now) }
{
    let place = x.at;
    let expr = without_mark(x);
    let (_, rest) = sign_of(Sign::Mask, tokens)?;
    let (mask, rest) = expression_of(alloc, fuel, env, rest)?;
    let first = P4One::Expr {
        at: place,
        expr,
        mask: Some(mask),
    };
    tuple_rest_of(alloc, fuel, env, at, first, rest)
}

// Behind `(` and an expression: a tuple, or an operand in parentheses.
#[tactic(auto, unfolding(p4_grammar::specs::Reading::grouped_at))]
fn grouped_of<'a>(
    alloc: Global,
    fuel: usize,
    env: &Typedefs,
    at: u64,
    x: Spelled,
    tokens: &'a [Token],
) -> Reading<'a, P4Keyset>
    ensures { Gives (λ x. (x.0, x.1.now)) result (grouped_at fuel env.now at x tokens.now) }
{
    if is_next(Sign::Mask, tokens) {
        return masked_tuple_of(alloc, fuel, env, at, x, tokens);
    }
    let Spelled {
        at: place,
        expr,
        mark,
    } = x;
    if is_next(Sign::Comma, tokens) {
        let first = P4One::Expr {
            at: place,
            expr,
            mask: None,
        };
        return tuple_rest_of(alloc, fuel, env, at, first, tokens);
    }
    let (_, rest) = sign_of(Sign::Close, tokens)?;
    let name = cast_name(env, mark);
    let (x, rest) = parens_of(alloc, fuel, env, at, name, expr, rest)?;
    one_behind_of(alloc, fuel, env, x, rest)
}

// Behind `(`, where a type begins with a word.
fn cast_keyset_of<'a>(
    alloc: Global,
    fuel: usize,
    env: &Typedefs,
    at: u64,
    tokens: &'a [Token],
) -> Reading<'a, P4Keyset>
    ensures { Gives (λ x. (x.0, x.1.now)) result (cast_keyset_at fuel env.now at tokens.now) }
{
    let (type_, rest) = word_type_of(tokens)?;
    let (_, rest) = sign_of(Sign::Close, rest)?;
    let (operand, rest) = unary_of(alloc, fuel, env, rest)?;
    let x = cast_value(alloc, at, type_, operand)?;
    one_behind_of(alloc, fuel, env, x, rest)
}

#[tactic(auto, unfolding(p4_grammar::specs::Reading::open_keyset_at))]
fn open_keyset_of<'a>(
    alloc: Global,
    fuel: usize,
    env: &Typedefs,
    tokens: &'a [Token],
) -> Reading<'a, P4Keyset>
    ensures { Gives (λ x. (x.0, x.1.now)) result (open_keyset_at fuel env.now tokens.now) }
{
    let (at, rest) = sign_of(Sign::Open, tokens)?;
    if is_next(Sign::Any, rest) {
        let (first, rest) = any_of(rest)?;
        return tuple_rest_of(alloc, fuel, env, at, first, rest);
    }
    if is_type_next(rest) {
        return cast_keyset_of(alloc, fuel, env, at, rest);
    }
    let (x, rest) = expr_of(alloc, fuel, env, rest)?;
    grouped_of(alloc, fuel, env, at, x, rest)
}

// A keyset.
#[tactic(auto, unfolding(p4_grammar::specs::Reading::keyset_at))]
fn keyset_of<'a>(
    alloc: Global,
    fuel: usize,
    env: &Typedefs,
    tokens: &'a [Token],
) -> Reading<'a, P4Keyset>
    ensures { Gives (λ x. (x.0, x.1.now)) result (keyset_at fuel env.now tokens.now) }
{
    if is_next(Sign::Default, tokens) {
        let (at, rest) = sign_of(Sign::Default, tokens)?;
        return Ok((P4Keyset::Default { at }, rest));
    }
    if is_next(Sign::Open, tokens) {
        return open_keyset_of(alloc, fuel, env, tokens);
    }
    let (one, rest) = P4One::read(alloc, fuel, env, tokens)?;
    Ok((P4Keyset::One(one), rest))
}

/// Reads a keyset, into a box.
pub fn boxed_keyset_of<'a>(
    alloc: Global,
    fuel: usize,
    env: &Typedefs,
    tokens: &'a [Token],
) -> Reading<'a, Boxed<P4Keyset>>
    ensures { Gives (λ x. (x.0, x.1.now)) result (keyset_at fuel env.now tokens.now) }
{
    let (keyset, rest) = keyset_of(alloc, fuel, env, tokens)?;
    let keyset = boxed(alloc, keyset)?;
    Ok((keyset, rest))
}

/// The place of a keyset.
pub fn keyset_place(keyset: &P4Keyset) -> u64
    ensures { result ≡ keyset_place_of keyset.now }
{
    match keyset {
        P4Keyset::Default { at } => *at,
        P4Keyset::One(P4One::Any { at }) => *at,
        P4Keyset::One(
            P4One::Expr {
                at,
                expr: _,
                mask: _,
            },
        ) => *at,
        P4Keyset::Tuple { at, ones: _ } => *at,
    }
}
