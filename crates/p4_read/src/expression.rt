//! Expressions.
ghost use Rattle.std.specs.Prelude.{◌≡◌, ◌-◌, ◌<◌, ◌∷◌, [], Some};
ghost use Rattle.p4_grammar.specs.Forms.{chain_at, bind_at, done_at};
ghost use Rattle.p4_grammar.specs.Tokens.{words_at};
ghost use Rattle.p4_lex.specs.declared.token.Sign.TheVariants as sign;
ghost use Rattle.p4_grammar.specs.Values.{this, binary as binary_is};
ghost use Rattle.p4_ast.specs.declared.expression.P4BinaryOp.TheVariants as binary_op;
ghost use Rattle.p4_grammar.specs.ReadingExpressions.{sliced_at, named_at, plain_at, parens_at, cast_at, closed_at, open_at, unary_of_at, sum_rest_at, sum_at, compared_at, same_op_at, compare_rest_at, compare_at, and_rest_at, and_at, or_rest_at, choice_at, expr_rest_at, unary_at, expr_at, behind_at, expression_at};
ghost use Rattle.p4_part.specs.Made.{Gives, choice_with};

use p4_ast::{P4BinaryOp, P4Expr, P4Name, P4Type};
use p4_grammar::{Mark, Spelled};
use p4_lex::{Sign, Token};
use p4_part::end::ReadEnd;
use p4_part::list::joined;
use p4_part::name::{is_type_next, names_of, slice_of, type_named, word_type_of};
use p4_part::operator::{
    chain_op_of, compare_op_of, is_chain_next, is_compare_next, is_operand_next, is_sum_next,
    is_this_next, is_unary_next, sum_op_of, this_of, unary_op_of,
};
use p4_part::path::front_of;
use p4_part::token::{Reading, is_name_next, is_next, name_of, number_of, sign_of};
use p4_part::typedefs::Typedefs;
use p4_part::value::{
    binary, cast_name, cast_value, choice, compound, ends_in, path_value, plain, slice_value,
    unary_value, valid_value, without_mark,
};
use sqlite_items::{Boxed, Items};
use std::alloc::Global;

// A value, sliced or not.
#[tactic(auto, unfolding(p4_grammar::specs::ReadingExpressions::sliced_at))]
fn sliced_of<'a>(alloc: Global, x: Spelled, tokens: &'a [Token]) -> Reading<'a, Spelled>
    ensures { Gives (λ x. (x.0, x.1.now)) result (sliced_at x tokens.now) }
{
    if is_next(Sign::OpenSlice, tokens) {
        let (slice, rest) = slice_of(tokens)?;
        let value = slice_value(alloc, x, slice)?;
        return Ok((value, rest));
    }
    Ok((x, tokens))
}

/// Reads an operand that begins with this name and these.
#[tactic(auto, unfolding(p4_grammar::specs::ReadingExpressions::named_at, p4_grammar::specs::ReadingExpressions::asked_at))]
pub fn named_of<'a>(
    alloc: Global,
    first: P4Name,
    more: Items<P4Name>,
    tokens: &'a [Token],
) -> Reading<'a, Spelled>
    ensures { Gives (λ x. (x.0, x.1.now)) result (named_at first more tokens.now) }
{
    let names = joined(alloc, first, more)?;
    if ends_in(b"isValid", names.as_slice()) && is_next(Sign::Open, tokens) {
        let (_, rest) = sign_of(Sign::Open, tokens)?;
        let (_, rest) = sign_of(Sign::Close, rest)?;
        let value = valid_value(alloc, front_of(names))?;
        return sliced_of(alloc, value, rest);
    }
    let value = path_value(alloc, names)?;
    sliced_of(alloc, value, tokens)
}

// A number, `true` or `false`, sliced or not.
#[tactic(auto, unfolding(p4_grammar::specs::ReadingExpressions::plain_at))]
fn plain_of<'a>(alloc: Global, tokens: &'a [Token]) -> Reading<'a, Spelled>
    ensures { Gives (λ x. (x.0, x.1.now)) result (plain_at tokens.now) }
{
    if is_next(Sign::True, tokens) {
        let (at, rest) = sign_of(Sign::True, tokens)?;
        let value = plain(alloc, at, P4Expr::True { at })?;
        return sliced_of(alloc, value, rest);
    }
    if is_next(Sign::False, tokens) {
        let (at, rest) = sign_of(Sign::False, tokens)?;
        let value = plain(alloc, at, P4Expr::False { at })?;
        return sliced_of(alloc, value, rest);
    }
    let (number, rest) = number_of(tokens)?;
    let at = number.at;
    let value = plain(alloc, at, P4Expr::Number { at, number })?;
    sliced_of(alloc, value, rest)
}

/// What stands behind an expression in parentheses: the operand of a cast, where they hold a typedef's name.
#[cycle(expressions)]
#[tactic(auto, unfolding(p4_grammar::specs::ReadingExpressions::parens_at))]
pub fn parens_of<'a>(
    alloc: Global,
    fuel: usize,
    env: &Typedefs,
    at: u64,
    name: Option<P4Name>,
    expr: Boxed<P4Expr>,
    tokens: &'a [Token],
) -> Reading<'a, Spelled>
    ensures { Gives (λ x. (x.0, x.1.now)) result (parens_at at name (unary_at fuel env.now) expr tokens.now) }
{
    match name {
        None => {
            let value = Spelled {
                at,
                expr,
                mark: Mark::Plain,
            };
            sliced_of(alloc, value, tokens)
        }
        Some(name) => {
            if is_operand_next(tokens) {
                let (operand, rest) = unary_of(alloc, fuel, env, tokens)?;
                let value = cast_value(alloc, at, type_named(name), operand)?;
                return Ok((value, rest));
            }
            let value = Spelled {
                at,
                expr,
                mark: Mark::Bare,
            };
            sliced_of(alloc, value, tokens)
        }
    }
}

// Behind `(`, where a type begins with a word.
#[cycle(expressions)]
#[tactic(auto, unfolding(p4_grammar::specs::ReadingExpressions::cast_at))]
fn cast_of<'a>(
    alloc: Global,
    fuel: usize,
    env: &Typedefs,
    at: u64,
    tokens: &'a [Token],
) -> Reading<'a, Spelled>
    ensures { Gives (λ x. (x.0, x.1.now)) result (cast_at at (unary_at fuel env.now) tokens.now) }
{
    let (type_, rest) = word_type_of(tokens)?;
    let (_, rest) = sign_of(Sign::Close, rest)?;
    let (operand, rest) = unary_of(alloc, fuel, env, rest)?;
    let value = cast_value(alloc, at, type_, operand)?;
    Ok((value, rest))
}

// Behind `(` and an expression.
#[cycle(expressions)]
#[tactic(auto, unfolding(p4_grammar::specs::ReadingExpressions::closed_at))]
fn closed_of<'a>(
    alloc: Global,
    fuel: usize,
    env: &Typedefs,
    at: u64,
    x: Spelled,
    tokens: &'a [Token],
) -> Reading<'a, Spelled>
    ensures { Gives (λ x. (x.0, x.1.now)) result (closed_at at env.now (unary_at fuel env.now) x tokens.now) }
{
    let (_, rest) = sign_of(Sign::Close, tokens)?;
    let Spelled { at: _, expr, mark } = x;
    let name = cast_name(env, mark);
    parens_of(alloc, fuel, env, at, name, expr, rest)
}

// An operand that begins with `(`.
#[cycle(expressions)]
#[tactic(auto, unfolding(p4_grammar::specs::ReadingExpressions::open_at))]
fn open_of<'a>(
    alloc: Global,
    fuel: usize,
    env: &Typedefs,
    tokens: &'a [Token],
) -> Reading<'a, Spelled>
    ensures { Gives (λ x. (x.0, x.1.now)) result (open_at env.now (unary_at fuel env.now) (expr_at fuel env.now) tokens.now) }
{
    let (at, rest) = sign_of(Sign::Open, tokens)?;
    if is_type_next(rest) {
        return cast_of(alloc, fuel, env, at, rest);
    }
    let (x, rest) = expr_of(alloc, fuel, env, rest)?;
    closed_of(alloc, fuel, env, at, x, rest)
}

// An operand, where those within have so much fuel.
#[cycle(expressions)]
#[tactic(auto, unfolding(p4_grammar::specs::ReadingExpressions::unary_of_at))]
fn operand_of<'a>(
    alloc: Global,
    fuel: usize,
    env: &Typedefs,
    tokens: &'a [Token],
) -> Reading<'a, Spelled>
    ensures { Gives (λ x. (x.0, x.1.now)) result (unary_of_at fuel env.now (unary_at fuel env.now) (expr_at fuel env.now) tokens.now) }
{
    if is_unary_next(tokens) {
        let ((op, at), rest) = unary_op_of(tokens)?;
        let (operand, rest) = unary_of(alloc, fuel, env, rest)?;
        let value = unary_value(alloc, op, at, operand)?;
        return Ok((value, rest));
    }
    if is_next(Sign::Open, tokens) {
        return open_of(alloc, fuel, env, tokens);
    }
    if is_name_next(tokens) {
        let (first, rest) = name_of(tokens)?;
        let (more, rest) = names_of(alloc, fuel, rest)?;
        return named_of(alloc, first, more, rest);
    }
    plain_of(alloc, tokens)
}

/// Reads an operand.
#[cycle(expressions)]
#[tactic(auto, unfolding(p4_grammar::specs::ReadingExpressions::unary_at))]
pub fn unary_of<'a>(
    alloc: Global,
    fuel: usize,
    env: &Typedefs,
    tokens: &'a [Token],
) -> Reading<'a, Spelled>
    ensures { Gives (λ x. (x.0, x.1.now)) result (unary_at fuel env.now tokens.now) }
{
    if fuel == 0 {
        return Err(ReadEnd::At(tokens));
    }
    operand_of(alloc, fuel - 1, env, tokens)
}

// The operators of a sum behind its first operand.
#[cycle(expressions)]
#[tactic(auto, unfolding(p4_grammar::specs::ReadingExpressions::sum_rest_at))]
fn sum_rest_of<'a>(
    alloc: Global,
    fuel: usize,
    env: &Typedefs,
    first: Spelled,
    tokens: &'a [Token],
) -> Reading<'a, Spelled>
    ensures { Gives (λ x. (x.0, x.1.now)) result (sum_rest_at fuel (unary_at fuel env.now) first tokens.now) }
{
    let mut value = first;
    let mut left = fuel;
    let mut rest = tokens;
    while left > 0 {
        left -= 1;
        if !is_sum_next(&value, rest) {
            return Ok((value, rest));
        }
        let (op, after) = sum_op_of(&value, rest)?;
        let (right, after) = unary_of(alloc, fuel, env, after)?;
        value = binary(alloc, op, value, right)?;
        rest = after;
    }
    Err(ReadEnd::At(rest))
}

#[cycle(expressions)]
#[tactic(auto, unfolding(p4_grammar::specs::ReadingExpressions::sum_at))]
fn sum_of<'a>(
    alloc: Global,
    fuel: usize,
    env: &Typedefs,
    tokens: &'a [Token],
) -> Reading<'a, Spelled>
    ensures { Gives (λ x. (x.0, x.1.now)) result (sum_at fuel (unary_at fuel env.now) tokens.now) }
{
    let (first, rest) = unary_of(alloc, fuel, env, tokens)?;
    sum_rest_of(alloc, fuel, env, first, rest)
}

// The comparison of a sum with another.
#[cycle(expressions)]
#[tactic(auto, unfolding(p4_grammar::specs::ReadingExpressions::compared_at))]
fn compared_of<'a>(
    alloc: Global,
    fuel: usize,
    env: &Typedefs,
    x: Spelled,
    tokens: &'a [Token],
) -> Reading<'a, Spelled>
    ensures { Gives (λ x. (x.0, x.1.now)) result (compared_at fuel (unary_at fuel env.now) x tokens.now) }
{
    if is_compare_next(tokens) {
        let at = x.at;
        let left = without_mark(x);
        let (op, rest) = compare_op_of(tokens)?;
        let (right, rest) = sum_of(alloc, fuel, env, rest)?;
        let value = compound(alloc, op, at, left, right)?;
        return Ok((value, rest));
    }
    Ok((x, tokens))
}

// Operands behind this operator.
#[cycle(expressions)]
fn more_of<'a>(
    alloc: Global,
    fuel: usize,
    env: &Typedefs,
    op: P4BinaryOp,
    first: Spelled,
    tokens: &'a [Token],
) -> Reading<'a, Spelled>
    ensures { Gives (λ x. (x.0, x.1.now)) result (chain_at fuel (λ z. this op) binary_is (unary_at fuel env.now) first tokens.now) }
{
    let mut value = first;
    let mut left = fuel;
    let mut rest = tokens;
    while left > 0 {
        left -= 1;
        if !is_this_next(op, rest) {
            return Ok((value, rest));
        }
        let (op, after) = this_of(op, rest)?;
        let (right, after) = unary_of(alloc, fuel, env, after)?;
        value = binary(alloc, op, value, right)?;
        rest = after;
    }
    Err(ReadEnd::At(rest))
}

// A chain of one operator throughout.
#[cycle(expressions)]
#[tactic(auto, unfolding(p4_grammar::specs::ReadingExpressions::same_op_at))]
fn same_op_of<'a>(
    alloc: Global,
    fuel: usize,
    env: &Typedefs,
    x: Spelled,
    tokens: &'a [Token],
) -> Reading<'a, Spelled>
    ensures { Gives (λ x. (x.0, x.1.now)) result (same_op_at fuel (unary_at fuel env.now) x tokens.now) }
{
    let at = x.at;
    let left = without_mark(x);
    let (op, rest) = chain_op_of(tokens)?;
    let (right, rest) = unary_of(alloc, fuel, env, rest)?;
    let value = compound(alloc, op, at, left, right)?;
    more_of(alloc, fuel, env, op, value, rest)
}

#[cycle(expressions)]
#[tactic(auto, unfolding(p4_grammar::specs::ReadingExpressions::compare_rest_at))]
fn compare_rest_of<'a>(
    alloc: Global,
    fuel: usize,
    env: &Typedefs,
    x: Spelled,
    tokens: &'a [Token],
) -> Reading<'a, Spelled>
    ensures { Gives (λ x. (x.0, x.1.now)) result (compare_rest_at fuel (unary_at fuel env.now) x tokens.now) }
{
    if is_chain_next(tokens) {
        return same_op_of(alloc, fuel, env, x, tokens);
    }
    let (sum, rest) = sum_rest_of(alloc, fuel, env, x, tokens)?;
    compared_of(alloc, fuel, env, sum, rest)
}

#[cycle(expressions)]
#[tactic(auto, unfolding(p4_grammar::specs::ReadingExpressions::compare_at))]
fn compare_of<'a>(
    alloc: Global,
    fuel: usize,
    env: &Typedefs,
    tokens: &'a [Token],
) -> Reading<'a, Spelled>
    ensures { Gives (λ x. (x.0, x.1.now)) result (compare_at fuel (unary_at fuel env.now) tokens.now) }
{
    let (first, rest) = unary_of(alloc, fuel, env, tokens)?;
    compare_rest_of(alloc, fuel, env, first, rest)
}

// Operands behind `&&`.
#[cycle(expressions)]
fn ands_of<'a>(
    alloc: Global,
    fuel: usize,
    env: &Typedefs,
    first: Spelled,
    tokens: &'a [Token],
) -> Reading<'a, Spelled>
    ensures { Gives (λ x. (x.0, x.1.now)) result (chain_at fuel (λ z. this binary_op.And) binary_is (compare_at fuel (unary_at fuel env.now)) first tokens.now) }
{
    let mut value = first;
    let mut left = fuel;
    let mut rest = tokens;
    while left > 0 {
        left -= 1;
        if !is_this_next(P4BinaryOp::And, rest) {
            return Ok((value, rest));
        }
        let (op, after) = this_of(P4BinaryOp::And, rest)?;
        let (right, after) = compare_of(alloc, fuel, env, after)?;
        value = binary(alloc, op, value, right)?;
        rest = after;
    }
    Err(ReadEnd::At(rest))
}

#[cycle(expressions)]
#[tactic(auto, unfolding(p4_grammar::specs::ReadingExpressions::and_rest_at))]
fn and_rest_of<'a>(
    alloc: Global,
    fuel: usize,
    env: &Typedefs,
    x: Spelled,
    tokens: &'a [Token],
) -> Reading<'a, Spelled>
    ensures { Gives (λ x. (x.0, x.1.now)) result (and_rest_at fuel (unary_at fuel env.now) x tokens.now) }
{
    let (first, rest) = compare_rest_of(alloc, fuel, env, x, tokens)?;
    ands_of(alloc, fuel, env, first, rest)
}

#[cycle(expressions)]
#[tactic(auto, unfolding(p4_grammar::specs::ReadingExpressions::and_at))]
fn and_of<'a>(
    alloc: Global,
    fuel: usize,
    env: &Typedefs,
    tokens: &'a [Token],
) -> Reading<'a, Spelled>
    ensures { Gives (λ x. (x.0, x.1.now)) result (and_at fuel (unary_at fuel env.now) tokens.now) }
{
    let (first, rest) = unary_of(alloc, fuel, env, tokens)?;
    and_rest_of(alloc, fuel, env, first, rest)
}

// Operands behind `||`.
#[cycle(expressions)]
fn ors_of<'a>(
    alloc: Global,
    fuel: usize,
    env: &Typedefs,
    first: Spelled,
    tokens: &'a [Token],
) -> Reading<'a, Spelled>
    ensures { Gives (λ x. (x.0, x.1.now)) result (chain_at fuel (λ z. this binary_op.Or) binary_is (and_at fuel (unary_at fuel env.now)) first tokens.now) }
{
    let mut value = first;
    let mut left = fuel;
    let mut rest = tokens;
    while left > 0 {
        left -= 1;
        if !is_this_next(P4BinaryOp::Or, rest) {
            return Ok((value, rest));
        }
        let (op, after) = this_of(P4BinaryOp::Or, rest)?;
        let (right, after) = and_of(alloc, fuel, env, after)?;
        value = binary(alloc, op, value, right)?;
        rest = after;
    }
    Err(ReadEnd::At(rest))
}

#[cycle(expressions)]
#[tactic(auto, unfolding(p4_grammar::specs::ReadingExpressions::or_rest_at))]
fn or_rest_of<'a>(
    alloc: Global,
    fuel: usize,
    env: &Typedefs,
    x: Spelled,
    tokens: &'a [Token],
) -> Reading<'a, Spelled>
    ensures { Gives (λ x. (x.0, x.1.now)) result (or_rest_at fuel (unary_at fuel env.now) x tokens.now) }
{
    let (first, rest) = and_rest_of(alloc, fuel, env, x, tokens)?;
    ors_of(alloc, fuel, env, first, rest)
}

// Behind `?` and the first of the two values.
#[cycle(expressions)]
fn second_of<'a>(
    alloc: Global,
    fuel: usize,
    env: &Typedefs,
    at: u64,
    test: Boxed<P4Expr>,
    yes: Boxed<P4Expr>,
    tokens: &'a [Token],
) -> Reading<'a, Spelled>
    ensures { Gives (λ x. (x.0, x.1.now)) result (words_at (sign.Colon ∷ []) (bind_at (expr_at fuel env.now) λ no. done_at (choice_with at test yes no)) tokens.now) }
{
    let (_, rest) = sign_of(Sign::Colon, tokens)?;
    let (no, rest) = expr_of(alloc, fuel, env, rest)?;
    let value = choice(alloc, at, test, yes, no)?;
    Ok((value, rest))
}

#[cycle(expressions)]
#[tactic(auto, unfolding(p4_grammar::specs::ReadingExpressions::choice_at))]
fn choice_of<'a>(
    alloc: Global,
    fuel: usize,
    env: &Typedefs,
    x: Spelled,
    tokens: &'a [Token],
) -> Reading<'a, Spelled>
    ensures { Gives (λ x. (x.0, x.1.now)) result (choice_at (expr_at fuel env.now) x tokens.now) }
{
    if is_next(Sign::Ask, tokens) {
        let at = x.at;
        let test = without_mark(x);
        let (_, rest) = sign_of(Sign::Ask, tokens)?;
        let (yes, rest) = expr_of(alloc, fuel, env, rest)?;
        return second_of(alloc, fuel, env, at, test, without_mark(yes), rest);
    }
    Ok((x, tokens))
}

// What an expression may begin behind its first operand.
#[cycle(expressions)]
#[tactic(auto, unfolding(p4_grammar::specs::ReadingExpressions::expr_rest_at))]
fn expr_rest_of<'a>(
    alloc: Global,
    fuel: usize,
    env: &Typedefs,
    x: Spelled,
    tokens: &'a [Token],
) -> Reading<'a, Spelled>
    requires { 0 < fuel }
    ensures { Gives (λ x. (x.0, x.1.now)) result (expr_rest_at fuel (unary_at fuel env.now) (expr_at (fuel - 1) env.now) x tokens.now) }
{
    let (value, rest) = or_rest_of(alloc, fuel, env, x, tokens)?;
    choice_of(alloc, fuel - 1, env, value, rest)
}

/// Reads an expression.
#[cycle(expressions)]
#[tactic(auto, unfolding(p4_grammar::specs::ReadingExpressions::expr_at, p4_grammar::specs::ReadingExpressions::unary_at))]
pub fn expr_of<'a>(
    alloc: Global,
    fuel: usize,
    env: &Typedefs,
    tokens: &'a [Token],
) -> Reading<'a, Spelled>
    ensures { Gives (λ x. (x.0, x.1.now)) result (expr_at fuel env.now tokens.now) }
{
    if fuel == 0 {
        return Err(ReadEnd::At(tokens));
    }
    let (first, rest) = unary_of(alloc, fuel, env, tokens)?;
    expr_rest_of(alloc, fuel, env, first, rest)
}

/// Reads an expression behind its first operand.
#[tactic(auto, unfolding(p4_grammar::specs::ReadingExpressions::behind_at))]
pub fn behind_of<'a>(
    alloc: Global,
    fuel: usize,
    env: &Typedefs,
    x: Spelled,
    tokens: &'a [Token],
) -> Reading<'a, Spelled>
    ensures { Gives (λ x. (x.0, x.1.now)) result (behind_at fuel env.now x tokens.now) }
{
    if fuel == 0 {
        return Err(ReadEnd::At(tokens));
    }
    expr_rest_of(alloc, fuel, env, x, tokens)
}
