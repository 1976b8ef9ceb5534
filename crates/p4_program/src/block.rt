//! Blocks and branches.
ghost use Rattle.std.specs.Prelude.{◌≡◌};
ghost use Rattle.p4_grammar.specs.Trees.{is_open as is_open_of};
ghost use Rattle.p4_grammar.specs.ReadingStatements.{block_of_at, else_at, if_at, stmt_of_at, stmt_at, block_at};
ghost use Rattle.p4_program.specs.Blocks.{block_rest_at, behind_else_at};
ghost use Rattle.p4_part.specs.Made.{Gives};

use p4_ast::{P4Block, P4Cond};
use p4_grammar::Piece;
use p4_lex::{Sign, Token};
use p4_part::end::ReadEnd;
use p4_part::name::is_type_next;
use p4_part::piece::{branch, if_else_piece, if_piece, is_open, keep};
use p4_part::token::{Reading, is_next, is_other_next, name_of, sign_of};
use p4_part::typedefs::Typedefs;
use p4_part::value::boxed;
use p4_read::condition::cond_of;
use p4_read::statement::{key_of, name_led_of, word_var_of};
use sqlite_items::{Boxed, Items};
use std::alloc::Global;

// A block behind its `{`.
#[cycle(statements)]
fn block_rest_of<'a>(
    alloc: Global,
    fuel: usize,
    env: &Typedefs,
    at: u64,
    tokens: &'a [Token],
) -> Reading<'a, P4Block>
    ensures { Gives (λ x. (x.0, x.1.now)) result (block_rest_at fuel (stmt_at fuel env.now) at tokens.now) }
{
    let mut stmts = Items::new(alloc);
    let mut left = fuel;
    let mut rest = tokens;
    while left > 0 {
        left -= 1;
        if !is_other_next(Sign::CloseBrace, rest) {
            let (_, after) = sign_of(Sign::CloseBrace, rest)?;
            return Ok((P4Block { at, stmts }, after));
        }
        let (piece, after) = stmt_of(alloc, fuel, env, rest)?;
        keep(alloc, &mut stmts, piece)?;
        rest = after;
    }
    Err(ReadEnd::At(rest))
}

// A block.
#[cycle(statements)]
#[tactic(auto, unfolding(p4_grammar::specs::ReadingStatements::block_of_at))]
fn block_in_of<'a>(
    alloc: Global,
    fuel: usize,
    env: &Typedefs,
    tokens: &'a [Token],
) -> Reading<'a, P4Block>
    ensures { Gives (λ x. (x.0, x.1.now)) result (block_of_at fuel (stmt_at fuel env.now) tokens.now) }
{
    let (at, rest) = sign_of(Sign::OpenBrace, tokens)?;
    block_rest_of(alloc, fuel, env, at, rest)
}

// An `else` behind a branch, and its own branch.
#[cycle(statements)]
fn behind_else_of<'a>(
    alloc: Global,
    fuel: usize,
    env: &Typedefs,
    at: u64,
    cond: Boxed<P4Cond>,
    then: P4Block,
    tokens: &'a [Token],
) -> Reading<'a, Piece>
    ensures { Gives (λ x. (x.0, x.1.now)) result (behind_else_at at cond then (stmt_at fuel env.now) tokens.now) }
{
    let (_, rest) = sign_of(Sign::Else, tokens)?;
    let (other, rest) = stmt_of(alloc, fuel, env, rest)?;
    let takes_else = is_open(&other);
    let other = branch(alloc, other)?;
    let whole = if_else_piece(alloc, at, cond.into_inner(), then, takes_else, other)?;
    Ok((whole, rest))
}

// Behind a branch: `else` belongs to the nearest `if`.
#[cycle(statements)]
#[tactic(auto, unfolding(p4_grammar::specs::ReadingStatements::else_at))]
fn else_of<'a>(
    alloc: Global,
    fuel: usize,
    env: &Typedefs,
    at: u64,
    cond: Boxed<P4Cond>,
    piece: Piece,
    tokens: &'a [Token],
) -> Reading<'a, Piece>
    ensures { Gives (λ x. (x.0, x.1.now)) result (else_at at cond (stmt_at fuel env.now) piece (is_open_of piece) tokens.now) }
{
    let open = is_open(&piece);
    let then = branch(alloc, piece)?;
    if !open && is_next(Sign::Else, tokens) {
        return behind_else_of(alloc, fuel, env, at, cond, then, tokens);
    }
    let whole = if_piece(alloc, at, cond.into_inner(), then)?;
    Ok((whole, tokens))
}

#[cycle(statements)]
#[tactic(auto, unfolding(p4_grammar::specs::ReadingStatements::if_at))]
fn if_of<'a>(alloc: Global, fuel: usize, env: &Typedefs, tokens: &'a [Token]) -> Reading<'a, Piece>
    ensures { Gives (λ x. (x.0, x.1.now)) result (if_at fuel env.now (stmt_at fuel env.now) tokens.now) }
{
    let (at, rest) = sign_of(Sign::If, tokens)?;
    let (_, rest) = sign_of(Sign::Open, rest)?;
    let (cond, rest) = cond_of(alloc, fuel, env, rest)?;
    let cond = boxed(alloc, cond)?;
    let (_, rest) = sign_of(Sign::Close, rest)?;
    let (piece, rest) = stmt_of(alloc, fuel, env, rest)?;
    else_of(alloc, fuel, env, at, cond, piece, rest)
}

// A statement, where those within have so much fuel.
#[cycle(statements)]
#[tactic(auto, unfolding(p4_grammar::specs::ReadingStatements::stmt_of_at))]
fn stmt_in_of<'a>(
    alloc: Global,
    fuel: usize,
    env: &Typedefs,
    tokens: &'a [Token],
) -> Reading<'a, Piece>
    ensures { Gives (λ x. (x.0, x.1.now)) result (stmt_of_at fuel env.now (stmt_at fuel env.now) tokens.now) }
{
    if is_next(Sign::Semicolon, tokens) {
        let (at, rest) = sign_of(Sign::Semicolon, tokens)?;
        return Ok((Piece::Empty { at }, rest));
    }
    if is_next(Sign::OpenBrace, tokens) {
        let (block, rest) = block_in_of(alloc, fuel, env, tokens)?;
        return Ok((Piece::Block(block), rest));
    }
    if is_next(Sign::If, tokens) {
        return if_of(alloc, fuel, env, tokens);
    }
    if is_next(Sign::FlowKey, tokens) {
        return key_of(alloc, fuel, env, tokens);
    }
    if is_type_next(tokens) {
        return word_var_of(alloc, fuel, env, tokens);
    }
    let (first, rest) = name_of(tokens)?;
    name_led_of(alloc, fuel, env, first, rest)
}

// A statement.
#[cycle(statements)]
#[tactic(auto, unfolding(p4_grammar::specs::ReadingStatements::stmt_at))]
fn stmt_of<'a>(
    alloc: Global,
    fuel: usize,
    env: &Typedefs,
    tokens: &'a [Token],
) -> Reading<'a, Piece>
    ensures { Gives (λ x. (x.0, x.1.now)) result (stmt_at fuel env.now tokens.now) }
{
    if fuel == 0 {
        return Err(ReadEnd::At(tokens));
    }
    stmt_in_of(alloc, fuel - 1, env, tokens)
}

/// Reads a block.
#[tactic(auto, unfolding(p4_grammar::specs::ReadingStatements::block_at))]
pub fn block_of<'a>(
    alloc: Global,
    fuel: usize,
    env: &Typedefs,
    tokens: &'a [Token],
) -> Reading<'a, P4Block>
    ensures { Gives (λ x. (x.0, x.1.now)) result (block_at fuel env.now tokens.now) }
{
    block_in_of(alloc, fuel, env, tokens)
}
