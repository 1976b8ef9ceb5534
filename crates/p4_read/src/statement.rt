//! Statements.
//!
//! Functions within which no statement is read are kept out of line, so that nested statements take less of the stack.
ghost use Rattle.std.specs.Prelude.{◌≡◌, None};
ghost use Rattle.p4_grammar.specs.Forms.{bind_at, done_at};
ghost use Rattle.p4_part.specs.Made.{Gives, Makes};
ghost use Rattle.p4_grammar.specs.ReadingExpressions.{type_at, word_type_at};
ghost use Rattle.p4_grammar.specs.Trees.{read_piece as read_piece_of, write_piece as write_piece_of};
ghost use Rattle.p4_grammar.specs.ReadingStatements.{var_at, var_rest_at, var_piece as var_piece_of, read_rest_at, assign_end_at, assign_at, write_rest_at, valid_rest_at, path_led_at, name_led_at, key_at};
ghost use Rattle.p4_read.specs.Statements.{assigned_expr_at, called_or_assign_at, applied_stmt_at, dot_led_at, call_stmt_at};

use crate::declaration::{args_of, expression_of};
use crate::expression::expr_of;
use p4_ast::{
    P4Apply, P4Assign, P4Callstmt, P4Expr, P4Keystmt, P4Left, P4Name, P4Read, P4Stmt, P4Type,
    P4Valid, P4Validity, P4Var, P4Write,
};
use p4_grammar::{Mark, Piece, Spelled};
use p4_lex::{Sign, Token};
use p4_part::list::joined;
use p4_part::name::{boxed_type_of, names_of, place_of_type, type_named, word_type_of};
use p4_part::path::{front_of, is_only, left_of, slice_or_none_of};
use p4_part::piece::stmt_piece;
use p4_part::token::{Reading, is_name_next, is_next, name_of, sign_of};
use p4_part::typedefs::Typedefs;
use p4_part::value::{Made, boxed, ends_in, path_of, place_of};
use sqlite_items::{Boxed, Items};
use std::alloc::Global;

// A variable.
fn var(at: u64, type_: Boxed<P4Type>, name: P4Name, expr: Option<Boxed<P4Expr>>) -> P4Var
    ensures { result ≡ record { at = at; type_ = type_; name = name; expr = expr } }
{
    P4Var {
        at,
        type_: type_.into_inner(),
        name,
        expr,
    }
}

/// Reads a variable behind its type and its name.
#[tactic(auto, unfolding(p4_grammar::specs::ReadingStatements::var_rest_at))]
pub fn var_rest_of<'a>(
    alloc: Global,
    fuel: usize,
    env: &Typedefs,
    at: u64,
    type_: Boxed<P4Type>,
    name: P4Name,
    tokens: &'a [Token],
) -> Reading<'a, P4Var>
    ensures { Gives (λ x. (x.0, x.1.now)) result (var_rest_at fuel env.now at type_ name tokens.now) }
{
    if is_next(Sign::Assign, tokens) {
        let (_, rest) = sign_of(Sign::Assign, tokens)?;
        let (expr, rest) = expression_of(alloc, fuel, env, rest)?;
        let (_, rest) = sign_of(Sign::Semicolon, rest)?;
        return Ok((var(at, type_, name, Some(expr)), rest));
    }
    let (_, rest) = sign_of(Sign::Semicolon, tokens)?;
    Ok((var(at, type_, name, None), rest))
}

fn var_piece<'a>(alloc: Global, var: P4Var) -> Made<'a, Piece>
    ensures { Makes result (var_piece_of var) }
{
    stmt_piece(alloc, var.at, P4Stmt::Var(var))
}

/// Reads a variable.
#[tactic(auto, unfolding(p4_grammar::specs::ReadingStatements::var_at))]
pub fn var_of<'a>(
    alloc: Global,
    fuel: usize,
    env: &Typedefs,
    tokens: &'a [Token],
) -> Reading<'a, P4Var>
    ensures { Gives (λ x. (x.0, x.1.now)) result (var_at fuel env.now type_at tokens.now) }
{
    let (type_, rest) = boxed_type_of(alloc, tokens)?;
    let (name, rest) = name_of(rest)?;
    let at = place_of_type(type_.get());
    var_rest_of(alloc, fuel, env, at, type_, name, rest)
}

/// Reads a variable whose type begins with a word.
#[inline(never)]
#[tactic(auto, unfolding(p4_grammar::specs::ReadingStatements::var_at))]
pub fn word_var_of<'a>(
    alloc: Global,
    fuel: usize,
    env: &Typedefs,
    tokens: &'a [Token],
) -> Reading<'a, Piece>
    ensures { Gives (λ x. (x.0, x.1.now)) result (bind_at (var_at fuel env.now word_type_at) (λ v. done_at (var_piece_of v)) tokens.now) }
{
    let (type_, rest) = word_type_of(tokens)?;
    let type_ = boxed(alloc, type_)?;
    let (name, rest) = name_of(rest)?;
    let at = place_of_type(type_.get());
    let (var, rest) = var_rest_of(alloc, fuel, env, at, type_, name, rest)?;
    let piece = var_piece(alloc, var)?;
    Ok((piece, rest))
}

// A read, of this index or without one.
fn read_piece<'a>(
    alloc: Global,
    read: Boxed<P4Read>,
    index: Option<Boxed<P4Expr>>,
) -> Made<'a, Piece>
    ensures { Makes result (read_piece_of read.left read.type_ read.name index) }
{
    let P4Read {
        at: _,
        left,
        type_,
        name,
        expr: _,
    } = read.into_inner();
    let at = left.at;
    let stmt = P4Stmt::Read(P4Read {
        at,
        left,
        type_,
        name,
        expr: index,
    });
    stmt_piece(alloc, at, stmt)
}

// A read without its index.
fn read_of<'a>(
    alloc: Global,
    left: P4Left,
    type_: Option<Boxed<P4Type>>,
    name: P4Name,
) -> Made<'a, Boxed<P4Read>>
    ensures { Makes result (record { at = left.at; left = left; type_ = type_; name = name; expr = None }) }
{
    let read = P4Read {
        at: left.at,
        left,
        type_,
        name,
        expr: None,
    };
    boxed(alloc, read)
}

// A read behind the name of its cell, a dot and `read`.
#[tactic(auto, unfolding(p4_grammar::specs::ReadingStatements::read_rest_at))]
fn read_rest_of<'a>(
    alloc: Global,
    fuel: usize,
    env: &Typedefs,
    read: Boxed<P4Read>,
    tokens: &'a [Token],
) -> Reading<'a, Piece>
    ensures { Gives (λ x. (x.0, x.1.now)) result (read_rest_at fuel env.now read.left read.type_ read.name tokens.now) }
{
    let (_, rest) = sign_of(Sign::Open, tokens)?;
    if is_next(Sign::Close, rest) {
        let (_, rest) = sign_of(Sign::Close, rest)?;
        let (_, rest) = sign_of(Sign::Semicolon, rest)?;
        let piece = read_piece(alloc, read, None)?;
        return Ok((piece, rest));
    }
    let (index, rest) = expression_of(alloc, fuel, env, rest)?;
    let (_, rest) = sign_of(Sign::Close, rest)?;
    let (_, rest) = sign_of(Sign::Semicolon, rest)?;
    let piece = read_piece(alloc, read, Some(index))?;
    Ok((piece, rest))
}

// The end of an assignment.
fn assigned_of<'a>(
    alloc: Global,
    left: P4Left,
    expr: Boxed<P4Expr>,
    tokens: &'a [Token],
) -> Reading<'a, Piece>
    ensures { Gives (λ x. (x.0, x.1.now)) result (assigned_expr_at left expr tokens.now) }
{
    let (_, rest) = sign_of(Sign::Semicolon, tokens)?;
    let at = left.at;
    let piece = stmt_piece(alloc, at, P4Stmt::Assign(P4Assign { at, left, expr }))?;
    Ok((piece, rest))
}

// Behind the expression: only a read of a cell, cast or not, may be read instead.
#[tactic(auto, unfolding(p4_grammar::specs::ReadingStatements::assign_end_at, p4_grammar::specs::ReadingStatements::assigned_at))]
fn assign_end_of<'a>(
    alloc: Global,
    fuel: usize,
    env: &Typedefs,
    left: P4Left,
    x: Spelled,
    tokens: &'a [Token],
) -> Reading<'a, Piece>
    ensures { Gives (λ x. (x.0, x.1.now)) result (assign_end_at fuel env.now left x x.mark tokens.now) }
{
    let Spelled { at: _, expr, mark } = x;
    match mark {
        Mark::Read(name) => {
            if is_next(Sign::Open, tokens) {
                let read = read_of(alloc, left, None, name)?;
                return read_rest_of(alloc, fuel, env, read, tokens);
            }
            assigned_of(alloc, left, expr, tokens)
        }
        Mark::CastRead(type_, name) => {
            if is_next(Sign::Open, tokens) {
                let read = read_of(alloc, left, Some(type_), name)?;
                return read_rest_of(alloc, fuel, env, read, tokens);
            }
            assigned_of(alloc, left, expr, tokens)
        }
        Mark::One(_) => assigned_of(alloc, left, expr, tokens),
        Mark::Bare => assigned_of(alloc, left, expr, tokens),
        Mark::Plain => assigned_of(alloc, left, expr, tokens),
    }
}

// Behind the path of the left side.
#[tactic(auto, unfolding(p4_grammar::specs::ReadingStatements::assign_at))]
fn assign_of<'a>(
    alloc: Global,
    fuel: usize,
    env: &Typedefs,
    names: Items<P4Name>,
    tokens: &'a [Token],
) -> Reading<'a, Piece>
    ensures { Gives (λ x. (x.0, x.1.now)) result (assign_at fuel env.now names tokens.now) }
{
    let (slice, rest) = slice_or_none_of(tokens)?;
    let (_, rest) = sign_of(Sign::Assign, rest)?;
    let (x, rest) = expr_of(alloc, fuel, env, rest)?;
    assign_end_of(alloc, fuel, env, left_of(names, slice), x, rest)
}

fn write_piece<'a>(
    alloc: Global,
    name: P4Name,
    expr: Boxed<P4Expr>,
    second: Option<Boxed<P4Expr>>,
) -> Made<'a, Piece>
    ensures { Makes result (write_piece_of name expr second) }
{
    let at = name.at;
    let stmt = P4Stmt::Write(P4Write {
        at,
        name,
        expr,
        second,
    });
    stmt_piece(alloc, at, stmt)
}

// A write behind the name of its cell, a dot and `write`.
#[tactic(auto, unfolding(p4_grammar::specs::ReadingStatements::write_rest_at))]
fn write_rest_of<'a>(
    alloc: Global,
    fuel: usize,
    env: &Typedefs,
    name: P4Name,
    tokens: &'a [Token],
) -> Reading<'a, Piece>
    ensures { Gives (λ x. (x.0, x.1.now)) result (write_rest_at fuel env.now name tokens.now) }
{
    let (_, rest) = sign_of(Sign::Open, tokens)?;
    let (expr, rest) = expression_of(alloc, fuel, env, rest)?;
    if is_next(Sign::Comma, rest) {
        let (_, rest) = sign_of(Sign::Comma, rest)?;
        let (second, rest) = expression_of(alloc, fuel, env, rest)?;
        let (_, rest) = sign_of(Sign::Close, rest)?;
        let (_, rest) = sign_of(Sign::Semicolon, rest)?;
        let piece = write_piece(alloc, name, expr, Some(second))?;
        return Ok((piece, rest));
    }
    let (_, rest) = sign_of(Sign::Close, rest)?;
    let (_, rest) = sign_of(Sign::Semicolon, rest)?;
    let piece = write_piece(alloc, name, expr, None)?;
    Ok((piece, rest))
}

#[tactic(auto, unfolding(p4_grammar::specs::ReadingStatements::valid_rest_at))]
fn valid_rest_of<'a>(
    alloc: Global,
    names: Items<P4Name>,
    validity: P4Validity,
    tokens: &'a [Token],
) -> Reading<'a, Piece>
    ensures { Gives (λ x. (x.0, x.1.now)) result (valid_rest_at names validity tokens.now) }
{
    let (_, rest) = sign_of(Sign::Open, tokens)?;
    let (_, rest) = sign_of(Sign::Close, rest)?;
    let (_, rest) = sign_of(Sign::Semicolon, rest)?;
    let at = place_of(names.as_slice());
    let path = path_of(names);
    let piece = stmt_piece(alloc, at, P4Stmt::Valid(P4Valid { at, path, validity }))?;
    Ok((piece, rest))
}

// Behind a path that isn't a cell's and `write`.
#[tactic(auto, unfolding(p4_grammar::specs::ReadingStatements::or_valid_at))]
fn called_or_assign_of<'a>(
    alloc: Global,
    fuel: usize,
    env: &Typedefs,
    names: Items<P4Name>,
    tokens: &'a [Token],
) -> Reading<'a, Piece>
    ensures { Gives (λ x. (x.0, x.1.now)) result (called_or_assign_at fuel env.now names tokens.now) }
{
    if is_next(Sign::Open, tokens) {
        if ends_in(b"setValid", names.as_slice()) {
            return valid_rest_of(alloc, front_of(names), P4Validity::SetValid, tokens);
        }
        if ends_in(b"setInvalid", names.as_slice()) {
            return valid_rest_of(alloc, front_of(names), P4Validity::SetInvalid, tokens);
        }
    }
    assign_of(alloc, fuel, env, names, tokens)
}

// Behind a path.
#[tactic(auto, unfolding(p4_grammar::specs::ReadingStatements::path_led_at, p4_grammar::specs::ReadingStatements::or_write_at))]
fn path_led_of<'a>(
    alloc: Global,
    fuel: usize,
    env: &Typedefs,
    first: P4Name,
    more: Items<P4Name>,
    tokens: &'a [Token],
) -> Reading<'a, Piece>
    ensures { Gives (λ x. (x.0, x.1.now)) result (path_led_at fuel env.now first more tokens.now) }
{
    if is_only(b"write", &first, more.as_slice()) && is_next(Sign::Open, tokens) {
        return write_rest_of(alloc, fuel, env, first, tokens);
    }
    let names = joined(alloc, first, more)?;
    called_or_assign_of(alloc, fuel, env, names, tokens)
}

// Behind the name of a table and a dot.
fn applied_of<'a>(alloc: Global, first: P4Name, tokens: &'a [Token]) -> Reading<'a, Piece>
    ensures { Gives (λ x. (x.0, x.1.now)) result (applied_stmt_at first tokens.now) }
{
    let (_, rest) = sign_of(Sign::Apply, tokens)?;
    let (_, rest) = sign_of(Sign::Open, rest)?;
    let (_, rest) = sign_of(Sign::Close, rest)?;
    let (_, rest) = sign_of(Sign::Semicolon, rest)?;
    let at = first.at;
    let piece = stmt_piece(alloc, at, P4Stmt::Apply(P4Apply { at, name: first }))?;
    Ok((piece, rest))
}

// Behind a name, where a dot follows.
fn dot_led_of<'a>(
    alloc: Global,
    fuel: usize,
    env: &Typedefs,
    first: P4Name,
    tokens: &'a [Token],
) -> Reading<'a, Piece>
    ensures { Gives (λ x. (x.0, x.1.now)) result (dot_led_at fuel env.now first tokens.now) }
{
    let (_, rest) = sign_of(Sign::Dot, tokens)?;
    if is_next(Sign::Apply, rest) {
        return applied_of(alloc, first, rest);
    }
    let (second, rest) = name_of(rest)?;
    let (more, rest) = names_of(alloc, fuel, rest)?;
    let more = joined(alloc, second, more)?;
    path_led_of(alloc, fuel, env, first, more, rest)
}

// Behind the name of an action.
fn call_of<'a>(
    alloc: Global,
    fuel: usize,
    env: &Typedefs,
    first: P4Name,
    tokens: &'a [Token],
) -> Reading<'a, Piece>
    ensures { Gives (λ x. (x.0, x.1.now)) result (call_stmt_at fuel env.now first tokens.now) }
{
    let (args, rest) = args_of(alloc, fuel, env, tokens)?;
    let (_, rest) = sign_of(Sign::Semicolon, rest)?;
    let at = first.at;
    let stmt = P4Stmt::Callstmt(P4Callstmt {
        at,
        name: first,
        args,
    });
    let piece = stmt_piece(alloc, at, stmt)?;
    Ok((piece, rest))
}

/// Reads a statement behind its first name.
#[inline(never)]
#[tactic(auto, unfolding(p4_grammar::specs::ReadingStatements::name_led_at))]
pub fn name_led_of<'a>(
    alloc: Global,
    fuel: usize,
    env: &Typedefs,
    first: P4Name,
    tokens: &'a [Token],
) -> Reading<'a, Piece>
    ensures { Gives (λ x. (x.0, x.1.now)) result (name_led_at fuel env.now first tokens.now) }
{
    if is_name_next(tokens) {
        let (name, rest) = name_of(tokens)?;
        let at = first.at;
        let type_ = boxed(alloc, type_named(first))?;
        let (var, rest) = var_rest_of(alloc, fuel, env, at, type_, name, rest)?;
        let piece = var_piece(alloc, var)?;
        return Ok((piece, rest));
    }
    if is_next(Sign::Open, tokens) {
        return call_of(alloc, fuel, env, first, tokens);
    }
    if is_next(Sign::Dot, tokens) {
        return dot_led_of(alloc, fuel, env, first, tokens);
    }
    path_led_of(alloc, fuel, env, first, Items::new(alloc), tokens)
}

/// Reads a `flow_key`.
#[inline(never)]
#[tactic(auto, unfolding(p4_grammar::specs::ReadingStatements::key_at))]
pub fn key_of<'a>(
    alloc: Global,
    fuel: usize,
    env: &Typedefs,
    tokens: &'a [Token],
) -> Reading<'a, Piece>
    ensures { Gives (λ x. (x.0, x.1.now)) result (key_at fuel env.now tokens.now) }
{
    let (at, rest) = sign_of(Sign::FlowKey, tokens)?;
    let (_, rest) = sign_of(Sign::Open, rest)?;
    let (expr, rest) = expression_of(alloc, fuel, env, rest)?;
    let (_, rest) = sign_of(Sign::Close, rest)?;
    let (_, rest) = sign_of(Sign::Semicolon, rest)?;
    let piece = stmt_piece(alloc, at, P4Stmt::Keystmt(P4Keystmt { at, expr }))?;
    Ok((piece, rest))
}
