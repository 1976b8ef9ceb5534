//! Statements as they were spelled.
//!
//! Functions within which no statement is read are kept out of line, so that nested statements take less of the stack.
ghost use Rattle.std.specs.Prelude.{◌≡◌, ◌++◌, ◌∷◌, [], Ok, Some, None, true};
ghost use Rattle.p4_grammar.specs.declared.mark.Piece.TheVariants as piece;
ghost use Rattle.p4_grammar.specs.Trees.{kept as kept_of, block_of as block_is, branch as branch_is, is_open as is_open_of, opened as opened_of, if_stmt as if_stmt_of};
ghost use Rattle.p4_part.specs.Made.{Gives, Makes};

use crate::end::ReadEnd;
use crate::list::single;
use crate::value::{Made, boxed};
use p4_ast::{P4Block, P4Cond, P4If, P4Stmt};
use p4_grammar::Piece;
use sqlite_items::{Boxed, Items};
use std::alloc::Global;

/// A statement as a piece, where no `else` behind it would belong to it.
pub fn stmt_piece<'a>(alloc: Global, at: u64, stmt: P4Stmt) -> Made<'a, Piece>
    ensures { Makes result (piece.Stmt at stmt) }
{
    let stmt = boxed(alloc, stmt)?;
    Ok(Piece::Stmt { at, stmt })
}

/// Appends what a block keeps of a piece.
#[inline(never)]
pub fn keep<'a>(alloc: Global, stmts: &mut Items<P4Stmt>, piece: Piece) -> Made<'a, ()>
    ensures { Gives (λ _. stmts.new) result (Ok (stmts.old ++ kept_of piece)) }
{
    let stmt = match piece {
        Piece::Empty { at: _ } => return Ok(()),
        Piece::Block(block) => P4Stmt::Block(block),
        Piece::Stmt { at: _, stmt } => stmt.into_inner(),
        Piece::Open { at: _, stmt } => stmt.into_inner(),
    };
    if stmts.is_empty() {
        *stmts = single(alloc, stmt)?;
        return Ok(());
    }
    match stmts.push(stmt) {
        Ok(()) => Ok(()),
        Err(_) => Err(ReadEnd::NoMemory),
    }
}

// The block of one statement.
fn block_of_one<'a>(alloc: Global, at: u64, stmt: Boxed<P4Stmt>) -> Made<'a, P4Block>
    ensures { Makes result (block_is at (stmt ∷ [])) }
{
    let stmts = single(alloc, stmt.into_inner())?;
    Ok(P4Block { at, stmts })
}

/// The block that a branch is.
#[inline(never)]
pub fn branch<'a>(alloc: Global, piece: Piece) -> Made<'a, P4Block>
    ensures { Makes result (branch_is piece) }
{
    match piece {
        Piece::Empty { at } => Ok(P4Block {
            at,
            stmts: Items::new(alloc),
        }),
        Piece::Block(block) => Ok(block),
        Piece::Stmt { at, stmt } => block_of_one(alloc, at, stmt),
        Piece::Open { at, stmt } => block_of_one(alloc, at, stmt),
    }
}

/// Whether an `else` behind a piece would belong to it.
pub fn is_open(piece: &Piece) -> bool
    ensures { result ≡ is_open_of piece.now }
{
    match piece {
        Piece::Empty { at: _ } => false,
        Piece::Block(_) => false,
        Piece::Stmt { at: _, stmt: _ } => false,
        Piece::Open { at: _, stmt: _ } => true,
    }
}

/// An `if` without `else`.
#[inline(never)]
pub fn if_piece<'a>(alloc: Global, at: u64, cond: P4Cond, then: P4Block) -> Made<'a, Piece>
    ensures { Makes result (opened_of true at (if_stmt_of at cond then None)) }
{
    let stmt = P4Stmt::If(P4If {
        at,
        cond,
        then,
        else_: None,
    });
    let stmt = boxed(alloc, stmt)?;
    Ok(Piece::Open { at, stmt })
}

// A statement that an `else` behind it would belong to, or not.
fn opened(takes_else: bool, at: u64, stmt: Boxed<P4Stmt>) -> Piece
    ensures { result ≡ opened_of takes_else at stmt }
{
    if takes_else {
        Piece::Open { at, stmt }
    } else {
        Piece::Stmt { at, stmt }
    }
}

/// An `if` with `else`, where another `else` behind it would belong to it, or not.
#[inline(never)]
pub fn if_else_piece<'a>(
    alloc: Global,
    at: u64,
    cond: P4Cond,
    then: P4Block,
    takes_else: bool,
    other: P4Block,
) -> Made<'a, Piece>
    ensures { Makes result (opened_of takes_else at (if_stmt_of at cond then (Some other))) }
{
    let stmt = P4Stmt::If(P4If {
        at,
        cond,
        then,
        else_: Some(other),
    });
    let stmt = boxed(alloc, stmt)?;
    Ok(opened(takes_else, at, stmt))
}
