//! Statements and blocks, in one walk. What holds no block is walked by functions of their own, so that the stack grows little.
ghost use Rattle.std.specs.Prelude.{◌≡◌, [], map, IfOk};
ghost use Rattle.p4_stmts.specs.Statements.{stmts, statement, block, if_};

use crate::call::boxed_cond;
use crate::simple::{
    add, apply_stmt, assign_stmt, block_stmt, boxed_block, boxed_if, call_stmt, if_stmt, key_stmt,
    read_stmt, valid_stmt, var_stmt, write_stmt,
};
use p4_ast::{P4Block, P4If, P4Stmt};
use p4_scope::Scope;
use p4_scope::flow::{in_block, in_branch};
use rp_base::NoMemory;
use sqlite_items::{Boxed, Items};
use std::alloc::Global;

/// A statement, the last of its block or not.
///
/// # Errors
/// `NoMemory`.
#[cycle(walk)]
pub fn statement(
    alloc: Global,
    x: &P4Stmt,
    last: bool,
    s: &mut Scope,
) -> Result<Boxed<P4Stmt>, NoMemory>
    ensures { IfOk result (λ r. (s.new, r) ≡ statement x.now last s.old) }
{
    match x {
        P4Stmt::Block(b) => {
            let site = s.site();
            s.stand(in_block(site));
            let b = walked(alloc, b, s)?;
            s.stand(site);
            block_stmt(alloc, b)
        }
        P4Stmt::Var(v) => var_stmt(alloc, v, s),
        P4Stmt::Assign(a) => assign_stmt(alloc, a, s),
        P4Stmt::Read(r) => read_stmt(alloc, r, s),
        P4Stmt::Write(w) => write_stmt(alloc, w, s),
        P4Stmt::Keystmt(k) => key_stmt(alloc, k, s),
        P4Stmt::Valid(v) => valid_stmt(alloc, v, s),
        P4Stmt::Apply(a) => apply_stmt(alloc, a, s),
        P4Stmt::Callstmt(c) => call_stmt(alloc, c, s),
        P4Stmt::If(i) => {
            let i = branches(alloc, i, last, s)?;
            if_stmt(alloc, i)
        }
    }
}

// Statements one after the other.
#[cycle(walk)]
fn stmts(alloc: Global, xs: &[P4Stmt], s: &mut Scope) -> Result<Items<P4Stmt>, NoMemory>
    ensures { IfOk result (λ r. (s.new, r) ≡ stmts (map statement xs.now) s.old []) }
{
    let mut done = Items::new(alloc);
    let mut left = xs.len();
    for x in xs {
        left -= 1;
        let x = statement(alloc, x, left == 0, s)?;
        add(&mut done, x)?;
    }
    Ok(done)
}

// A block in a box, behind which its names are forgotten.
#[cycle(walk)]
fn walked(alloc: Global, b: &P4Block, s: &mut Scope) -> Result<Boxed<P4Block>, NoMemory>
    ensures { IfOk result (λ r. (s.new, r) ≡ block b.now s.old) }
{
    let len = s.len();
    let stmts = stmts(alloc, b.stmts.as_slice(), s)?;
    s.leave(len);
    boxed_block(alloc, b.at, stmts)
}

// An `if`.
#[cycle(walk)]
fn branches(alloc: Global, i: &P4If, last: bool, s: &mut Scope) -> Result<Boxed<P4If>, NoMemory>
    ensures { IfOk result (λ r. (s.new, r) ≡ if_ i.now last s.old) }
{
    let inner = in_branch(last, s.site());
    let c = boxed_cond(alloc, i.at, &i.cond, s)?;
    let site = s.site();
    s.stand(inner);
    let then = walked(alloc, &i.then, s)?;
    s.stand(site);
    let else_ = match &i.else_ {
        None => None,
        Some(b) => {
            let site = s.site();
            s.stand(inner);
            let b = walked(alloc, b, s)?;
            s.stand(site);
            Some(b)
        }
    };
    let i = boxed_if(alloc, i.at, c, then, else_)?;
    Ok(i)
}

/// A block, behind which its names are forgotten.
///
/// # Errors
/// `NoMemory`.
pub fn block(alloc: Global, b: &P4Block, s: &mut Scope) -> Result<P4Block, NoMemory>
    ensures { IfOk result (λ r. (s.new, r) ≡ block b.now s.old) }
{
    let b = walked(alloc, b, s)?;
    Ok(b.into_inner())
}
