//! Statements, blocks and branches are rewritten.
ghost use Rattle.std.specs.Prelude.{◌≡◌, ◌∷◌, ◌++◌, [], false, map, option_map, IfOk, OnOk};
ghost use Rattle.p4_check.specs.Rewriting.{joined, rewrite_stmt, rewrite_block, rewrite_if};
ghost use Rattle.rp_rewrite.specs.Sources.{source_in, closed};

use crate::cells::{push_read, push_write};
use crate::parts::push_held_only;
use app_data::Scope;
use p4_ast::{P4Block, P4If, P4Stmt};
use p4_copy::statement::{
    apply_copy, assign_copy, callstmt_copy, cond_copy, keystmt_copy, valid_copy, var_copy,
};
use rp_base::NoMemory;
use sqlite_items::{Boxed, Items};
use std::alloc::Global;

// A statement that isn't a `flow_key` goes behind others.
fn push_one(s: P4Stmt, into: &mut Items<P4Stmt>) -> Result<bool, NoMemory>
    ensures key { IfOk result (λ key. key ≡ false) }
    ensures stmts { OnOk result (into.new ≡ into.old ++ s ∷ []) }
{
    into.push(s)?;
    Ok(false)
}

fn boxed_block(alloc: Global, b: P4Block) -> Result<Boxed<P4Block>, NoMemory>
    ensures { IfOk result (λ c. c ≡ b) }
{
    Ok(Boxed::new(alloc, b)?)
}

fn unboxed(b: Option<Boxed<P4Block>>) -> Option<P4Block>
    ensures { result ≡ b }
{
    match b {
        None => None,
        Some(b) => Some(b.into_inner()),
    }
}

// Lists of which each ends with a `flow_key`, the outermost first, and the list behind them: all as one list, in which what is behind a
// `flow_key` is a branch.
fn closed(
    alloc: Global,
    outer: Items<Items<P4Stmt>>,
    last: Items<P4Stmt>,
) -> Result<Items<P4Stmt>, NoMemory>
    ensures { IfOk result (λ made. made ≡ closed outer last) }
{
    let mut outer = outer;
    let mut made = last;
    while let Some(mut before) = outer.pop() {
        push_held_only(alloc, made, &mut before)?;
        made = before;
    }
    Ok(made)
}

// What a statement becomes goes behind other statements. Tells whether it is a `flow_key`.
#[cycle(walk)]
#[tactic(auto, using(crate::proofs::Pieces::pieces))]
fn push_stmt(
    alloc: Global,
    s: &P4Stmt,
    sc: Scope<'_>,
    into: &mut Items<P4Stmt>,
) -> Result<bool, NoMemory>
    ensures key { IfOk result (λ key. key ≡ (rewrite_stmt (source_in sc.entry) s.now).is_key) }
    ensures stmts { OnOk result (into.new ≡ into.old ++ (rewrite_stmt (source_in sc.entry) s.now).stmts) }
{
    match s {
        P4Stmt::Block(b) => {
            let b = block(alloc, b, sc)?;
            push_one(P4Stmt::Block(b.into_inner()), into)
        }
        P4Stmt::Var(v) => push_one(P4Stmt::Var(var_copy(alloc, v)?), into),
        P4Stmt::Assign(a) => push_one(P4Stmt::Assign(assign_copy(alloc, a)?), into),
        P4Stmt::Read(r) => {
            push_read(alloc, r, sc, into)?;
            Ok(false)
        }
        P4Stmt::Write(w) => {
            push_write(alloc, w, sc, into)?;
            Ok(false)
        }
        P4Stmt::Keystmt(k) => {
            into.push(P4Stmt::Keystmt(keystmt_copy(alloc, k)?))?;
            Ok(true)
        }
        P4Stmt::Valid(v) => push_one(P4Stmt::Valid(valid_copy(alloc, v)?), into),
        P4Stmt::Apply(a) => push_one(P4Stmt::Apply(apply_copy(a)?), into),
        P4Stmt::Callstmt(c) => push_one(P4Stmt::Callstmt(callstmt_copy(alloc, c)?), into),
        P4Stmt::If(i) => {
            let i = branches(alloc, i, sc)?;
            push_one(P4Stmt::If(i.into_inner()), into)
        }
    }
}

// What statements become; those behind a `flow_key` become a branch.
#[cycle(walk)]
fn stmts(alloc: Global, xs: &[P4Stmt], sc: Scope<'_>) -> Result<Items<P4Stmt>, NoMemory>
    ensures { IfOk result (λ made. made ≡ joined (map (rewrite_stmt (source_in sc.entry)) xs.now)) }
{
    let mut outer = Items::new(alloc);
    let mut made = Items::new(alloc);
    for x in xs {
        if push_stmt(alloc, x, sc, &mut made)? {
            outer.push(made)?;
            made = Items::new(alloc);
        }
    }
    closed(alloc, outer, made)
}

/// The rewritten block.
///
/// # Errors
/// `NoMemory`.
#[cycle(walk)]
#[tactic(auto, using(crate::proofs::Pieces::block_is))]
pub fn block(alloc: Global, b: &P4Block, sc: Scope<'_>) -> Result<Boxed<P4Block>, NoMemory>
    ensures { IfOk result (λ c. c ≡ rewrite_block (source_in sc.entry) b.now) }
{
    let stmts = stmts(alloc, b.stmts.as_slice(), sc)?;
    boxed_block(alloc, P4Block { at: b.at, stmts })
}

#[cycle(walk)]
fn some_block(
    alloc: Global,
    b: &Option<P4Block>,
    sc: Scope<'_>,
) -> Result<Option<Boxed<P4Block>>, NoMemory>
    ensures { IfOk result (λ c. c ≡ option_map (rewrite_block (source_in sc.entry)) b.now) }
{
    match b {
        None => Ok(None),
        Some(b) => Ok(Some(block(alloc, b, sc)?)),
    }
}

#[cycle(walk)]
#[tactic(auto, using(crate::proofs::Pieces::if_is))]
fn branches(alloc: Global, i: &P4If, sc: Scope<'_>) -> Result<Boxed<P4If>, NoMemory>
    ensures { IfOk result (λ c. c ≡ rewrite_if (source_in sc.entry) i.now) }
{
    let then = block(alloc, &i.then, sc)?;
    let other = some_block(alloc, &i.else_, sc)?;
    let cond = cond_copy(alloc, &i.cond)?;
    let made = P4If {
        at: i.at,
        cond,
        then: then.into_inner(),
        else_: unboxed(other),
    };
    Ok(Boxed::new(alloc, made)?)
}
