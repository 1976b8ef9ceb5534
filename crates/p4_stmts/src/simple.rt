//! Statements in boxes: those that hold no others, and what becomes one behind the walk of its blocks.
//! Each function stands alone, so that what it needs isn't on the stack while a block is walked.
ghost use Rattle.std.specs.Prelude.{◌≡◌, ◌++◌, ◌∷◌, [], IfOk, OnOk};
ghost use Rattle.p4_ast.specs.declared.statement.P4Stmt.TheVariants as stmt;
ghost use Rattle.p4_ast.specs.declared.statement.P4Block.{roll-P4Block};
ghost use Rattle.p4_ast.specs.declared.statement.P4If.{roll-P4If};
ghost use Rattle.p4_stmts.specs.Statements.{wrapped, noted, var, read, write, keystmt, valid, application, callstmt};
ghost use Rattle.p4_typing.specs.Calls.{assign};

use crate::call::{apply, callstmt};
use crate::cell::{read, write};
use crate::declared::variable;
use crate::key::keystmt;
use p4_ast::{
    P4Apply, P4Assign, P4Block, P4Callstmt, P4Cond, P4If, P4Keystmt, P4Read, P4Stmt, P4Valid,
    P4Var, P4Write,
};
use p4_scope::Scope;
use p4_scope::copy::{name_copy, path_copy};
use rp_base::NoMemory;
use sqlite_items::{Boxed, Items};
use std::alloc::Global;

fn boxed(alloc: Global, x: P4Stmt) -> Result<Boxed<P4Stmt>, NoMemory>
    ensures { IfOk result (λ b. b ≡ x) }
{
    Ok(Boxed::new(alloc, x)?)
}

/// Adds a statement to others.
///
/// # Errors
/// `NoMemory`.
#[inline(never)]
pub fn add(done: &mut Items<P4Stmt>, x: Boxed<P4Stmt>) -> Result<(), NoMemory>
    ensures { OnOk result (done.new ≡ done.old ++ x ∷ []) }
{
    done.push(x.into_inner())?;
    Ok(())
}

/// A block as a statement.
///
/// # Errors
/// `NoMemory`.
#[inline(never)]
pub fn block_stmt(alloc: Global, b: Boxed<P4Block>) -> Result<Boxed<P4Stmt>, NoMemory>
    ensures { IfOk result (λ r. r ≡ stmt.Block b) }
{
    boxed(alloc, P4Stmt::Block(b.into_inner()))
}

/// A block of these statements.
///
/// # Errors
/// `NoMemory`.
#[inline(never)]
pub fn boxed_block(alloc: Global, at: u64, stmts: Items<P4Stmt>) -> Result<Boxed<P4Block>, NoMemory>
    ensures { IfOk result (λ r. r ≡ roll-P4Block (record { at = at; stmts = stmts })) }
{
    Ok(Boxed::new(alloc, P4Block { at, stmts })?)
}

fn unboxed(b: Option<Boxed<P4Block>>) -> Option<P4Block>
    ensures { result ≡ b }
{
    match b {
        None => None,
        Some(b) => Some(b.into_inner()),
    }
}

/// An `if` of these parts.
///
/// # Errors
/// `NoMemory`.
#[inline(never)]
pub fn boxed_if(
    alloc: Global,
    at: u64,
    cond: Boxed<P4Cond>,
    then: Boxed<P4Block>,
    else_: Option<Boxed<P4Block>>,
) -> Result<Boxed<P4If>, NoMemory>
    ensures { IfOk result (λ r. r ≡ roll-P4If (record { at = at; cond = cond; then = then; else_ = else_ })) }
{
    let i = P4If {
        at,
        cond: cond.into_inner(),
        then: then.into_inner(),
        else_: unboxed(else_),
    };
    Ok(Boxed::new(alloc, i)?)
}

/// An `if` as a statement.
///
/// # Errors
/// `NoMemory`.
#[inline(never)]
pub fn if_stmt(alloc: Global, i: Boxed<P4If>) -> Result<Boxed<P4Stmt>, NoMemory>
    ensures { IfOk result (λ r. r ≡ stmt.If i) }
{
    boxed(alloc, P4Stmt::If(i.into_inner()))
}

/// A variable.
///
/// # Errors
/// `NoMemory`.
#[inline(never)]
pub fn var_stmt(alloc: Global, v: &P4Var, s: &mut Scope) -> Result<Boxed<P4Stmt>, NoMemory>
    ensures { IfOk result (λ r. (s.new, r) ≡ wrapped stmt.Var (var v.now s.old)) }
{
    let v = variable(alloc, v, s)?;
    boxed(alloc, P4Stmt::Var(v))
}

/// An assignment.
///
/// # Errors
/// `NoMemory`.
#[inline(never)]
pub fn assign_stmt(alloc: Global, a: &P4Assign, s: &mut Scope) -> Result<Boxed<P4Stmt>, NoMemory>
    ensures { IfOk result (λ r. (s.new, r) ≡ wrapped stmt.Assign (noted (assign a.now s.old) s.old)) }
{
    let (f, a) = p4_typing::call::assign(alloc, a, s)?;
    s.note(f);
    boxed(alloc, P4Stmt::Assign(a))
}

/// A read of a cell.
///
/// # Errors
/// `NoMemory`.
#[inline(never)]
pub fn read_stmt(alloc: Global, r: &P4Read, s: &mut Scope) -> Result<Boxed<P4Stmt>, NoMemory>
    ensures { IfOk result (λ c. (s.new, c) ≡ wrapped stmt.Read (read r.now s.old)) }
{
    let r = read(alloc, r, s)?;
    boxed(alloc, P4Stmt::Read(r))
}

/// A write of a cell.
///
/// # Errors
/// `NoMemory`.
#[inline(never)]
pub fn write_stmt(alloc: Global, w: &P4Write, s: &mut Scope) -> Result<Boxed<P4Stmt>, NoMemory>
    ensures { IfOk result (λ r. (s.new, r) ≡ wrapped stmt.Write (write w.now s.old)) }
{
    let w = write(alloc, w, s)?;
    boxed(alloc, P4Stmt::Write(w))
}

/// A flow key.
///
/// # Errors
/// `NoMemory`.
#[inline(never)]
pub fn key_stmt(alloc: Global, k: &P4Keystmt, s: &mut Scope) -> Result<Boxed<P4Stmt>, NoMemory>
    ensures { IfOk result (λ r. (s.new, r) ≡ wrapped stmt.Keystmt (keystmt k.now s.old)) }
{
    let k = keystmt(alloc, k, s)?;
    boxed(alloc, P4Stmt::Keystmt(k))
}

/// A `setValid` or `setInvalid`.
///
/// # Errors
/// `NoMemory`.
#[inline(never)]
pub fn valid_stmt(alloc: Global, v: &P4Valid, s: &mut Scope) -> Result<Boxed<P4Stmt>, NoMemory>
    ensures { IfOk result (λ r. (s.new, r) ≡ wrapped stmt.Valid (valid v.now s.old)) }
{
    let f = s.header_path(&v.path);
    s.note(f);
    let path = path_copy(alloc, &v.path)?;
    let v = P4Valid {
        at: v.at,
        path,
        validity: v.validity,
    };
    boxed(alloc, P4Stmt::Valid(v))
}

/// An application of a table.
///
/// # Errors
/// `NoMemory`.
#[inline(never)]
pub fn apply_stmt(alloc: Global, a: &P4Apply, s: &mut Scope) -> Result<Boxed<P4Stmt>, NoMemory>
    ensures { IfOk result (λ r. (s.new, r) ≡ wrapped stmt.Apply (application a.now s.old)) }
{
    apply(a.at, &a.name, s);
    let name = name_copy(&a.name)?;
    boxed(alloc, P4Stmt::Apply(P4Apply { at: a.at, name }))
}

/// A call of an action.
///
/// # Errors
/// `NoMemory`.
#[inline(never)]
pub fn call_stmt(alloc: Global, c: &P4Callstmt, s: &mut Scope) -> Result<Boxed<P4Stmt>, NoMemory>
    ensures { IfOk result (λ r. (s.new, r) ≡ wrapped stmt.Callstmt (callstmt c.now s.old)) }
{
    let c = callstmt(alloc, c, s)?;
    boxed(alloc, P4Stmt::Callstmt(c))
}
