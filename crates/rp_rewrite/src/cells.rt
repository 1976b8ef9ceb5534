//! Reads and writes of cells become those of one list of all cells.
ghost use Rattle.std.specs.Prelude.{◌≡◌, ◌∷◌, ◌++◌, [], Some, codes, IfOk, OnOk};
ghost use Rattle.app_meaning.specs.Slots.{text, named_register};
ghost use Rattle.p4_check.specs.Rewriting.{member_index, is_within, cells_read, cells_written, assigned_zero, cast_type, read_of, write_of, new_read, new_write, bit, set_rp};
ghost use Rattle.rp_rewrite.specs.Sources.{cells_write};

use crate::parts::{bit, name, number, push_if, push_if_else, push_set_rp};
use app_data::{Register, Scope, TypeSlots};
use p4_ast::{P4Assign, P4BinaryOp, P4Expr, P4Left, P4Read, P4Stmt, P4Type, P4Write};
use p4_copy::expression::{boxed, expr_copy};
use p4_scope::copy::{left_copy, type_copy};
use rp_base::NoMemory;
use sqlite_items::{Boxed, Items};
use std::alloc::Global;
use tree_eval::{named_register, type_width};

fn boxed_type(alloc: Global, t: P4Type) -> Result<Boxed<P4Type>, NoMemory>
    ensures { IfOk result (λ b. b ≡ t) }
{
    Ok(Boxed::new(alloc, t)?)
}

// The type of a written cast, or else of the cell.
fn cast_type(alloc: Global, t: &Option<Boxed<P4Type>>, width: u8) -> Result<Boxed<P4Type>, NoMemory>
    ensures { IfOk result (λ c. c ≡ cast_type t.now width) }
{
    match t {
        None => boxed_type(alloc, bit(width)),
        Some(t) => boxed_type(alloc, type_copy(t.get())?),
    }
}

// The index of an array's member among all cells.
fn member_index(alloc: Global, first: u64, i: &P4Expr) -> Result<Boxed<P4Expr>, NoMemory>
    ensures { IfOk result (λ e. e ≡ member_index first i.now) }
{
    let left = number(alloc, 16, first as u128)?;
    let right = expr_copy(alloc, i)?;
    let op = P4BinaryOp::Plus;
    boxed(
        alloc,
        P4Expr::Binary {
            at: 0,
            op,
            left,
            right,
        },
    )
}

// Whether an index is within an array.
fn is_within(alloc: Global, size: u128, i: &P4Expr) -> Result<Boxed<P4Expr>, NoMemory>
    ensures { IfOk result (λ e. e ≡ is_within size i.now) }
{
    let left = expr_copy(alloc, i)?;
    let right = number(alloc, 16, size)?;
    let op = P4BinaryOp::Less;
    boxed(
        alloc,
        P4Expr::Binary {
            at: 0,
            op,
            left,
            right,
        },
    )
}

// A read of the cell at an index among all cells, cut to a type.
fn push_cells_read(
    alloc: Global,
    left: &P4Left,
    t: Boxed<P4Type>,
    i: Boxed<P4Expr>,
    into: &mut Items<P4Stmt>,
) -> Result<(), NoMemory>
    ensures { OnOk result (into.new ≡ into.old ++ cells_read left.now t i ∷ []) }
{
    let name = name(alloc, b"rp_cells".as_slice())?;
    let left = left_copy(alloc, left)?;
    into.push(P4Stmt::Read(P4Read {
        at: 0,
        left,
        type_: Some(t),
        name,
        expr: Some(i),
    }))?;
    Ok(())
}

// A write of a value to the cell at an index among all cells.
fn push_cells_write(
    alloc: Global,
    i: Boxed<P4Expr>,
    v: &P4Expr,
    into: &mut Items<P4Stmt>,
) -> Result<(), NoMemory>
    ensures { OnOk result (into.new ≡ into.old ++ cells_write i v.now ∷ []) }
{
    let name = name(alloc, b"rp_cells".as_slice())?;
    let operand = expr_copy(alloc, v)?;
    let type_ = bit(64);
    let second = boxed(
        alloc,
        P4Expr::Cast {
            at: 0,
            type_,
            operand,
        },
    )?;
    into.push(P4Stmt::Write(P4Write {
        at: 0,
        name,
        expr: i,
        second: Some(second),
    }))?;
    Ok(())
}

// A cell is written: the run is dirty.
fn push_dirty(alloc: Global, into: &mut Items<P4Stmt>) -> Result<(), NoMemory>
    ensures { OnOk result (into.new ≡ into.old ++ set_rp (codes "dirty") ∷ []) }
{
    push_set_rp(alloc, b"dirty".as_slice(), into)
}

// A write of a value to the cell at an index among all cells, which makes the run dirty.
#[tactic(auto, using(crate::proofs::Pieces::append_assoc))]
fn push_cells_written(
    alloc: Global,
    i: Boxed<P4Expr>,
    v: &P4Expr,
    into: &mut Items<P4Stmt>,
) -> Result<(), NoMemory>
    ensures { OnOk result (into.new ≡ into.old ++ cells_written i v.now) }
{
    push_cells_write(alloc, i, v, into)?;
    push_dirty(alloc, into)
}

// A variable gets 0.
fn push_zero(
    alloc: Global,
    left: &P4Left,
    width: u8,
    into: &mut Items<P4Stmt>,
) -> Result<(), NoMemory>
    ensures { OnOk result (into.new ≡ into.old ++ assigned_zero left.now width ∷ []) }
{
    let expr = number(alloc, width, 0)?;
    let left = left_copy(alloc, left)?;
    into.push(P4Stmt::Assign(P4Assign { at: 0, left, expr }))?;
    Ok(())
}

// A read of an array's member, where the array has it.
fn push_member_read(
    alloc: Global,
    types: &[TypeSlots],
    left: &P4Left,
    t: Boxed<P4Type>,
    first: u64,
    size: u128,
    i: &P4Expr,
    into: &mut Items<P4Stmt>,
) -> Result<(), NoMemory>
    ensures { OnOk result (into.new ≡ into.old ++ read_of types.now left.now t first (Some size) (Some i.now) ∷ []) }
{
    let width = type_width(types, t.get());
    let mut other = Items::new(alloc);
    push_zero(alloc, left, width, &mut other)?;
    let member = member_index(alloc, first, i)?;
    let mut then = Items::new(alloc);
    push_cells_read(alloc, left, t, member, &mut then)?;
    let test = is_within(alloc, size, i)?;
    push_if_else(test, then, other, into)
}

// A read of one cell, or of an array's member where the array has it.
fn push_read_of(
    alloc: Global,
    types: &[TypeSlots],
    g: &Register,
    r: &P4Read,
    into: &mut Items<P4Stmt>,
) -> Result<(), NoMemory>
    ensures { OnOk result (into.new ≡ into.old ++ read_of types.now r.now.left (cast_type r.now.type_ g.now.width) g.now.first g.now.size r.now.expr ∷ []) }
{
    let t = cast_type(alloc, &r.type_, g.width)?;
    match g.size {
        None => {
            let i = number(alloc, 16, g.first as u128)?;
            push_cells_read(alloc, &r.left, t, i, into)
        }
        Some(size) => match &r.expr {
            None => push_zero(alloc, &r.left, type_width(types, t.get()), into),
            Some(i) => push_member_read(alloc, types, &r.left, t, g.first, size, i.get(), into),
        },
    }
}

/// What a read becomes goes behind other statements: nothing where no cells have its name.
///
/// # Errors
/// `NoMemory`.
pub fn push_read(
    alloc: Global,
    r: &P4Read,
    sc: Scope<'_>,
    into: &mut Items<P4Stmt>,
) -> Result<(), NoMemory>
    ensures { OnOk result (into.new ≡ into.old ++ new_read sc.entry.types.now r.now (named_register (text r.now.name) sc.entry.registers.now)) }
{
    match named_register(sc.registers, r.name.text.as_slice()) {
        None => Ok(()),
        Some(g) => push_read_of(alloc, sc.types, g, r, into),
    }
}

// A write of an array's member, where the array has it.
fn push_member_write(
    alloc: Global,
    first: u64,
    size: u128,
    i: &P4Expr,
    v: &P4Expr,
    into: &mut Items<P4Stmt>,
) -> Result<(), NoMemory>
    ensures { OnOk result (into.new ≡ into.old ++ write_of first (Some size) i.now (Some v.now)) }
{
    let member = member_index(alloc, first, i)?;
    let mut then = Items::new(alloc);
    push_cells_written(alloc, member, v, &mut then)?;
    let test = is_within(alloc, size, i)?;
    push_if(test, then, into)
}

// A write of one cell, or of an array's member where the array has it.
fn push_write_of(
    alloc: Global,
    g: &Register,
    w: &P4Write,
    into: &mut Items<P4Stmt>,
) -> Result<(), NoMemory>
    ensures { OnOk result (into.new ≡ into.old ++ write_of g.now.first g.now.size w.now.expr w.now.second) }
{
    match g.size {
        None => {
            let i = number(alloc, 16, g.first as u128)?;
            push_cells_written(alloc, i, w.expr.get(), into)
        }
        Some(size) => match &w.second {
            None => Ok(()),
            Some(v) => push_member_write(alloc, g.first, size, w.expr.get(), v.get(), into),
        },
    }
}

/// What a write becomes goes behind other statements: nothing where no cells have its name.
///
/// # Errors
/// `NoMemory`.
pub fn push_write(
    alloc: Global,
    w: &P4Write,
    sc: Scope<'_>,
    into: &mut Items<P4Stmt>,
) -> Result<(), NoMemory>
    ensures { OnOk result (into.new ≡ into.old ++ new_write w.now (named_register (text w.now.name) sc.entry.registers.now)) }
{
    match named_register(sc.registers, w.name.text.as_slice()) {
        None => Ok(()),
        Some(g) => push_write_of(alloc, g, w, into),
    }
}
