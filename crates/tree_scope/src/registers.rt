//! The cells that a control declares.
ghost use Rattle.std.specs.Prelude.{◌≡◌, ◌≤◌, ◌+◌, ◌++◌, Some, None, codes, IfOk, OnOk};
ghost use Rattle.app_meaning.specs.Programs.{register_size, register, registers_from, registers_of, cells_in};

use app_data::{Register, TypeSlots};
use p4_ast::{P4Cell, P4Local, P4Param};
use rp_base::{Bytes, NoMemory};
use sqlite_items::Items;
use std::alloc::Global;
use tree_eval::type_width;

// How many cells a declaration has.
fn register_size(c: &P4Cell) -> u64
    requires { register_size c.now ≤ 256 }
    ensures { result ≡ register_size c.now }
{
    match c {
        P4Cell::Cell {
            at: _,
            type_: _,
            name: _,
        } => 1,
        P4Cell::Array {
            at: _,
            type_: _,
            size,
            name: _,
        } => size.value as u64,
    }
}

// The cells of a declaration, numbered from `first` on.
fn register(types: &[TypeSlots], first: u64, c: &P4Cell) -> Result<Register, NoMemory>
    ensures { IfOk result (λ g. g ≡ register types.now first c.now) }
{
    match c {
        P4Cell::Cell { at: _, type_, name } => Ok(Register {
            name: name.text.copy()?,
            first,
            size: None,
            width: type_width(types, type_),
        }),
        P4Cell::Array {
            at: _,
            type_,
            size,
            name,
        } => Ok(Register {
            name: name.text.copy()?,
            first,
            size: Some(size.value),
            width: type_width(types, type_),
        }),
    }
}

// The cells that are declared, numbered from `first` on, go behind others.
fn push_registers(
    types: &[TypeSlots],
    first: u64,
    ls: &[P4Local],
    into: &mut Items<Register>,
) -> Result<(), NoMemory>
    requires { first + cells_in ls.now ≤ 256 }
    ensures { OnOk result (into.new ≡ into.old ++ registers_from types.now first ls.now) }
{
    match ls {
        [] => Ok(()),
        [l, rest @ ..] => match l {
            P4Local::Cell(c) => {
                into.push(register(types, first, c)?)?;
                push_registers(types, first + register_size(c), rest, into)
            }
            P4Local::Const(_) | P4Local::Var(_) | P4Local::Action(_) | P4Local::Table(_) => {
                push_registers(types, first, rest, into)
            }
        },
    }
}

// One array of `n` cells of 64 bits: all cells of a rewritten program.
fn all_cells(alloc: Global, n: u16) -> Result<Register, NoMemory>
    ensures { IfOk result (λ g. g ≡ record { name = codes "rp_cells"; first = 0; size = Some n; width = 64 }) }
{
    let mut name = Bytes::new(alloc);
    name.append(b"rp_cells".as_slice())?;
    Ok(Register {
        name,
        first: 0,
        size: Some(n as u128),
        width: 64,
    })
}

/// The cells that the control of a program declares, of a rewritten one all `n` cells in one array. A source has at most 256 cells.
///
/// # Errors
/// `NoMemory`.
pub fn registers_of(
    alloc: Global,
    rp: &Option<P4Param>,
    types: &[TypeSlots],
    ls: &[P4Local],
    n: u16,
) -> Result<Items<Register>, NoMemory>
    requires { (rp.now ≡ None) → cells_in ls.now ≤ 256 }
    ensures { IfOk result (λ made. made ≡ registers_of rp.now types.now ls.now n) }
{
    let mut made = Items::new(alloc);
    match rp {
        None => push_registers(types, 0, ls, &mut made)?,
        Some(_) => made.push(all_cells(alloc, n)?)?,
    }
    Ok(made)
}
