//! Copies of declarations.
ghost use Rattle.std.specs.Prelude.{◌≡◌, IfOk};

use crate::expression::expr_copy;
use p4_ast::{P4Cell, P4Const, P4Declaration, P4Header, P4Struct, P4Typedef};
use p4_scope::copy::{fields_copy, name_copy, type_copy};
use rp_base::NoMemory;
use sqlite_items::Items;
use std::alloc::Global;

/// An equal header.
///
/// # Errors
/// `NoMemory`.
pub fn header_copy(alloc: Global, h: &P4Header) -> Result<P4Header, NoMemory>
    ensures { IfOk result (λ c. c ≡ h.now) }
{
    let name = name_copy(&h.name)?;
    Ok(P4Header {
        at: h.at,
        name,
        fields: fields_copy(alloc, h.fields.as_slice())?,
    })
}

/// An equal structure.
///
/// # Errors
/// `NoMemory`.
pub fn struct_copy(alloc: Global, t: &P4Struct) -> Result<P4Struct, NoMemory>
    ensures { IfOk result (λ c. c ≡ t.now) }
{
    let name = name_copy(&t.name)?;
    Ok(P4Struct {
        at: t.at,
        name,
        fields: fields_copy(alloc, t.fields.as_slice())?,
    })
}

/// An equal typedef.
///
/// # Errors
/// `NoMemory`.
pub fn typedef_copy(t: &P4Typedef) -> Result<P4Typedef, NoMemory>
    ensures { IfOk result (λ c. c ≡ t.now) }
{
    let name = name_copy(&t.name)?;
    Ok(P4Typedef {
        at: t.at,
        type_: type_copy(&t.type_)?,
        name,
    })
}

/// An equal constant.
///
/// # Errors
/// `NoMemory`.
pub fn const_copy(alloc: Global, x: &P4Const) -> Result<P4Const, NoMemory>
    ensures { IfOk result (λ c. c ≡ x.now) }
{
    let name = name_copy(&x.name)?;
    let expr = expr_copy(alloc, x.expr.get())?;
    Ok(P4Const {
        at: x.at,
        type_: type_copy(&x.type_)?,
        name,
        expr,
    })
}

/// Equal cells of a declaration.
///
/// # Errors
/// `NoMemory`.
pub fn cell_copy(c: &P4Cell) -> Result<P4Cell, NoMemory>
    ensures { IfOk result (λ d. d ≡ c.now) }
{
    match c {
        P4Cell::Cell { at, type_, name } => {
            let name = name_copy(name)?;
            Ok(P4Cell::Cell {
                at: *at,
                type_: type_copy(type_)?,
                name,
            })
        }
        P4Cell::Array {
            at,
            type_,
            size,
            name,
        } => {
            let name = name_copy(name)?;
            Ok(P4Cell::Array {
                at: *at,
                type_: type_copy(type_)?,
                size: *size,
                name,
            })
        }
    }
}

fn declaration_copy(alloc: Global, d: &P4Declaration) -> Result<P4Declaration, NoMemory>
    ensures { IfOk result (λ c. c ≡ d.now) }
{
    match d {
        P4Declaration::Header(h) => Ok(P4Declaration::Header(header_copy(alloc, h)?)),
        P4Declaration::Struct(t) => Ok(P4Declaration::Struct(struct_copy(alloc, t)?)),
        P4Declaration::Typedef(t) => Ok(P4Declaration::Typedef(typedef_copy(t)?)),
        P4Declaration::Const(x) => Ok(P4Declaration::Const(const_copy(alloc, x)?)),
    }
}

/// Equal declarations.
///
/// # Errors
/// `NoMemory`.
pub fn declarations_copy(
    alloc: Global,
    xs: &[P4Declaration],
) -> Result<Items<P4Declaration>, NoMemory>
    ensures { IfOk result (λ c. c ≡ xs.now) }
{
    let mut copies = Items::new(alloc);
    for x in xs {
        copies.push(declaration_copy(alloc, x)?)?;
    }
    Ok(copies)
}
