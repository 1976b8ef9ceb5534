//! Parts of new statements. They have no place in the source, so 0.
ghost use Rattle.std.specs.Prelude.{◌≡◌, ◌∷◌, ◌++◌, [], Some, None, IfOk, OnOk};
ghost use Rattle.p4_check.specs.Rewriting.{name, number, bit, rp_path, set_rp, block, if_so, held_only};

use p4_ast::{
    P4Assign, P4BinaryOp, P4Block, P4Cond, P4Expr, P4If, P4Left, P4Name, P4Number, P4Path, P4Stmt,
    P4Type,
};
use p4_copy::expression::boxed;
use rp_base::{Bytes, NoMemory};
use sqlite_items::{Boxed, Items};
use std::alloc::Global;

/// A name of these bytes.
///
/// # Errors
/// `NoMemory`.
pub fn name(alloc: Global, text: &[u8]) -> Result<P4Name, NoMemory>
    ensures { IfOk result (λ x. x ≡ name text.now) }
{
    let mut copied = Bytes::new(alloc);
    copied.append(text)?;
    Ok(P4Name {
        at: 0,
        text: copied,
    })
}

/// A number of `width` bits, 0 to 255.
///
/// # Errors
/// `NoMemory`.
pub fn number(alloc: Global, width: u8, value: u128) -> Result<Boxed<P4Expr>, NoMemory>
    ensures { IfOk result (λ e. e ≡ number width value) }
{
    let number = P4Number {
        at: 0,
        value,
        width: Some(width),
    };
    boxed(alloc, P4Expr::Number { at: 0, number })
}

/// The type of `width` bits.
pub fn bit(width: u8) -> P4Type
    ensures { result ≡ bit width }
{
    P4Type::Bit {
        at: 0,
        width: P4Number {
            at: 0,
            value: width as u128,
            width: None,
        },
    }
}

// `rp.field`
fn rp_path(alloc: Global, field: &[u8]) -> Result<P4Path, NoMemory>
    ensures { IfOk result (λ p. p ≡ rp_path field.now) }
{
    let mut names = Items::new(alloc);
    names.push(name(alloc, b"rp".as_slice())?)?;
    names.push(name(alloc, field)?)?;
    Ok(P4Path { at: 0, names })
}

/// `rp.field = 1w1;` goes behind other statements.
///
/// # Errors
/// `NoMemory`.
pub fn push_set_rp(alloc: Global, field: &[u8], into: &mut Items<P4Stmt>) -> Result<(), NoMemory>
    ensures { OnOk result (into.new ≡ into.old ++ set_rp field.now ∷ []) }
{
    let expr = number(alloc, 1, 1)?;
    let path = rp_path(alloc, field)?;
    let left = P4Left {
        at: 0,
        path,
        slice: None,
    };
    into.push(P4Stmt::Assign(P4Assign { at: 0, left, expr }))?;
    Ok(())
}

/// A branch by an expression, without `else`, goes behind other statements.
///
/// # Errors
/// `NoMemory`.
pub fn push_if(
    test: Boxed<P4Expr>,
    then: Items<P4Stmt>,
    into: &mut Items<P4Stmt>,
) -> Result<(), NoMemory>
    ensures { OnOk result (into.new ≡ into.old ++ if_so test then None ∷ []) }
{
    into.push(P4Stmt::If(P4If {
        at: 0,
        cond: P4Cond::Expr(test),
        then: P4Block { at: 0, stmts: then },
        else_: None,
    }))?;
    Ok(())
}

/// A branch by an expression, with `else`, goes behind other statements.
///
/// # Errors
/// `NoMemory`.
pub fn push_if_else(
    test: Boxed<P4Expr>,
    then: Items<P4Stmt>,
    other: Items<P4Stmt>,
    into: &mut Items<P4Stmt>,
) -> Result<(), NoMemory>
    ensures { OnOk result (into.new ≡ into.old ++ if_so test then (Some (block other)) ∷ []) }
{
    into.push(P4Stmt::If(P4If {
        at: 0,
        cond: P4Cond::Expr(test),
        then: P4Block { at: 0, stmts: then },
        else_: Some(P4Block {
            at: 0,
            stmts: other,
        }),
    }))?;
    Ok(())
}

/// Statements that run under the lease alone, where else the verdict is ASK, go behind other statements.
///
/// # Errors
/// `NoMemory`.
pub fn push_held_only(
    alloc: Global,
    held: Items<P4Stmt>,
    into: &mut Items<P4Stmt>,
) -> Result<(), NoMemory>
    ensures { OnOk result (into.new ≡ into.old ++ held_only held ∷ []) }
{
    let path = rp_path(alloc, b"held".as_slice())?;
    let left = boxed(alloc, P4Expr::Path { at: 0, path })?;
    let right = number(alloc, 1, 1)?;
    let op = P4BinaryOp::Equal;
    let test = boxed(
        alloc,
        P4Expr::Binary {
            at: 0,
            op,
            left,
            right,
        },
    )?;
    let mut other = Items::new(alloc);
    push_set_rp(alloc, b"verdict".as_slice(), &mut other)?;
    push_if_else(test, held, other, into)
}
