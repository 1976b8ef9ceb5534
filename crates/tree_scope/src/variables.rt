//! The slots of the variables that a block declares.
ghost use Rattle.std.specs.Prelude.{◌≡◌, ◌++◌, ◌∷◌, [], map, OnOk};
ghost use Rattle.app_meaning.specs.Programs.{variable_slot, joined, variables_of};
ghost use Rattle.tree_scope.specs.Variables.{variables_in, variables_of_if};

use crate::types::typed_slot;
use app_data::{Slot, TypeSlots};
use p4_ast::{P4Block, P4If, P4Stmt, P4Var};
use rp_base::NoMemory;
use sqlite_items::Items;
use std::alloc::Global;

/// A variable's slot goes behind others.
///
/// # Errors
/// `NoMemory`.
pub fn push_variable(
    alloc: Global,
    types: &[TypeSlots],
    v: &P4Var,
    into: &mut Items<Slot>,
) -> Result<(), NoMemory>
    ensures { OnOk result (into.new ≡ into.old ++ variable_slot types.now v.now ∷ []) }
{
    into.push(typed_slot(alloc, types, &v.type_, &v.name)?)?;
    Ok(())
}

#[cycle(walk)]
#[tactic(auto, using(crate::proofs::Walks::variables))]
fn push_stmt(
    alloc: Global,
    types: &[TypeSlots],
    s: &P4Stmt,
    into: &mut Items<Slot>,
) -> Result<(), NoMemory>
    ensures { OnOk result (into.new ≡ into.old ++ map (variable_slot types.now) (variables_in s.now)) }
{
    match s {
        P4Stmt::Block(b) => push_variables(alloc, types, b, into),
        P4Stmt::Var(v) => push_variable(alloc, types, v, into),
        P4Stmt::If(i) => push_if(alloc, types, i, into),
        P4Stmt::Assign(_)
        | P4Stmt::Read(_)
        | P4Stmt::Write(_)
        | P4Stmt::Keystmt(_)
        | P4Stmt::Valid(_)
        | P4Stmt::Apply(_)
        | P4Stmt::Callstmt(_) => Ok(()),
    }
}

#[cycle(walk)]
#[tactic(auto, using(crate::proofs::Walks::joined_more))]
fn push_stmts(
    alloc: Global,
    types: &[TypeSlots],
    ss: &[P4Stmt],
    into: &mut Items<Slot>,
) -> Result<(), NoMemory>
    ensures { OnOk result (into.new ≡ into.old ++ map (variable_slot types.now) (joined (map variables_in ss.now))) }
{
    for s in ss {
        push_stmt(alloc, types, s, into)?;
    }
    Ok(())
}

/// The slots of all variables of a block, also of inner ones, go behind others.
///
/// # Errors
/// `NoMemory`.
#[cycle(walk)]
#[tactic(auto, using(crate::proofs::Walks::of_block))]
pub fn push_variables(
    alloc: Global,
    types: &[TypeSlots],
    b: &P4Block,
    into: &mut Items<Slot>,
) -> Result<(), NoMemory>
    ensures { OnOk result (into.new ≡ into.old ++ map (variable_slot types.now) (variables_of b.now)) }
{
    push_stmts(alloc, types, b.stmts.as_slice(), into)
}

#[cycle(walk)]
#[tactic(auto, using(crate::proofs::Walks::of_if, crate::proofs::Walks::joined_more))]
fn push_if(
    alloc: Global,
    types: &[TypeSlots],
    i: &P4If,
    into: &mut Items<Slot>,
) -> Result<(), NoMemory>
    ensures { OnOk result (into.new ≡ into.old ++ map (variable_slot types.now) (variables_of_if i.now)) }
{
    push_variables(alloc, types, &i.then, into)?;
    match &i.else_ {
        None => Ok(()),
        Some(b) => push_variables(alloc, types, b, into),
    }
}
