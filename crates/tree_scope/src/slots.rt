//! The slots of a program's parts.
ghost use Rattle.std.specs.Prelude.{◌≡◌, ◌++◌, map, IfOk, OnOk};
ghost use Rattle.app_meaning.specs.Slots.{text, below, named_type, or_none};
ghost use Rattle.app_meaning.specs.Programs.{action_slots, local_slots, rp_fields, rp_slots, parameter_slots, variable_slot, variables_of};

use crate::types::{named_slot, push_below, push_fields, std_slots};
use crate::variables::{push_variable, push_variables};
use app_data::{Slot, TypeSlots};
use p4_ast::{P4Action, P4Local, P4Name, P4Param, P4Program};
use rp_base::NoMemory;
use sqlite_items::Items;
use std::alloc::Global;
use tree_eval::named_type;

// The slots of an action's parameters and variables go behind others.
fn push_action(
    alloc: Global,
    types: &[TypeSlots],
    a: &P4Action,
    into: &mut Items<Slot>,
) -> Result<(), NoMemory>
    ensures { OnOk result (into.new ≡ into.old ++ action_slots types.now a.now) }
{
    let mut own = Items::new(alloc);
    push_fields(alloc, types, a.params.as_slice(), &mut own)?;
    push_variables(alloc, types, &a.block, &mut own)?;
    push_below(alloc, a.name.text.as_slice(), own.as_slice(), into)
}

// The slots of what a control declares go behind others.
#[tactic(auto, using(crate::proofs::Walks::append_assoc))]
fn push_locals(
    alloc: Global,
    types: &[TypeSlots],
    ls: &[P4Local],
    into: &mut Items<Slot>,
) -> Result<(), NoMemory>
    ensures { OnOk result (into.new ≡ into.old ++ local_slots types.now ls.now) }
{
    match ls {
        [] => Ok(()),
        [l, rest @ ..] => match l {
            P4Local::Var(v) => {
                push_variable(alloc, types, v, into)?;
                push_locals(alloc, types, rest, into)
            }
            P4Local::Action(a) => {
                push_action(alloc, types, a, into)?;
                push_locals(alloc, types, rest, into)
            }
            P4Local::Const(_) | P4Local::Cell(_) | P4Local::Table(_) => {
                push_locals(alloc, types, rest, into)
            }
        },
    }
}

// The fields of the fourth parameter.
fn rp_fields(alloc: Global) -> Result<Items<Slot>, NoMemory>
    ensures { IfOk result (λ made. made ≡ rp_fields) }
{
    let mut made = Items::new(alloc);
    made.push(named_slot(alloc, b"held".as_slice(), 1)?)?;
    made.push(named_slot(alloc, b"dirty".as_slice(), 1)?)?;
    made.push(named_slot(alloc, b"verdict".as_slice(), 1)?)?;
    Ok(made)
}

// The slots of the fourth parameter, if there is one.
fn rp_slots(alloc: Global, rp: &Option<P4Param>) -> Result<Items<Slot>, NoMemory>
    ensures { IfOk result (λ made. made ≡ rp_slots rp.now) }
{
    let mut made = Items::new(alloc);
    if let Some(rp) = rp {
        let fields = rp_fields(alloc)?;
        push_below(alloc, rp.name.text.as_slice(), fields.as_slice(), &mut made)?;
    }
    Ok(made)
}

// The slots of a parameter whose type has a name go behind others.
fn push_parameter(
    alloc: Global,
    types: &[TypeSlots],
    name: &P4Name,
    t: &P4Name,
    into: &mut Items<Slot>,
) -> Result<(), NoMemory>
    ensures { OnOk result (into.new ≡ into.old ++ below (text name.now) (or_none (named_type (text t.now) types.now))) }
{
    match named_type(types, t.text.as_slice()) {
        None => Ok(()),
        Some(slots) => push_below(alloc, name.text.as_slice(), slots, into),
    }
}

/// The slots of what a parser or control gets, under the names of its parameters.
///
/// # Errors
/// `NoMemory`.
pub fn parameter_slots(
    alloc: Global,
    p: &P4Program,
    types: &[TypeSlots],
    headers: &P4Name,
    meta: &P4Name,
    std: &P4Name,
) -> Result<Items<Slot>, NoMemory>
    ensures { IfOk result (λ made. made ≡ parameter_slots p.now types.now headers.now meta.now std.now) }
{
    let mut made = rp_slots(alloc, &p.ingress.rp)?;
    push_parameter(alloc, types, headers, &p.parser.headers.type_, &mut made)?;
    push_parameter(alloc, types, meta, &p.parser.meta.type_, &mut made)?;
    let fields = std_slots(alloc)?;
    push_below(alloc, std.text.as_slice(), fields.as_slice(), &mut made)?;
    Ok(made)
}

/// The slots of the ingress control: of what it gets, of what it declares, and of the variables of its block.
///
/// # Errors
/// `NoMemory`.
pub fn control_slots(
    alloc: Global,
    p: &P4Program,
    types: &[TypeSlots],
) -> Result<Items<Slot>, NoMemory>
    ensures { IfOk result (λ made. made ≡ parameter_slots p.now types.now p.now.ingress.headers.name p.now.ingress.meta.name p.now.ingress.std ++ local_slots types.now p.now.ingress.locals ++ map (variable_slot types.now) (variables_of p.now.ingress.block)) }
{
    let i = &p.ingress;
    let mut made = parameter_slots(alloc, p, types, &i.headers.name, &i.meta.name, &i.std)?;
    push_locals(alloc, types, i.locals.as_slice(), &mut made)?;
    push_variables(alloc, types, &i.block, &mut made)?;
    Ok(made)
}
