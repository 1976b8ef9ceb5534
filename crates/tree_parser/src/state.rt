//! One state: its statements, and which state follows.
ghost use Rattle.std.specs.Prelude.{◌≡◌, IfOk, option_map};
ghost use Rattle.std.specs.Borrow.{Bor};
ghost use Rattle.p4_ast.specs.declared.name.P4Name.{P4Name as NameValue};
ghost use Rattle.app_meaning.specs.Slots.{text};
ghost use Rattle.app_meaning.specs.Packets.{parser_step, parser_steps, next, with_next, run_state};
ghost use Rattle.tree_eval.specs.Seen.{seen};
ghost use Rattle.tree_parser.specs.Parsed.{parsed, onward, turned};

use crate::field::extract;
use app_data::{Scope, Value};
use p4_ast::{P4Name, P4State, P4Step, P4Target};
use rp_base::NoMemory;
use rp_bits::BitReader;
use sqlite_items::Items;
use std::alloc::Global;
use tree_assign::assign;
use tree_eval::{eval, slot_of};
use tree_run::values_of;
use tree_tables::chosen;

// A statement; whether the packet goes on.
fn step(sc: Scope<'_>, s: &P4Step, values: &mut Items<Value>, left: &mut BitReader<'_>) -> bool
    ensures { parsed result values.new left.new ≡ parser_step (seen sc.entry) s.now (record { values = values.old; left = left.old }) }
{
    match s {
        P4Step::Extract(e) => {
            let header = slot_of(sc, e.path.names.as_slice());
            extract(sc, header, values, left)
        }
        P4Step::Assign(a) => {
            let n = eval(a.expr.get(), sc, values.as_slice()).number;
            assign(sc, &a.left, n, values);
            true
        }
    }
}

// The statements of a state, one after the other; whether the packet goes on.
fn steps(sc: Scope<'_>, ss: &[P4Step], values: &mut Items<Value>, left: &mut BitReader<'_>) -> bool
    ensures { parsed result values.new left.new ≡ parser_steps (seen sc.entry) ss.now (record { values = values.old; left = left.old }) }
{
    for s in ss {
        if !step(sc, s, values, left) {
            return false;
        }
    }
    true
}

// The state that follows; none where no case of a `select` matches.
fn next<'a>(
    alloc: Global,
    sc: Scope<'_>,
    target: &'a P4Target,
    values: &[Value],
) -> Result<Option<&'a P4Name>, NoMemory>
    ensures { IfOk result (λ state. option_map (λ (n : Bor NameValue). text n.now) state ≡ next (seen sc.entry) target.now values.now) }
{
    match target {
        P4Target::Name { at: _, name } => Ok(Some(name)),
        P4Target::Select {
            at: _,
            exprs,
            cases,
        } => {
            let keys = values_of(alloc, exprs.as_slice(), sc, values)?;
            Ok(chosen(sc, keys.as_slice(), cases.as_slice()))
        }
    }
}

// What a state does; the next state, none where the packet is rejected.
fn turn<'a>(
    alloc: Global,
    sc: Scope<'_>,
    s: &'a P4State,
    values: &mut Items<Value>,
    left: &mut BitReader<'_>,
) -> Result<Option<&'a P4Name>, NoMemory>
    ensures { IfOk result (λ state. turned state values.new left.new ≡ onward (with_next (seen sc.entry) s.now.target (parser_steps (seen sc.entry) s.now.steps (record { values = values.old; left = left.old })))) }
{
    if !steps(sc, s.steps.as_slice(), values, left) {
        return Ok(None);
    }
    next(alloc, sc, &s.target, values.as_slice())
}

/// What the state of this name does; the next state, none where the packet is rejected or there is no such state.
///
/// # Errors
/// `NoMemory`.
pub(crate) fn run_state<'a>(
    alloc: Global,
    sc: Scope<'_>,
    states: &'a [P4State],
    name: &[u8],
    values: &mut Items<Value>,
    left: &mut BitReader<'_>,
) -> Result<Option<&'a P4Name>, NoMemory>
    ensures { IfOk result (λ state. turned state values.new left.new ≡ onward (run_state (seen sc.entry) states.now name.now (record { values = values.old; left = left.old }))) }
{
    match states {
        [] => Ok(None),
        [s, rest @ ..] => {
            if s.name.text.as_slice() == name {
                turn(alloc, sc, s, values, left)
            } else {
                run_state(alloc, sc, rest, name, values, left)
            }
        }
    }
}
