//! The steps of statements.
ghost use Rattle.std.specs.Prelude.{◌≡◌, ℕ, List, IfOk};
ghost use Rattle.app_meaning.specs.Values.{cut};
ghost use Rattle.app_data.specs.declared.run.Run.{Run as RunValue};
ghost use Rattle.app_data.specs.declared.value.Value.{Value as ValueValue};
ghost use Rattle.app_meaning.specs.Assigning.{assign, validate};
ghost use Rattle.app_meaning.specs.Slots.{names, slot_of, type_width};
ghost use Rattle.app_meaning.specs.Statements.{declare, run_read, run_write, with_values, with_key, key_bytes, initial, optional_number, read_width};
ghost use Rattle.app_meaning.specs.Expressions.{eval};
ghost use Rattle.exec_code.specs.Running.{run_code};
ghost use Rattle.exec_code.specs.Steps.{Numbered, assign_at, index_number, run_step};
ghost use Rattle.tree_cells.specs.Fit.{Fit};
ghost use Rattle.tree_eval.specs.Seen.{seen};

use crate::expression::code_of;
use app_data::{Register, Scope};
use exec_code::{CellRange, Code, Reading, Step, Target, Writing};
use p4_ast::{P4Assign, P4Expr, P4Keystmt, P4Left, P4Read, P4Type, P4Valid, P4Var, P4Write};
use rp_base::NoMemory;
use sqlite_items::{Boxed, Items};
use std::alloc::Global;
use tree_assign::{field_count, header_of};
use tree_eval::{named_register, slot_of, slot_of_name, type_width};
use value_ops::cut;

pub(crate) fn boxed(alloc: Global, step: Step) -> Result<Boxed<Step>, NoMemory>
    ensures { IfOk result (λ b. b ≡ step) }
{
    Ok(Boxed::new(alloc, step)?)
}

// A step that does nothing.
#[tactic(auto, using(crate::proofs::Codes::step_rules))]
pub(crate) fn nothing(alloc: Global) -> Result<Boxed<Step>, NoMemory>
    ensures { IfOk result (λ s. (ns : Numbered) (run : RunValue) → run_step s ns run ≡ run) }
{
    Ok(boxed(alloc, Step::Block(Items::new(alloc)))?)
}

// Where an assignment's number goes.
fn target_of(left: &P4Left, sc: Scope<'_>) -> Target
    ensures { (n : ℕ) (values : List ValueValue) → assign_at result n values ≡ assign (seen sc.entry) left.now n values }
{
    let names = left.path.names.as_slice();
    Target {
        header: header_of(sc, names),
        slot: slot_of(sc, names),
        bits: left.slice,
    }
}

// The code of a variable's first value.
#[tactic(auto, using(crate::proofs::Codes::steps))]
fn first_of(alloc: Global, v: &P4Var, sc: Scope<'_>) -> Result<Boxed<Code>, NoMemory>
    ensures { IfOk result (λ c. (values : List ValueValue) → run_code c values ≡ cut (type_width (seen sc.entry).types v.now.type_) (initial v.now.expr (seen sc.entry) values)) }
{
    let width = type_width(sc.types, &v.type_);
    let code = match &v.expr {
        None => Code::Literal(cut(width, 0)),
        Some(e) => Code::Cut(width, code_of(alloc, e.get(), sc)?),
    };
    Ok(Boxed::new(alloc, code)?)
}

/// The step of a variable's declaration.
///
/// # Errors
/// `NoMemory`.
#[tactic(auto, using(crate::proofs::Codes::step_rules))]
pub fn declare_of(alloc: Global, v: &P4Var, sc: Scope<'_>) -> Result<Boxed<Step>, NoMemory>
    ensures { IfOk result (λ s. (ns : Numbered) (run : RunValue) → run_step s ns run ≡ with_values run (declare (seen sc.entry) v.now run.values)) }
{
    let code = first_of(alloc, v, sc)?;
    Ok(boxed(alloc, Step::Set(slot_of_name(sc, &v.name), code))?)
}

// The code of an index, where one is written.
fn index_of(
    alloc: Global,
    e: &Option<Boxed<P4Expr>>,
    sc: Scope<'_>,
) -> Result<Option<Boxed<Code>>, NoMemory>
    ensures { IfOk result (λ i. (values : List ValueValue) → index_number i values ≡ optional_number e.now (seen sc.entry) values) }
{
    match e {
        None => Ok(None),
        Some(e) => Ok(Some(code_of(alloc, e.get(), sc)?)),
    }
}

fn read_width(sc: Scope<'_>, g: &Register, t: &Option<Boxed<P4Type>>) -> u8
    ensures { result ≡ read_width (seen sc.entry) g.now t.now }
{
    match t {
        None => g.width.min(128),
        Some(t) => type_width(sc.types, t.get()),
    }
}

#[tactic(auto, using(crate::proofs::Codes::step_rules))]
pub(crate) fn read_of(alloc: Global, r: &P4Read, sc: Scope<'_>) -> Result<Boxed<Step>, NoMemory>
    requires { Fit sc.registers.now }
    ensures { IfOk result (λ s. (ns : Numbered) (run : RunValue) → run_step s ns run ≡ run_read (seen sc.entry) r.now run) }
{
    let Some(g) = named_register(sc.registers, r.name.text.as_slice()) else {
        return nothing(alloc);
    };
    let index = index_of(alloc, &r.expr, sc)?;
    let reading = Reading {
        target: target_of(&r.left, sc),
        cells: CellRange::new(g.first, g.size),
        index,
        width: read_width(sc, g, &r.type_),
    };
    Ok(boxed(alloc, Step::Read(Boxed::new(alloc, reading)?))?)
}

#[tactic(auto, using(crate::proofs::Codes::step_rules))]
pub(crate) fn write_of(alloc: Global, w: &P4Write, sc: Scope<'_>) -> Result<Boxed<Step>, NoMemory>
    requires { Fit sc.registers.now }
    ensures { IfOk result (λ s. (ns : Numbered) (run : RunValue) → run_step s ns run ≡ run_write (seen sc.entry) w.now run) }
{
    let Some(g) = named_register(sc.registers, w.name.text.as_slice()) else {
        return nothing(alloc);
    };
    let first = code_of(alloc, w.expr.get(), sc)?;
    let second = index_of(alloc, &w.second, sc)?;
    let writing = Writing {
        cells: CellRange::new(g.first, g.size),
        first,
        second,
    };
    Ok(boxed(alloc, Step::Write(Boxed::new(alloc, writing)?))?)
}

#[tactic(auto, using(crate::proofs::Codes::step_rules))]
pub(crate) fn valid_of(alloc: Global, v: &P4Valid, sc: Scope<'_>) -> Result<Boxed<Step>, NoMemory>
    ensures { IfOk result (λ s. (ns : Numbered) (run : RunValue) → run_step s ns run ≡ with_values run (validate (seen sc.entry) v.now.validity (slot_of (seen sc.entry) (names v.now.path)) run.values)) }
{
    match slot_of(sc, v.path.names.as_slice()) {
        None => nothing(alloc),
        Some(h) => Ok(boxed(alloc, Step::Validate(v.validity, h, field_count(sc, h)))?),
    }
}

#[tactic(auto, using(crate::proofs::Codes::step_rules))]
pub(crate) fn assign_of(alloc: Global, a: &P4Assign, sc: Scope<'_>) -> Result<Boxed<Step>, NoMemory>
    ensures { IfOk result (λ s. (ns : Numbered) (run : RunValue) → run_step s ns run ≡ with_values run (assign (seen sc.entry) a.now.left (eval a.now.expr (seen sc.entry) run.values).number run.values)) }
{
    let code = code_of(alloc, a.expr.get(), sc)?;
    Ok(boxed(alloc, Step::Assign(target_of(&a.left, sc), code))?)
}

#[tactic(auto, using(crate::proofs::Codes::step_rules))]
pub(crate) fn key_of(alloc: Global, k: &P4Keystmt, sc: Scope<'_>) -> Result<Boxed<Step>, NoMemory>
    ensures { IfOk result (λ s. (ns : Numbered) (run : RunValue) → run_step s ns run ≡ with_key run (key_bytes (eval k.now.expr (seen sc.entry) run.values))) }
{
    let code = code_of(alloc, k.expr.get(), sc)?;
    Ok(boxed(alloc, Step::Key(code))?)
}
