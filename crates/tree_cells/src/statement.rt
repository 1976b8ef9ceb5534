//! Statements that read or write cells.
ghost use Rattle.std.specs.Prelude.{◌≡◌, ◌%◌, ◌^◌, OnOk};
ghost use Rattle.app_meaning.specs.Statements.{optional_number, read_width, run_read, run_write, write_cell};
ghost use Rattle.tree_cells.specs.Fit.{Fit, IsWithin};
ghost use Rattle.tree_eval.specs.Seen.{seen};

use crate::cell::{cell_number, cell_of, member, store};
use app_data::{Register, Run, Scope, Value};
use p4_ast::{P4Expr, P4Read, P4Type, P4Write};
use rp_base::NoMemory;
use sqlite_items::Boxed;
use tree_assign::assign;
use tree_eval::{eval, named_register, type_width};

// The number of an index, where one is written.
fn optional_number(e: &Option<Boxed<P4Expr>>, sc: Scope<'_>, values: &[Value]) -> Option<u128>
    ensures { result ≡ optional_number e.now (seen sc.entry) values.now }
{
    match e {
        None => None,
        Some(e) => Some(eval(e.get(), sc, values).number),
    }
}

// The width of a written cast, or else of the cell.
fn read_width(sc: Scope<'_>, g: &Register, t: &Option<Boxed<P4Type>>) -> u8
    ensures { result ≡ read_width (seen sc.entry) g.now t.now }
{
    match t {
        None => g.width.min(128),
        Some(t) => type_width(sc.types, t.get()),
    }
}

/// The lowest bits of a number.
#[tactic(auto, using(crate::proofs::Cells::low_is))]
pub fn low(n: u64, width: u8) -> u64
    ensures { result ≡ n % 2 ^ width }
{
    if width < 64 { n % (1u64 << width) } else { n }
}

/// The number that a cell holds of a number.
pub fn word(n: u128) -> u64
    ensures { result ≡ n % 2 ^ 64 }
{
    (n % 0x1_0000_0000_0000_0000) as u64
}

/// A cell is read; nothing where no cells have this name.
pub fn read(sc: Scope<'_>, r: &P4Read, run: &mut Run)
    requires { Fit sc.registers.now }
    ensures { run.new ≡ run_read (seen sc.entry) r.now run.old }
{
    if let Some(g) = named_register(sc.registers, r.name.text.as_slice()) {
        let index = optional_number(&r.expr, sc, run.values.as_slice());
        let n = cell_number(&run.cells, cell_of(g.first, g.size, index));
        let width = read_width(sc, g, &r.type_);
        assign(sc, &r.left, low(n, width) as u128, &mut run.values);
    }
}

// A write to one cell, or by an index to a member of an array.
fn write_to(sc: Scope<'_>, g: &Register, w: &P4Write, run: &mut Run) -> Result<(), NoMemory>
    requires { IsWithin g.now.first g.now.size }
    ensures { OnOk result (run.new ≡ write_cell (seen sc.entry) g.now.first g.now.size w.now.expr w.now.second run.old) }
{
    let first = eval(w.expr.get(), sc, run.values.as_slice()).number;
    match g.size {
        None => store(run, Some(g.first as u16), word(first)),
        Some(size) => match &w.second {
            None => Ok(()),
            Some(e) => {
                let n = eval(e.get(), sc, run.values.as_slice()).number;
                store(run, member(g.first, size, first), word(n))
            }
        },
    }
}

/// A cell is written; nothing where no cells have this name.
///
/// # Errors
/// `NoMemory`.
pub fn write(sc: Scope<'_>, w: &P4Write, run: &mut Run) -> Result<(), NoMemory>
    requires { Fit sc.registers.now }
    ensures { OnOk result (run.new ≡ run_write (seen sc.entry) w.now run.old) }
{
    match named_register(sc.registers, w.name.text.as_slice()) {
        None => Ok(()),
        Some(g) => write_to(sc, g, w, run),
    }
}
