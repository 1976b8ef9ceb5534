//! From the parser through the ingress control to the deparser.
ghost use Rattle.std.specs.Prelude.{◌≡◌, ◌≤◌, length, IfOk};
ghost use Rattle.app_meaning.specs.Programs.{cell_count, control_scope, outcome, outcome_in};
ghost use Rattle.tree_cells.specs.Fit.{Fit};
ghost use Rattle.tree_eval.specs.Seen.{seen};
ghost use Rattle.tree_scope.specs.Scopes.{scopes_of};
ghost use Rattle.tree_app.specs.Ended.{ended};

use crate::first::first_values;
use app_data::Scope;
use p4_ast::P4Program;
use rp_app::Delta;
use rp_base::{Cells, Key, NoMemory, Output, Packet};
use rp_bits::BitReader;
use std::alloc::Global;
use tree_actions::run_control;
use tree_deparser::output;
use tree_parser::parse;
use tree_scope::Scopes;

/// What a packet ends with: the cells that it wrote, its key, and its output, if there is one.
#[derive(Debug, Drop)]
pub struct Ended {
    pub delta: Delta,
    pub key: Option<Key>,
    pub output: Option<Output>,
}

// What names stand for in the control of a program with at most 256 cells.
#[tactic(auto, using(crate::proofs::Fits::control_fits))]
fn control_of<'a>(p: &P4Program, n: u16, scopes: &'a Scopes) -> Scope<'a>
    requires scopes { scopes.now ≡ scopes_of p.now n }
    requires few { cell_count p.now ≤ 256 }
    requires all { n ≤ 256 }
    ensures value { seen result ≡ control_scope p.now n }
    ensures fit { Fit result.registers.now }
{
    scopes.control()
}

/// A packet's run of a program in its scopes, over the cells of its flow; `held` is 1 where the switch holds the flow's lease.
///
/// # Errors
/// `NoMemory`.
pub fn run_in(
    alloc: Global,
    p: &P4Program,
    scopes: &Scopes,
    held: u128,
    cells: Cells,
    packet: &Packet,
) -> Result<Ended, NoMemory>
    requires scopes { scopes.now ≡ scopes_of p.now (length cells) }
    requires few { cell_count p.now ≤ 256 }
    requires all { length cells ≤ 256 }
    ensures { IfOk result (λ e. e ≡ ended (outcome p.now held cells packet.now)) }
{
    let sc = control_of(p, cells.len() as u16, scopes);
    let mut values = first_values(alloc, p, sc, held, packet)?;
    let mut left = BitReader::new(packet.bytes.as_slice());
    let states = p.parser.states.as_slice();
    if !parse(alloc, scopes.parser(), states, &mut values, &mut left)? {
        return Ok(Ended {
            delta: Delta::new(alloc),
            key: None,
            output: None,
        });
    }
    let run = run_control(alloc, p, sc, values, cells)?;
    let deparser = scopes.deparser();
    let output = output(
        alloc,
        p,
        sc,
        deparser,
        packet,
        &mut left,
        run.values.as_slice(),
    )?;
    Ok(Ended {
        delta: run.delta,
        key: run.key,
        output,
    })
}
