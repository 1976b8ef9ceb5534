//! The world before its first event.
ghost use Rattle.std.specs.Prelude.{ℕ, ◌≡◌, ◌≤◌, map, IfOk};
ghost use Rattle.std.specs.List.{AllByRecursion};
ghost use Rattle.rp_app.specs.Application.{Application};
ghost use Rattle.proto_data.specs.declared.terms.Mode.{Mode as ModeValue};
ghost use Rattle.proto_model.specs.World.{below, opened};
ghost use Rattle.world_state.specs.Nodes.{IsReplicaSeat, begun_replica, begun_switch};
ghost use Rattle.world_state.specs.WorldStates.{IsRun, world_of};

use crate::cursors::Cursors;
use crate::nodes::{ReplicaNode, Replicas, SwitchNode, Switches};
use crate::passing::Passed;
use crate::state::WorldState;
use proto_model::{Config, Terms};
use reroute::Router;
use rp_base::NoMemory;
use run_history::History;
use sent_frames::Frames;
use std::alloc::Global;

// So many switches before their first turns.
fn open_switches(
    alloc: Global,
    count: u8,
    cells: u16,
    terms: &Terms,
    config: &Config,
) -> Result<Switches, NoMemory>
    requires term { terms.now.t_switch ≤ 1000000 }
    requires cells { cells ≤ 256 }
    ensures { IfOk result (λ made. made ≡ map (λ n. begun_switch 0 n 1 cells terms.now config.now) (below count)) }
{
    let mut switches = Switches::new(alloc);
    for n in 0..count {
        switches.push(SwitchNode::begun(alloc, 0, n, 1, cells, terms, config)?)?;
    }
    Ok(switches)
}

// So many replicas before their first turns.
fn open_replicas(
    alloc: Global,
    count: u8,
    cells: u16,
    terms: &Terms,
    config: &Config,
) -> Result<Replicas, NoMemory>
    requires cells { cells ≤ 256 }
    ensures made { IfOk result (λ made. made ≡ map (λ n. begun_replica n cells terms.now config.now) (below count)) }
    ensures stand { IfOk result (λ made. AllByRecursion (IsReplicaSeat 0) made) }
{
    let mut replicas = Replicas::new(alloc);
    for n in 0..count {
        replicas.push(ReplicaNode::begun(alloc, n, cells, terms, config)?)?;
    }
    Ok(replicas)
}

impl WorldState {
    /// The world of 1 to 8 switches and 1 to 5 replicas before its first event: every node runs, and nothing has happened.
    ///
    /// Flows have `cells` cells, at most 256, and at most 32 in strict mode.
    ///
    /// # Errors
    /// `NoMemory`.
    pub fn open(
        alloc: Global,
        switches: u8,
        replicas: u8,
        cells: u16,
        terms: &Terms,
        linked: bool,
    ) -> Result<WorldState, NoMemory>
        requires some_switch { 1 ≤ switches }
        requires switches_fit { switches ≤ 8 }
        requires some_replica { 1 ≤ replicas }
        requires replicas_fit { replicas ≤ 5 }
        requires cells { cells ≤ 256 }
        requires few { terms.now.mode ≡ ModeValue.Strict → cells ≤ 32 }
        requires term { terms.now.t_switch ≤ 1000000 }
        requires ratio { terms.now.ratio ≤ 1000 }
        ensures made { IfOk result (λ made. world_of made ≡ opened cells (record { switches = switches; replicas = replicas; terms = terms.now; linked = linked })) }
        ensures calls { IfOk result (λ made. made.calls ≡ 0) }
        ensures run { IfOk result (λ made. (app : Application) → app.cell_count ≡ cells → IsRun app made) }
    {
        let router = Router::open(switches, replicas);
        let first = open_switches(alloc, switches, cells, terms, router.config())?;
        let store = open_replicas(alloc, replicas, cells, terms, router.config())?;
        Ok(WorldState {
            terms: *terms,
            linked,
            cells,
            switches: first,
            replicas: store,
            router,
            frames: Frames::new(alloc),
            passed: Passed::new(alloc),
            event: 0,
            calls: 0,
            history: History::new(alloc),
            cursors: Cursors::new(),
            alloc,
        })
    }
}
