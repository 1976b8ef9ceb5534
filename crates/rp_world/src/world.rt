//! The world of a run, with its application.
ghost use Rattle.std.specs.Prelude.{◌≡◌, ◌∷◌, [], ◌<◌, ◌≤◌, ◌+◌, true, false, Some, length, option_map, slice_get, IfOk, IfSome, OnOk, OnErr, IsErr};
ghost use Rattle.rp_base.specs.declared.line.Line.{Line as LineValue};
ghost use Rattle.proto_model.specs.EndLines.{end_lines};
ghost use Rattle.proto_model.specs.Handing.{found, hand};
ghost use Rattle.proto_model.specs.World.{opened};
ghost use Rattle.proto_model.specs.WorldStep.{runs_now};
ghost use Rattle.proto_safety.specs.Frames.{Grows};
ghost use Rattle.rp_frame.specs.Spelling.{spelling};
ghost use Rattle.run_history.specs.Shown.{shown, shown_step, stepped};
ghost use Rattle.proto_safety.specs.Sizes.{EventSized};
ghost use Rattle.rp_app.specs.Application.{Application};
ghost use Rattle.world_state.specs.WorldStates.{world_of};
ghost use Rattle.rp_world.specs.AppWorld.{CellsFit, IsSetup, IsEventOf};
ghost use Rattle.rp_world.specs.Begun.{IsGoing};
ghost use Rattle.proto_model.specs.World.{Setup as SetupValue};

use proto_model::{Mode, Terms};
use rp_app::App;
use rp_base::{Event, Line, Lines, NoMemory, Node};
use run_ending::closing_lines;
use std::alloc::Global;
use std::marker::Model;
use world_state::WorldState;

/// How many nodes a run has, the terms of its leases, and whether its frames go over a link.
#[derive(Clone, Copy, Debug)]
pub struct Setup {
    /// 1 to 8.
    pub switches: u8,
    /// 1 to 5.
    pub replicas: u8,
    pub terms: Terms,
    pub linked: bool,
}

impl Model for Setup {
    ghost use Rattle.proto_model.specs.World.{Setup as SetupValue};

    ghost Value = { SetupValue };

    ghost view = { λ s. record { switches = s.switches; replicas = s.replicas; terms = s.terms; linked = s.linked } };

    ghost inverse = { λ s. record { switches = s.switches; replicas = s.replicas; terms = s.terms; linked = s.linked } };
}

/// The world of a run, event by event.
#[derive(Drop)]
pub struct World<A: App> {
    app: A,
    setup: Setup,
    state: WorldState,
    failed: bool,
    alloc: Global,
}

impl<A: App> Model for World<A> {
    ghost use Rattle.std.specs.Prelude.{◌≡◌, false};
    ghost use Rattle.rp_world.specs.AppWorld.{AppWorld};
    ghost use Rattle.rp_world.specs.Begun.{IsGoing};
    ghost use Rattle.world_state.specs.WorldStates.{world_of};

    ghost Value = { AppWorld A };

    ghost view = { λ w. record { app = w.app; setup = w.setup; world = world_of w.state; calls = w.state.calls; failed = w.failed } };

    ghost invariant = { λ w. w.failed ≡ false → IsGoing (A.meaning w.app) w.setup w.state };
}

// A port is as small as its type says.
fn is_port(_port: u16)
    ensures { _port < 65536 }
{}

// The packet of an event is as large as its types and a schedule allow.
fn is_sized(e: &Event)
    ensures { (setup : SetupValue) → IsEventOf setup e.now → EventSized e.now }
{
    match e {
        Event::Feed { port, bytes: _ } => is_port(*port),
        Event::FeedAt {
            at: _,
            port,
            bytes: _,
        } => is_port(*port),
        _ => (),
    }
}

// The lines at the end where nothing is committed.
fn end_alone(alloc: Global) -> Result<Lines, NoMemory>
    ensures { IfOk result (λ lines. lines ≡ LineValue.End ∷ []) }
{
    let mut lines = Lines::new(alloc);
    lines.push(Line::End)?;
    Ok(lines)
}

// The lines at the end of a run in this mode.
fn end_of(alloc: Global, mode: Mode, state: &WorldState) -> Result<Lines, NoMemory>
    ensures { IfOk result (λ lines. (app : Application) (setup : SetupValue) → IsGoing app setup state.now → setup.terms.mode ≡ mode → lines ≡ shown (end_lines app.cell_count (world_of state.now))) }
{
    let Some(last) = state.committed() else {
        return end_alone(alloc);
    };
    let history = state.history();
    let lines = closing_lines(
        alloc,
        mode,
        last.leases(),
        last.book(),
        history.items(),
        history.rounds(),
    )?;
    Ok(lines)
}

impl<A: App> World<A> {
    /// The world before its first event: every node runs, and nothing has happened.
    ///
    /// In strict mode the application has at most 32 cells, in snapshot mode at most 256.
    ///
    /// # Errors
    /// `NoMemory`.
    pub fn open(alloc: Global, app: A, setup: &Setup) -> Result<World<A>, NoMemory>
        requires setup { IsSetup setup.now }
        requires cells { CellsFit setup.now.terms.mode (A.meaning app).cell_count }
        ensures { IfOk result (λ made. made ≡ record { app = app; setup = setup.now; world = opened (A.meaning app).cell_count setup.now; calls = 0; failed = false }) }
    {
        let cells = app.cells();
        let state = WorldState::open(
            alloc,
            setup.switches,
            setup.replicas,
            cells,
            &setup.terms,
            setup.linked,
        )?;
        Ok(World {
            app,
            setup: *setup,
            state,
            failed: false,
            alloc,
        })
    }

    /// Takes one event, and gives the lines that it writes, those of sent frames among them. Events are numbered from 1.
    /// At most 64 frames are sent.
    ///
    /// # Errors
    /// `NoMemory`, and from then on each call answers it; nothing is said of the rest of the world.
    pub fn on(&mut self, e: &Event) -> Result<Lines, NoMemory>
        requires event { IsEventOf self.old.setup e.now }
        requires count { self.old.calls < 1000000000 }
        ensures ok { IfOk result (λ lines. (self.new.world, lines) ≡ stepped (A.meaning self.old.app) self.old.world e.now) }
        ensures number { OnOk result (self.new.world.event ≡ self.old.world.event + 1) }
        ensures calls { OnOk result (self.new.calls ≡ self.old.calls + 1) }
        ensures few { OnOk result (Grows self.old.world.frames self.new.world.frames) }
        ensures app { self.new.app ≡ self.old.app }
        ensures setup { self.new.setup ≡ self.old.setup }
        ensures err { OnErr result (self.new.failed ≡ true) }
        ensures stays { self.old.failed ≡ true → IsErr result }
    {
        if self.failed {
            return Err(NoMemory);
        }
        is_sized(e);
        match self.state.on(&self.app, e) {
            Ok(lines) => Ok(lines),
            Err(NoMemory) => {
                self.failed = true;
                Err(NoMemory)
            }
        }
    }

    /// The frame of this number, which was sent to a node that runs, arrives within the present event: where frames go over a link, it
    /// came from there. Gives the lines that this writes. At most 64 frames are sent.
    ///
    /// # Errors
    /// `NoMemory`, and from then on each call answers it; nothing is said of the rest of the world.
    pub fn hand(&mut self, i: u64) -> Result<Lines, NoMemory>
        requires frame { i < length self.old.world.frames }
        requires runs { IfSome (slice_get self.old.world.frames i) (λ m. runs_now self.old.world m.to ≡ true) }
        requires room { length self.old.world.frames ≤ 65472 }
        requires count { self.old.calls < 1000000000 }
        ensures ok { IfOk result (λ lines. (self.new.world, lines) ≡ shown_step (hand (A.meaning self.old.app) self.old.world i)) }
        ensures calls { OnOk result (self.new.calls ≡ self.old.calls + 1) }
        ensures few { OnOk result (Grows self.old.world.frames self.new.world.frames) }
        ensures app { self.new.app ≡ self.old.app }
        ensures setup { self.new.setup ≡ self.old.setup }
        ensures err { OnErr result (self.new.failed ≡ true) }
        ensures stays { self.old.failed ≡ true → IsErr result }
    {
        if self.failed {
            return Err(NoMemory);
        }
        match self.state.hand(&self.app, i) {
            Ok(lines) => Ok(lines),
            Err(NoMemory) => {
                self.failed = true;
                Err(NoMemory)
            }
        }
    }

    /// The number of the first frame with these bytes that was sent to this node; `None` exactly where there is none.
    pub fn find(&self, node: Node, bytes: &[u8]) -> Option<u64>
        ensures { result ≡ found spelling self.now.world node bytes.now }
    {
        self.state.find(node, bytes)
    }

    /// Whether a node runs; one that isn't there doesn't, and neither does the master. Where memory ran out nothing is said.
    pub fn runs(&self, node: Node) -> bool
        ensures { self.now.failed ≡ false → result ≡ runs_now self.now.world node }
    {
        !self.failed && self.state.runs(node)
    }

    /// The lines that a report ends with: of each flow, in order of first grant, what is committed of it, and the end.
    ///
    /// # Errors
    /// `NoMemory`.
    pub fn closing(&self) -> Result<Lines, NoMemory>
        ensures ok { IfOk result (λ lines. lines ≡ shown (end_lines (A.meaning self.now.app).cell_count self.now.world)) }
        ensures stays { self.now.failed ≡ true → IsErr result }
    {
        if self.failed {
            return Err(NoMemory);
        }
        let lines = end_of(self.alloc, self.setup.terms.mode, &self.state)?;
        Ok(lines)
    }

    /// How many frames were sent.
    pub fn frames(&self) -> u64
        ensures { result ≡ length self.now.world.frames }
    {
        self.state.frames()
    }

    /// The bytes of the frame with this number, counted from 0.
    pub fn frame(&self, i: u64) -> &[u8]
        requires { i < length self.now.world.frames }
        ensures spelled { option_map spelling (slice_get self.now.world.frames i) ≡ Some result.now }
        ensures short { length result.now ≤ 3700 }
    {
        self.state.frame(i)
    }
}
