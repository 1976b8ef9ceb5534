//! One event of a world: its act, or its refusal.
ghost use Rattle.std.specs.Prelude.{◌≡◌, ◌<◌, ◌+◌, length, IfOk, OnOk};
ghost use Rattle.proto_safety.specs.Sizes.{EventSized};
ghost use Rattle.run_history.specs.Shown.{stepped};
ghost use Rattle.world_state.specs.Acts.{IsEventOf};
ghost use Rattle.world_state.specs.Waiting.{AreCursors};
ghost use Rattle.world_state.specs.WorldStates.{IsRun, world_of};

use crate::state::WorldState;
use rp_app::App;
use rp_base::{Event, Lines, NoMemory};

impl WorldState {
    /// Takes one event, and gives the lines that it writes, those of sent frames among them. Events are numbered from 1.
    ///
    /// # Errors
    /// `NoMemory`; then nothing is said of the world.
    pub fn on<A: App>(&mut self, app: &A, e: &Event) -> Result<Lines, NoMemory>
        requires run { IsRun (A.meaning app.now) self.old }
        requires event { IsEventOf (world_of self.old) e.now }
        requires sized { EventSized e.now }
        requires count { self.old.calls < 1000000000 }
        ensures step { IfOk result (λ lines. (world_of self.new, lines) ≡ stepped (A.meaning app.now) (world_of self.old) e.now) }
        ensures run { OnOk result (IsRun (A.meaning app.now) self.new) }
        ensures calls { OnOk result (self.new.calls ≡ self.old.calls + 1) }
    {
        self.settle_for(e);
        self.happens(app, e)
    }

    // Before the next frame is looked for, the cursors go on.
    fn settle_for(&mut self, e: &Event)
        requires routed { length self.old.router.believed ≡ length self.old.switches }
        requires cursors { AreCursors self.old.frames self.old.passed self.old.cursors }
        ensures same { self.new ≡ record self.old { cursors = self.new.cursors } }
        ensures cursors { AreCursors self.old.frames self.old.passed self.new.cursors }
    {
        match e {
            Event::Next => self.settle(),
            _ => (),
        }
    }

    // The event's act, or its refusal.
    fn happens<A: App>(&mut self, app: &A, e: &Event) -> Result<Lines, NoMemory>
        requires run { IsRun (A.meaning app.now) self.old }
        requires event { IsEventOf (world_of self.old) e.now }
        requires sized { EventSized e.now }
        requires count { self.old.calls < 1000000000 }
        ensures step { IfOk result (λ lines. (world_of self.new, lines) ≡ stepped (A.meaning app.now) (world_of self.old) e.now) }
        ensures run { OnOk result (IsRun (A.meaning app.now) self.new) }
        ensures calls { OnOk result (self.new.calls ≡ self.old.calls + 1) }
    {
        self.event += 1;
        self.calls += 1;
        let act = self.act(app, e)?;
        self.perform(app, act)
    }
}
