//! A frame that came over a link: which one its bytes are, and its delivery within the present event.
ghost use Rattle.std.specs.Prelude.{◌≡◌, ◌<◌, ◌+◌, length, IfOk, OnOk};
ghost use Rattle.proto_model.specs.Handing.{found, hand};
ghost use Rattle.rp_frame.specs.Spelling.{spelling};
ghost use Rattle.run_history.specs.Shown.{shown_step};
ghost use Rattle.world_state.specs.WorldStates.{IsRun, world_of};

use crate::state::WorldState;
use rp_app::App;
use rp_base::{Lines, NoMemory, Node};

impl WorldState {
    /// The number of the first frame that was sent to this node with these bytes, if there is one.
    pub fn find(&self, node: Node, bytes: &[u8]) -> Option<u64>
        ensures { result ≡ found spelling (world_of self.now) node bytes.now }
    {
        self.frames.find(node, bytes)
    }

    /// A frame, which was sent, is delivered within the present event. There is room for the frames that this sends.
    ///
    /// # Errors
    /// `NoMemory`; then nothing is said of the world.
    pub fn hand<A: App>(&mut self, app: &A, frame: u64) -> Result<Lines, NoMemory>
        requires run { IsRun (A.meaning app.now) self.old }
        requires sent { frame < length self.old.frames }
        requires count { self.old.calls < 1000000000 }
        ensures step { IfOk result (λ lines. (world_of self.new, lines) ≡ shown_step (hand (A.meaning app.now) (world_of self.old) frame)) }
        ensures run { OnOk result (IsRun (A.meaning app.now) self.new) }
        ensures calls { OnOk result (self.new.calls ≡ self.old.calls + 1) }
    {
        self.calls += 1;
        let msg = self.frames.at(frame as usize)?;
        self.deliver(app, frame, msg)
    }
}
