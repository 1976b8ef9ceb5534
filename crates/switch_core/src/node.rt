//! A switch as a node of a run: it counts its turns, and stops for good where memory runs out.
ghost use Rattle.std.specs.Prelude.{◌≡◌, ◌≤◌, ◌<◌, ◌+◌, ◌^◌, true, IfOk, OnErr, IsErr};

use crate::did::SwitchDid;
use crate::switch::Switch;
use proto_data::{Config, Input, Terms};
use rp_app::App;
use rp_base::NoMemory;
use std::alloc::Global;
use std::marker::Model;

/// A switch of a run.
///
/// It is seen as the switch of the protocol at the moment of its last input, with the number of its application's cells and of its turns.
#[derive(Drop)]
pub struct SwitchCore {
    switch: Switch,
    cells: u16,
    latest: u64,
    turns: u64,
    failed: bool,
}

impl Model for SwitchCore {
    ghost use Rattle.std.specs.Prelude.{◌≡◌, ◌≤◌, ◌*◌, false};
    ghost use Rattle.switch_core.specs.States.{Core};
    ghost use Rattle.switch_core.specs.Steady.{IsSteady};

    ghost Value = { Core };

    ghost view = { λ s. record { state = s.switch.state; latest = s.latest; cells = s.cells; turns = s.turns; failed = s.failed } };

    ghost invariant = { λ s. s.failed ≡ false → (s.switch.latest ≡ s.latest) × IsSteady s.cells (1024 * s.turns) s.switch.state };
}

impl SwitchCore {
    ghost use Rattle.switch_core.specs.States.{opened, turn};

    /// A switch without slots, in its incarnation of this number, for an application of this many cells.
    ///
    /// `t_switch` is at most 1,000,000, and there are at most 256 cells.
    ///
    /// # Errors
    /// `NoMemory`.
    #[tactic(auto, using(crate::proofs::Steady::steady_open))]
    pub fn open(
        alloc: Global,
        me: u8,
        inc: u64,
        cells: u16,
        terms: &Terms,
        config: &Config,
    ) -> Result<SwitchCore, NoMemory>
        requires term { terms.now.t_switch ≤ 1000000 }
        requires cells { cells ≤ 256 }
        ensures { IfOk result (λ made. made ≡ opened me inc cells terms.now config.now) }
    {
        Ok(SwitchCore {
            switch: Switch::open(alloc, me, inc, terms, config)?,
            cells,
            latest: 0,
            turns: 0,
            failed: false,
        })
    }

    /// The switch's number.
    pub fn me(&self) -> u8
        ensures { result ≡ self.now.state.me }
    {
        self.switch.me
    }

    /// The number of its incarnation: 1 at first, and one more at each boot.
    pub fn inc(&self) -> u64
        ensures { result ≡ self.now.state.inc }
    {
        self.switch.inc
    }

    /// How often `on` was called.
    pub fn turns(&self) -> u64
        ensures { result ≡ self.now.turns }
    {
        self.turns
    }

    /// Takes a packet, a message or an Alarm at a moment of the switch's clock, which hasn't fallen and is at most 2^62.
    ///
    /// The application has as many cells as at `open`, and there were fewer than 4,000,000,000 turns.
    ///
    /// # Errors
    /// `NoMemory`, now and at each later turn.
    pub fn on<A: App>(&mut self, app: &A, now: u64, input: &Input) -> Result<SwitchDid, NoMemory>
        requires later { self.old.latest ≤ now }
        requires moment { now ≤ 2 ^ 62 }
        requires turns { self.old.turns < 4000000000 }
        requires cells { (A.meaning app.now).cell_count ≡ self.old.cells }
        ensures step { IfOk result (λ did. (self.new, did) ≡ turn (A.meaning app.now) self.old now input.now) }
        ensures failed { OnErr result (self.new.failed ≡ true) }
        ensures stays { self.old.failed ≡ true → IsErr result }
        ensures turns { self.new.turns ≡ self.old.turns + 1 }
        ensures latest { self.new.latest ≡ now }
        ensures cells { self.new.cells ≡ self.old.cells }
    {
        self.turns += 1;
        self.latest = now;
        if self.failed {
            return Err(NoMemory);
        }
        self.switch.see(now);
        match self.switch.on(app, input) {
            Ok(did) => Ok(did),
            Err(e) => {
                self.failed = true;
                Err(e)
            }
        }
    }
}
