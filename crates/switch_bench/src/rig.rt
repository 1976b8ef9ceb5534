//! A switch whose Asks and Puts are answered by hand.

use crate::wide::WideApp;
use proto_data::{Body, Chain, Config, Input, Mode, Msg, Terms};
use rp_app::CountApp;
use rp_base::{Bytes, NoMemory, Node, Packet};
use std::alloc::Global;
use std::marker::Model;
use switch_core::{SwitchCore, SwitchDid};

// A switch takes fewer inputs than this.
const TURNS: u64 = 4_000_000_000;

// The last moment at which it takes one.
const LAST: u64 = 1 << 62;

/// A switch of one cell a flow, in strict mode, and how many outputs it released.
#[derive(Drop)]
pub(crate) struct Rig {
    switch: SwitchCore,
    app: WideApp,
    now: u64,
    pub(crate) released: u64,
}

impl Model for Rig {
    ghost use Rattle.std.specs.Prelude.{◌≡◌};
    ghost use Rattle.switch_core.specs.States.{Core};

    ghost Value = { Core };

    ghost view = { λ r. r.switch };

    ghost invariant = { λ r. (r.switch.latest ≡ r.now) × (r.switch.cells ≡ 1) };
}

/// A packet of a flow.
///
/// # Errors
/// `NoMemory`.
pub(crate) fn packet(alloc: Global, mark: u32, flow: u32) -> Result<Input, NoMemory> {
    let mut bytes = Bytes::new(alloc);
    bytes.append(&flow.to_be_bytes())?;
    Ok(Input::Packet(Packet {
        mark: mark as u64,
        port: 7,
        bytes,
    }))
}

/// A message of replica 0 to switch 0.
pub(crate) fn from_head(body: Body) -> Input {
    Input::Msg(Msg {
        from: Node::Replica(0),
        to: Node::Switch(0),
        body,
    })
}

impl Rig {
    /// A switch without slots, before its first turn.
    ///
    /// # Errors
    /// `NoMemory`.
    pub(crate) fn open(alloc: Global) -> Result<Rig, NoMemory> {
        let mut chain = Chain::new();
        chain.push(0);
        let terms = Terms {
            t_switch: 1000,
            t_store: 1100,
            ratio: 50,
            mode: Mode::Strict,
        };
        Ok(Rig {
            switch: SwitchCore::open(alloc, 0, 1, 1, &terms, &Config { number: 1, chain })?,
            app: WideApp {
                count: CountApp { alloc },
            },
            now: 0,
            released: 0,
        })
    }

    /// What a turn at a moment did; `None`, and no turn, where the moment is an earlier one or past 2^62, or no turn is left.
    ///
    /// # Errors
    /// `NoMemory`, now and at each later turn.
    pub(crate) fn at(&mut self, now: u64, input: &Input) -> Result<Option<SwitchDid>, NoMemory> {
        if now < self.now || now > LAST || self.switch.turns() >= TURNS {
            return Ok(None);
        }
        self.now = now;
        let did = self.switch.on(&self.app, now, input)?;
        Ok(Some(did))
    }

    /// The last message that a turn on this input sent, at the moment of the turn before.
    ///
    /// # Errors
    /// `NoMemory`, now and at each later turn.
    pub(crate) fn sent(&mut self, input: &Input) -> Result<Option<Msg>, NoMemory> {
        let now = self.now;
        let Some(mut did) = self.at(now, input)? else {
            return Ok(None);
        };
        if did.released.is_some() {
            self.released = self.released.saturating_add(1);
        }
        Ok(did.sent.pop())
    }
}
