//! Replicas 0, 1 and so on in a chain, the messages that are on their way, and one flow.
ghost use Rattle.std.specs.Prelude.{◌≤◌};

use crate::inputs::{ask, put, snap};
use proto_model::{Body, Carried, Chain, Config, Input, Mode, Terms};
use rp_base::{Key, Lost, NoMemory, Node};
use sqlite_items::Items;
use std::alloc::Global;
use store_replica::{Msgs, Replica, StoreDid};

/// What happens next.
#[derive(Clone, Copy, Debug)]
pub(crate) enum Step {
    /// This switch asks the head, with a packet of this mark.
    Ask(u8, u64),
    /// Switch 0 sends the head a Put of this number, with an output of this mark.
    Put(u64, u64),
    /// Switch 0 sends the head a chunk of so many cells, at this place of two.
    Snap(u16, u8),
    /// The head has an Alarm.
    Alarm,
    /// The first message on its way comes to its addressee, if that is a replica.
    Carry,
    /// The first message on its way is lost.
    Lose,
}

/// What is there to be seen after a step.
#[derive(Clone, Copy, Debug, PartialEq, Eq)]
pub(crate) enum Seen {
    /// Nothing is on its way.
    Nothing,
    /// The replica lost its message.
    Lost(Lost),
    /// The first message on its way: the byte that a frame has for its kind, its addressee, and the mark of its load or 0.
    First(u8, Node, u64),
}

/// What a replica has kept of the flow.
#[derive(Clone, Copy, Debug, PartialEq, Eq)]
pub(crate) struct Kept {
    pub(crate) epoch: u64,
    pub(crate) last: u64,
    pub(crate) moment: u64,
    pub(crate) cells: usize,
}

#[derive(Drop)]
pub(crate) struct Line {
    alloc: Global,
    key: Key,
    replicas: Vec<Replica>,
    way: Msgs,
    lost: Option<Lost>,
}

// The first configuration, of so many replicas.
fn config(members: u8) -> Config {
    let mut chain = Chain::new();
    for member in 0..members {
        if chain.as_slice().len() < 5 {
            chain.push(member);
        }
    }
    Config { number: 1, chain }
}

// What a replica makes of an input: what it sends, and why it lost the message.
fn told(replica: &mut Replica, now: u64, input: &Input) -> Result<(Msgs, Option<Lost>), NoMemory> {
    if replica.turns() >= 1000 {
        return Err(NoMemory);
    }
    let did = replica.on(now, input)?;
    let StoreDid {
        sent,
        applied: _,
        lost,
    } = did;
    Ok((sent, lost))
}

fn mark_of(load: &Option<Carried>) -> u64 {
    match load {
        Some(carried) => carried.mark,
        None => 0,
    }
}

// The kind of a message that is met here, or 0, and the mark of what rides on it.
fn kind_and_mark(body: &Body) -> (u8, u64) {
    match body {
        Body::Grant { load, .. } => (2, mark_of(load)),
        Body::Busy { .. } => (3, 0),
        Body::Ack { load, .. } => (5, mark_of(load)),
        Body::Deny { .. } => (6, 0),
        Body::Forward { load, .. } => (7, mark_of(load)),
        Body::Have { .. } => (8, 0),
        Body::Echo { load, .. } => (9, mark_of(load)),
        _ => (0, 0),
    }
}

impl Line {
    /// So many replicas, whose flows have `cells` cells.
    pub(crate) fn open(alloc: Global, key: Key, members: u8, cells: u16) -> Result<Line, NoMemory>
        requires { cells ≤ 256 }
    {
        let terms = Terms {
            t_switch: 1000,
            t_store: 1100,
            ratio: 50,
            mode: Mode::Strict,
        };
        let config = config(members);
        let mut replicas = Vec::new(alloc);
        for me in 0..members {
            replicas.push(Replica::open(alloc, me, cells, &terms, &config)?)?;
        }
        Ok(Line {
            alloc,
            key,
            replicas,
            way: Items::new(alloc),
            lost: None,
        })
    }

    // A replica takes an input; what it sends is on its way.
    fn give(&mut self, n: u8, now: u64, input: Input) -> Result<(), NoMemory> {
        let Some(replica) = self.replicas.get_mut(n as usize) else {
            return Ok(());
        };
        let (sent, lost) = told(replica, now, &input)?;
        self.lost = lost;
        self.way.append(sent)?;
        Ok(())
    }

    // The first message on its way comes to its addressee.
    fn carry(&mut self, now: u64) -> Result<(), NoMemory> {
        if self.way.len() == 0 {
            return Ok(());
        }
        let msg = self.way.remove(0);
        match msg.to {
            Node::Replica(n) => self.give(n, now, Input::Msg(msg)),
            _ => Ok(()),
        }
    }

    /// The step happens at `now` by every clock.
    pub(crate) fn take(&mut self, now: u64, step: &Step) -> Result<(), NoMemory> {
        self.lost = None;
        match step {
            Step::Ask(switch, mark) => {
                self.give(0, now, ask(self.alloc, self.key, *switch, *mark))
            }
            Step::Put(number, mark) => {
                let input = put(self.alloc, self.key, *number, *mark)?;
                self.give(0, now, input)
            }
            Step::Snap(cells, place) => self.give(0, now, snap(self.key, *cells, *place)),
            Step::Alarm => self.give(0, now, Input::Alarm),
            Step::Carry => self.carry(now),
            Step::Lose => {
                if self.way.len() > 0 {
                    self.way.remove(0);
                }
                Ok(())
            }
        }
    }

    /// What is there to be seen.
    pub(crate) fn seen(&self) -> Seen {
        if let Some(lost) = self.lost {
            return Seen::Lost(lost);
        }
        match self.way.get(0) {
            Some(msg) => {
                let (kind, mark) = kind_and_mark(&msg.body);
                Seen::First(kind, msg.to, mark)
            }
            None => Seen::Nothing,
        }
    }

    /// What the tail has kept.
    pub(crate) fn kept(&self) -> Option<Kept> {
        let tail = self.replicas.get(self.replicas.len().saturating_sub(1))?;
        let record = tail.leases().get(&self.key)?;
        Some(Kept {
            epoch: record.epoch,
            last: record.last,
            moment: record.moment,
            cells: record.cells.as_slice().len(),
        })
    }
}
