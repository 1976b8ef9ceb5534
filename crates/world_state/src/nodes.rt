//! The nodes of a run: each runs or has failed, and has a clock of its own, which goes on in either case.
ghost use Rattle.std.specs.Prelude.{◌≡◌, ◌≤◌, ◌<◌, ◌^◌, ◌++◌, [], ◌∷◌, All, length, slice_get, slice_set, IfOk, OnOk};
ghost use Rattle.std.specs.Option.{option_copied};
ghost use Rattle.std.specs.List.{AllByRecursion};
ghost use Rattle.proto_model.specs.WorldStep.{changed_at};
ghost use Rattle.world_state.specs.Nodes.{begun_switch, begun_replica, switch_stops, replica_stops, switches_later, replicas_later};

use proto_model::{Config, Terms};
use rp_base::NoMemory;
use run_history::Book;
use std::alloc::Global;
use std::marker::Model;
use store_replica::Replica;
use switch_core::SwitchCore;

/// A switch of a run.
#[derive(Drop)]
pub(crate) struct SwitchNode {
    pub(crate) runs: bool,
    pub(crate) clock: u64,
    pub(crate) state: SwitchCore,
}

/// A replica of a run, with the entries that it applied, in order.
#[derive(Drop)]
pub struct ReplicaNode {
    pub(crate) runs: bool,
    pub(crate) clock: u64,
    pub(crate) state: Replica,
    pub(crate) book: Book,
}

impl SwitchNode {
    /// A switch that runs and has no slots, in the incarnation of this number. Its clock stands at `clock`.
    ///
    /// # Errors
    /// `NoMemory`.
    pub(crate) fn begun(
        alloc: Global,
        clock: u64,
        me: u8,
        inc: u64,
        cells: u16,
        terms: &Terms,
        config: &Config,
    ) -> Result<SwitchNode, NoMemory>
        requires term { terms.now.t_switch ≤ 1000000 }
        requires cells { cells ≤ 256 }
        ensures { IfOk result (λ made. made ≡ begun_switch clock me inc cells terms.now config.now) }
    {
        Ok(SwitchNode {
            runs: true,
            clock,
            state: SwitchCore::open(alloc, me, inc, cells, terms, config)?,
        })
    }
}

impl ReplicaNode {
    ghost use Rattle.proto_model.specs.Stands.{Stands};

    /// A replica that runs, before its first entry. Its clock stands at 0.
    ///
    /// # Errors
    /// `NoMemory`.
    pub(crate) fn begun(
        alloc: Global,
        me: u8,
        cells: u16,
        terms: &Terms,
        config: &Config,
    ) -> Result<ReplicaNode, NoMemory>
        requires cells { cells ≤ 256 }
        ensures begun { IfOk result (λ made. made ≡ begun_replica me cells terms.now config.now) }
        ensures stands { IfOk result (λ made. Stands made.state.replica made.book) }
    {
        Ok(ReplicaNode {
            runs: true,
            clock: 0,
            state: Replica::open(alloc, me, cells, terms, config)?,
            book: Book::new(alloc),
        })
    }
}

/// The switches of a run, in order of number.
#[derive(Drop)]
pub(crate) struct Switches {
    pub(crate) items: Vec<SwitchNode>,
}

impl Model for Switches {
    ghost use Rattle.std.specs.Prelude.{List};
    ghost use Rattle.world_state.specs.declared.nodes.SwitchNode.{SwitchNode as SwitchSeat};

    ghost Value = { List SwitchSeat };

    ghost view = { λ s. s.items.items };
}

impl Switches {
    /// No switches. Takes no memory.
    pub(crate) fn new(alloc: Global) -> Switches
        ensures { result ≡ [] }
    {
        Switches {
            items: Vec::new(alloc),
        }
    }

    /// How many switches.
    pub(crate) fn len(&self) -> usize
        ensures { result ≡ length self.now }
    {
        self.items.len()
    }

    /// A switch comes last.
    ///
    /// # Errors
    /// `NoMemory`.
    pub(crate) fn push(&mut self, node: SwitchNode) -> Result<(), NoMemory>
        ensures { OnOk result (self.new ≡ self.old ++ node ∷ []) }
    {
        self.items.push(node)?;
        Ok(())
    }

    /// The switches, in order of number.
    pub(crate) fn as_slice(&self) -> &[SwitchNode]
        ensures { result.now ≡ self.now }
    {
        &self.items
    }

    /// The switch of this number, if there is one.
    pub(crate) fn get(&self, n: u8) -> Option<&SwitchNode>
        ensures { option_copied result ≡ slice_get self.now n }
    {
        self.items.get(n as usize)
    }

    /// Another switch stands in the place of this number, which there is.
    pub(crate) fn set(&mut self, n: u8, node: SwitchNode)
        requires { n < length self.old }
        ensures { self.new ≡ slice_set self.old n node }
    {
        self.items[n as usize] = node;
    }

    /// The clocks go on, each by its own number.
    pub(crate) fn advance(&mut self, by: &[u64])
        requires count { length by.now ≡ length self.old }
        requires clocks { AllByRecursion (λ node. node.clock ≤ 2 ^ 62) self.old }
        requires advances { All (λ x. x ≤ 1000000000) by.now }
        ensures { self.new ≡ switches_later self.old by.now }
    {
        for i in 0..by.len() {
            self.items[i].clock += by[i];
        }
    }

    /// A switch stops, if it is there.
    pub(crate) fn stop(&mut self, n: u8)
        ensures { self.new ≡ changed_at self.old n switch_stops }
    {
        let at = n as usize;
        if at >= self.items.len() {
            return;
        }
        self.items[at].runs = false;
    }
}

/// The replicas of a run, in order of number.
#[derive(Drop)]
pub(crate) struct Replicas {
    pub(crate) items: Vec<ReplicaNode>,
}

impl Model for Replicas {
    ghost use Rattle.std.specs.Prelude.{List};
    ghost use Rattle.world_state.specs.declared.nodes.ReplicaNode.{ReplicaNode as ReplicaSeat};

    ghost Value = { List ReplicaSeat };

    ghost view = { λ r. r.items.items };
}

impl Replicas {
    /// No replicas. Takes no memory.
    pub(crate) fn new(alloc: Global) -> Replicas
        ensures { result ≡ [] }
    {
        Replicas {
            items: Vec::new(alloc),
        }
    }

    /// How many replicas.
    pub(crate) fn len(&self) -> usize
        ensures { result ≡ length self.now }
    {
        self.items.len()
    }

    /// A replica comes last.
    ///
    /// # Errors
    /// `NoMemory`.
    pub(crate) fn push(&mut self, node: ReplicaNode) -> Result<(), NoMemory>
        ensures { OnOk result (self.new ≡ self.old ++ node ∷ []) }
    {
        self.items.push(node)?;
        Ok(())
    }

    /// The replicas, in order of number.
    pub(crate) fn as_slice(&self) -> &[ReplicaNode]
        ensures { result.now ≡ self.now }
    {
        &self.items
    }

    /// The replica of this number, if there is one.
    pub(crate) fn get(&self, n: u8) -> Option<&ReplicaNode>
        ensures { option_copied result ≡ slice_get self.now n }
    {
        self.items.get(n as usize)
    }

    /// The clocks go on, each by its own number.
    pub(crate) fn advance(&mut self, by: &[u64])
        requires count { length by.now ≡ length self.old }
        requires clocks { AllByRecursion (λ node. node.clock ≤ 2 ^ 62) self.old }
        requires advances { All (λ x. x ≤ 1000000000) by.now }
        ensures { self.new ≡ replicas_later self.old by.now }
    {
        for i in 0..by.len() {
            self.items[i].clock += by[i];
        }
    }

    /// A replica stops, if it is there.
    pub(crate) fn stop(&mut self, n: u8)
        ensures { self.new ≡ changed_at self.old n replica_stops }
    {
        let at = n as usize;
        if at >= self.items.len() {
            return;
        }
        self.items[at].runs = false;
    }
}
