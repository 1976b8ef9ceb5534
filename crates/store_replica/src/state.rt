//! What a replica keeps: its place in the chain, the records, two counts, what is pending and what is gathered.
ghost use Rattle.std.specs.Prelude.{◌≡◌, ◌<◌, ◌≤◌, ◌+◌, ◌^◌, ◌++◌, true, IfOk, OnOk, OnErr};
ghost use Rattle.proto_data.specs.declared.message.Config.{Config as ConfigValue};

use crate::chain;
use crate::copies::copy_config;
use crate::did::Msgs;
use crate::gatherings::GatheringTable;
use circular_buffer::HeapCircularBuffer;
use lease_table::LeaseTable;
use proto_data::PENDING;
use proto_model::{Body, Config, Entry, Msg, Terms};
use rp_base::{NoMemory, Node};
use std::alloc::Global;
use std::marker::Model;

/// What a replica keeps. It has no book: the records are what the entries come to.
#[derive(Drop)]
pub(crate) struct ReplicaState {
    pub(crate) me: u8,
    pub(crate) terms: Terms,
    /// The greatest configuration that was seen.
    pub(crate) config: Config,
    pub(crate) leases: LeaseTable,
    /// How many entries are applied.
    pub(crate) applied: u64,
    /// How many entries are known to be committed.
    pub(crate) known: u64,
    /// The entries past those, in order: at most 256.
    pub(crate) pending: HeapCircularBuffer<Entry>,
    pub(crate) gathered: GatheringTable,
    pub(crate) alloc: Global,
}

impl Model for ReplicaState {
    ghost use Rattle.std.specs.Prelude.{◌≡◌};
    ghost use Rattle.proto_data.specs.declared.limits.TheConstants.{PENDING};
    ghost use Rattle.proto_model.specs.ReplicaState.{Replica as ReplicaValue};
    ghost use Rattle.store_replica.specs.Stores.{IsCounted};

    ghost Value = { ReplicaValue };

    ghost view = { λ r. record {
      me = r.me;
      cell_count = r.leases.cell_count;
      terms = r.terms;
      config = r.config;
      records = r.leases.records;
      applied = r.applied;
      known = r.known;
      pending = r.pending.items;
      gathered = r.gathered.table;
    } };

    ghost invariant = { λ r. IsCounted r.applied r.known r.leases.records × (r.pending.capacity ≡ PENDING) × (r.gathered.cell_count ≡ r.leases.cell_count) };
}

impl ReplicaState {
    ghost use Rattle.proto_model.specs.ReplicaState.{is_head, is_member, is_tail, open_replica, to_node, to_predecessor, to_replica, to_successor, to_tail};
    ghost use Rattle.proto_model.specs.ReplicaRows.{with_entry};
    ghost use Rattle.proto_model.specs.Records.{entry_fits};

    /// The replica before its first entry. Flows have `cells` cells, at most 256.
    ///
    /// # Errors
    /// `NoMemory`.
    pub(crate) fn open(
        alloc: Global,
        me: u8,
        cells: u16,
        terms: &Terms,
        config: &Config,
    ) -> Result<ReplicaState, NoMemory>
        requires { cells ≤ 256 }
        ensures { IfOk result (λ made. made ≡ open_replica me cells terms.now config.now) }
    {
        let config = copy_config(config)?;
        let pending = HeapCircularBuffer::with_capacity(alloc, PENDING)?;
        Ok(ReplicaState {
            me,
            terms: *terms,
            config,
            leases: LeaseTable::new(alloc, cells),
            applied: 0,
            known: 0,
            pending,
            gathered: GatheringTable::new(alloc, cells),
            alloc,
        })
    }

    /// Whether it is in its configuration.
    pub(crate) fn is_member(&self) -> bool
        ensures { result ≡ is_member self.now }
    {
        chain::has_member(self.config.chain.as_slice(), self.me)
    }

    /// Whether it is the first of its configuration.
    pub(crate) fn is_head(&self) -> bool
        ensures { result ≡ is_head self.now }
    {
        chain::is_head(self.config.chain.as_slice(), self.me)
    }

    /// Whether it is the last of its configuration.
    pub(crate) fn is_tail(&self) -> bool
        ensures { result ≡ is_tail self.now }
    {
        chain::is_tail(self.config.chain.as_slice(), self.me)
    }

    /// A message from this replica.
    pub(crate) fn message(&self, to: Node, body: Body) -> Msg
        ensures { result ≡ to_node self.now to body }
    {
        Msg {
            from: Node::Replica(self.me),
            to,
            body,
        }
    }

    // One more message, where there is such a replica.
    fn tell(&self, to: Option<u8>, body: Body, sent: &mut Msgs) -> Result<(), NoMemory>
        ensures { OnOk result (sent.new ≡ sent.old ++ to_replica self.now to body) }
    {
        if let Some(n) = to {
            sent.push(self.message(Node::Replica(n), body))?;
        }
        Ok(())
    }

    /// One more message, to the successor, where there is one.
    ///
    /// # Errors
    /// `NoMemory`.
    pub(crate) fn tell_successor(&self, body: Body, sent: &mut Msgs) -> Result<(), NoMemory>
        ensures { OnOk result (sent.new ≡ sent.old ++ to_successor self.now body) }
    {
        self.tell(
            chain::successor(self.config.chain.as_slice(), self.me),
            body,
            sent,
        )
    }

    /// One more message, to the predecessor, where there is one.
    ///
    /// # Errors
    /// `NoMemory`.
    pub(crate) fn tell_predecessor(&self, body: Body, sent: &mut Msgs) -> Result<(), NoMemory>
        ensures { OnOk result (sent.new ≡ sent.old ++ to_predecessor self.now body) }
    {
        self.tell(
            chain::predecessor(self.config.chain.as_slice(), self.me),
            body,
            sent,
        )
    }

    /// One more message, to the tail, where there is one.
    ///
    /// # Errors
    /// `NoMemory`.
    pub(crate) fn tell_tail(&self, body: Body, sent: &mut Msgs) -> Result<(), NoMemory>
        ensures { OnOk result (sent.new ≡ sent.old ++ to_tail self.now body) }
    {
        self.tell(chain::tail(self.config.chain.as_slice()), body, sent)
    }

    /// Applies an entry that comes next for its flow; nothing is said of its commit.
    ///
    /// # Errors
    /// `NoMemory`; nothing changes.
    pub(crate) fn enter(&mut self, entry: &Entry, now: u64) -> Result<(), NoMemory>
        requires next { entry_fits self.old.cell_count self.old.records entry.now ≡ true }
        requires count { self.old.applied < 2 ^ 63 }
        ensures ok { OnOk result (self.new ≡ with_entry self.old entry.now now) }
        ensures err { OnErr result (self.new ≡ self.old) }
    {
        self.leases.apply(entry, now)?;
        self.applied += 1;
        Ok(())
    }
}
