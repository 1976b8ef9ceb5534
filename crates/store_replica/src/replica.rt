//! A replica of the store, call by call.
ghost use Rattle.std.specs.Prelude.{ℕ, List, ◌≡◌, ◌<◌, ◌≤◌, ◌+◌, [], true, IfOk, IsErr, OnErr};
ghost use Rattle.proto_model.specs.Records.{Booked};
ghost use Rattle.proto_model.specs.Stands.{Stands};
ghost use Rattle.store_replica.specs.Stores.{booked, opened, stepped};

use crate::did::StoreDid;
use crate::state::ReplicaState;
use lease_table::LeaseTable;
use proto_model::{Config, Input, Terms};
use rp_base::NoMemory;
use std::alloc::Global;
use std::marker::Model;

/// A replica at any place of a chain. It keeps no book: it stands where its book leaves it.
#[derive(Drop)]
pub struct Replica {
    state: ReplicaState,
    turns: u64,
    failed: bool,
}

impl Model for Replica {
    ghost use Rattle.std.specs.Prelude.{◌≡◌, ◌≤◌, false};
    ghost use Rattle.store_replica.specs.Stores.{Running};

    ghost Value = { Running };

    ghost view = { λ r. record { replica = r.state; turns = r.turns; failed = r.failed } };

    ghost invariant = { λ r. r.failed ≡ false → r.state.applied ≤ r.turns };
}

impl Replica {
    /// The replica of number `me` before its first entry. Flows have `cells` cells, at most 256.
    ///
    /// # Errors
    /// `NoMemory`.
    pub fn open(
        alloc: Global,
        me: u8,
        cells: u16,
        terms: &Terms,
        config: &Config,
    ) -> Result<Replica, NoMemory>
        requires { cells ≤ 256 }
        ensures opened { IfOk result (λ made. made ≡ opened me cells terms.now config.now) }
        ensures stands { IfOk result (λ made. Stands made.replica []) }
    {
        Ok(Replica {
            state: ReplicaState::open(alloc, me, cells, terms, config)?,
            turns: 0,
            failed: false,
        })
    }

    /// How often `on` was called.
    pub fn turns(&self) -> u64
        ensures { result ≡ self.now.turns }
    {
        self.turns
    }

    /// The records of the flows.
    pub fn leases(&self) -> &LeaseTable
        ensures cells { result.now.cell_count ≡ self.now.replica.cell_count }
        ensures records { result.now.records ≡ self.now.replica.records }
    {
        &self.state.leases
    }

    /// Takes a message or an Alarm at its own clock `now`.
    ///
    /// Whatever book the replica stood for, it stands for that book with the applied entry at its end.
    ///
    /// # Errors
    /// `NoMemory`; then each later call answers it too, and nothing is said of what the replica keeps.
    pub fn on(&mut self, now: u64, input: &Input) -> Result<StoreDid, NoMemory>
        requires { self.old.turns < 4000000000 }
        ensures step { IfOk result (λ did. (self.new, did) ≡ stepped self.old now input.now) }
        ensures stands { IfOk result (λ did. (book : List Booked) (event : ℕ) → Stands self.old.replica book → Stands self.new.replica (booked book now event did)) }
        ensures turns { self.new.turns ≡ self.old.turns + 1 }
        ensures failed { OnErr result (self.new.failed ≡ true) }
        ensures stays { self.old.failed ≡ true → IsErr result }
    {
        self.turns += 1;
        if self.failed {
            return Err(NoMemory);
        }
        match self.state.on(now, input) {
            Ok(did) => Ok(did),
            Err(e) => {
                self.failed = true;
                Err(e)
            }
        }
    }
}
