//! What follows from a row.
ghost use Rattle.std.specs.Prelude.{◌≡◌, ◌<◌, ◌≤◌, ◌+◌, ◌^◌, [], ◌∷◌, ◌++◌, take, drop, IfOk, OnOk};
ghost use Rattle.proto_data.specs.declared.message.Body.{Body as BodyValue};
ghost use Rattle.proto_data.specs.declared.limits.TheConstants.{MESSAGES};

use crate::copies::copy_entry;
use crate::did::{Msgs, StoreDid};
use crate::part::Part;
use crate::row::Row;
use crate::state::ReplicaState;
use proto_data::MESSAGES;
use proto_model::{Body, Carried, Config, Echoed, Entry, Input};
use rp_base::{NoMemory, Node};
use sqlite_items::Items;

impl ReplicaState {
    ghost use Rattle.proto_model.specs.ReplicaState.{store_sent, to_node, to_tail};
    ghost use Rattle.proto_model.specs.ReplicaRows.{after_config, forwards, store_perform, store_step};
    ghost use Rattle.store_replica.specs.Rows.{ComesNext, IsNextPart, committed_to, part_row, row_of};

    /// Takes an input at the clock `now`.
    ///
    /// # Errors
    /// `NoMemory`; then nothing is said of the replica.
    pub(crate) fn on(&mut self, now: u64, input: &Input) -> Result<StoreDid, NoMemory>
        requires { self.old.applied < 2 ^ 63 }
        ensures { IfOk result (λ did. (self.new, did) ≡ store_step self.old now input.now) }
    {
        let row = self.row(now, input)?;
        self.perform(now, row)
    }

    // Does what follows from a row.
    fn perform(&mut self, now: u64, row: Row) -> Result<StoreDid, NoMemory>
        requires next { ComesNext self.old row }
        requires count { self.old.applied < 2 ^ 63 }
        ensures { IfOk result (λ did. (self.new, did) ≡ store_perform self.old now (row_of self.old row)) }
    {
        match row {
            Row::Loses(cause) => Ok(StoreDid::lost(self.alloc, cause)),
            Row::Answers { to, body } => self.answer(to, body),
            Row::Echoes { of, load } => self.ask_tail(of, load),
            Row::Appends { entry, load } => self.append(now, entry, load),
            Row::Gathers(part) => self.gather(now, part),
            Row::Commits(index) => self.commit(index),
            Row::Adopts(config) => self.adopt(config),
            Row::Resends => self.resend(),
        }
    }

    // One message goes to a node.
    fn answer(&self, to: Node, body: Body) -> Result<StoreDid, NoMemory>
        ensures { IfOk result (λ did. did ≡ store_sent (to_node self.now to body ∷ [])) }
    {
        let mut sent = Items::new(self.alloc);
        sent.push(self.message(to, body))?;
        Ok(StoreDid::sent(sent))
    }

    // The tail is asked.
    fn ask_tail(&self, of: Echoed, load: Option<Carried>) -> Result<StoreDid, NoMemory>
        ensures { IfOk result (λ did. did ≡ store_sent (to_tail self.now (BodyValue.Echo of load))) }
    {
        let mut sent = Items::new(self.alloc);
        self.tell_tail(Body::Echo { of, load }, &mut sent)?;
        Ok(StoreDid::sent(sent))
    }

    // A chunk of the next round is kept, and the round appended where it is whole.
    fn gather(&mut self, now: u64, part: Part) -> Result<StoreDid, NoMemory>
        requires next { IsNextPart self.old part }
        requires count { self.old.applied < 2 ^ 63 }
        ensures { IfOk result (λ did. (self.new, did) ≡ store_perform self.old now (part_row self.old part)) }
    {
        let (key, epoch, round) = (part.key, part.epoch, part.round);
        match self.gathered.take(part)? {
            None => Ok(StoreDid::sent(Items::new(self.alloc))),
            Some(cells) => {
                let entry = Entry::Snap {
                    key,
                    epoch,
                    round,
                    cells,
                };
                self.append(now, entry, None)
            }
        }
    }

    // More is known to be committed: what is pending up to it goes, and the predecessor is told.
    fn commit(&mut self, index: u64) -> Result<StoreDid, NoMemory>
        requires above { self.old.known < index }
        requires within { index ≤ self.old.applied }
        ensures { IfOk result (λ did. (self.new, did) ≡ committed_to self.old index) }
    {
        let done = (index - self.known) as usize;
        self.pending
            .truncate_front(self.pending.len().saturating_sub(done));
        self.known = index;
        let mut sent = Items::new(self.alloc);
        self.tell_predecessor(Body::Have { index }, &mut sent)?;
        Ok(StoreDid::sent(sent))
    }

    // A newer configuration; its tail counts all entries as committed.
    fn adopt(&mut self, config: Config) -> Result<StoreDid, NoMemory>
        ensures { IfOk result (λ did. (self.new, did) ≡ after_config (record self.old { config = config })) }
    {
        self.config = config;
        let mut sent = Items::new(self.alloc);
        if self.is_tail() {
            self.known = self.applied;
            self.pending.clear();
            if self.applied > 0 {
                let body = Body::Have {
                    index: self.applied,
                };
                self.tell_predecessor(body, &mut sent)?;
            }
        }
        Ok(StoreDid::sent(sent))
    }

    // The first pending entries go to the successor again, without what rode on them.
    fn resend(&self) -> Result<StoreDid, NoMemory>
        requires count { self.now.applied < 2 ^ 63 }
        ensures { IfOk result (λ did. did ≡ store_sent (forwards self.now (self.now.known + 1) (take MESSAGES self.now.pending))) }
    {
        let mut sent = Items::new(self.alloc);
        for i in 0..MESSAGES.min(self.pending.len()) {
            self.forward(i, &mut sent)?;
        }
        Ok(StoreDid::sent(sent))
    }

    // One more message: the pending entry at this place goes to the successor again.
    fn forward(&self, i: usize, sent: &mut Msgs) -> Result<(), NoMemory>
        requires place { i < 2 ^ 62 }
        requires count { self.now.applied < 2 ^ 63 }
        ensures { OnOk result (sent.new ≡ sent.old ++ forwards self.now (self.now.known + 1 + i) (take 1 (drop i self.now.pending))) }
    {
        let Some(entry) = self.pending.get(i) else {
            return Ok(());
        };
        let body = Body::Forward {
            config: self.config.number,
            index: self.known + 1 + i as u64,
            entry: copy_entry(entry)?,
            load: None,
        };
        self.tell_successor(body, sent)
    }
}
