//! A node takes an input: its step, and what the world notes of it.
ghost use Rattle.std.specs.Prelude.{◌≡◌, slice_get, IfOk};
ghost use Rattle.std.specs.List.{AllByRecursion};
ghost use Rattle.sent_frames.specs.Frames.{IsSendable};
ghost use Rattle.world_state.specs.Turns.{CanTakeSwitch, CanTakeReplica, replica_turned, replicas_turned, switch_turned, switches_turned, told_switch, told_replica};

use crate::nodes::{ReplicaNode, Replicas, SwitchNode, Switches};
use crate::sending::send;
use proto_model::Input;
use rp_app::App;
use rp_base::{Lines, Lost, NoMemory};
use run_history::{History, store_lines, switch_lines};
use sent_frames::Frames;
use std::alloc::Global;
use store_replica::{Msgs, StoreDid};
use switch_core::SwitchDid;

/// What a replica's step leaves to be written down, once its entry is in the book.
#[derive(Debug, Drop)]
pub(crate) struct Said {
    pub(crate) sent: Msgs,
    pub(crate) lost: Option<Lost>,
}

impl SwitchNode {
    // The switch takes an input at its own clock.
    fn take<A: App>(&mut self, app: &A, input: &Input) -> Result<SwitchDid, NoMemory>
        requires able { CanTakeSwitch (A.meaning app.now) self.old }
        ensures { IfOk result (λ did. (self.new, did) ≡ switch_turned (A.meaning app.now) self.old input.now) }
    {
        self.state.on(app, self.clock, input)
    }
}

impl ReplicaNode {
    // The replica takes an input at its own clock, and books what it applied in the event of this number.
    fn take(&mut self, event: u64, input: &Input) -> Result<Said, NoMemory>
        requires able { CanTakeReplica self.old }
        ensures { IfOk result (λ said. (self.new, said) ≡ replica_turned self.old event input.now) }
    {
        let StoreDid {
            sent,
            applied,
            lost,
        } = self.state.on(self.clock, input)?;
        self.book.push(event, self.clock, applied)?;
        Ok(Said { sent, lost })
    }
}

impl Switches {
    /// The switch of this number takes an input at its own clock. Gives what it did, or `None` where it isn't there.
    ///
    /// # Errors
    /// `NoMemory`.
    pub(crate) fn take<A: App>(
        &mut self,
        app: &A,
        n: u8,
        input: &Input,
    ) -> Result<Option<SwitchDid>, NoMemory>
        requires able { AllByRecursion (CanTakeSwitch (A.meaning app.now)) self.old }
        ensures { IfOk result (λ did. (self.new, did) ≡ switches_turned (A.meaning app.now) self.old n input.now (slice_get self.old n)) }
    {
        match self.items.get_mut(n as usize) {
            None => Ok(None),
            Some(node) => Ok(Some(node.take(app, input)?)),
        }
    }
}

impl Replicas {
    /// The replica of this number takes an input at its own clock, in the event of this number. Gives what is to be told of it, or
    /// `None` where it isn't there.
    ///
    /// # Errors
    /// `NoMemory`.
    pub(crate) fn take(
        &mut self,
        n: u8,
        event: u64,
        input: &Input,
    ) -> Result<Option<Said>, NoMemory>
        requires able { AllByRecursion CanTakeReplica self.old }
        ensures { IfOk result (λ said. (self.new, said) ≡ replicas_turned self.old n event input.now (slice_get self.old n)) }
    {
        match self.items.get_mut(n as usize) {
            None => Ok(None),
            Some(node) => Ok(Some(node.take(event, input)?)),
        }
    }
}

/// Writes down what a switch did, and gives its lines.
///
/// # Errors
/// `NoMemory`.
pub(crate) fn tell_switch(
    alloc: Global,
    event: u64,
    frames: &mut Frames,
    history: &mut History,
    did: SwitchDid,
) -> Result<Lines, NoMemory>
    requires sent { AllByRecursion IsSendable did.sent }
    ensures { IfOk result (λ lines. (frames.new, history.new, lines) ≡ told_switch event frames.old history.old did) }
{
    let SwitchDid {
        sent,
        released,
        item,
        dropped,
        begun,
        lost,
    } = did;
    let mut lines = switch_lines(alloc, event, &released, dropped, lost)?;
    history.push_rounds(event, &begun)?;
    history.push_item(event, item, &released, sent.as_slice())?;
    history.push_released(event, released)?;
    send(&mut lines, event, frames, sent.as_slice())?;
    Ok(lines)
}

/// Writes down what a replica did, and gives its lines.
///
/// # Errors
/// `NoMemory`.
pub(crate) fn tell_replica(
    alloc: Global,
    event: u64,
    frames: &mut Frames,
    said: Said,
) -> Result<Lines, NoMemory>
    requires sent { AllByRecursion IsSendable said.sent }
    ensures { IfOk result (λ lines. (frames.new, lines) ≡ told_replica event frames.old said) }
{
    let mut lines = store_lines(alloc, event, said.lost)?;
    send(&mut lines, event, frames, said.sent.as_slice())?;
    Ok(lines)
}
