//! What is due goes again: the front of the buffer, stamped with the moment, comes last.
ghost use Rattle.std.specs.Prelude.{◌≡◌, ◌<◌, ◌++◌, All, IfOk, OnOk, map, take, drop, length};
ghost use Rattle.key_table.specs.Table.{keys};
ghost use Rattle.mirror_buf.specs.Copies.{due_ids, sent_at, sent_by};
ghost use Rattle.switch_flows.specs.Kept.{AreFlows, copies_of, copy_of};
ghost use Rattle.switch_flows.specs.Fronts.{due_count};

use crate::put_copy::PutCopy;
use arrayvec::ArrayVec;
use indexmap::IndexMap;
use mirror_buf::{Kept, MirrorBuf, MirrorId};
use rp_base::{Key, NoMemory};
use std::alloc::Global;
use std::marker::Brand;
use std::sync::ledger::{Blank, Ledger};
use step_count::Steps;
use switch_slot::Slot;

// The first copies that are due at this age, at most 64: stamped with this moment they come last. Gives them as they were.
pub(crate) fn resend_due(
    alloc: Global,
    rows: &IndexMap<Key, Slot>,
    copies: &mut MirrorBuf,
    now: u64,
    age: u64,
) -> Result<Vec<PutCopy>, NoMemory>
    requires { AreFlows (keys rows.now.entries) copies.old now }
    ensures flows { AreFlows (keys rows.now.entries) copies.new now }
    ensures due { IfOk result (λ due. due.items ≡ copies_of (keys rows.now.entries) (take (due_count now age copies.old.copies) copies.old.copies)) }
    ensures copies { OnOk result (copies.new.copies ≡ drop (due_count now age copies.old.copies) copies.old.copies ++ map (sent_at now) (take (due_count now age copies.old.copies) copies.old.copies)) }
{
    let names = due_names::<Brand>(copies, now, age, Blank::new(1));
    let mut due = Vec::new(alloc);
    for i in 0..names.len() {
        let id = names[i];
        due.push(put_copy(rows, copies.get(id))?)?;
        copies.resent(id, now);
    }
    Ok(due)
}

// The names of the first copies that are due, at most 64.
fn due_names<L: Ledger>(
    copies: &MirrorBuf,
    now: u64,
    age: u64,
    blank: Blank,
) -> ArrayVec<MirrorId, 64>
    requires sent { All (sent_by now) copies.now.copies }
    requires name { blank.name ≡ L.name }
    requires parts { blank.parts ≡ L.parts }
    requires some { 0 < blank.parts }
    ensures { result.items ≡ due_ids now age 64 copies.now.copies }
{
    let mut steps = Steps::<L>::of(blank);
    let mut names = ArrayVec::new();
    copies.due(now, age, &mut names, &mut steps);
    names
}

// A kept copy with its flow's key.
fn put_copy(rows: &IndexMap<Key, Slot>, kept: &Kept) -> Result<PutCopy, NoMemory>
    requires { kept.now.slot < length rows.now.entries }
    ensures { IfOk result (λ made. made ≡ copy_of (keys rows.now.entries) kept.now) }
{
    Ok(PutCopy {
        key: rows.keys()[kept.slot as usize],
        number: kept.number,
        delta: kept.delta.copy()?,
        first: kept.first,
        sent: kept.sent,
    })
}
