ghost use Rattle.std.specs.Prelude.{◌≡◌, ◌+◌, ◌<◌, ◌≤◌, ◌*◌, ◌/◌, ◌%◌, [], All, IfOk};
ghost use Rattle.mirror_buf.specs.Copies.{sent_by};

use super::*;
use arrayvec::ArrayVec;
use rp_app::Delta;
use std::alloc::Global;
use std::marker::Brand;
use std::sync::ledger::{Blank, Ledger};
use std::test::Fail;
use step_count::Steps;

// A copy as a plain list keeps it.
#[derive(Clone, Copy)]
struct Plain {
    slot: u32,
    number: u64,
    sent: u64,
}

// Copy i is of slot i mod 16, has number i div 16, and is sent at moment i.
fn plain_at(i: u64) -> Plain
    ensures { result ≡ record { slot = i % 16; number = i / 16; sent = i } }
{
    Plain {
        slot: (i % 16) as u32,
        number: i / 16,
        sent: i,
    }
}

fn copy_of(alloc: Global, plain: Plain) -> Kept
    ensures { result ≡ record { slot = plain.slot; number = plain.number; delta = []; first = plain.sent; sent = plain.sent } }
{
    Kept {
        slot: plain.slot,
        number: plain.number,
        delta: Delta::new(alloc),
        first: plain.sent,
        sent: plain.sent,
    }
}

fn keep(alloc: Global, buffer: &mut MirrorBuf, i: u64) -> Result<(), Kept>
    requires slots { buffer.old.slots ≡ 16 }
    requires made { All (λ c. (c.1.number * 16 + c.1.slot < i) × (c.1.sent < i)) buffer.old.copies }
    ensures slots { buffer.new.slots ≡ 16 }
    ensures made { All (λ c. (c.1.number * 16 + c.1.slot < i + 1) × (c.1.sent < i + 1)) buffer.new.copies }
{
    match buffer.put(copy_of(alloc, plain_at(i))) {
        Ok(_id) => Ok(()),
        Err((_full, back)) => Err(back),
    }
}

fn filled(alloc: Global) -> Result<MirrorBuf, Fail>
    ensures slots { IfOk result (λ made. made.slots ≡ 16) }
    ensures made { IfOk result (λ made. All (λ c. (c.1.number * 16 + c.1.slot < 1024) × (c.1.sent < 1024)) made.copies) }
{
    let mut buffer = MirrorBuf::with_room(alloc, 16)?;
    for i in 0..1024 {
        if keep(alloc, &mut buffer, i).is_err() {
            return Err("room for 1,024 copies".into());
        }
    }
    Ok(buffer)
}

// Whether the slots' copies go one by one in the order of this list, each with the moment of its sending.
fn goes_as(buffer: &mut MirrorBuf, plain: &[Plain]) -> bool
    requires slots { buffer.old.slots ≡ 16 }
    requires plain { All (λ p. p.slot < 16) plain.now }
{
    for p in plain {
        if buffer.acked(p.slot, p.number) != Some(p.sent) {
            return false;
        }
    }
    buffer.len() == 0
}

fn is_copy_of(kept: &Kept, plain: Plain) -> bool {
    kept.slot == plain.slot && kept.number == plain.number && kept.first == plain.sent
}

// Whether the copies that are named first are those of this list.
fn named_as<L: Ledger>(buffer: &MirrorBuf, plain: &[Plain], blank: Blank) -> bool
    requires sent { All (sent_by 2000) buffer.now.copies }
    requires name { blank.name ≡ L.name }
    requires parts { blank.parts ≡ L.parts }
    requires some { 0 < blank.parts }
{
    let mut steps = Steps::<L>::of(blank);
    let mut names = ArrayVec::new();
    buffer.due(2000, 900, &mut names, &mut steps);
    for i in 0..names.len() {
        if i >= plain.len() || !is_copy_of(buffer.get(names[i]), plain[i]) {
            return false;
        }
    }
    names.len() == 64
}

fn every_second(alloc: Global) -> Result<Vec<Plain>, Fail>
    ensures { IfOk result (λ plain. All (λ p. p.slot < 16) plain.items) }
{
    let mut plain = Vec::new(alloc);
    for i in 0..512 {
        plain.push(plain_at(2 * i + 1))?;
    }
    Ok(plain)
}

#[test]
fn every_second_slot_is_acknowledged(rt: HostRuntime) -> Result<(), Fail> {
    let mut buffer = filled(rt.alloc())?;
    let plain = every_second(rt.alloc())?;
    assert_eq!(rt; buffer.len(), 1024);
    for half in 0..8 {
        let slot = 2 * half;
        assert_eq!(rt; buffer.count(slot), 64);
        assert_eq!(rt; buffer.acked(slot, 31), Some(16 * 31 + slot as u64));
        assert_eq!(rt; buffer.acked(slot, 31), None);
        assert_eq!(rt; buffer.count(slot), 32);
        assert_eq!(rt; buffer.acked(slot, 1000), Some(16 * 63 + slot as u64));
    }
    assert_eq!(rt; buffer.len(), 512);
    assert!(rt; named_as::<Brand>(&buffer, &plain, Blank::new(1)));
    assert!(rt; goes_as(&mut buffer, &plain));
    Ok(())
}

#[test]
fn a_buffer_is_full_at_1024_copies(rt: HostRuntime) -> Result<(), Fail> {
    let mut buffer = filled(rt.alloc())?;
    let Err(back) = keep(rt.alloc(), &mut buffer, 1024) else {
        return Err("no room for one more".into());
    };
    assert_eq!(rt; back.number, 64);
    buffer.give_up(3);
    assert_eq!(rt; buffer.count(3), 0);
    assert_eq!(rt; buffer.len(), 960);
    assert!(rt; keep(rt.alloc(), &mut buffer, 1025).is_ok());
    Ok(())
}
