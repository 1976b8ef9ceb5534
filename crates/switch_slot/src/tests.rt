ghost use Rattle.std.specs.Prelude.{◌≡◌, true, None, IfOk, replicate};
ghost use Rattle.proto_safety.specs.Sizes.{is_leased};

use super::*;
use lease_state::Idle;
use proto_data::Carried;
use rp_app::Delta;
use rp_base::{Bytes, Cells, Output};
use std::alloc::Global;
use std::test::Fail;

#[test]
fn a_ring_remembers_64_marks(rt: HostRuntime) -> Result<(), Fail> {
    let mut ring = Ring::new(rt.alloc());
    for mark in 0..64 {
        ring.remember(mark)?;
    }
    assert!(rt; ring.remembers(0));
    ring.forget(5);
    assert!(rt; !ring.remembers(5));
    ring.remember(64)?;
    assert!(rt; !ring.remembers(0));
    assert!(rt; ring.remembers(1));
    assert!(rt; ring.remembers(64));
    Ok(())
}

#[test]
fn chunks_go_in_turn(rt: HostRuntime) -> Result<(), Fail> {
    let mut cells = SlotCells::zeros(rt.alloc(), 34)?;
    assert!(rt; cells.next_part().is_none());
    cells.begin(7, 100);
    for chunk in [0, 1, 0] {
        let Some(part) = cells.next_part() else {
            return Err("a round runs".into());
        };
        assert_eq!(rt; part.round, 7);
        assert_eq!(rt; part.chunk, chunk);
        assert_eq!(rt; part.chunks, 2);
    }
    assert_eq!(rt; cells.round(), Some((7, 100)));
    cells.done();
    assert_eq!(rt; cells.round(), None);
    Ok(())
}

#[test]
fn a_lease_is_asked_for_and_given_up(rt: HostRuntime) -> Result<(), Fail> {
    let lease = SlotLease::Idle(Idle::new()).ask(10, 3);
    assert_eq!(rt; lease.epoch(), None);
    let lease = lease.lapse(2000).extend(1000, 2000, 1990);
    assert!(rt; matches!(lease, SlotLease::Asking(_)));
    assert!(rt; matches!(lease.give_up(), SlotLease::Idle(_)));
    Ok(())
}

fn output_of(alloc: Global, mark: u64) -> Output
    ensures { result.mark ≡ mark }
{
    Output {
        mark,
        port: 1,
        bytes: Bytes::new(alloc),
    }
}

// A slot that was granted two cells, both 0.
fn granted(alloc: Global) -> Result<Slot, Fail>
    ensures leased { IfOk result (λ slot. is_leased slot.lease ≡ true) }
    ensures cells { IfOk result (λ slot. slot.cells ≡ replicate 2 0) }
    ensures round { IfOk result (λ slot. slot.round ≡ None) }
    ensures last { IfOk result (λ slot. slot.last ≡ 0) }
{
    let mut slot = Slot::fresh(alloc);
    slot.ask(1, 100, 7)?;
    slot.ask_again(8)?;
    slot.grant(120, 50, 3, &Cells::zeros(alloc, 2)?)?;
    Ok(slot)
}

#[test]
fn an_output_waits_for_its_ack(rt: HostRuntime) -> Result<(), Fail> {
    let mut slot = granted(rt.alloc())?;
    assert!(rt; slot.asks_for(8));
    slot.forget_asked(8);
    assert!(rt; slot.asks_for(7));
    assert!(rt; !slot.asks_for(8));
    let mut delta = Delta::new(rt.alloc());
    delta.set(1, 9)?;
    slot.mirror(&delta, &Some(output_of(rt.alloc(), 7)))?;
    assert_eq!(rt; slot.last(), 1);
    let load = Some(Carried::of_output(output_of(rt.alloc(), 7)));
    let Some(out) = slot.release(&load)? else {
        return Err("the output waits".into());
    };
    assert_eq!(rt; out.mark, 7);
    assert!(rt; slot.release(&load)?.is_none());
    Ok(())
}

#[test]
fn a_round_has_the_ages_before_it(rt: HostRuntime) -> Result<(), Fail> {
    let mut slot = granted(rt.alloc())?;
    let mut delta = Delta::new(rt.alloc());
    slot.age(130, &delta);
    assert!(rt; !slot.is_late());
    delta.set(0, 4)?;
    slot.age(130, &delta);
    assert!(rt; slot.is_late());
    assert!(rt; slot.may(139, 10));
    assert!(rt; !slot.may(140, 10));
    slot.begin_round(140);
    assert_eq!(rt; slot.round(), Some((1, 140)));
    slot.round_done();
    assert!(rt; !slot.is_late());
    assert_eq!(rt; slot.round(), None);
    Ok(())
}
