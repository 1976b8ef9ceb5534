use super::*;
use rp_base::{Bytes, Output};
use std::test::Fail;

#[test]
fn a_lease_from_its_ask_to_its_end(rt: HostRuntime) -> Result<(), Fail> {
    // asked for at 100 with a term of 50
    let asking = Idle::new().ask(100, 3);
    assert_eq!(rt; asking.nonce(), 3);
    assert!(rt; asking.young(149, 50));
    assert!(rt; !asking.young(150, 50));
    let Ok(mut held) = asking.grant(149, 50, 7) else {
        return Err("in time".into());
    };
    assert_eq!(rt; held.expiry(), 150);
    assert!(rt; held.live(150).is_none());
    held.extend(90, 50);
    assert_eq!(rt; held.expiry(), 150);
    held.extend(120, 50);
    assert_eq!(rt; held.expiry(), 170);
    let Err(held) = held.lapse(169) else {
        return Err("it lasts".into());
    };
    let Ok(lapsed) = held.lapse(170) else {
        return Err("it is over".into());
    };
    let Err(lapsed) = lapsed.renew(190, 140, 50) else {
        return Err("too late".into());
    };
    let Ok(held) = lapsed.renew(189, 140, 50) else {
        return Err("in time again".into());
    };
    assert_eq!(rt; held.epoch(), 7);
    let _ = held.give_up();
    Ok(())
}

#[test]
fn an_output_is_released_once(rt: HostRuntime) -> Result<(), Fail> {
    let out = Output {
        mark: 9,
        port: 1,
        bytes: Bytes::new(rt.alloc()),
    };
    let out = HeldOutput::of(9).release(out);
    assert_eq!(rt; out.port, 1);
    HeldOutput::of(9).give_up();
    Ok(())
}
