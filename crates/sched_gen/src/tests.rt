use super::*;
use rp_base::{Event, Node};
use std::test::*;

fn packets(events: &[Event]) -> usize {
    events
        .iter()
        .filter(|e| matches!(**e, Event::Feed { .. }))
        .count()
}

fn frames(events: &[Event]) -> usize {
    events.iter().filter(|e| matches!(**e, Event::Next)).count()
}

fn alarms(events: &[Event]) -> usize {
    events
        .iter()
        .filter(|e| matches!(**e, Event::Alarm(_)))
        .count()
}

#[test]
fn the_first_seven(rt: HostRuntime) -> Result<(), Fail> {
    let schedule = generate(rt.alloc(), 1)?;
    assert_eq!(rt; schedule.switches, 3);
    assert_eq!(rt; schedule.chain, 3);
    assert_eq!(rt; schedule.t_switch, 1000);
    assert_eq!(rt; schedule.t_store, 1100);
    assert_eq!(rt; schedule.ratio, 50);
    assert_eq!(rt; schedule.snapshot, None);
    let fed: [&[u8]; 7] = [b"", b"", b"d!", b"c!", b"g!", b"", b""];
    for i in 0..7 {
        match schedule.events.at(i) {
            Some(Event::Feed { port, bytes }) => {
                assert_eq!(rt; *port, 1);
                assert_eq!(rt; bytes.as_slice(), fed[i as usize]);
            }
            Some(Event::Next) => assert!(rt; i == 0 || i == 1 || i == 5),
            Some(Event::Drop(frame)) => {
                assert_eq!(rt; i, 6);
                assert_eq!(rt; *frame, 3868);
            }
            _ => assert!(rt; false),
        }
    }
    Ok(())
}

#[test]
fn all_kinds(rt: HostRuntime) -> Result<(), Fail> {
    let schedule = generate(rt.alloc(), 1)?;
    let events = schedule.events.as_slice();
    assert_eq!(rt; events.len(), 5000);
    assert_eq!(rt; packets(events), 1494);
    assert_eq!(rt; frames(events), 2517);
    assert_eq!(rt; alarms(events), 187);
    assert!(rt; matches!(schedule.events.at(12), Some(Event::Alarm(Node::Replica(0)))));
    assert!(rt; matches!(schedule.events.at(24), Some(Event::Deliver(3413))));
    assert!(rt; matches!(schedule.events.at(90), Some(Event::Boot(0))));
    assert!(rt; matches!(schedule.events.at(91), Some(Event::Fail(Node::Replica(1)))));
    assert!(rt; matches!(schedule.events.at(250), Some(Event::Announce)));
    assert!(rt;
        matches!(
            schedule.events.at(263),
            Some(Event::Detect(Node::Switch(2)))
        )
    );
    let schedule = generate(rt.alloc(), 2_147_483_647)?;
    let events = schedule.events.as_slice();
    assert_eq!(rt; packets(events), 1490);
    assert_eq!(rt; frames(events), 2513);
    assert_eq!(rt; alarms(events), 220);
    Ok(())
}
