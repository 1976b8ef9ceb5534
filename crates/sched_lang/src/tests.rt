use super::*;
use rp_base::{Event, Node};
use std::alloc::Global;
use std::test::*;

const HEADER: &[u8] =
    b"rp-schedule 1\nswitches 1\nchain 1\nlease 1000 1100\nratio 50\nmode strict\n";

const ONE_PACKET: &[u8] =
    b"rp-schedule 1\nswitches 1\nchain 1\nlease 1000 1100\nratio 50\nmode strict\nfeed 7 6121\nnext\nnext\nnext\nnext\n";

// How many events a schedule has, or where it is refused. No memory is line 0 and `NotYet`, which no text gives.
fn answer(alloc: Global, text: &[u8]) -> Result<u64, (u64, SchedWhy)> {
    match read(alloc, text) {
        Ok(schedule) => Ok(schedule.events.len()),
        Err(SchedEnd::Refused { line, why }) => Err((line, why)),
        Err(SchedEnd::NoMemory) => Err((0, SchedWhy::NotYet)),
    }
}

#[test]
fn one_packet(rt: HostRuntime) -> Result<(), Fail> {
    let schedule = read(rt.alloc(), ONE_PACKET)
        .ok()
        .ok_or("the text is a schedule")?;
    assert_eq!(rt; schedule.switches, 1);
    assert_eq!(rt; schedule.chain, 1);
    assert_eq!(rt; schedule.t_switch, 1000);
    assert_eq!(rt; schedule.t_store, 1100);
    assert_eq!(rt; schedule.ratio, 50);
    assert_eq!(rt; schedule.snapshot, None);
    assert_eq!(rt; schedule.events.len(), 5);
    match schedule.events.at(0) {
        Some(Event::Feed { port, bytes }) => {
            assert_eq!(rt; *port, 7);
            assert_eq!(rt; bytes.as_slice(), b"a!".as_slice());
        }
        _ => assert!(rt; false),
    }
    for event in &schedule.events.as_slice()[1..] {
        assert!(rt; matches!(event, Event::Next));
    }
    Ok(())
}

#[test]
fn each_cut(rt: HostRuntime) {
    let form = SchedWhy::Form;
    // up to this length, from the one after the row before
    let rows = [
        (12, Err((1, form))),
        (23, Err((2, form))),
        (31, Err((3, form))),
        (44, Err((4, form))),
        (55, Err((5, form))),
        (68, Err((6, form))),
        (70, Ok(0)),
        (78, Err((7, form))),
        (79, Ok(1)),
        (80, Err((7, form))),
        (82, Ok(1)),
        (85, Err((8, form))),
        (87, Ok(2)),
        (90, Err((9, form))),
        (92, Ok(3)),
        (95, Err((10, form))),
        (97, Ok(4)),
        (100, Err((11, form))),
        (102, Ok(5)),
    ];
    let mut length = 0;
    for (last, want) in rows {
        for _ in 0..103 {
            if length <= last && length <= ONE_PACKET.len() {
                assert_eq!(rt;
                    answer(rt.alloc(), &ONE_PACKET[..length]),
                    want,
                    "after {length}"
                );
                length += 1;
            }
        }
    }
    assert_eq!(rt; length, 103);
}

#[test]
fn each_byte_alone(rt: HostRuntime) {
    for b in 0..=255u8 {
        let line = if b == b'\n' || b == b'#' { 2 } else { 1 };
        assert_eq!(rt;
            answer(rt.alloc(), &[b]),
            Err((line, SchedWhy::Form)),
            "byte {b}"
        );
    }
}

#[test]
fn headers(rt: HostRuntime) {
    let rows: [(&[u8], u64, SchedWhy); 12] = [
        (b"", 1, SchedWhy::Form),
        (b"# a\n\n", 3, SchedWhy::Form),
        (b"rp-schedule 2\n", 1, SchedWhy::Form),
        (b"rp-schedule 1\nswitches 01", 2, SchedWhy::Form),
        (b"rp-schedule 1\nswitches 9", 2, SchedWhy::Number),
        (b"rp-schedule 1\nswitches 2", 3, SchedWhy::Form),
        (b"rp-schedule 1\nswitches 1\nchain 6", 3, SchedWhy::Number),
        (
            b"rp-schedule 1\nswitches 1\nchain 1\nlease 0 x",
            4,
            SchedWhy::Form,
        ),
        (
            b"rp-schedule 1\nswitches 1\nchain 1\nlease 0 1000001",
            4,
            SchedWhy::Number,
        ),
        (
            b"rp-schedule 1\nswitches 1\nchain 1\nlease 200 200\nratio 5\nmode strict\n",
            5,
            SchedWhy::Terms,
        ),
        (
            b"rp-schedule 1\nswitches 1\nchain 1\nlease 200 201\nratio 5\nmode snapshot 0",
            6,
            SchedWhy::Number,
        ),
        (
            b"rp-schedule 1\nswitches 1\nchain 1\nlease 200 201\n#\nratio 5\nmode snapshot 1000001",
            7,
            SchedWhy::Number,
        ),
    ];
    for (text, line, why) in rows {
        assert_eq!(rt; answer(rt.alloc(), text), Err((line, why)), "line {line}");
    }
}

#[test]
fn events(rt: HostRuntime) -> Result<(), Fail> {
    let rows: [(&[u8], Result<u64, (u64, SchedWhy)>); 24] = [
        (b"", Ok(0)),
        (b"feed 7 -", Ok(1)),
        (b"# \xff\n\nfeed 65535 aBfF\n#", Ok(1)),
        (b"next\xff", Err((7, SchedWhy::Form))),
        (b"next\nnext ", Err((8, SchedWhy::Form))),
        (b"feed  7 61", Err((7, SchedWhy::Form))),
        (b"feed 07 61", Err((7, SchedWhy::Form))),
        (b"feed 65536 6", Err((7, SchedWhy::Form))),
        (b"feed 65536 61", Err((7, SchedWhy::Number))),
        (b"feed 99999999999999999999 61", Err((7, SchedWhy::Number))),
        (b"alarm s0", Ok(1)),
        (b"alarm s8", Err((7, SchedWhy::Form))),
        (b"fail r1", Err((7, SchedWhy::Node))),
        (b"detect r0", Ok(1)),
        (b"boot r0", Err((7, SchedWhy::Form))),
        (b"feedat s7 65536 ab", Err((7, SchedWhy::Number))),
        (b"feedat s7 1 ab", Err((7, SchedWhy::Node))),
        (b"time 1051", Err((7, SchedWhy::Form))),
        (b"time 1000000001 01", Err((7, SchedWhy::Form))),
        (b"time 1000000001 0", Err((7, SchedWhy::Number))),
        (b"time 1051 1000", Ok(1)),
        (b"deliver 65536", Err((7, SchedWhy::Number))),
        (b"drop 2", Ok(1)),
        (b"announce\npump", Err((8, SchedWhy::NotYet))),
    ];
    for (lines, want) in rows {
        let mut text = Vec::from_slice(rt.alloc(), HEADER)?;
        text.extend_from_slice(lines)?;
        assert_eq!(rt; answer(rt.alloc(), &text), want, "a row of the table");
    }
    Ok(())
}

// Which event of each kind: its number from 0, in the order in which the kinds are declared.
fn kind_number(event: &Event) -> u64 {
    match event {
        Event::Feed { .. } => 0,
        Event::FeedAt { .. } => 1,
        Event::Deliver(_) => 2,
        Event::Next => 3,
        Event::Drop(_) => 4,
        Event::Time(_) => 5,
        Event::Alarm(_) => 6,
        Event::Fail(_) => 7,
        Event::Boot(_) => 8,
        Event::Detect(_) => 9,
        Event::Announce => 10,
        Event::Pump => 11,
    }
}

#[test]
fn each_kind(rt: HostRuntime) -> Result<(), Fail> {
    let text = b"rp-schedule 1\nswitches 8\nchain 5\nlease 200 201\nratio 5\nmode snapshot 100\n\
feed 7 6121\nfeedat s7 65535 -\ndeliver 65535\nnext\ndrop 0\ntime 0 1 2 3 4 5 6 7 8 9 10 11 1000000000\n\
alarm r4\nfail s7\nboot s7\ndetect r4\nannounce\n";
    let schedule = read(rt.alloc(), text).ok().ok_or("the text is a schedule")?;
    assert_eq!(rt; schedule.switches, 8);
    assert_eq!(rt; schedule.chain, 5);
    assert_eq!(rt; schedule.snapshot, Some(100));
    assert_eq!(rt; schedule.events.len(), 11);
    let events = schedule.events.as_slice();
    for n in 0..events.len() {
        assert_eq!(rt; kind_number(&events[n]), n as u64);
    }
    match schedule.events.at(5) {
        Some(Event::Time(by)) => assert_eq!(rt; by.as_slice().len(), 13),
        _ => assert!(rt; false),
    }
    match schedule.events.at(6) {
        Some(Event::Alarm(node)) => assert_eq!(rt; *node, Node::Replica(4)),
        _ => assert!(rt; false),
    }
    Ok(())
}

#[test]
fn nodes_of_the_run(rt: HostRuntime) -> Result<(), Fail> {
    let header: &[u8] =
        b"rp-schedule 1\nswitches 2\nchain 3\nlease 1000 1100\nratio 50\nmode strict\n";
    let rows: [(&[u8], Result<u64, (u64, SchedWhy)>); 10] = [
        (b"feedat s1 7 6121", Ok(1)),
        (b"feedat s2 7 6121", Err((7, SchedWhy::Node))),
        (b"alarm s1\nalarm s2", Err((8, SchedWhy::Node))),
        (b"fail r2\nfail r3", Err((8, SchedWhy::Node))),
        (b"detect r5", Err((7, SchedWhy::Form))),
        (b"boot s1\nboot s2", Err((8, SchedWhy::Node))),
        (b"time 1 1 1 1 1", Ok(1)),
        (b"time 1 1 1 1", Err((7, SchedWhy::Form))),
        (b"time 1 1 1 1 1 1", Err((7, SchedWhy::Form))),
        (b"announce \n", Err((7, SchedWhy::Form))),
    ];
    for (lines, want) in rows {
        let mut text = Vec::from_slice(rt.alloc(), header)?;
        text.extend_from_slice(lines)?;
        assert_eq!(rt; answer(rt.alloc(), &text), want, "a row of the table");
    }
    Ok(())
}

#[test]
fn limits(rt: HostRuntime) -> Result<(), Fail> {
    let mut text = Vec::from_slice(rt.alloc(), HEADER)?;
    for _ in 0..20_000 {
        text.extend_from_slice(b"next\n")?;
    }
    text.extend_from_slice(b"# the last\n")?;
    assert_eq!(rt; answer(rt.alloc(), &text), Ok(20_000));
    text.extend_from_slice(b"no event")?;
    assert_eq!(rt; answer(rt.alloc(), &text), Err((20_008, SchedWhy::Many)));

    let mut text = Vec::from_slice(rt.alloc(), HEADER)?;
    text.extend_from_slice(b"feed 1 ")?;
    for _ in 0..1500 {
        text.extend_from_slice(b"61")?;
    }
    assert_eq!(rt; answer(rt.alloc(), &text), Ok(1));
    text.extend_from_slice(b"61")?;
    assert_eq!(rt; answer(rt.alloc(), &text), Err((7, SchedWhy::Number)));

    let mut text = vec![in rt.alloc(); b'#'; 4_194_304]?;
    assert_eq!(rt; answer(rt.alloc(), &text), Err((2, SchedWhy::Form)));
    text.push(b'#')?;
    assert_eq!(rt; answer(rt.alloc(), &text), Err((0, SchedWhy::TooLong)));
    Ok(())
}
