use super::*;
use report_read::ReportWhy;
use rp_app::CountApp;
use rp_base::{Bytes, Event, NoMemory};
use std::alloc::Global;
use std::test::*;

// Twelve events: the same packet is fed at the first one and at the eighth.
fn twelve(alloc: Global) -> Result<Vec<Event>, NoMemory> {
    let mut events = Vec::new(alloc);
    for number in 1..=12u64 {
        let mut bytes = Bytes::new(alloc);
        bytes.append(b"b!")?;
        let event = if number == 1 {
            Event::Feed { port: 7, bytes }
        } else if number == 8 {
            Event::FeedAt {
                at: 1,
                port: 7,
                bytes,
            }
        } else {
            Event::Next
        };
        events.push(event)?;
    }
    Ok(events)
}

// The judgement of a report of these events.
fn answer(alloc: Global, report: &[u8]) -> Result<(), JudgeEnd> {
    match twelve(alloc) {
        Ok(events) if events.len() <= 20_000 => {
            judge(alloc, &CountApp { alloc }, &events, report)
        }
        Ok(_) => Err(JudgeEnd::NoMemory),
        Err(NoMemory) => Err(JudgeEnd::NoMemory),
    }
}

#[test]
fn a_takeover(rt: HostRuntime) {
    assert_eq!(rt;
        answer(
            rt.alloc(),
            b"release 12 8 7 00000000000000026221\nserial 62 1 8\ncells 62 2\nend\n"
        ),
        Ok(())
    );
    // the second packet is refused, so its mark wasn't fed
    assert_eq!(rt;
        answer(
            rt.alloc(),
            b"refused 8 Dead\nrelease 12 8 7 00000000000000026221\nserial 62 1 8\ncells 62 2\nend\n"
        ),
        Err(JudgeEnd::NotLegal { rule: 1 })
    );
    // an event that feeds nothing may be refused
    assert_eq!(rt;
        answer(
            rt.alloc(),
            b"refused 2 NoneLeft\nrelease 12 8 7 00000000000000026221\nserial 62 1 8\ncells 62 2\nend\n"
        ),
        Ok(())
    );
}

#[test]
fn what_fails(rt: HostRuntime) {
    assert_eq!(rt;
        answer(
            rt.alloc(),
            b"release 12 8 7 00000000000000036221\nserial 62 1 8\ncells 62 2\nend\n"
        ),
        Err(JudgeEnd::NotLegal { rule: 2 })
    );
    assert_eq!(rt;
        answer(
            rt.alloc(),
            b"release 12 8 7 00000000000000026221\nserial 62 1 8\ncells 62 3\nend\n"
        ),
        Err(JudgeEnd::NotLegal { rule: 4 })
    );
    assert_eq!(rt;
        answer(
            rt.alloc(),
            b"release 12 9 7 00000000000000026221\nserial 62 1 8\ncells 62 2\nend\n"
        ),
        Err(JudgeEnd::NotLegal { rule: 5 })
    );
    assert_eq!(rt;
        answer(rt.alloc(), b"release 13 8 7 00000000000000026221\nend\n"),
        Err(JudgeEnd::Refused {
            line: 1,
            why: ReportWhy::Event
        })
    );
}
