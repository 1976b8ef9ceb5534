use super::*;
use rp_base::{Bytes, NoMemory};
use std::alloc::Global;
use std::test::*;

const LEGAL: &[u8] = b"release 12 8 7 00000000000000026221\nserial 62 1 8\ncells 62 2\nend\n";

// How many releases, flows and refused events a report has, or where it is refused. No memory is line 0 and `End`, which no
// text gives.
fn answer(alloc: Global, text: &[u8], events: u64) -> Result<(u64, u64, u64), (u64, ReportWhy)> {
    match read(alloc, text, events) {
        Ok(report) => Ok((
            report.releases.len() as u64,
            report.flows.len() as u64,
            report.refused.len(),
        )),
        Err(ReportEnd::Refused { line, why }) => Err((line, why)),
        Err(ReportEnd::NoMemory) => Err((0, ReportWhy::End)),
    }
}

#[test]
fn a_takeover(rt: HostRuntime) -> Result<(), Fail> {
    let report = read(rt.alloc(), LEGAL, 12)
        .ok()
        .ok_or("the text is a report")?;
    let released = report.releases.get(0).ok_or("a release")?;
    assert_eq!(rt; released.event, 12);
    assert_eq!(rt; released.output.mark, 8);
    assert_eq!(rt; released.output.port, 7);
    assert_eq!(rt;
        released.output.bytes.as_slice(),
        b"\0\0\0\0\0\0\0\x02b!".as_slice()
    );
    let flow = report.flows.get(0).ok_or("a flow")?;
    assert_eq!(rt; flow.key.as_slice(), b"b".as_slice());
    assert_eq!(rt; flow.marks.as_slice(), [1u64, 8].as_slice());
    assert_eq!(rt; flow.cells.as_slice(), [2u64].as_slice());
    assert_eq!(rt; report.refused.len(), 0);
    assert_eq!(rt; answer(rt.alloc(), LEGAL, 11), Err((1, ReportWhy::Event)));
    Ok(())
}

#[test]
fn each_cut(rt: HostRuntime) {
    // the lines of the text end at the lengths 36, 50, 61 and 65
    for length in 0..=LEGAL.len() {
        let line = if length < 36 {
            1
        } else if length < 50 {
            2
        } else if length < 61 {
            3
        } else {
            4
        };
        let want = match length {
            65 => Ok((1, 1, 0)),
            0 | 36 | 50 | 61 => Err((line, ReportWhy::End)),
            _ => Err((line, ReportWhy::Form)),
        };
        assert_eq!(rt;
            answer(rt.alloc(), &LEGAL[..length], 12),
            want,
            "after {length}"
        );
    }
}

// The answer of these lines with `end` behind them, in a run of nine events.
fn ended_answer(
    alloc: Global,
    lines: &[u8],
) -> Result<Result<(u64, u64, u64), (u64, ReportWhy)>, NoMemory> {
    let mut text = Bytes::new(alloc);
    text.append(lines)?;
    text.append(b"\nend\n")?;
    Ok(answer(alloc, text.as_slice(), 9))
}

#[test]
fn release_lines(rt: HostRuntime) -> Result<(), Fail> {
    let form = Err((1, ReportWhy::Form));
    let rows: [(&[u8], Result<(u64, u64, u64), (u64, ReportWhy)>); 11] = [
        (b"release 0 18446744073709551615 65535 -", Ok((1, 0, 0))),
        (b"release 0 18446744073709551616 65535 -", form),
        (b"release 0 1 65536 -", form),
        (b"release 0 1 7 ", form),
        (b"release 0 1 7", form),
        (b"release 0 1 7 6", form),
        (b"release 0 1 7 6A", form),
        (b"release 0 1 7 6a 6a", form),
        (b"release 00 1 7 6a", form),
        (b"release  0 1 7 6a", form),
        (b" release 0 1 7 6a", form),
    ];
    for (lines, want) in rows {
        assert_eq!(rt;
            ended_answer(rt.alloc(), lines)?,
            want,
            "a row of the table"
        );
    }
    Ok(())
}

#[test]
fn causes(rt: HostRuntime) -> Result<(), Fail> {
    let form = Err((1, ReportWhy::Form));
    let rows: [(&[u8], Result<(u64, u64, u64), (u64, ReportWhy)>); 13] = [
        (b"drop 9 1 full", Ok((0, 0, 0))),
        (b"drop 9 1 mirror", Ok((0, 0, 0))),
        (b"drop 9 1 late", Ok((0, 0, 0))),
        (b"drop 9 1 busy", Ok((0, 0, 0))),
        (b"drop 9 1 bound", form),
        (b"drop 10 1 bound", form),
        (b"drop 10 1 busy", Err((1, ReportWhy::Event))),
        (
            b"lost 1 stale\nlost 2 role\nlost 2 gap\nlost 3 pending\nlost 3 config\nlost 3 order",
            Ok((0, 0, 0)),
        ),
        (b"lost 3 order\nlost 2 order", Err((2, ReportWhy::Event))),
        (b"lost 1 late", form),
        (
            b"refused 1 FramesFull\nrefused 1 Nowhere\nrefused 3 Dead\nrefused 4 NoFrame\nrefused 5 NoneLeft\nrefused 5 Rates",
            Ok((0, 0, 6)),
        ),
        (
            b"refused 5 LastReplica\nrefused 6 Alive\nrefused 7 Known\nrefused 8 Linked\nrefused 9 NoLink",
            Ok((0, 0, 5)),
        ),
        (b"refused 1 dead", form),
    ];
    for (lines, want) in rows {
        assert_eq!(rt;
            ended_answer(rt.alloc(), lines)?,
            want,
            "a row of the table"
        );
    }
    Ok(())
}

#[test]
fn other_lines(rt: HostRuntime) -> Result<(), Fail> {
    let form = Err((1, ReportWhy::Form));
    let rows: [(&[u8], Result<(u64, u64, u64), (u64, ReportWhy)>); 14] = [
        (b"stranger 1 s0", Ok((0, 0, 0))),
        (b"stranger 1 s7", Ok((0, 0, 0))),
        (b"stranger 1 s8", form),
        (b"stranger 1 r4", Ok((0, 0, 0))),
        (b"stranger 1 r5", form),
        (b"stranger 1 m", form),
        (b"send 1 0 s0 r0 Ask 5250", form),
        (b"epoch 61 1 0", form),
        (b"# a comment", form),
        (b"", form),
        (b"end\nlost 1 gap", Err((2, ReportWhy::End))),
        (b"lost 1 gap\r", form),
        (b"lost 1 gap ", form),
        (b"LOST 1 gap", form),
    ];
    for (lines, want) in rows {
        assert_eq!(rt;
            ended_answer(rt.alloc(), lines)?,
            want,
            "a row of the table"
        );
    }
    Ok(())
}

#[test]
fn flow_lines(rt: HostRuntime) {
    let rows: [(&[u8], Result<(u64, u64, u64), (u64, ReportWhy)>); 18] = [
        (b"end\n", Ok((0, 0, 0))),
        (b"end", Err((1, ReportWhy::Form))),
        (b"end\nx", Err((2, ReportWhy::End))),
        (b"end\n\n", Err((2, ReportWhy::End))),
        (b"end \n", Err((1, ReportWhy::Form))),
        (b"serial 61\ncells 61\nend\n", Ok((0, 1, 0))),
        (b"serial 61 \ncells 61\nend\n", Err((1, ReportWhy::Form))),
        (b"serial 61\ncells 62\nend\n", Err((2, ReportWhy::Form))),
        (b"serial 61\nend\n", Err((2, ReportWhy::Form))),
        (b"serial 61\n", Err((2, ReportWhy::End))),
        (b"cells 61\nend\n", Err((1, ReportWhy::Form))),
        (b"serial 61\nlost 1 gap\n", Err((2, ReportWhy::Form))),
        (
            b"serial 61\ncells 61\nlost 1 gap\n",
            Err((3, ReportWhy::Form)),
        ),
        (
            b"serial 61\ncells 61\nserial 62 1\ncells 62 0 0\nend\n",
            Ok((0, 2, 0)),
        ),
        (
            b"serial 61\ncells 61\nserial 61\ncells 61\nend\n",
            Err((3, ReportWhy::Form)),
        ),
        (b"serial \ncells \nend\n", Err((1, ReportWhy::Form))),
        (
            b"serial 000102030405060708090a0b0c0d0e0f\n",
            Err((2, ReportWhy::End)),
        ),
        (
            b"serial 000102030405060708090a0b0c0d0e0f10\n",
            Err((1, ReportWhy::Form)),
        ),
    ];
    for (text, want) in rows {
        assert_eq!(rt; answer(rt.alloc(), text, 9), want, "a row of the table");
    }
}

#[test]
fn limits(rt: HostRuntime) -> Result<(), Fail> {
    let mut text = Vec::from_slice(rt.alloc(), b"release 1 1 7 ")?;
    for _ in 0..1500 {
        text.extend_from_slice(b"61")?;
    }
    let mut longer = Vec::from_slice(rt.alloc(), &text)?;
    text.extend_from_slice(b"\nend\n")?;
    assert_eq!(rt; answer(rt.alloc(), &text, 1), Ok((1, 0, 0)));
    longer.extend_from_slice(b"61\nend\n")?;
    assert_eq!(rt; answer(rt.alloc(), &longer, 1), Err((1, ReportWhy::Form)));
    let mut text = vec![in rt.alloc(); b'\n'; 67_108_864]?;
    assert_eq!(rt; answer(rt.alloc(), &text, 1), Err((1, ReportWhy::Form)));
    text.push(b'\n')?;
    assert_eq!(rt; answer(rt.alloc(), &text, 1), Err((0, ReportWhy::TooLong)));
    Ok(())
}
