use crate::status::tell;
use host_io::FileInputs;
use rp_base::{
    Bytes, Content, Kept, ListClock, MemInputs, MemSink, NoMemory, Post, SureInputs, SureLink,
    SureSink, Why, Words,
};
use run_core::{Status, rp_main};
use sched_lang::SchedWhy;
use std::alloc::Global;
use std::test::Fail;
use std::{env, fs, process};

const HEADER: &[u8] =
    b"rp-schedule 1\nswitches 1\nchain 1\nlease 1000 1100\nratio 50\nmode strict\n";

const SNAPSHOT_HEADER: &[u8] =
    b"rp-schedule 1\nswitches 1\nchain 1\nlease 1000 1100\nratio 50\nmode snapshot 100\n";

const ONE_PACKET: &[u8] = b"feed 7 6121\nnext\nnext\nnext\nnext\n";

const ONE_PACKET_REPORT: &[u8] =
    b"release 5 1 7 00000000000000016121\nserial 61 1\ncells 61 1\nend\n";

const ONE_PACKET_FRAMES: &[u8] = b"send 1 0 s0 r0 Ask \
    525001010010000000010000000101610100000001000700026121\n\
    send 2 1 r0 s0 Grant \
    5250010210000000000100000001000000010161000100000000000000000100000001000700026121\n\
    send 3 2 s0 r0 Put \
    525001040010000000010000000100000001016100010000000000000000000101000000010007000a\
    00000000000000016121\n\
    send 4 3 r0 s0 Ack \
    525001051000000000010000000100000001016101000000010007000a00000000000000016121\n\
    release 5 1 7 00000000000000016121\nserial 61 1\ncells 61 1\nend\n";

const CLEAN_PACKETS: &[u8] = b"feed 7 613f\nfeed 7 6121\nfeed 7 613f\nnext\nnext\nnext\nnext\n";

const CLEAN_PACKETS_REPORT: &[u8] = b"release 5 1 7 00000000000000016121\n\
    release 6 6 7 0000000000000001613f\n\
    release 11 7 7 00000000000000026121\n\
    release 12 8 7 0000000000000002613f\n\
    serial 61 1 6 7 8\ncells 61 2\nend\n";

const EQUAL_TERMS: &[u8] =
    b"rp-schedule 1\nswitches 1\nchain 1\nlease 200 200\nratio 5\nmode strict\n";

// How a text is refused that doesn't begin as a program.
const NO_PROGRAM: Status = Status::ProgramRefused {
    at: 0,
    why: Why::Unexpected,
};

// What stands before the apply block of a counter of one cell, by a byte of its header.
const DECLARED: &[u8] = b"header h_t { bit<8> k; }\n\
    struct hs { h_t h; }\n\
    struct ms { bit<8> x; }\n\
    parser P(packet_in p, out hs h, inout ms m, inout std_t std) {\n\
    state start { p.extract(h.h); transition accept; }\n\
    }\n\
    control I(inout hs h, inout ms m, inout std_t std) {\n\
    FlowCell<bit<8>>() c;\n";

// Its apply block.
const COUNTS: &[u8] = b"apply { flow_key(h.h.k); m.x = c.read(); c.write(m.x + 1); \
    h.h.k = m.x; std.out_port = std.in_port; }\n";

// One that reads the cell before the flow's key is known.
const READS_FIRST: &[u8] = b"apply { m.x = c.read(); flow_key(h.h.k); c.write(m.x + 1); \
    h.h.k = m.x; std.out_port = std.in_port; }\n";

// What stands behind it.
const DEPARSED: &[u8] = b"}\n\
    control D(packet_out p, in hs h) { apply { p.emit(h.h); } }\n\
    RpSwitch(P(), I(), D()) main;\n";

fn bytes(alloc: Global, parts: &[&[u8]]) -> Result<Bytes, NoMemory> {
    let mut made = Bytes::new(alloc);
    for part in parts {
        made.append(part)?;
    }
    Ok(made)
}

// The words of a line, of which each but the last ends at a space.
fn words(alloc: Global, line: &[u8]) -> Result<Words, NoMemory> {
    let mut made = Words::new(alloc);
    let mut word = Bytes::new(alloc);
    for b in line {
        if *b == b' ' {
            made.push(word)?;
            word = Bytes::new(alloc);
        } else {
            word.push(*b)?;
        }
    }
    if !line.is_empty() {
        made.push(word)?;
    }
    Ok(made)
}

// The contents of inputs with a program `app` and a schedule `x`.
fn contents(alloc: Global, program: Bytes, schedule: Bytes) -> Result<Vec<Content>, NoMemory> {
    let mut contents = Vec::new(alloc);
    contents.push(Content {
        name: bytes(alloc, &[b"app"])?,
        bytes: program,
    })?;
    contents.push(Content {
        name: bytes(alloc, &[b"x"])?,
        bytes: schedule,
    })?;
    Ok(contents)
}

fn link(alloc: Global) -> SureLink {
    SureLink {
        post: Post::new(alloc),
    }
}

fn clock(alloc: Global) -> Result<ListClock, Fail> {
    Ok(ListClock::of(Vec::new(alloc)).ok_or("a clock without answers")?)
}

// What the words of a line answer and write over objects without faults.
fn surely(alloc: Global, line: &[u8], schedule: Bytes) -> Result<(Status, Vec<u8>), Fail> {
    let words = words(alloc, line)?;
    let mut inputs = SureInputs {
        contents: contents(
            alloc,
            bytes(alloc, &[DECLARED, COUNTS, DEPARSED])?,
            schedule,
        )?,
    };
    let mut out = SureSink {
        kept: Kept::with_room(alloc, 10000)?,
    };
    let mut link = link(alloc);
    let mut clock = clock(alloc)?;
    let status = rp_main(alloc, &words, &mut inputs, &mut out, &mut link, &mut clock);
    Ok((status, out.kept.bytes))
}

#[test]
fn worked_rows(rt: HostRuntime) -> Result<(), Fail> {
    let alloc = rt.alloc();
    let rows: [(&[u8], &[u8], &[u8]); 5] = [
        (ONE_PACKET, b"", ONE_PACKET_REPORT),
        (b"", b"", b"end\n"),
        (b"# nothing\n\n", b"", b"end\n"),
        (ONE_PACKET, CLEAN_PACKETS, CLEAN_PACKETS_REPORT),
        (b"feed 7 -\n", b"", b"end\n"),
    ];
    for (first, second, report) in rows {
        let schedule = bytes(alloc, &[HEADER, first, second])?;
        let (status, text) = surely(alloc, b"run @count x", schedule)?;
        assert_eq!(rt; status, Status::Done);
        assert_eq!(rt; text.as_slice(), report);
    }
    Ok(())
}

#[test]
fn frames_are_shown(rt: HostRuntime) -> Result<(), Fail> {
    let alloc = rt.alloc();
    let schedule = bytes(alloc, &[HEADER, ONE_PACKET])?;
    let (status, text) = surely(alloc, b"run @count x --frames", schedule)?;
    assert_eq!(rt; status, Status::Done);
    assert_eq!(rt; text.as_slice(), ONE_PACKET_FRAMES);
    Ok(())
}

#[test]
fn the_last_of_many_copies_is_dropped(rt: HostRuntime) -> Result<(), Fail> {
    let alloc = rt.alloc();
    let mut schedule = bytes(alloc, &[HEADER, b"feed 7 6121\nnext\nnext\n"])?;
    for _ in 4..=1027 {
        schedule.append(b"feed 7 6121\n")?;
    }
    let (status, text) = surely(alloc, b"run @count x", schedule)?;
    assert_eq!(rt; status, Status::Done);
    assert_eq!(rt;
        text.as_slice(),
        b"drop 1027 1027 mirror\nserial 61\ncells 61 0\nend\n".as_slice()
    );
    Ok(())
}

#[test]
fn refusals_write_nothing(rt: HostRuntime) -> Result<(), Fail> {
    let alloc = rt.alloc();
    let terms = Status::ScheduleRefused {
        line: 5,
        why: SchedWhy::Terms,
    };
    let not_yet = Status::ScheduleRefused {
        line: 7,
        why: SchedWhy::NotYet,
    };
    let form = Status::ScheduleRefused {
        line: 1,
        why: SchedWhy::Form,
    };
    let mode = Status::ScheduleRefused {
        line: 6,
        why: SchedWhy::Mode,
    };
    let rows: [(&[u8], &[u8], &[u8], Status); 12] = [
        (b"", HEADER, ONE_PACKET, Status::Usage),
        (b"run @count", HEADER, ONE_PACKET, Status::Usage),
        (b"plain app x --frames", HEADER, ONE_PACKET, Status::Usage),
        (b"plain @count", HEADER, ONE_PACKET, Status::Usage),
        (b"plain @count x", SNAPSHOT_HEADER, ONE_PACKET, mode),
        (b"run x x", HEADER, ONE_PACKET, NO_PROGRAM),
        (b"run @count x x", HEADER, ONE_PACKET, Status::Usage),
        (b"run @count --frames x", HEADER, ONE_PACKET, Status::Usage),
        (
            b"run @count x --frames x",
            HEADER,
            ONE_PACKET,
            Status::Usage,
        ),
        (b"run @count x", EQUAL_TERMS, b"", terms),
        (b"run @count x", HEADER, b"pump\n", not_yet),
        (b"run @count x", b"", b"", form),
    ];
    for (line, first, second, wanted) in rows {
        let schedule = bytes(alloc, &[first, second])?;
        let (status, text) = surely(alloc, line, schedule)?;
        assert_eq!(rt; status, wanted);
        assert_eq!(rt; text.len(), 0);
    }
    Ok(())
}

// What the words of a line answer and write where this call of the sink fails, and how many contents were asked for.
fn faultily(
    alloc: Global,
    line: &[u8],
    program: &[&[u8]],
    call: u64,
) -> Result<(Status, Vec<u8>, u64), Fail> {
    let words = words(alloc, line)?;
    let mut inputs = MemInputs {
        contents: contents(
            alloc,
            bytes(alloc, program)?,
            bytes(alloc, &[HEADER, ONE_PACKET])?,
        )?,
        failing: Vec::new(alloc),
        calls: 0,
        faults: 0,
    };
    let mut out = MemSink {
        kept: Kept::with_room(alloc, 10000)?,
        most: 10000,
        failing: [call].to_vec(alloc)?,
        calls: 0,
        faults: 0,
    };
    let mut link = link(alloc);
    let mut clock = clock(alloc)?;
    let status = rp_main(alloc, &words, &mut inputs, &mut out, &mut link, &mut clock);
    Ok((status, out.kept.bytes, inputs.calls))
}

// A program's refusal comes before its schedule is loaded: there is none of this name.
#[test]
fn programs_are_refused_first(rt: HostRuntime) -> Result<(), Fail> {
    let alloc = rt.alloc();
    let rows: [([&[u8]; 3], &[u8]); 7] = [
        ([b"", b"", b""], b"rp: program 0 Unexpected\n"),
        ([b"\"core\"", b"", b""], b"rp: program 0 BadByte\n"),
        ([b"/*", b"", b""], b"rp: program 0 OpenComment\n"),
        ([b"const bit<8>= 3;", b"", b""], b"rp: program 11 Mixed\n"),
        ([b"if if if if if", b"", b""], b"rp: program 12 Deep\n"),
        ([DECLARED, READS_FIRST, DEPARSED], b"rp: program 269 Key\n"),
        ([DECLARED, COUNTS, DEPARSED], b"rp: input fault\n"),
    ];
    for (program, wanted) in rows {
        let (status, text, _) = faultily(alloc, b"run app nofile", &program, 9)?;
        let mut told = Vec::new(alloc);
        tell(status, &mut told)?;
        assert_eq!(rt; told.as_slice(), wanted);
        assert_eq!(rt; text.len(), 0);
    }
    Ok(())
}

#[test]
fn faults_end_the_run(rt: HostRuntime) -> Result<(), Fail> {
    let alloc = rt.alloc();
    // the words, the call at which the sink fails, what comes of it, and how many contents were asked for
    let rows: [(&[u8], u64, Status, &[u8], u64); 9] = [
        (b"run @count x", 9, Status::Done, ONE_PACKET_REPORT, 1),
        (
            b"run @count x",
            2,
            Status::OutputFault,
            b"release 5 1 7 00000000000000016121\nserial 61 1\n",
            1,
        ),
        (b"run @count nofile", 9, Status::InputFault, b"", 1),
        (b"run nofile x", 9, Status::InputFault, b"", 1),
        (b"run app nofile", 9, Status::InputFault, b"", 2),
        (b"run x nofile", 9, NO_PROGRAM, b"", 1),
        (b"run nofile nofile", 9, Status::InputFault, b"", 1),
        (
            b"run app x",
            9,
            Status::Done,
            b"release 5 1 7 0021\nserial 61 1\ncells 61 1\nend\n",
            2,
        ),
        (
            b"plain app x",
            9,
            Status::Done,
            b"release 1 1 7 0021\nserial 61 1\ncells 61 1\nend\n",
            2,
        ),
    ];
    for (line, call, wanted, text, asked) in rows {
        let (status, written, calls) = faultily(alloc, line, &[DECLARED, COUNTS, DEPARSED], call)?;
        assert_eq!(rt; (status, calls), (wanted, asked));
        assert_eq!(rt; written.as_slice(), text);
    }
    Ok(())
}

// How a file of comments that is a byte too long for a schedule is told.
#[test]
fn a_schedule_has_a_limit(rt: HostRuntime) -> Result<(), Fail> {
    let alloc = rt.alloc();
    let id = process::id(rt.process());
    let mut path = env::temp_dir(&rt)?;
    path.push(format!(in alloc; "rp_cli-{id}")?.as_str())?;
    let text = vec![in alloc; b'#'; 4_194_305]?;
    fs::write(&rt, path.as_str(), text.as_slice())?;
    let mut words = words(alloc, b"run @count")?;
    words.push(bytes(alloc, &[path.as_str().as_bytes()])?)?;
    let mut inputs = FileInputs::new(&rt, alloc);
    let mut out = SureSink {
        kept: Kept::with_room(alloc, 10000)?,
    };
    let mut link = link(alloc);
    let mut clock = clock(alloc)?;
    let status = rp_main(alloc, &words, &mut inputs, &mut out, &mut link, &mut clock);
    fs::remove_file(&rt, path.as_str())?;
    let mut told = Vec::new(alloc);
    tell(status, &mut told)?;
    assert_eq!(rt; told.as_slice(), b"rp: schedule 0 TooLong\n".as_slice());
    assert_eq!(rt; (status.number(), out.kept.bytes.len()), (3, 0));
    Ok(())
}
