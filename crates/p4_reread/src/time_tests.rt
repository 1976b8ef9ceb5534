//! Texts of full size are parsed in time.

use crate::refusal_tests::verdict;
use rp_base::{Bytes, NoMemory};
use std::alloc::Global;
use std::test::Fail;
use std::time::Instant;

const LONGEST: u64 = 262144;

const PARSER: &[u8] = b"header h_t { bit<8> k; }\n\
    struct hs { h_t h; }\n\
    struct ms { bit<8> x; }\n\
    parser P(packet_in p, out hs h, inout ms m, inout std_t std) {\n\
    state start { p.extract(h.h); transition accept; }\n\
    }\n";

const CONTROL: &[u8] = b"control I(inout hs h, inout ms m, inout std_t std) {\n\
    FlowCell<bit<8>>() c;\n\
    apply { flow_key(h.h.k); m.x = c.read();\n";

const END: &[u8] = b"} }\n\
    control D(packet_out p, in hs h) { apply { p.emit(h.h); } }\n\
    RpSwitch(P(), I(), D()) main;\n";

// Three letters that no other number below 17,576 has.
fn name(n: u64, out: &mut Bytes) -> Result<(), NoMemory> {
    out.push(b'a' + (n / 676 % 26) as u8)?;
    out.push(b'a' + (n / 26 % 26) as u8)?;
    out.push(b'a' + (n % 26) as u8)
}

// Typedefs, each with a cast by its name, up to about the longest text.
fn typedefs(alloc: Global) -> Result<Bytes, NoMemory> {
    let mut text = Bytes::new(alloc);
    for n in 0..5400 {
        text.append(b"typedef bit<8> t")?;
        name(n, &mut text)?;
        text.append(b";\nconst bit<8> c = (t")?;
        name(n, &mut text)?;
        text.append(b") 1;\n")?;
    }
    text.append(PARSER)?;
    text.append(CONTROL)?;
    text.append(END)?;
    Ok(text)
}

// Appends a piece so many times.
fn append_times(text: &mut Bytes, times: u64, piece: &[u8]) -> Result<(), NoMemory> {
    for _ in 0..times {
        text.append(piece)?;
    }
    Ok(())
}

// A program whose block is so many times this piece.
fn block(alloc: Global, piece: &[u8], times: u64) -> Result<Bytes, NoMemory> {
    let mut text = Bytes::new(alloc);
    text.append(PARSER)?;
    text.append(CONTROL)?;
    append_times(&mut text, times, piece)?;
    text.append(END)?;
    Ok(text)
}

// A program of assignments whose values nest so deeply.
fn nested_values(
    alloc: Global,
    depth: u64,
    open: &[u8],
    close: &[u8],
    times: u64,
) -> Result<Bytes, NoMemory> {
    let mut piece = Bytes::new(alloc);
    piece.append(b"a=")?;
    append_times(&mut piece, depth, open)?;
    piece.append(b"a")?;
    append_times(&mut piece, depth, close)?;
    piece.append(b";")?;
    block(alloc, piece.as_slice(), times)
}

// A program of blocks that nest so deeply.
fn nested_blocks(alloc: Global, depth: u64, times: u64) -> Result<Bytes, NoMemory> {
    let mut piece = Bytes::new(alloc);
    append_times(&mut piece, depth, b"{")?;
    append_times(&mut piece, depth, b"}")?;
    block(alloc, piece.as_slice(), times)
}

// Whether a text of almost full size is parsed as a tree in a fifth of a second. One of ten tries is enough, since other work on
// the machine delays some.
fn is_parsed_in_time(rt: &HostRuntime, text: &Bytes) -> Result<bool, Fail> {
    if text.len() <= 255000 || LONGEST < text.len() {
        return Ok(false);
    }
    for _ in 0..10 {
        let start = Instant::now(rt)?;
        let is_read = verdict(rt.alloc(), text.as_slice()).is_ok();
        let took = start.elapsed(rt)?;
        if is_read && took.as_millis() < 200 {
            return Ok(true);
        }
    }
    Ok(false)
}

#[test]
fn long_texts_are_parsed_in_time(rt: HostRuntime) -> Result<(), Fail> {
    let alloc = rt.alloc();
    assert!(rt; is_parsed_in_time(&rt, &typedefs(alloc)?)?);
    assert!(rt; is_parsed_in_time(&rt, &block(alloc, b"m.x = m.x + 1;\n", 17000)?)?);
    assert!(rt;
        is_parsed_in_time(
            &rt,
            &block(alloc, b"if (m.x == 1) { m.x = 2; } else ;\n", 7600)?
        )?
    );
    assert!(rt; is_parsed_in_time(&rt, &block(alloc, b";", 261000)?)?);
    Ok(())
}

#[test]
fn long_texts_of_small_statements_are_parsed_in_time(rt: HostRuntime) -> Result<(), Fail> {
    let alloc = rt.alloc();
    assert!(rt; is_parsed_in_time(&rt, &block(alloc, b"a=a;", 65400)?)?);
    assert!(rt; is_parsed_in_time(&rt, &block(alloc, b"if(a)if(a)if(a)if(a);", 12450)?)?);
    assert!(rt; is_parsed_in_time(&rt, &block(alloc, b"{}", 130800)?)?);
    Ok(())
}

#[test]
fn long_texts_that_nest_are_parsed_in_time(rt: HostRuntime) -> Result<(), Fail> {
    let alloc = rt.alloc();
    assert!(rt; is_parsed_in_time(&rt, &nested_blocks(alloc, 200, 654)?)?);
    assert!(rt; is_parsed_in_time(&rt, &nested_values(alloc, 120, b"(a+", b")", 540)?)?);
    assert!(rt; is_parsed_in_time(&rt, &nested_values(alloc, 126, b"a?a:", b"", 515)?)?);
    assert!(rt; is_parsed_in_time(&rt, &nested_values(alloc, 250, b"a&", b"", 519)?)?);
    assert!(rt; is_parsed_in_time(&rt, &nested_values(alloc, 80, b"(bit<1>)", b"", 405)?)?);
    Ok(())
}
