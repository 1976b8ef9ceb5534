//! Refused texts, with the place and the cause of each.

use p4_parse::{ParseEnd, parse};
use rp_base::{Bytes, Refused, Why};
use sqlite_items::Boxed;
use std::alloc::Global;
use std::test::Fail;

// A parser, and the beginning of a control.
const FRONT: &[u8] =
    b"parser P(packet_in p, out hs h, inout ms m, inout std_t std) { state start { transition accept; } } \
    control I(inout hs h, inout ms m, inout std_t std) { ";

// Whether a text has a tree, or why it has none. A tree is let go in a box, since the proof of an exit that drops one is long.
pub fn verdict(alloc: Global, text: &[u8]) -> Result<(), ParseEnd> {
    match parse(alloc, text) {
        Ok(tree) => {
            let _boxed = Boxed::new(alloc, tree);
            Ok(())
        }
        Err(end) => Err(end),
    }
}

fn refused(at: u64, why: Why) -> Result<(), ParseEnd> {
    Err(ParseEnd::Refused(Refused { at, why }))
}

// So many times a piece, behind a front.
fn repeated(alloc: Global, front: &[u8], piece: &[u8], times: usize) -> Result<Bytes, Fail> {
    let mut text = Bytes::new(alloc);
    text.append(front)?;
    for _ in 0..times {
        text.append(piece)?;
    }
    Ok(text)
}

#[test]
fn bad_bytes_have_their_places(rt: HostRuntime) {
    for (text, at, why) in [
        // at the start
        (b"$".as_slice(), 0, Why::BadByte),
        // inside a name
        (b"header h@t { bit<8> k; }".as_slice(), 8, Why::BadByte),
        // at the end
        (b"const bool b = 1 $".as_slice(), 17, Why::BadByte),
        // a carriage return
        (b"typedef bit<8> t;\r\n".as_slice(), 17, Why::BadByte),
        // half a comment
        (b"a / b".as_slice(), 2, Why::BadByte),
        // a width
        (b"const bit<0w1> k = 1;".as_slice(), 10, Why::BadNumber),
        // a value
        (b"const bit<8> k = 1_;".as_slice(), 17, Why::BadNumber),
        // a slice
        (
            b"const bit<8> k = x[1__0:0];".as_slice(),
            19,
            Why::BadNumber,
        ),
        // the whole text
        (b"0x".as_slice(), 0, Why::BadNumber),
        // between words
        (b"const bool /* b".as_slice(), 11, Why::OpenComment),
        // the whole text
        (b"/*".as_slice(), 0, Why::OpenComment),
        // behind a line
        (
            b"typedef bit<8> t; // /*\n/*/".as_slice(),
            24,
            Why::OpenComment,
        ),
        // another file
        (b"\n#include <x.p4>\n".as_slice(), 1, Why::Directive),
        // at the start
        (b"#define x".as_slice(), 0, Why::Directive),
        // a blank behind it
        (
            b"struct s { }\n  #include <core.p4> \n".as_slice(),
            15,
            Why::Directive,
        ),
        // bytes come before the grammar
        (
            b"const bool b = 1w1 & 1w1 == 1w1; $".as_slice(),
            33,
            Why::BadByte,
        ),
        // a word that can't be a name, before a number
        (b"typedef if 0y".as_slice(), 11, Why::BadNumber),
    ] {
        assert_eq!(rt; verdict(rt.alloc(), text), refused(at, why));
    }
}

#[test]
fn mixed_operators_have_their_places(rt: HostRuntime) {
    for (text, at, why) in [
        // a comparison behind a chain
        (
            b"const bool b = 1w1 & 1w1 == 1w1;".as_slice(),
            25,
            Why::Mixed,
        ),
        // two comparisons
        (
            b"const bool b = 1w1 == 1w1 == 1w1;".as_slice(),
            26,
            Why::Mixed,
        ),
        // a chain behind a sum
        (b"const bit<8> b = x + y & z;".as_slice(), 23, Why::Mixed),
        // two chains
        (b"const bit<8> b = x & y | z;".as_slice(), 23, Why::Mixed),
        // a sum behind a chain
        (b"const bit<8> b = x ++ y + z;".as_slice(), 24, Why::Mixed),
        // behind a parenthesis
        (
            b"const bit<8> b = (x) & (y) << z;".as_slice(),
            27,
            Why::Mixed,
        ),
        // behind a slice
        (
            b"const bit<8> b = x & y[1:0] - z;".as_slice(),
            28,
            Why::Mixed,
        ),
        // behind true
        (
            b"const bool b = true & true != true;".as_slice(),
            27,
            Why::Mixed,
        ),
        // two signs where one closes
        (b"typedef bit<8>> t;".as_slice(), 13, Why::Mixed),
        // an operator behind a name, outside an expression
        (b"header h_t > x".as_slice(), 11, Why::Mixed),
    ] {
        assert_eq!(rt; verdict(rt.alloc(), text), refused(at, why));
    }
}

#[test]
fn unexpected_tokens_have_their_places(rt: HostRuntime) {
    for (text, at, why) in [
        // an empty text
        (b"".as_slice(), 0, Why::Unexpected),
        // an operator behind a sign
        (
            b"const bool b = 1w1 & == 1w1;".as_slice(),
            21,
            Why::Unexpected,
        ),
        // an operator that has one side
        (b"const bool b = + 1;".as_slice(), 15, Why::Unexpected),
        // the end, inside an expression
        (b"const bool b = 1w1 &".as_slice(), 20, Why::Unexpected),
        // a field without its end
        (b"header h_t { bit<8> k }".as_slice(), 22, Why::Unexpected),
        // a cast by a name that is none
        (
            b"typedef bit<8> t; const t x = (u) 1;".as_slice(),
            34,
            Why::Unexpected,
        ),
        // a cast before its typedef
        (
            b"const t x = (t) 1; typedef bit<8> t;".as_slice(),
            16,
            Why::Unexpected,
        ),
        // a word that can't be a name
        (b"typedef bit<8> if;".as_slice(), 15, Why::Unexpected),
        // a control before the parser
        (b"header h { } control I".as_slice(), 13, Why::Unexpected),
        // a slice of one number
        (b"const bool b = x[1];".as_slice(), 18, Why::Unexpected),
    ] {
        assert_eq!(rt; verdict(rt.alloc(), text), refused(at, why));
    }
}

#[test]
fn unexpected_tokens_of_controls_have_their_places(rt: HostRuntime) -> Result<(), Fail> {
    for (rest, behind, why) in [
        // a second else
        (
            b"apply { if (x) ; else ; else ; }".as_slice(),
            24,
            Why::Unexpected,
        ),
        // actions before keys
        (b"table t { actions".as_slice(), 10, Why::Unexpected),
        // a size twice
        (
            b"table t { key = { } actions = { } size = 1; size".as_slice(),
            44,
            Why::Unexpected,
        ),
        // a closing sign that is missing
        (b"FlowCell<bit<8> () c;".as_slice(), 16, Why::Unexpected),
        // a read of two indexes
        (b"apply { m.x = c.read(1, 2".as_slice(), 22, Why::Unexpected),
        // the end, behind a block
        (b"apply { }".as_slice(), 9, Why::Unexpected),
    ] {
        let mut text = Bytes::new(rt.alloc());
        text.append(FRONT)?;
        text.append(rest)?;
        let at = FRONT.len() as u64 + behind;
        assert_eq!(rt; verdict(rt.alloc(), text.as_slice()), refused(at, why));
    }
    Ok(())
}

#[test]
fn counts_have_their_limits(rt: HostRuntime) -> Result<(), Fail> {
    let deep = Why::Deep;
    let unexpected = Why::Unexpected;
    for (front, piece, times, at, why) in [
        (
            b"const bool b = ".as_slice(),
            b"(".as_slice(),
            257,
            271,
            deep,
        ),
        (b"const bool b = ", b"(", 256, 271, unexpected),
        (b"", b"[{(", 86, 256, deep),
        (b"", b"[](){}", 400, 0, unexpected),
        (b"const bool b = ", b"!", 509, 523, deep),
        (b"const bool b = ", b"!", 508, 523, unexpected),
        (b"", b"if ", 5, 12, deep),
        (b"", b"if ", 4, 0, unexpected),
        (b"const bool b = 1 & 2 == ", b"if ", 5, 36, deep),
        (b"", b"else if;", 129, 1029, deep),
        (b"", b"else if;", 128, 0, unexpected),
    ] {
        let text = repeated(rt.alloc(), front, piece, times)?;
        assert_eq!(rt; verdict(rt.alloc(), text.as_slice()), refused(at, why));
    }
    Ok(())
}

#[test]
fn texts_have_a_limit(rt: HostRuntime) -> Result<(), Fail> {
    for (piece, times, at, why) in [
        (b" ".as_slice(), 262144, 262144, Why::Unexpected),
        (b" ", 262145, 0, Why::TooLong),
        (b"$", 262144, 0, Why::BadByte),
        (b"$", 262145, 0, Why::TooLong),
    ] {
        let text = repeated(rt.alloc(), b"", piece, times)?;
        assert_eq!(rt; verdict(rt.alloc(), text.as_slice()), refused(at, why));
    }
    Ok(())
}
