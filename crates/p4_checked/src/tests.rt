//! Programs that are refused for one reason, with the place and the cause of each, and programs that are accepted.

use crate::text::checked_text;
use p4_check::CheckEnd;
use rp_base::{Bytes, NoMemory, Refused, Why};
use std::alloc::Global;
use std::test::Fail;

// What stands before the states of the parser.
const HEAD: &[u8] = b"header h_t { bit<8> k; bit<8> i; }\n\
    struct hs { h_t h; }\n\
    struct ms { bit<8> x; bit<16> y; bool b; bit<1> one; }\n\
    parser P(packet_in p, out hs h, inout ms m, inout std_t std) {\n\
    ";

// A parser that takes one header.
const START: &[u8] = b"\x20 state start { p.extract(h.h); transition accept; }\n\
    ";

// Statements that only tell the flow.
const KEYED: &[u8] = b"    flow_key(h.h.k);\n    ";

// What stands between the states and the declarations of the control.
const CELLS: &[u8] = b"}\n\
    control I(inout hs h, inout ms m, inout std_t std) {\n\
    \x20 FlowCell<bit<8>>() c;\n\
    \x20 FlowArray<bit<8>>(4) a;\n\
    ";

// What stands between the declarations and the statements.
const APPLY: &[u8] = b"\x20 apply {\n\
    \x20   std.out_port = std.in_port;\n\
    ";

// What stands behind the statements.
const TAIL: &[u8] = b"\n\
    \x20 }\n\
    }\n\
    control D(packet_out p, in hs h) { apply { p.emit(h.h); } }\n\
    RpSwitch(P(), I(), D()) main;\n\
    ";

// What is put between these pieces of a program.
#[derive(Clone, Copy)]
struct Parts<'a> {
    states: &'a [u8],
    locals: &'a [u8],
    body: &'a [u8],
}

impl Parts<'_> {
    // A program with these states of the parser.
    fn of_states(states: &[u8]) -> Parts<'_> {
        Parts {
            states,
            locals: b"",
            body: KEYED,
        }
    }

    // A program with these declarations in its control.
    fn of_locals(locals: &[u8]) -> Parts<'_> {
        Parts {
            states: START,
            locals,
            body: KEYED,
        }
    }

    // A program with these statements.
    fn of_body(body: &[u8]) -> Parts<'_> {
        Parts {
            states: START,
            locals: b"",
            body,
        }
    }

    // A program with these declarations and statements.
    fn of_control<'a>(locals: &'a [u8], body: &'a [u8]) -> Parts<'a> {
        Parts {
            states: START,
            locals,
            body,
        }
    }

    fn text(self, alloc: Global) -> Result<Bytes, NoMemory> {
        let mut text = Bytes::new(alloc);
        for piece in [
            HEAD,
            self.states,
            CELLS,
            self.locals,
            APPLY,
            self.body,
            TAIL,
        ] {
            text.append(piece)?;
        }
        Ok(text)
    }

    // How many cells the program has, or why it is refused.
    fn verdict(self, alloc: Global) -> Result<u16, CheckEnd> {
        let text = self.text(alloc)?;
        match checked_text(alloc, text.as_slice()) {
            Ok(c) => Ok(c.cells()),
            Err(end) => Err(end),
        }
    }
}

// A refusal at this place for this cause.
fn refused(at: u64, why: Why) -> Result<u16, CheckEnd> {
    Err(CheckEnd::Refused(Refused { at, why }))
}

#[test]
fn names_are_declared_and_listed_once(rt: HostRuntime) -> Result<(), Fail> {
    for (parts, at, why) in [
        // a name that isn't declared
        (
            Parts::of_body(b"    flow_key(h.h.k);\n    q = 1;"),
            399,
            Why::Unknown,
        ),
        // no state start
        (
            Parts::of_states(b"  state begin { p.extract(h.h); transition accept; }\n"),
            118,
            Why::Unknown,
        ),
        // an action listed twice
        (
            Parts::of_locals(
                b"  action a1(bit<8> v) { m.x = v; }\n  action a2() { m.x = 2; }\n  table t {\n    key = { h.h.k : exact; }\n    actions = { NoAction; a2; NoAction; }\n  }\n",
            ),
            465,
            Why::Twice,
        ),
    ] {
        assert_eq!(rt; parts.verdict(rt.alloc()), refused(at, why));
    }
    Ok(())
}

#[test]
fn kinds_are_those_that_are_wanted(rt: HostRuntime) -> Result<(), Fail> {
    for (parts, at) in [
        // bits for a bool
        (Parts::of_body(b"    flow_key(h.h.k);\n    m.b = 1;"), 405),
        // a write to a parameter
        (
            Parts::of_locals(b"  action a3(bit<8> v) { v[3:0] = 1; }\n"),
            356,
        ),
        // a shift by a bool
        (
            Parts::of_body(b"    flow_key(h.h.k);\n    m.x = m.x << m.b;"),
            412,
        ),
        // a table that is called
        (
            Parts::of_control(
                b"  action a2() { m.x = 2; }\n  table t {\n    key = { h.h.k : exact; }\n    actions = { a2; }\n  }\n",
                b"    flow_key(h.h.k);\n    t();",
            ),
            493,
        ),
    ] {
        assert_eq!(rt; parts.verdict(rt.alloc()), refused(at, Why::Kind));
    }
    Ok(())
}

#[test]
fn literals_and_indices_have_widths(rt: HostRuntime) -> Result<(), Fail> {
    for (parts, at, why) in [
        // a literal that nothing sizes
        (
            Parts::of_states(
                b"  state start { p.extract(h.h); transition select(7) { default: accept; } }\n",
            ),
            224,
            Why::Width,
        ),
        // an index of eight bits
        (
            Parts::of_body(b"    flow_key(h.h.k);\n    a.write(m.x, 1);"),
            407,
            Why::Width,
        ),
        // a literal one too large for its own width
        (
            Parts::of_body(b"    flow_key(h.h.k);\n    m.x = 8w0 + 8w256;"),
            411,
            Why::Fit,
        ),
    ] {
        assert_eq!(rt; parts.verdict(rt.alloc()), refused(at, why));
    }
    Ok(())
}

#[test]
fn states_form_no_cycle(rt: HostRuntime) -> Result<(), Fail> {
    for (states, at) in [
        // two states
        (
            b"  state start { p.extract(h.h); transition more; }\n  state more { transition start; }\n".as_slice(),
            217,
        ),
        // states that are never reached
        (
            b"  state start { p.extract(h.h); transition last; }\n  state last { transition accept; }\n  state x1 { transition x2; }\n  state x2 { transition x1; }\n".as_slice(),
            285,
        ),
    ] {
        let found = Parts::of_states(states).verdict(rt.alloc());
        assert_eq!(rt; found, refused(at, Why::Cycle));
    }
    Ok(())
}

#[test]
fn cells_are_reached_behind_one_flow_key(rt: HostRuntime) -> Result<(), Fail> {
    for (parts, at) in [
        // a branch of an if that isn't last
        (
            Parts::of_body(b"    \n    if (m.b) { flow_key(h.h.k); m.x = c.read(); } m.x = 1;"),
            394,
        ),
        // a second flow key
        (
            Parts::of_body(b"    flow_key(h.h.k);\n    m.x = c.read(); flow_key(h.h.i);"),
            415,
        ),
        // an action that no body calls
        (Parts::of_locals(b"  action a3() { c.write(1); }\n"), 348),
        // an action that is called outside a body
        (
            Parts::of_control(
                b"  action a3() { m.x = 2; m.x = c.read(); }\n  action a4() { c.write(1); }\n",
                b"    flow_key(h.h.k);\n    a4();",
            ),
            357,
        ),
    ] {
        assert_eq!(rt; parts.verdict(rt.alloc()), refused(at, Why::Key));
    }
    Ok(())
}

#[test]
fn entries_have_masks_and_differ(rt: HostRuntime) -> Result<(), Fail> {
    for (locals, at) in [
        // a mask with a hole
        (
            b"  action a1(bit<8> v) { m.x = v; }\n  action a2() { m.x = 2; }\n  table t {\n    key = { h.h.k : lpm; }\n    actions = { a1; a2; NoAction; }\n    const entries = {\n      1 &&& 0b10100000 : a2();\n    }\n  }\n".as_slice(),
            503,
        ),
        // equal under their masks
        (
            b"  action a1(bit<8> v) { m.x = v; }\n  action a2() { m.x = 2; }\n  table t {\n    key = { h.h.k : ternary; h.h.i : exact; }\n    actions = { a1; a2; NoAction; }\n    const entries = {\n      (_, 1) : a2(); (0, 1) : a2(); (7 &&& 0, 1) : a1(3);\n    }\n  }\n".as_slice(),
            546,
        ),
    ] {
        let found = Parts::of_locals(locals).verdict(rt.alloc());
        assert_eq!(rt; found, refused(at, Why::Entry));
    }
    Ok(())
}

#[test]
fn the_first_fault_is_told(rt: HostRuntime) -> Result<(), Fail> {
    for (parts, at, why) in [
        // the least place, though met last
        (
            Parts::of_control(
                b"  action a3() { c.write(1); }\n",
                b"    flow_key(h.h.k);\n    m.q = 1; m.x = 256;",
            ),
            348,
            Why::Key,
        ),
        // what stands above a fault is silent
        (
            Parts::of_body(b"    flow_key(h.h.k);\n    m.x = zz + 300;"),
            405,
            Why::Unknown,
        ),
    ] {
        assert_eq!(rt; parts.verdict(rt.alloc()), refused(at, why));
    }
    Ok(())
}

#[test]
fn good_programs_are_accepted(rt: HostRuntime) -> Result<(), Fail> {
    for parts in [
        // a cell and an array
        Parts::of_body(b"    flow_key(h.h.k); m.x = c.read(); a.write(1, m.x + 1);"),
        // a name again in a sibling block, and one behind its block
        Parts::of_body(b"    { bit<8> v = 1; m.x = v; } { bit<16> v; m.y = v; } bit<1> v = 1w1;"),
        // a literal takes the width of the other operand, and a shift's sides need not agree
        Parts::of_body(b"    m.y = m.y + 300; m.x = m.x << m.y; m.b = 300 == m.y;"),
        // a flow key in the last branch of the last statement
        Parts::of_body(b"    if (m.b) m.x = 1; else { flow_key(h.h.k ++ h.h.i); c.write(m.x); }"),
        // an action that a body's table lists
        Parts::of_control(
            b"  action put(bit<8> v) { c.write(v); }\n  table t { key = { h.h.k : lpm; } actions = { put; } const entries = { 16 &&& 240 : put(1); 16 &&& 248 : put(2); } }\n",
            b"    flow_key(h.h.k); t.apply();",
        ),
    ] {
        assert_eq!(rt; parts.verdict(rt.alloc()), Ok(5));
    }
    Ok(())
}
