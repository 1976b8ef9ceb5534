//! Programs that are read, printed and read again.

use p4_parse::parse;
use p4_print::print;
use rp_base::Bytes;
use sqlite_items::Boxed;
use std::alloc::Global;
use std::test::Fail;

// A counter in one cell.
const COUNTER: &[u8] = b"header h_t { bit<8> k; }\n\
    struct hs { h_t h; }\n\
    struct ms { bit<8> x; }\n\
    parser P(packet_in p, out hs h, inout ms m, inout std_t std) {\n\
    state start { p.extract(h.h); transition accept; }\n\
    }\n\
    control I(inout hs h, inout ms m, inout std_t std) {\n\
    FlowCell<bit<8>>() c;\n\
    apply { flow_key(h.h.k); m.x = c.read(); c.write(m.x + 1); h.h.k = m.x; std.out_port = std.in_port; }\n\
    }\n\
    control D(packet_out p, in hs h) { apply { p.emit(h.h); } }\n\
    RpSwitch(P(), I(), D()) main;\n\
    ";

// Its canonical text.
const CANONICAL_COUNTER: &[u8] = b"#include <core.p4>\n\
    #include <rp.p4>\n\
    header h_t {\n\
    bit < 8 > k ;\n\
    }\n\
    struct hs {\n\
    h_t h ;\n\
    }\n\
    struct ms {\n\
    bit < 8 > x ;\n\
    }\n\
    parser P ( packet_in p , out hs h , inout ms m , inout std_t std ) {\n\
    state start {\n\
    p . extract ( h . h ) ;\n\
    transition accept ;\n\
    }\n\
    }\n\
    control I ( inout hs h , inout ms m , inout std_t std ) {\n\
    FlowCell < bit < 8 > > ( ) c ;\n\
    apply {\n\
    flow_key ( h . h . k ) ;\n\
    m . x = c . read ( ) ;\n\
    c . write ( m . x + 1 ) ;\n\
    h . h . k = m . x ;\n\
    std . out_port = std . in_port ;\n\
    }\n\
    }\n\
    control D ( packet_out p , in hs h ) {\n\
    apply {\n\
    p . emit ( h . h ) ;\n\
    }\n\
    }\n\
    RpSwitch ( P ( ) , I ( ) , D ( ) ) main ;\n\
    ";

// The counter after the rewriting that a switch runs: a fourth parameter, cells by index, and what is held.
const REWRITTEN_COUNTER: &[u8] = b"#include <core.p4>\n\
    #include <rp.p4>\n\
    header h_t {\n\
    bit < 8 > k ;\n\
    }\n\
    struct hs {\n\
    h_t h ;\n\
    }\n\
    struct ms {\n\
    bit < 8 > x ;\n\
    }\n\
    parser P ( packet_in p , out hs h , inout ms m , inout std_t std ) {\n\
    state start {\n\
    p . extract ( h . h ) ;\n\
    transition accept ;\n\
    }\n\
    }\n\
    control I ( inout hs h , inout ms m , inout std_t std , inout rp_t rp ) {\n\
    apply {\n\
    flow_key ( h . h . k ) ;\n\
    if ( rp . held == 1w1 ) {\n\
    m . x = ( bit < 8 > ) rp_cells . read ( 16w0 ) ;\n\
    rp_cells . write ( 16w0 , ( bit < 64 > ) ( m . x + 8w1 ) ) ;\n\
    rp . dirty = 1w1 ;\n\
    h . h . k = m . x ;\n\
    std . out_port = std . in_port ;\n\
    }\n\
    else {\n\
    rp . verdict = 1w1 ;\n\
    }\n\
    }\n\
    }\n\
    control D ( packet_out p , in hs h ) {\n\
    apply {\n\
    p . emit ( h . h ) ;\n\
    }\n\
    }\n\
    RpSwitch ( P ( ) , I ( ) , D ( ) ) main ;\n\
    ";

// Counters in an array of cells.
const ARRAY: &[u8] = b"header h_t { bit<8> k; bit<8> i; }\n\
    struct hs { h_t h; }\n\
    struct ms { bit<8> x; }\n\
    parser P(packet_in p, out hs h, inout ms m, inout std_t std) {\n\
    state start { p.extract(h.h); transition accept; }\n\
    }\n\
    control I(inout hs h, inout ms m, inout std_t std) {\n\
    FlowArray<bit<8>>(64) c;\n\
    apply { flow_key(h.h.k); m.x = c.read((bit<16>) h.h.i); c.write((bit<16>) h.h.i, m.x + 1); h.h.k = m.x + 1; std.out_port = std.in_port; }\n\
    }\n\
    control D(packet_out p, in hs h) { apply { p.emit(h.h); } }\n\
    RpSwitch(P(), I(), D()) main;\n\
    ";

// A translator of addresses.
const TRANSLATOR: &[u8] = b"#include <core.p4>\n\
    #include <rp.p4>\n\
    typedef bit<32> ip_t;\n\
    header eth_t { bit<48> dst; bit<48> src; bit<16> etype; }\n\
    header ipv4_t {\n\
    \x20 bit<4> version; bit<4> ihl; bit<8> tos; bit<16> len;\n\
    \x20 bit<16> id; bit<3> flags; bit<13> frag;\n\
    \x20 bit<8> ttl; bit<8> proto; bit<16> sum;\n\
    \x20 ip_t src; ip_t dst;\n\
    }\n\
    struct hdrs { eth_t eth; ipv4_t ip; }\n\
    struct meta_t { ip_t a; }\n\
    parser P(packet_in pkt, out hdrs h, inout meta_t m, inout std_t std) {\n\
    \x20 state start {\n\
    \x20   pkt.extract(h.eth);\n\
    \x20   transition select(h.eth.etype) { 0x0800: ipv4; default: accept; }\n\
    \x20 }\n\
    \x20 state ipv4 { pkt.extract(h.ip); transition accept; }\n\
    }\n\
    control I(inout hdrs h, inout meta_t m, inout std_t std) {\n\
    \x20 FlowCell<bit<32>>() chosen;\n\
    \x20 action go(bit<16> port) { std.out_port = port; }\n\
    \x20 action toss() { std.drop = 1; }\n\
    \x20 table route {\n\
    \x20   key = { h.ip.dst : lpm; }\n\
    \x20   actions = { go; toss; }\n\
    \x20   const default_action = toss();\n\
    \x20   const entries = {\n\
    \x20     0x0a000000 &&& 0xff000000 : go(2);\n\
    \x20     0x0a010000 &&& 0xffff0000 : go(3);\n\
    \x20     0 &&& 0 : go(9);\n\
    \x20   }\n\
    \x20 }\n\
    \x20 apply {\n\
    \x20   if (h.ip.isValid()) {\n\
    \x20     route.apply();\n\
    \x20     flow_key(h.ip.src);\n\
    \x20     m.a = chosen.read();\n\
    \x20     if (m.a == 0) {\n\
    \x20       m.a = 0xc6336400 | (h.ip.src & 0xff);\n\
    \x20       chosen.write(m.a);\n\
    \x20     }\n\
    \x20     h.ip.src = m.a;\n\
    \x20   } else { std.drop = 1; }\n\
    \x20 }\n\
    }\n\
    control D(packet_out pkt, in hdrs h) { apply { pkt.emit(h.eth); pkt.emit(h.ip); } }\n\
    RpSwitch(P(), I(), D()) main;\n\
    ";

// What is told of a program's tree: where its parser and its control stand, and its canonical text.
#[derive(Drop)]
struct Seen {
    parser: u64,
    ingress: u64,
    canonical: Option<Bytes>,
}

// A tree is let go in a box, since the proof of an exit that drops one is long.
fn read_again(alloc: Global, text: &[u8]) -> Option<Seen> {
    match parse(alloc, text) {
        Ok(tree) => {
            let tree = Boxed::new(alloc, tree).ok()?;
            Some(Seen {
                parser: tree.get().parser.at,
                ingress: tree.get().ingress.at,
                canonical: print(alloc, tree.get()).ok(),
            })
        }
        Err(_) => None,
    }
}

// The canonical text of a program's tree.
fn reprinted(alloc: Global, text: &[u8]) -> Option<Bytes> {
    read_again(alloc, text)?.canonical
}

#[test]
fn programs_are_read_and_printed(rt: HostRuntime) -> Result<(), Fail> {
    let alloc = rt.alloc();
    let canonical = reprinted(alloc, COUNTER).ok_or("a tree")?;
    assert_eq!(rt; canonical.as_slice(), CANONICAL_COUNTER);
    let rewritten = reprinted(alloc, REWRITTEN_COUNTER).ok_or("a tree")?;
    assert_eq!(rt; rewritten.as_slice(), REWRITTEN_COUNTER);
    for text in [COUNTER, ARRAY, TRANSLATOR] {
        let once = reprinted(alloc, text).ok_or("a tree")?;
        let again = reprinted(alloc, once.as_slice()).ok_or("a tree")?;
        assert_eq!(rt; again.as_slice(), once.as_slice());
    }
    Ok(())
}

#[test]
fn nodes_have_their_places(rt: HostRuntime) -> Result<(), Fail> {
    let seen = read_again(rt.alloc(), COUNTER).ok_or("a tree")?;
    assert_eq!(rt; seen.parser, 70);
    assert_eq!(rt; seen.ingress, 186);
    Ok(())
}
