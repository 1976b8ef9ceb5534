use super::*;
use proto_data::Body;
use rp_base::{Bytes, Node};
use std::test::Fail;

// The four frames of one packet `a!`, which comes in at port 7, from the switch to the store and back.
const ASK: [u8; 27] = [
    0x52, 0x50, 1, 1, 0, 16, 0, 0, 0, 1, 0, 0, 0, 1, 1, 0x61, 1, 0, 0, 0, 1, 0, 7, 0, 2, 0x61, 0x21,
];

const GRANT: [u8; 41] = [
    0x52, 0x50, 1, 2, 16, 0, 0, 0, 0, 1, 0, 0, 0, 1, 0, 0, 0, 1, 1, 0x61, 0, 1, 0, 0, 0, 0, 0, 0,
    0, 0, 1, 0, 0, 0, 1, 0, 7, 0, 2, 0x61, 0x21,
];

const PUT: [u8; 51] = [
    0x52, 0x50, 1, 4, 0, 16, 0, 0, 0, 1, 0, 0, 0, 1, 0, 0, 0, 1, 1, 0x61, 0, 1, 0, 0, 0, 0, 0, 0,
    0, 0, 0, 1, 1, 0, 0, 0, 1, 0, 7, 0, 10, 0, 0, 0, 0, 0, 0, 0, 1, 0x61, 0x21,
];

const ACK: [u8; 39] = [
    0x52, 0x50, 1, 5, 16, 0, 0, 0, 0, 1, 0, 0, 0, 1, 0, 0, 0, 1, 1, 0x61, 1, 0, 0, 0, 1, 0, 7, 0,
    10, 0, 0, 0, 0, 0, 0, 0, 1, 0x61, 0x21,
];

#[test]
fn frames_of_one_packet(rt: HostRuntime) -> Result<(), Fail> {
    let alloc = rt.alloc();
    for frame in [ASK.as_slice(), &GRANT, &PUT, &ACK] {
        let m = decode(alloc, frame)?;
        let again = encode(alloc, &m)?;
        assert_eq!(rt; again.as_slice(), frame);
    }
    let m = decode(alloc, &ASK)?;
    assert!(rt; m.from == Node::Switch(0) && m.to == Node::Replica(0));
    let Body::Ask {
        inc: 1,
        nonce: 1,
        key,
        load: Some(load),
    } = &m.body
    else {
        return Err("an Ask".into());
    };
    assert_eq!(rt; key.as_slice(), b"a".as_slice());
    assert_eq!(rt; (load.mark, load.port), (1, 7));
    assert_eq!(rt; load.bytes.as_slice(), b"a!".as_slice());
    let m = decode(alloc, &PUT)?;
    let Body::Put { delta, .. } = &m.body else {
        return Err("a Put".into());
    };
    assert_eq!(rt; delta.as_slice(), [(0, 1)].as_slice());
    Ok(())
}

// Each row: what follows the letters, the version and the kind, and the place of the fault.
#[test]
fn faults_have_places(rt: HostRuntime) -> Result<(), Fail> {
    let alloc = rt.alloc();
    for (len, at) in [(0, 0), (1, 0), (7, 6), (16, 16), (24, 23), (26, 25)] {
        assert!(rt; len <= ASK.len());
        assert_eq!(rt;
            decode(alloc, &ASK[..len]).err(),
            Some(FrameEnd::BadFrame { at }),
            "cut after {len}"
        );
    }
    let mut longer = Bytes::new(alloc);
    longer.append(&ASK)?;
    longer.push(0)?;
    assert_eq!(rt;
        decode(alloc, longer.as_slice()).err(),
        Some(FrameEnd::BadFrame { at: 27 })
    );
    for (place, byte, at) in [
        (0, 0x51, 0),
        (1, 0x51, 0),
        (2, 2, 2),
        (3, 12, 3),
        (4, 16, 4),
        (5, 0, 5),
        (14, 17, 14),
        (16, 2, 16),
    ] {
        let mut other = ASK;
        other[place] = byte;
        assert_eq!(rt;
            decode(alloc, &other).err(),
            Some(FrameEnd::BadFrame { at }),
            "{byte} at {place}"
        );
    }
    Ok(())
}

// Where each field of a frame begins.
const ASK_FIELDS: [u64; 14] = [0, 2, 3, 4, 5, 6, 10, 14, 15, 16, 17, 21, 23, 25];

const GRANT_FIELDS: [u64; 17] = [0, 2, 3, 4, 5, 6, 10, 14, 18, 19, 20, 22, 30, 31, 35, 37, 39];

const PUT_FIELDS: [u64; 18] = [
    0, 2, 3, 4, 5, 6, 10, 14, 18, 19, 20, 22, 24, 32, 33, 37, 39, 41,
];

const ACK_FIELDS: [u64; 15] = [0, 2, 3, 4, 5, 6, 10, 14, 18, 19, 20, 21, 25, 27, 29];

// The field that a cut leaves without its end, or without any byte.
fn field_cut(fields: &[u64], len: usize) -> u64 {
    let mut at = 0;
    for start in fields {
        if *start <= len as u64 {
            at = *start;
        }
    }
    at
}

#[test]
fn frames_cut_after_each_byte(rt: HostRuntime) -> Result<(), Fail> {
    let alloc = rt.alloc();
    for (frame, fields) in [
        (ASK.as_slice(), ASK_FIELDS.as_slice()),
        (GRANT.as_slice(), GRANT_FIELDS.as_slice()),
        (PUT.as_slice(), PUT_FIELDS.as_slice()),
        (ACK.as_slice(), ACK_FIELDS.as_slice()),
    ] {
        for len in 0..frame.len() {
            let at = field_cut(fields, len);
            assert_eq!(rt;
                decode(alloc, &frame[..len]).err(),
                Some(FrameEnd::BadFrame { at }),
                "cut after {len}"
            );
        }
    }
    Ok(())
}
