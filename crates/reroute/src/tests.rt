use super::*;
use rp_base::{Key, Node};
use std::test::Fail;

fn switch_of(router: &Router, byte: u8) -> Option<u8> {
    let key = Key::of(&[byte])?;
    router.pick(Some(&key))
}

#[test]
fn a_takeover(rt: HostRuntime) {
    let mut router = Router::open(2, 1);
    assert_eq!(rt; switch_of(&router, b'a'), Some(1));
    assert_eq!(rt; switch_of(&router, b'b'), Some(0));
    assert_eq!(rt; router.pick(None), Some(0));
    assert_eq!(rt; router.detect(Node::Switch(0), false), Ok(()));
    assert_eq!(rt; switch_of(&router, b'b'), Some(1));
    assert_eq!(rt; router.detect(Node::Switch(0), true), Ok(()));
    assert_eq!(rt; switch_of(&router, b'b'), Some(0));
    assert_eq!(rt; router.config().number, 1);
}

#[test]
fn refused_detections(rt: HostRuntime) {
    let mut router = Router::open(1, 1);
    assert_eq!(rt;
        router.detect(Node::Replica(0), true),
        Err(DetectEnd::Alive)
    );
    assert_eq!(rt; router.detect(Node::Switch(0), true), Err(DetectEnd::Alive));
    assert_eq!(rt; router.detect(Node::Switch(0), false), Ok(()));
    assert_eq!(rt;
        router.detect(Node::Switch(0), false),
        Err(DetectEnd::Known)
    );
    assert_eq!(rt; switch_of(&router, b'a'), None);
    assert_eq!(rt; router.pick(None), None);
}

#[test]
fn the_head_and_the_middle_fail(rt: HostRuntime) {
    let mut router = Router::open(1, 2);
    assert_eq!(rt; router.detect(Node::Replica(0), false), Ok(()));
    assert_eq!(rt; router.config().number, 2);
    assert_eq!(rt; router.config().chain.as_slice(), [1].as_slice());
    assert_eq!(rt;
        router.detect(Node::Replica(0), false),
        Err(DetectEnd::Known)
    );

    let mut router = Router::open(1, 3);
    assert_eq!(rt; router.config().number, 1);
    assert_eq!(rt; router.config().chain.as_slice(), [0, 1, 2].as_slice());
    assert_eq!(rt; router.detect(Node::Replica(1), false), Ok(()));
    assert_eq!(rt; router.config().number, 2);
    assert_eq!(rt; router.config().chain.as_slice(), [0, 2].as_slice());
}
