use super::*;
use std::test::Fail;

#[test]
fn a_node_stands_on_two_lists(rt: HostRuntime) -> Result<(), Fail> {
    let mut arena = Arena::<u64>::with_room(rt.alloc(), 2, 2, 1)?;
    assert_eq!(rt; arena.front(Which::B, 0), None);
    let Ok(five) = arena.add(0, 0, 5) else {
        return Err("room for the first".into());
    };
    let Ok(_) = arena.add(1, 0, 7) else {
        return Err("room for the second".into());
    };
    let Err((_, back)) = arena.add(0, 0, 9) else {
        return Err("no room for a third".into());
    };
    assert_eq!(rt; back, 9);
    assert_eq!(rt; arena.count(Which::A, 0), 1);
    assert_eq!(rt; arena.count(Which::B, 0), 2);
    assert_eq!(rt; arena.front(Which::A, 0), Some(five));
    assert_eq!(rt; arena.front(Which::B, 0), Some(five));
    assert!(rt; arena.front(Which::A, 1) != Some(five));
    Ok(())
}

#[test]
fn a_node_is_moved_written_and_removed(rt: HostRuntime) -> Result<(), Fail> {
    let mut arena = Arena::<u64>::with_room(rt.alloc(), 3, 1, 1)?;
    let Ok(five) = arena.add(0, 0, 5) else {
        return Err("room for a node".into());
    };
    *arena.get_mut(five) = 6;
    assert_eq!(rt; *arena.get(five), 6);
    assert_eq!(rt; arena.next(Which::A, five), None);
    arena.move_to_back(Which::B, five);
    assert_eq!(rt; arena.front(Which::B, 0), Some(five));
    assert_eq!(rt; arena.remove(five), 6);
    assert_eq!(rt; arena.front(Which::A, 0), None);
    Ok(())
}
