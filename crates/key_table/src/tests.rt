use super::*;
use rp_base::Key;
use std::test::Fail;

#[test]
fn keys_keep_their_places(rt: HostRuntime) -> Result<(), Fail> {
    let alloc = rt.alloc();
    let (a, b) = (Key::of(b"a").ok_or("a")?, Key::of(b"b").ok_or("b")?);
    let mut table = KeyTable::new(alloc);
    assert_eq!(rt; table.put(b, 7u64)?, None);
    assert_eq!(rt; table.put(a, 8u64)?, None);
    assert_eq!(rt; table.put(b, 9u64)?, Some(7));
    if let Some(value) = table.get_mut(&a) {
        *value = 5;
    }
    assert_eq!(rt; table.len(), 2);
    assert_eq!(rt; table.get(&a).copied(), Some(5));
    let first = table.at(0).ok_or("a first key")?;
    assert_eq!(rt; first.0.as_slice(), b"b".as_slice());
    assert_eq!(rt; *first.1, 9);
    Ok(())
}
