use super::*;
use std::test::Fail;

#[test]
fn fields_are_read_again(rt: HostRuntime) -> Result<(), Fail> {
    let mut out = BitWriter::new(rt.alloc());
    for (w, v) in [
        (1, 1),
        (7, 3),
        (3, 5),
        (13, 0x1abc),
        (128, u128::MAX - 9),
        (48, 7),
    ] {
        out.put(w, v)?;
    }
    let bytes = out.finish();
    assert_eq!(rt; bytes.len(), 25);
    assert_eq!(rt; bytes.at(0), Some(&0x83));
    let mut bits = BitReader::new(bytes.as_slice());
    for (w, v) in [(1, 1), (7, 3), (3, 5), (13, 0x1abc), (128, u128::MAX - 9)] {
        assert_eq!(rt; bits.take(w), Ok(v));
    }
    assert_eq!(rt; bits.take(49), Err(Short { left: 48 }));
    assert_eq!(rt; bits.take(48), Ok(7));
    assert_eq!(rt; bits.take(1), Err(Short { left: 0 }));
    Ok(())
}

#[test]
fn bytes_go_at_any_bit(rt: HostRuntime) -> Result<(), Fail> {
    let mut out = BitWriter::new(rt.alloc());
    out.put_bytes([0x12].as_slice())?;
    out.put(4, 0xa)?;
    out.put_bytes([0x34, 0x56].as_slice())?;
    out.put(4, 0xb)?;
    let bytes = out.finish();
    assert_eq!(rt; bytes.as_slice(), [0x12, 0xa3, 0x45, 0x6b].as_slice());
    let mut bits = BitReader::new(bytes.as_slice());
    assert_eq!(rt; bits.take(4), Ok(0x1));
    assert_eq!(rt; bits.whole_bytes(), None);
    assert_eq!(rt; bits.take(12), Ok(0x2a3));
    assert_eq!(rt; bits.whole_bytes(), Some([0x45, 0x6b].as_slice()));
    Ok(())
}
