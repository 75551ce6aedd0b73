use dd_bits::*;
use std::test::Fail;

#[test]
fn numbers_of_both_kinds_are_read_one_after_another(rt: HostRuntime) -> Result<(), Fail> {
    let mut bits = BitReader::new(&[0xcb, 0x00]);
    assert_eq!(rt; bits.ns(5)?, 3);
    for value in [0, 1, 2, 0] {
        assert_eq!(rt; bits.ns(3)?, value);
    }
    assert_eq!(rt; bits.left(), 7);
    assert!(rt; bits.bits(8).is_err());
    assert_eq!(rt; bits.left(), 7);
    assert_eq!(rt; bits.bits(7)?, 0);
    assert_eq!(rt; bits.left(), 0);
    Ok(())
}

#[test]
fn numbers_of_both_kinds_are_written_one_after_another(rt: HostRuntime) -> Result<(), Fail> {
    let mut out = BitWriter::new();
    out.put_ns(5, 3)?;
    for value in [0, 1, 2, 0] {
        out.put_ns(3, value)?;
    }
    assert_eq!(rt; out.bytes(), [0xcb, 0x00].as_slice());
    out.put(7, 0x55)?;
    assert_eq!(rt; out.bytes(), [0xcb, 0x55].as_slice());
    out.put_ns(1, 0)?;
    for value in 0..5 {
        out.put_ns(5, value)?;
    }
    // the codes 00 01 10 110 111, and the zeros after them
    assert_eq!(rt; out.bytes(), [0xcb, 0x55, 0x1b, 0x70].as_slice());
    Ok(())
}

#[test]
fn a_writer_holds_2040_bytes(rt: HostRuntime) -> Result<(), Fail> {
    let mut out = BitWriter::new();
    for _ in 0..510 {
        out.put(32, 0x0102_0304)?;
    }
    assert!(rt; out.put(1, 0).is_err());
    assert!(rt; out.put(0, 0).is_ok());
    assert_eq!(rt; out.bytes().len(), 2040);
    assert_eq!(rt; out.bytes().last().copied(), Some(4));
    Ok(())
}

#[test]
fn bits_that_were_read_are_put_again(rt: HostRuntime) -> Result<(), Fail> {
    let mut bits = BitReader::new(&[0xcb, 0x5a]);
    let begin = bits;
    assert_eq!(rt; bits.ns(5)?, 3);
    assert_eq!(rt; bits.bits(4)?, 5);
    assert_eq!(rt; bits.left(), 9);
    let mut out = BitWriter::new();
    out.put(2, 1)?;
    out.put_read(begin, bits)?;
    assert_eq!(rt; out.bytes(), [0x72, 0x80].as_slice());
    out.clear();
    out.put(3, 5)?;
    assert_eq!(rt; out.bytes(), [0xa0].as_slice());
    Ok(())
}
