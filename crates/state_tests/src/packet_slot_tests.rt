// A slot contains the bytes with which it was filled last.
use packet_slot::*;

#[test]
fn a_slot_has_the_bytes_that_it_was_filled_with_last(rt: HostRuntime) {
    let mut slot = PacketSlot::new();
    assert!(rt; slot.bytes().is_empty());
    slot.fill(b"one packet");
    slot.fill(b"another");
    assert_eq!(rt; slot.bytes(), b"another".as_slice());
    slot.fill(&[7; PACKET_BYTES]);
    assert_eq!(rt; slot.bytes(), [7u8; 1500].as_slice());
    slot.fill(b"");
    assert_eq!(rt; slot.bytes().len(), 0);
}
