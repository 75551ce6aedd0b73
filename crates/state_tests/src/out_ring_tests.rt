// Rows of packets that are queued in a ring and taken from it.
use out_ring::{OutRing, PacketStore, SharedPacket};
use rtp_packet::read;
use sfu_base::{PacketBuf, Refusal};
use std::test::Fail;

// A packet of a publisher: version 2, marker 0, payload type 96, a sequence number
// of its own, timestamp 0, SSRC 11111111, and one word that differs between packets.
fn packet(word: u32) -> [u8; 16] {
    let mut bytes = [
        0x80, 0x60, 0xAB, 0xCD, 0, 0, 0, 0, 0x11, 0x11, 0x11, 0x11, 0, 0, 0, 0,
    ];
    bytes[12..].copy_from_slice(&word.to_be_bytes());
    bytes
}

// Queues `packet(word)` if fewer than 512 packets are queued.
fn push(ring: &mut OutRing, word: u32, marker: bool) {
    let bytes = packet(word);
    if let (Ok(_), 0..512) = (read(&bytes), ring.queued()) {
        ring.push(&bytes, marker);
    }
}

// `packet(word)` as it is sent with SSRC 22222222.
fn outgoing(word: u32, seq: u16, marker: bool) -> [u8; 16] {
    let mut bytes = packet(word);
    bytes[1] = if marker { 0xE0 } else { 0x60 };
    bytes[2..4].copy_from_slice(&seq.to_be_bytes());
    bytes[8..12].copy_from_slice(&[0x22; 4]);
    bytes
}

#[test]
fn a_packet_is_queued_taken_and_resent(rt: HostRuntime) -> Result<(), Fail> {
    let alloc = rt.alloc();
    let packet: &[u8] = &packet(0);
    let mut ring = OutRing::new(alloc, 0x2222_2222, 65_535)?;
    let mut out = PacketBuf::new();
    if ring.queued() < 512
        && packet.len() <= 1536
        && let Ok(_) = read(packet)
    {
        ring.push(packet, true);
    }
    assert_eq!(rt; ring.take(&mut out), Ok(65_535));
    assert_eq!(rt; ring.take(&mut out), Err(Refusal::Empty));
    assert_eq!(rt; ring.resend(65_535, &mut out), Ok(()));
    assert_eq!(rt; out.bytes(), outgoing(0, 65_535, true).as_slice());
    let not_kept = Refusal::NotKept {
        oldest: 65_535,
        next: 0,
    };
    assert_eq!(rt; ring.resend(7, &mut out), Err(not_kept));
    Ok(())
}

#[test]
fn the_last_1024_packets_that_were_taken_are_resent(rt: HostRuntime) -> Result<(), Fail> {
    let mut ring = OutRing::new(rt.alloc(), 0x2222_2222, 0)?;
    let mut out = PacketBuf::new();
    for word in 0..1025u32 {
        push(&mut ring, word, false);
        assert_eq!(rt; ring.take(&mut out), Ok(word as u16));
        assert_eq!(rt; out.bytes(), outgoing(word, word as u16, false).as_slice());
    }
    push(&mut ring, 1025, false);
    assert_eq!(rt; ring.queued(), 1);
    for word in 1..1025u32 {
        assert_eq!(rt; ring.resend(word as u16, &mut out), Ok(()));
        assert_eq!(rt; out.bytes(), outgoing(word, word as u16, false).as_slice());
    }
    let not_kept = Err(Refusal::NotKept {
        oldest: 1,
        next: 1025,
    });
    for seq in [0, 1025, 1026, 65_535] {
        assert_eq!(rt; ring.resend(seq, &mut out), not_kept);
    }
    assert_eq!(rt; out.bytes(), outgoing(1024, 1024, false).as_slice());
    Ok(())
}

#[test]
fn numbers_go_on_over_the_wrap(rt: HostRuntime) -> Result<(), Fail> {
    let mut ring = OutRing::new(rt.alloc(), 0x2222_2222, 65_534)?;
    let mut out = PacketBuf::new();
    let mut wanted = 65_534u16;
    for word in 0..131_074u32 {
        push(&mut ring, word, word % 3 == 0);
        assert_eq!(rt; ring.take(&mut out), Ok(wanted));
        assert_eq!(rt;
            out.bytes(),
            outgoing(word, wanted, word % 3 == 0).as_slice()
        );
        wanted = wanted.wrapping_add(1);
    }
    assert_eq!(rt; wanted, 0);
    assert_eq!(rt; ring.resend(65_535, &mut out), Ok(()));
    assert_eq!(rt; out.bytes(), outgoing(131_073, 65_535, true).as_slice());
    assert_eq!(rt; ring.resend(64_512, &mut out), Ok(()));
    assert_eq!(rt; out.bytes(), outgoing(130_050, 64_512, true).as_slice());
    let not_kept = Err(Refusal::NotKept {
        oldest: 64_512,
        next: 0,
    });
    assert_eq!(rt; ring.resend(64_511, &mut out), not_kept);
    assert_eq!(rt; ring.resend(0, &mut out), not_kept);
    Ok(())
}

#[test]
fn packets_of_512_wait_in_order_and_nothing_is_kept_before_a_take(
    rt: HostRuntime,
) -> Result<(), Fail> {
    let mut ring = OutRing::new(rt.alloc(), 0x2222_2222, 1)?;
    let mut out = PacketBuf::new();
    assert_eq!(rt; ring.take(&mut out), Err(Refusal::Empty));
    assert_eq!(rt;
        ring.resend(0, &mut out),
        Err(Refusal::NotKept { oldest: 1, next: 1 })
    );
    for word in 0..512u32 {
        push(&mut ring, word, true);
    }
    assert_eq!(rt; ring.queued(), 512);
    assert_eq!(rt;
        ring.resend(1, &mut out),
        Err(Refusal::NotKept { oldest: 1, next: 1 })
    );
    for word in 0..512u32 {
        assert_eq!(rt; ring.take(&mut out), Ok(word as u16 + 1));
        assert_eq!(rt;
            out.bytes(),
            outgoing(word, word as u16 + 1, true).as_slice()
        );
    }
    assert_eq!(rt; ring.take(&mut out), Err(Refusal::Empty));
    assert_eq!(rt; ring.queued(), 0);
    assert_eq!(rt; out.bytes(), outgoing(511, 512, true).as_slice());
    Ok(())
}

#[test]
fn a_ring_is_made_where_there_is_memory(rt: HostRuntime) -> Result<(), Fail> {
    let ring = OutRing::new(rt.alloc(), 1, 0)?;
    assert_eq!(rt; ring.queued(), 0);
    Ok(())
}

// Puts `packet(word)` into the store.
fn put(store: &mut PacketStore, word: u32) -> Option<SharedPacket> {
    let bytes = packet(word);
    match read(&bytes) {
        Ok(_) => store.put(&bytes),
        Err(_) => None,
    }
}

// Queues a shared packet if fewer than 512 packets are queued. Returns the shared packet that was in its slot before, if there was one.
fn push_shared(ring: &mut OutRing, packet: SharedPacket, marker: bool) -> Option<SharedPacket> {
    match ring.queued() {
        0..512 => ring.push_shared(packet, marker),
        _ => None,
    }
}

#[test]
fn a_packet_that_rings_share_has_each_ones_fields_and_its_buffer_is_used_again(
    rt: HostRuntime,
) -> Result<(), Fail> {
    let alloc = rt.alloc();
    let mut store = PacketStore::new(alloc);
    assert!(rt; put(&mut store, 0).is_none());
    store.grow(alloc, 1)?;
    let mut first = OutRing::new(alloc, 0x2222_2222, 65_535)?;
    let mut second = OutRing::new(alloc, 0x2222_2222, 7)?;
    let Some(shared) = put(&mut store, 1) else {
        return Err(Fail::from("no buffer is free"));
    };
    let Some(another) = shared.another() else {
        return Err(Fail::from("not counted"));
    };
    assert!(rt; push_shared(&mut first, shared, true).is_none());
    assert!(rt; push_shared(&mut second, another, false).is_none());
    assert_eq!(rt; store.spare(), 0);
    assert!(rt; put(&mut store, 2).is_none());
    let mut out = PacketBuf::new();
    assert_eq!(rt; first.take(&mut out), Ok(65_535));
    assert_eq!(rt; out.bytes(), outgoing(1, 65_535, true).as_slice());
    assert_eq!(rt; second.take(&mut out), Ok(7));
    assert_eq!(rt; out.bytes(), outgoing(1, 7, false).as_slice());
    // The first ring stores the packet until 1,024 more packets were taken.
    for word in 2..1026u32 {
        assert!(rt; first.evict().is_none());
        push(&mut first, word, false);
        assert!(rt; first.take(&mut out).is_ok());
    }
    let Some(left) = first.evict() else {
        return Err(Fail::from("it is kept too long"));
    };
    store.release(left);
    assert_eq!(rt; store.spare(), 0);
    assert_eq!(rt; second.resend(7, &mut out), Ok(()));
    assert_eq!(rt; out.bytes(), outgoing(1, 7, false).as_slice());
    second.release(&mut store);
    assert_eq!(rt; store.spare(), 1);
    // A shared packet that isn't evicted is returned by the push that takes its slot.
    let Some(shared) = put(&mut store, 3) else {
        return Err(Fail::from("its buffer isn't used again"));
    };
    assert!(rt; push_shared(&mut first, shared, false).is_none());
    for word in 4..1539u32 {
        push(&mut first, word, false);
        assert!(rt; first.take(&mut out).is_ok());
    }
    store.grow(alloc, 2)?;
    let Some(last) = put(&mut store, 1539) else {
        return Err(Fail::from("no other buffer"));
    };
    assert!(rt; push_shared(&mut first, last, false).is_some());
    Ok(())
}
