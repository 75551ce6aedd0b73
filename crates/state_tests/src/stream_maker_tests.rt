use sfu_base::PacketBuf;
use std::process::Abort;
use stream_maker::*;

// Checks that the next event, at this moment, is a packet with this sequence number; for `None`, that it is a tick.
fn expect_next(rt: &impl Abort, maker: &mut Maker, sequence: Option<u8>, moment: u64) {
    let mut out = PacketBuf::new();
    let event = maker.next_event(&mut out);
    match sequence {
        Some(number) => {
            assert_eq!(rt; event, Event::Packet { moment });
            assert_eq!(rt; out.bytes().get(3).copied(), Some(number));
        }
        None => {
            assert_eq!(rt; event, Event::Tick { moment });
            assert_eq!(rt; out.bytes().len(), 0);
        }
    }
}

// A separate program computed the draws. Of nine packets, 0, 1, 2, 6 and 7 are lost, 3 and 5 are held back, and 4 and 8 are sent twice.
#[test]
fn a_held_packet_is_sent_behind_the_next(rt: HostRuntime) {
    let mut maker = Maker::new(5, 1, 50);
    let rows: [(Option<u8>, u64); 10] = [
        (Some(4), 0),
        (Some(4), 0),
        (Some(3), 0),
        (None, 0),
        (None, 33),
        (Some(8), 66),
        (Some(8), 66),
        (Some(5), 33),
        (None, 66),
        (None, 1066),
    ];
    for (sequence, moment) in rows {
        expect_next(&rt, &mut maker, sequence, moment);
    }
    assert_eq!(rt; maker.next_event(&mut PacketBuf::new()), Event::End);
    assert_eq!(rt;
        maker.counts(),
        Counts {
            frames: 5,
            packets: 9,
            lost: 5,
            repeated: 2,
            swapped: 2
        }
    );
}

#[test]
fn a_thousand_frames_without_loss(rt: HostRuntime) {
    let mut maker = Maker::new(1000, 7, 0);
    let mut out = PacketBuf::new();
    for _ in 0..2021 {
        assert!(rt; maker.next_event(&mut out) != Event::End);
    }
    assert_eq!(rt; maker.next_event(&mut out), Event::End);
    assert_eq!(rt;
        maker.counts(),
        Counts {
            frames: 1000,
            packets: 1520,
            lost: 0,
            repeated: 0,
            swapped: 0
        }
    );
}

#[test]
fn the_first_packet_carries_the_structure(rt: HostRuntime) {
    let mut maker = Maker::new(2, 0, 0);
    let mut out = PacketBuf::new();
    assert_eq!(rt; maker.next_event(&mut out), Event::Packet { moment: 0 });
    let front = [
        0x90, 0x60, 0, 0, 0, 0, 0, 0, 0x11, 0x11, 0x11, 0x11, 0x10, 0, 0, 7, 4, 25, 0x80, 0, 0,
        0x80, 0x03, 0x18, 0x7F, 0xAF, 0xAC, 0x4A, 0x0A, 0x04, 0x04, 0xD1, 0x41, 0x09, 0xA1, 0x15,
        0x80, 0x08, 0x64, 0x22, 0x22, 0x26, 0x40, 0, 0x58, 0x30, 0,
    ];
    assert_eq!(rt; out.bytes().len(), 245);
    assert!(rt; out.bytes().starts_with(&front));
    assert_eq!(rt; maker.next_event(&mut out), Event::Packet { moment: 0 });
    let front = [
        0x90, 0x60, 0, 1, 0, 0, 0, 0, 0x11, 0x11, 0x11, 0x11, 0xBE, 0xDE, 0, 1, 0x42, 0, 0, 0,
        0xD0, 0,
    ];
    assert_eq!(rt; out.bytes().len(), 221);
    assert!(rt; out.bytes().starts_with(&front));
}
