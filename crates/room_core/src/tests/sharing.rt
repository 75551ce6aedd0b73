// Tests of the packets that a track's subscribers share, and of when the store's buffers are free again.

use super::{
    HIGHEST, KEY, LAYERED, LOWEST, PLAIN, frame, join, outgoing, packet, publish, scratch, take,
};
use crate::{KeepNone, Room};
use sfu_base::{Call, Kind, Reply};
use std::test::Fail;

// Returns the number of free buffers of a track's store.
fn free(room: &Room<KeepNone>, track: u32) -> usize {
    match room.content.tracks.get(&track) {
        Some(known) => known.frame_cache.store.spare(),
        None => 0,
    }
}

#[test]
fn subscribers_share_a_packet_and_its_buffer_is_free_when_none_has_it(
    rt: HostRuntime,
) -> Result<(), Fail> {
    let mut room = Room::new(rt.alloc(), KeepNone);
    let mut out = scratch();
    let mut next = PLAIN;
    next[3] = 2;
    for call in [
        publish(1, Kind::Plain),
        join(1, 1, LOWEST),
        join(2, 1, LOWEST),
        packet(1, &PLAIN),
    ] {
        assert_eq!(rt; room.serve(0, &call, &mut out), Reply::Done);
    }
    assert_eq!(rt; free(&room, 1), 128 - 1);
    for subscriber in 1..3u32 {
        assert_eq!(rt; room.serve(0, &take(subscriber), &mut out), Reply::Packet);
        assert_eq!(rt; out.packet.bytes(), outgoing(&PLAIN, 7, false).bytes());
    }
    // The other subscriber still has the packet. The store deallocates all unused buffers, because a single subscriber shares no packets.
    assert_eq!(rt;
        room.serve(0, &Call::Leave { subscriber: 2 }, &mut out),
        Reply::Done
    );
    assert_eq!(rt; free(&room, 1), 0);
    // A packet that is queued when the track ends can still be taken.
    assert_eq!(rt; room.serve(0, &packet(1, &next), &mut out), Reply::Done);
    assert_eq!(rt;
        room.serve(0, &Call::Unpublish { track: 1 }, &mut out),
        Reply::Done
    );
    assert_eq!(rt; room.serve(0, &take(1), &mut out), Reply::Packet);
    assert_eq!(rt; out.packet.bytes(), outgoing(&next, 8, false).bytes());
    Ok(())
}

#[test]
fn packets_are_copied_while_no_buffer_is_free(rt: HostRuntime) -> Result<(), Fail> {
    let mut room = Room::new(rt.alloc(), KeepNone);
    let mut out = scratch();
    for call in [
        publish(1, Kind::Plain),
        join(1, 1, LOWEST),
        join(2, 1, LOWEST),
    ] {
        assert_eq!(rt; room.serve(0, &call, &mut out), Reply::Done);
    }
    let mut next = PLAIN;
    for number in 1..141u8 {
        next[3] = number;
        assert_eq!(rt; room.serve(0, &packet(1, &next), &mut out), Reply::Done);
    }
    assert_eq!(rt; free(&room, 1), 0);
    for number in 1..141u8 {
        next[3] = number;
        for subscriber in 1..3u32 {
            assert_eq!(rt; room.serve(0, &take(subscriber), &mut out), Reply::Packet);
            assert_eq!(rt;
                out.packet.bytes(),
                outgoing(&next, 6 + u16::from(number), false).bytes()
            );
        }
    }
    Ok(())
}

#[test]
fn a_first_packet_is_stored_once_for_each_mask(rt: HostRuntime) -> Result<(), Fail> {
    let mut room = Room::new(rt.alloc(), KeepNone);
    let mut out = scratch();
    for call in [
        publish(1, LAYERED),
        join(1, 1, HIGHEST),
        join(2, 1, HIGHEST),
        join(3, 1, LOWEST),
        packet(1, &KEY),
    ] {
        assert_eq!(rt; room.serve(0, &call, &mut out), Reply::Done);
    }
    // Three buffers are used: one for the packet as it arrived, and one for the packet with each of two masks.
    assert_eq!(rt; free(&room, 1), 2 * 128 - 3);
    Ok(())
}

#[test]
fn a_packet_without_a_mask_is_stored_once(rt: HostRuntime) -> Result<(), Fail> {
    let mut room = Room::new(rt.alloc(), KeepNone);
    let mut out = scratch();
    for call in [
        publish(1, LAYERED),
        join(1, 1, HIGHEST),
        join(2, 1, HIGHEST),
        packet(1, &KEY),
        packet(1, &frame(1, 1, 3)),
    ] {
        assert_eq!(rt; room.serve(0, &call, &mut out), Reply::Done);
    }
    // Two buffers are used: one for the key frame's packet with its mask, and one for the packet of frame 1. Both packets are still queued for both
    // subscribers.
    assert_eq!(rt; free(&room, 1), 128 - 2);
    Ok(())
}
