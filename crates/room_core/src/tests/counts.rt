// Tests of the counters of subscribers and tracks.

use super::{
    HIGHEST, KEY, LAYERED, LOWEST, PLAIN, SSRC, buffer, frame, join, packet, publish, scratch, take,
};
use crate::{KeepNone, Room, SubscriberCounts, TrackCounts};
use sfu_base::{Call, Kind, Refusal, Reply};

const NOTHING: SubscriberCounts = SubscriberCounts {
    passed: 0,
    not_of_target: 0,
    behind: 0,
    reference: 0,
    full: 0,
    link: 0,
    unopened: 0,
    queued: 0,
    taken: 0,
    resent: 0,
    left_out: 0,
    waiting: 0,
};

#[test]
fn frames_are_counted_by_their_verdicts(rt: HostRuntime) {
    let mut room = Room::new(rt.alloc(), KeepNone::new());
    let mut scratch = scratch();
    assert_eq!(rt; room.subscriber_counts(1), Err(Refusal::NoSubscriber));
    assert_eq!(rt; room.track_counts(1), Err(Refusal::NoTrack));
    for call in [
        publish(1, LAYERED),
        join(1, 1, HIGHEST),
        join(2, 1, LOWEST),
        packet(1, &KEY),
        packet(1, &frame(1, 1, 3)),
        join(3, 1, HIGHEST),
        // Sequence number 2 is given up. The packet with sequence number 3 is frame 2. This frame belongs to the second temporal layer, and refers to
        // frames 0 and 1.
        packet(1, &frame(3, 2, 5)),
        Call::Tick {
            track: 1,
            moment: 100,
        },
        // The same packet is late now.
        packet(1, &frame(3, 2, 5)),
        // The packet with sequence number 4 is padding.
        packet(1, &[0x80, 0x60, 0, 4, 0, 0, 0, 0, 0x11, 0x11, 0x11, 0x11]),
        take(1),
        take(1),
        Call::Resend {
            subscriber: 1,
            seq: 8,
        },
        Call::Resend {
            subscriber: 1,
            seq: 9,
        },
        take(2),
        take(2),
    ] {
        room.serve(0, &call, &mut scratch);
    }
    let counts = TrackCounts {
        arrived: 4,
        given_up: 1,
        frames: 3,
        key_frames: 1,
        unframed: 1,
    };
    assert_eq!(rt; room.track_counts(1), Ok(counts));
    let first = SubscriberCounts {
        passed: 3,
        queued: 3,
        taken: 2,
        resent: 1,
        waiting: 1,
        ..NOTHING
    };
    assert_eq!(rt; room.subscriber_counts(1), Ok(first));
    let second = SubscriberCounts {
        passed: 1,
        not_of_target: 2,
        queued: 1,
        taken: 1,
        ..NOTHING
    };
    assert_eq!(rt; room.subscriber_counts(2), Ok(second));
    // The third subscriber joined after frames 0 and 1, and frame 2 refers to these frames.
    let third = SubscriberCounts {
        reference: 1,
        ..NOTHING
    };
    assert_eq!(rt; room.subscriber_counts(3), Ok(third));
}

#[test]
fn packets_that_a_full_queue_left_out_are_counted(rt: HostRuntime) {
    let mut room = Room::new(rt.alloc(), KeepNone::new());
    let mut scratch = scratch();
    assert_eq!(rt; room.publish(0, 1, Kind::Plain, SSRC, 100), Reply::Done);
    assert_eq!(rt; room.join(0, 1, 1, 0x2222_2222, 7, LOWEST), Reply::Done);
    for number in 0..514_u16 {
        let mut bytes = PLAIN;
        let [high, low] = number.to_be_bytes();
        bytes[2] = high;
        bytes[3] = low;
        room.packet(0, 1, 0, &buffer(&bytes));
    }
    let counts = TrackCounts {
        arrived: 514,
        given_up: 0,
        frames: 0,
        key_frames: 0,
        unframed: 0,
    };
    assert_eq!(rt; room.track_counts(1), Ok(counts));
    let full = SubscriberCounts {
        queued: 512,
        left_out: 2,
        waiting: 512,
        ..NOTHING
    };
    assert_eq!(rt; room.subscriber_counts(1), Ok(full));
    assert_eq!(rt; room.take(0, 1, &mut scratch), Reply::Packet);
    let taken = SubscriberCounts {
        taken: 1,
        waiting: 511,
        ..full
    };
    assert_eq!(rt; room.subscriber_counts(1), Ok(taken));
}
