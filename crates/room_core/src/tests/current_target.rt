// Tests of the queries for a subscriber's decode target and for whether the target reaches the wish. In the structure of `KEY`, targets 0 and 1 have
// both spatial layers, and targets 2 and 3 have only the lower one. Targets 0 and 2 have both temporal layers, and targets 1 and 3 have only the
// first one. Templates 0 and 1 are switches for targets 2 and 3, and templates 3 and 4 are switches for targets 0 and 1 (Appendix A of RTP Payload
// Format For AV1).

use super::{HIGHEST, KEY, LAYERED, LOWEST, PLAIN, frame, join, packet, publish, scratch};
use crate::{DecodeTarget, KeepNone, Room};
use sfu_base::{Call, Kind, Refusal, Reply, Wish};

const BOTH: DecodeTarget = DecodeTarget {
    index: 0,
    layers: Some(HIGHEST),
};

const LOWER: DecodeTarget = DecodeTarget {
    index: 2,
    layers: Some(Wish {
        spatial: 0,
        temporal: 1,
    }),
};

const LEAST: DecodeTarget = DecodeTarget {
    index: 3,
    layers: Some(LOWEST),
};

// Another key frame.
fn key(seq: u8, number: u8) -> [u8; 47] {
    let mut key = KEY;
    key[3] = seq;
    key[20] = number;
    key
}

#[test]
fn a_raised_wish_is_reached_by_a_key_frame(rt: HostRuntime) {
    let aim = |wish| Call::Aim {
        subscriber: 1,
        wish,
    };
    let mut room = Room::new(rt.alloc(), KeepNone::new());
    let mut scratch = scratch();
    for (call, target, reached) in [
        (publish(1, LAYERED), Err(Refusal::NoSubscriber), false),
        (join(1, 1, LOWEST), Ok(None), false),
        (packet(1, &KEY), Ok(Some(LEAST)), true),
        (packet(1, &frame(1, 1, 3)), Ok(Some(LEAST)), true),
        // Frame 4 is a switch for targets 2 and 3 only. Frame 5 is a switch for targets 0 and 1, but it refers to frame 1, which wasn't forwarded.
        (aim(HIGHEST), Ok(Some(LEAST)), false),
        (packet(1, &frame(2, 4, 1)), Ok(Some(LOWER)), false),
        (packet(1, &frame(3, 5, 4)), Ok(Some(LOWER)), false),
        (packet(1, &key(4, 8)), Ok(Some(BOTH)), true),
        (packet(1, &frame(5, 9, 3)), Ok(Some(BOTH)), true),
        // Frame 12 is a switch for the lowest target.
        (aim(LOWEST), Ok(Some(BOTH)), false),
        (packet(1, &frame(6, 12, 1)), Ok(Some(LEAST)), true),
        // After the end of the track, the last frame still determines the best target that a wish allows.
        (Call::Unpublish { track: 1 }, Ok(Some(LEAST)), true),
        (aim(HIGHEST), Ok(Some(LEAST)), false),
        (aim(LOWEST), Ok(Some(LEAST)), true),
        (
            Call::Leave { subscriber: 1 },
            Err(Refusal::NoSubscriber),
            false,
        ),
    ] {
        assert_eq!(rt; room.serve(0, &call, &mut scratch), Reply::Done, "{call:?}");
        assert_eq!(rt; room.target_of(1), target, "{call:?}");
        let reported = match target {
            Ok(_) => Ok(reached),
            Err(why) => Err(why),
        };
        assert_eq!(rt; room.reaches_wish(1), reported, "{call:?}");
    }
}

#[test]
fn a_plain_track_has_no_target(rt: HostRuntime) {
    let mut room = Room::new(rt.alloc(), KeepNone::new());
    let mut scratch = scratch();
    for call in [
        publish(1, Kind::Plain),
        join(1, 1, HIGHEST),
        packet(1, &PLAIN),
    ] {
        assert_eq!(rt; room.serve(0, &call, &mut scratch), Reply::Done, "{call:?}");
    }
    assert_eq!(rt; room.target_of(1), Ok(None));
    assert_eq!(rt; room.reaches_wish(1), Ok(false));
}
