// Tests of the query for subscribers with queued packets.

use super::{HIGHEST, LOWEST, PLAIN, SSRC, buffer, join, scratch, take};
use crate::{KeepNone, Room};
use sfu_base::{Call, Kind, Reply};

#[test]
fn subscribers_with_queued_packets_are_listed(rt: HostRuntime) {
    let mut room = Room::new(rt.alloc(), KeepNone::new());
    let mut scratch = scratch();
    assert_eq!(rt; room.publish(0, 1, Kind::Plain, SSRC, 100), Reply::Done);
    assert_eq!(rt; room.publish(0, 2, Kind::Plain, SSRC, 100), Reply::Done);
    for call in [
        join(1, 1, HIGHEST),
        join(2, 2, HIGHEST),
        join(3, 1, LOWEST),
        join(4, 1, LOWEST),
    ] {
        room.serve(0, &call, &mut scratch);
    }
    let mut numbers = [9; 3];
    assert_eq!(rt; room.ready(1, &mut numbers), 0);
    assert_eq!(rt; numbers, [9, 9, 9]);
    room.packet(0, 1, 0, &buffer(&PLAIN));
    room.serve(0, &take(3), &mut scratch);
    assert_eq!(rt; room.ready(1, &mut numbers), 2);
    numbers[..2].sort_unstable();
    assert_eq!(rt; numbers, [1, 4, 9]);
    assert_eq!(rt; room.ready(2, &mut numbers), 0);
    assert_eq!(rt; room.ready(3, &mut numbers), 0);
    // A slice of length 1 gets the number of one of these subscribers.
    let mut place = [9];
    assert_eq!(rt; room.ready(1, &mut place), 1);
    assert!(rt; place == [1] || place == [4]);
    // The packet stays queued after the end of the track, until the subscriber leaves.
    room.serve(0, &Call::Unpublish { track: 1 }, &mut scratch);
    room.serve(0, &Call::Leave { subscriber: 1 }, &mut scratch);
    assert_eq!(rt; room.ready(1, &mut place), 1);
    assert_eq!(rt; place, [4]);
}
