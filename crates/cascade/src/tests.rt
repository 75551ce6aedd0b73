// Whole cascades: what the receivers of the second room count.
use crate::feeding::feed;
use crate::playing::play;
use room_core::{KeepNone, Room};
use sfu_base::{Refusal, Scratch};
use std::test::Fail;

// Worked out from the rules of the stream: 500 units of two frames, 10 of them key units.
const THOUSAND: &str = "made 1000 frames 1520 packets\nlost 0 repeated 0 swapped 0\n\
    subscriber 1 frames 1000 packets 1520 complaints 0\nsubscriber 2 frames 250 packets 270 complaints 0\n\
    subscriber 3 frames 1000 packets 1520 complaints 0\n";

// One key unit: three packets of the lower frame, two of the upper one.
const ONE_UNIT: &str = "made 2 frames 5 packets\nlost 0 repeated 0 swapped 0\n\
    subscriber 1 frames 2 packets 5 complaints 0\nsubscriber 2 frames 1 packets 3 complaints 0\n\
    subscriber 3 frames 2 packets 5 complaints 0\n";

// Each row has the frames, the seed, the loss in percent, and the beginning of the text, which is the whole text if nothing is lost.
const ROWS: [(u32, u64, u8, &str); 3] = [
    (1000, 7, 0, THOUSAND),
    (2, 7, 0, ONE_UNIT),
    (20_000, 7, 1, "made 20000 frames "),
];

#[test]
fn streams_go_through_both_rooms(rt: HostRuntime) -> Result<(), Fail> {
    let alloc = rt.alloc();
    for (frames, start, loss, begins) in ROWS {
        let text = play(alloc, frames, start, loss)?;
        let is_whole = loss > 0 || text.as_str() == begins;
        assert!(rt; is_whole && text.as_str().starts_with(begins), "{text}");
        let mut pleased = 0u32;
        for line in text.as_str().split("\n") {
            if line.starts_with("subscriber") && line.ends_with(" complaints 0") {
                pleased = pleased.wrapping_add(1);
            }
        }
        assert_eq!(rt; pleased, 3);
        // A second run returns the same text.
        assert_eq!(rt; play(alloc, frames, start, loss)?.as_str(), text.as_str());
    }
    Ok(())
}

#[test]
fn nobody_is_fed_from(rt: HostRuntime) -> Result<(), Fail> {
    let alloc = rt.alloc();
    let mut first = Room::new(alloc, KeepNone::new());
    let mut second = Room::new(alloc, KeepNone::new());
    let mut scratch = Scratch::new();
    let fed = feed(&mut first, 1, &mut second, 1, 0, &mut scratch);
    assert_eq!(rt; fed.moved, 0);
    assert_eq!(rt; fed.end, Refusal::NoSubscriber);
    Ok(())
}
