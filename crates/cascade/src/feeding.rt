// A feed: takes the packets queued for a subscriber of one room, and feeds them to a track of another room.
ghost use Rattle.std.specs.Prelude.{◌≡◌, ◌⊎◌, IsTrue, List, Some};
ghost use Rattle.sfu_base.specs.declared.call.Refusal.TheVariants.{NoMemory};
ghost use Rattle.room_core.specs.History.{Entry};
ghost use Rattle.room_core.specs.Serves.{Stands, StandsHeadline, recorder_may_refuse};
ghost use Rattle.cascade.specs.Feeding.{Feeds};
ghost use Rattle.cascade.specs.Moving.{MovesOrEnds, refused_by};

use room_core::{Recorder, Room};
use sfu_base::{Refusal, Reply, Scratch};

/// The outcome of [`feed`].
#[derive(Clone, Copy, Debug, PartialEq, Eq)]
pub struct Fed {
    /// The number of packets that the second room accepted, at most 512.
    pub moved: u32,
    /// The refusal that ended the feed. It is `Empty` if all queued packets were moved.
    pub end: Refusal,
}

// The seat that makes all calls of a feed.
const SEAT: u32 = 0;

// The capacity of a subscriber's queue, in packets.
const MOST_QUEUED: u32 = 512;

// Returns the reason if a reply is a refusal, else `None`.
fn refused_by(reply: Reply) -> Option<Refusal>
    ensures { result ≡ refused_by reply }
{
    match reply {
        Reply::Refused(why) => Some(why),
        _ => None,
    }
}

// Takes one packet and feeds it to the track. If one of the two calls is refused, returns the reason.
fn move_one<A: Recorder, B: Recorder>(
    first: &mut Room<A>,
    subscriber: u32,
    second: &mut Room<B>,
    track: u32,
    moment: u64,
    scratch: &mut Scratch,
) -> Option<Refusal>
    ensures moves { (h1 h2 : List Entry) → Stands A.noted first.old h1 → Stands B.noted second.old h2
        → MovesOrEnds A.noted B.noted first.new second.new subscriber track moment result h1 h2 }
    ensures memory { result ≡ Some NoMemory → IsTrue (recorder_may_refuse A.may_refuse first.old) ⊎ IsTrue (recorder_may_refuse B.may_refuse second.old) }
    ensures recorder1 { recorder_may_refuse A.may_refuse first.new ≡ recorder_may_refuse A.may_refuse first.old }
    ensures recorder2 { recorder_may_refuse B.may_refuse second.new ≡ recorder_may_refuse B.may_refuse second.old }
{
    if let Some(why) = refused_by(first.take(SEAT, subscriber, scratch)) {
        return Some(why);
    }
    refused_by(second.packet(SEAT, track, moment, &scratch.packet))
}

/// Takes the packets queued for a subscriber of the first room, and feeds each to a track of the second room at `moment` (milliseconds). All calls
/// are made from seat 0. The feed ends at the first refused call, and [`Fed::end`] is the refusal of this call. The refusal is `Empty` if all
/// queued packets were moved, and `NoSubscriber` if the first room has no such subscriber. If the second room refuses a packet, `end` is the
/// refusal that [`Room::packet`] returned. That packet is lost, and the packets after it stay queued in the first room. If neither room's recorder
/// may refuse, `end` is never `NoMemory`.
pub fn feed<A: Recorder, B: Recorder>(
    first: &mut Room<A>,
    subscriber: u32,
    second: &mut Room<B>,
    track: u32,
    moment: u64,
    scratch: &mut Scratch,
) -> Fed
    ensures feeds { (h1 h2 : List Entry) → Stands A.noted first.old h1 → Stands B.noted second.old h2
        → Feeds A.noted B.noted first.new second.new subscriber track moment result h1 h2 }
    ensures memory { result.end ≡ NoMemory → IsTrue (recorder_may_refuse A.may_refuse first.old) ⊎ IsTrue (recorder_may_refuse B.may_refuse second.old) }
    ensures headline1 { StandsHeadline A.noted first.new }
    ensures headline2 { StandsHeadline B.noted second.new }
    ensures recorder1 { recorder_may_refuse A.may_refuse first.new ≡ recorder_may_refuse A.may_refuse first.old }
    ensures recorder2 { recorder_may_refuse B.may_refuse second.new ≡ recorder_may_refuse B.may_refuse second.old }
{
    let mut moved = 0;
    'moves: for _count in 0..MOST_QUEUED + 1 {
        match move_one(first, subscriber, second, track, moment, scratch) {
            Some(end) => return Fed { moved, end },
            None => moved += 1,
        }
    }
    // Not reached, since at most 512 packets are queued.
    Fed {
        moved,
        end: Refusal::Empty,
    }
}
