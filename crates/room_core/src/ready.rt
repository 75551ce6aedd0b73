// The query for the subscribers of a track that have queued packets. This query adds no entry to the history.
ghost use Rattle.std.specs.Prelude.{◌≡◌, ◌≤◌, ◌∷◌, ◌++◌, [], List, cond, drop, length, nat_eq, take};
ghost use Rattle.indexmap.specs.IndexMap.{IsUnique};
ghost use Rattle.sfu_base.specs.declared.call.Call.{Call};
ghost use Rattle.room_core.specs.Content.{IsAfter};
ghost use Rattle.room_core.specs.History.{Entry, accepted};
ghost use Rattle.room_core.specs.Ready.{AreReady, is_entry_ready, ready_in};
ghost use Rattle.room_core.specs.Serves.{Stands};

use crate::content::Content;
use crate::live::LiveSubscriber;
use crate::recorder::Recorder;
use crate::room::Room;
use indexmap::IndexMap;

impl<R: Recorder> Room<R> {
    /// Lists the track's subscribers that have queued packets: writes these subscribers' numbers to the start of `numbers`. Each number is written once,
    /// and the order is arbitrary. Stops when `numbers` is full. Returns how many numbers it wrote. If the result is below the length of `numbers`, all
    /// such subscribers are listed. After the track has ended, its subscribers with queued packets are still listed until they leave. This query isn't
    /// recorded, doesn't change the room, and allocates no memory. Own rule.
    pub fn ready(&self, track: u32, numbers: &mut [u32]) -> usize
        ensures ready { (history : List Entry) → Stands R.noted self.now history
            → AreReady track (length numbers.old) (accepted history) (take result numbers.new) }
        ensures within { result ≤ length numbers.new }
        ensures len { length numbers.new ≡ length numbers.old }
        ensures rest { drop result numbers.new ≡ drop result numbers.old }
    {
        self.content.ready(track, numbers)
    }
}

impl Content {
    /// Lists the track's subscribers that have queued packets: writes these subscribers' numbers to the start of `numbers`. Stops when `numbers` is full.
    /// Returns how many numbers it wrote.
    pub fn ready(&self, track: u32, numbers: &mut [u32]) -> usize
        ensures ready { (past : List Call) → IsAfter self.now past → AreReady track (length numbers.old) past (take result numbers.new) }
        ensures within { result ≤ length numbers.new }
        ensures len { length numbers.new ≡ length numbers.old }
        ensures rest { drop result numbers.new ≡ drop result numbers.old }
    {
        list_ready(&self.subscribers, track, numbers)
    }
}

// Does the same, and writes the numbers in the order of the table.
fn list_ready(subscribers: &IndexMap<u32, LiveSubscriber>, track: u32, numbers: &mut [u32]) -> usize
    ensures unique { IsUnique nat_eq subscribers.now }
    ensures lists { take result numbers.new ≡ take (length numbers.old) (ready_in track subscribers.now.entries) }
    ensures within { result ≤ length numbers.new }
    ensures len { length numbers.new ≡ length numbers.old }
    ensures rest { drop result numbers.new ≡ drop result numbers.old }
{
    let mut count = 0;
    for place in 0..subscribers.len() {
        if let Some((number, known)) = subscribers.get_index(place) {
            count = put_ready(numbers, count, *number, is_ready(known, track));
        }
    }
    count
}

fn is_ready(subscriber: &LiveSubscriber, track: u32) -> bool
    ensures { result ≡ is_entry_ready track subscriber.now }
{
    subscriber.track == track && subscriber.feed.ring.queued() > 0
}

// If `ready` is true and `numbers` isn't full, writes the number after the first `count` numbers. Returns the new count.
fn put_ready(numbers: &mut [u32], count: usize, number: u32, ready: bool) -> usize
    requires { count ≤ length numbers.old }
    ensures puts { take result numbers.new ≡ take (length numbers.old) (take count numbers.old ++ cond ready (number ∷ []) []) }
    ensures grows { count ≤ result }
    ensures within { result ≤ length numbers.new }
    ensures len { length numbers.new ≡ length numbers.old }
    ensures rest { drop result numbers.new ≡ drop result numbers.old }
{
    if ready && count < numbers.len() {
        numbers[count] = number;
        count + 1
    } else {
        count
    }
}
