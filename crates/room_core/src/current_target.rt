// Queries about the decode target of a live subscriber. These queries add no entries to the history.
ghost use Rattle.std.specs.Prelude.{◌≡◌, List};
ghost use Rattle.sfu_base.specs.declared.call.Call.{Call};
ghost use Rattle.room_core.specs.Content.{IsAfter};
ghost use Rattle.room_core.specs.CurrentTargets.{IsReachedBy, IsTargetOf, reaches_for, target_for, ok_of_subscriber};
ghost use Rattle.room_core.specs.Follows.{HasReached, HasTarget};
ghost use Rattle.room_core.specs.History.{Entry};
ghost use Rattle.room_core.specs.Live.{joined};
ghost use Rattle.room_core.specs.Serves.{Stands};

use crate::content::Content;
use crate::feed::Feed;
use crate::recorder::Recorder;
use crate::room::Room;
use sfu_base::{Refusal, Wish};

/// The decode target whose frames are sent to a subscriber of a layered track (RTP Payload Format For AV1, Appendix A).
#[derive(Clone, Copy, Debug, PartialEq, Eq)]
pub struct DecodeTarget {
    /// The index of the target in the publisher's structure, 0 to 31.
    pub index: u8,
    /// The target's highest spatial layer and highest temporal layer. They are read from the structure of the newest frame. `None` if no template of this
    /// structure is present in the target.
    pub layers: Option<Wish>,
}

impl<R: Recorder> Room<R> {
    /// Returns the subscriber's current decode target, which is the target after the newest frame. Returns `None` on a plain track. Returns `None` before
    /// the first key frame with which the subscriber can begin. After the target's chain has broken, returns `None` until a frame opens a target again. If
    /// the track has ended, returns the target after the last frame. This query adds no entry to the history, changes nothing, and allocates no memory.
    /// `NoSubscriber`: no live subscriber has the number. Own rule.
    pub fn target_of(&self, subscriber: u32) -> Result<Option<DecodeTarget>, Refusal>
        ensures target { (history : List Entry) → Stands R.noted self.now history → IsTargetOf history subscriber result }
    {
        self.content.target_of(subscriber)
    }

    /// Returns whether the subscriber's current decode target is the best target that the current wish allows at the newest frame. Returns false if there
    /// is no current target. On a plain track, there is never a current target. A higher wish is mostly reached only at a key frame. If the result is
    /// false, call `plead`. If the track has ended, the newest frame is the last one. This query adds no entry to the history, changes nothing, and
    /// allocates no memory. `NoSubscriber`: no live subscriber has the number. Own rule.
    pub fn reaches_wish(&self, subscriber: u32) -> Result<bool, Refusal>
        ensures reaches { (history : List Entry) → Stands R.noted self.now history → IsReachedBy history subscriber result }
    {
        self.content.reaches_wish(subscriber)
    }
}

impl Content {
    /// Returns the subscriber's current decode target.
    pub fn target_of(&self, subscriber: u32) -> Result<Option<DecodeTarget>, Refusal>
        ensures { (past : List Call) → IsAfter self.now past → result ≡ ok_of_subscriber (joined subscriber past) (λ j. target_for subscriber j past) }
    {
        match self.subscribers.get(&subscriber) {
            Some(known) => Ok(known.feed.sent_target()),
            None => Err(Refusal::NoSubscriber),
        }
    }

    /// Returns whether the subscriber's current decode target is the best target that the wish allows.
    pub fn reaches_wish(&self, subscriber: u32) -> Result<bool, Refusal>
        ensures { (past : List Call) → IsAfter self.now past → result ≡ ok_of_subscriber (joined subscriber past) (λ j. reaches_for subscriber j past) }
    {
        match self.subscribers.get(&subscriber) {
            Some(known) => Ok(known.feed.reaches_wish()),
            None => Err(Refusal::NoSubscriber),
        }
    }
}

impl Feed {
    /// Returns the open target and its layers, or `None` if no target is open.
    pub fn sent_target(&self) -> Option<DecodeTarget>
        ensures target { HasTarget self.now result }
    {
        match self.selector.target() {
            Some(index) => Some(DecodeTarget {
                index,
                layers: self.selector.target_layers(),
            }),
            None => None,
        }
    }

    /// Returns whether the open target is the best target that the wish allows.
    pub fn reaches_wish(&self) -> bool
        ensures reached { HasReached self.now result }
    {
        self.selector.reaches_wish()
    }
}
