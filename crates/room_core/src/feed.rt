// The sending state of one subscriber.
ghost use Rattle.std.specs.Prelude.{◌≡◌, ◌≤◌, ◌-◌, ◌||◌, ◌∷◌, [], false, true, IfOk, OnErr, OnOk, length, min};
ghost use Rattle.rtp_packet.specs.Faults.{first_fault};
ghost use Rattle.room_core.specs.Follows.{FollowsAim, FollowsFrame, FollowsPacket, FollowsTake, HasNoTarget, IsFed, IsFresh, Resends, IsCauseOf, carries_mask_by};
ghost use Rattle.room_core.specs.Sendable.{IsSendable};
ghost use Rattle.frame_cache.specs.Capacity.{capacity_for};
ghost use Rattle.frame_cache.specs.Sharing.{AreFirst};
ghost use Rattle.room_core.specs.FrameCache.{IsOfFrame};

use crate::counts::{FeedCounts, count_one};
use crate::sending::{own_marker, push_from, push_remasked};
use cause_book::CauseBook;
use frame_cache::FrameCache;
use out_ring::OutRing;
use sfu_base::{Kind, NoMemory, PacketBuf, Refusal, Verdict, Wish};
use std::alloc::Global;
use target_selector::{FrameOffer, MOST_QUEUED, Selector};
use track_core::Track;

/// The sending state of one subscriber. The feed has the kind of the subscriber's track, the frame selector, the queued packets, the packets kept for
/// retransmission, the verdicts on frames, and the counters. All memory of a feed is allocated when the feed is created.
#[derive(Drop)]
pub struct Feed {
    pub kind: Kind,
    pub selector: Selector,
    pub ring: OutRing,
    pub causes: CauseBook,
    pub counts: FeedCounts,
}

impl Feed {
    /// Creates the feed of a new subscriber of a track of this kind. The subscriber's packets are sent with this SSRC, and with sequence numbers that
    /// begin at `first`.
    pub fn new(
        alloc: Global,
        kind: Kind,
        ssrc: u32,
        first: u16,
        wish: Wish,
    ) -> Result<Feed, NoMemory>
        ensures fresh { IfOk result (λ feed. IsFresh feed kind ssrc first wish) }
    {
        Ok(Feed {
            kind,
            selector: Selector::new(wish),
            ring: OutRing::new(alloc, ssrc, first)?,
            causes: CauseBook::new(alloc)?,
            counts: FeedCounts::new(),
        })
    }

    /// Changes the subscriber's wish.
    pub fn aim(&mut self, wish: Wish)
        ensures follows { FollowsAim self.old self.new wish }
    {
        self.selector.aim(wish);
    }

    /// Queues the next packet of a plain track if fewer than 512 packets are queued. Otherwise counts the packet as left out. With `cache`, the track's
    /// subscribers can share one copy of the packet.
    pub fn pass_packet(&mut self, packet: &[u8], cache: &mut FrameCache)
        requires reads { first_fault packet.now ≡ None }
        requires fits { length packet.now ≤ 1500 }
        requires shared { AreFirst cache.old.shared.items (packet.now ∷ []) }
        ensures follows { FollowsPacket self.old self.new packet.now }
        ensures shared { AreFirst cache.new.shared.items (packet.now ∷ []) }
    {
        if self.ring.queued() < MOST_QUEUED {
            cache.queue(&mut self.ring, 0, packet, own_marker(packet));
        } else {
            count_one(&mut self.counts.left_out);
        }
    }

    /// Decides whether the newest complete frame of a layered track is forwarded to the subscriber. If the frame is forwarded, queues its packets. The
    /// first packet is sent with the mask of the subscriber's targets in two cases: if `carries_mask` is true (the packet carries a structure or a mask),
    /// or if the frame opens the target. With `cache`, the track's subscribers can share copies of the packets.
    pub fn pass_frame(
        &mut self,
        track: &Track,
        offer: &FrameOffer<'_>,
        carries_mask: bool,
        cache: &mut FrameCache,
    )
        requires count { offer.now.packets ≡ length track.now.packets }
        requires carries_mask { carries_mask ≡ carries_mask_by track.now.layers track.now.packets }
        requires of_frame { IsOfFrame track.now.layers track.now.packets cache.old }
        ensures follows { FollowsFrame self.old self.new offer.now.frame track.now }
        ensures of_frame { IsOfFrame track.now.layers track.now.packets cache.new }
    {
        let number = offer.number();
        let verdict = self.selector.admit_offered(offer, self.ring.queued());
        if let Verdict::Passed = verdict {
            // These calls get a constant verdict, so that the verdict isn't tested again.
            self.causes.write(number, Verdict::Passed);
            self.counts.frames.count(Verdict::Passed);
            let is_top = self.selector.marks_last();
            if is_remasked(self.selector.opened(), carries_mask) {
                let mask = offer.mask_for(self.selector.target());
                push_remasked(&mut self.ring, cache, track, mask, is_top);
            } else {
                push_from(&mut self.ring, cache, track, 0, offer.packets(), is_top);
            }
        } else {
            self.causes.write(number, verdict);
            self.counts.frames.count(verdict);
        }
    }

    /// Removes the oldest packet from the queue, replaces the contents of `out` with this packet, and returns true. Returns false and changes nothing
    /// if the queue is empty.
    pub fn take(&mut self, out: &mut PacketBuf) -> bool
        ensures follows { FollowsTake self.old self.new result out.old out.new }
        ensures unchanged { result ≡ false → self.new ≡ self.old }
        ensures untouched { result ≡ false → out.new ≡ out.old }
        ensures sendable { result ≡ true → IsSendable out.new }
    {
        match self.ring.take(out) {
            Ok(_) => {
                count_one(&mut self.counts.taken);
                true
            }
            Err(_) => false,
        }
    }

    /// Ends the feed, and releases its shared packets to `cache`. `left` is the number of subscribers that remain on the track.
    pub fn release(self, cache: &mut FrameCache, left: usize)
        ensures all { cache.new.store.all ≤ cache.old.store.all }
        ensures kept { capacity_for left ≤ cache.old.store.all → capacity_for left ≤ cache.new.store.all }
        ensures freed { cache.new.store.all ≤ cache.old.store.all - min cache.old.store.free (cache.old.store.all - capacity_for left) }
    {
        let Feed { ring, .. } = self;
        cache.release(ring, left);
    }

    /// Returns whether the subscriber has no current target.
    pub fn has_no_target(&self) -> bool
        ensures target { HasNoTarget self.now result }
    {
        self.selector.target().is_none()
    }

    /// Returns the reason why the frame with this unwrapped number was or wasn't forwarded. Returns `Ahead` if the number is above the number of the
    /// newest frame, or if no frame has come since the join. Returns `TooOld` if the number is 4,096 or more below the number of the newest frame.
    pub fn why(&self, number: u64) -> Result<Verdict, Refusal>
        ensures is_cause { IsCauseOf self.now number result }
        ensures fed { IsFed result }
    {
        self.causes.verdict(number)
    }

    /// Replaces the contents of `out` with the taken packet that has this sequence number. Returns `NotKept` if none of the last 1,024 taken packets has
    /// this sequence number.
    pub fn resend(&self, seq: u16, out: &mut PacketBuf) -> Result<(), Refusal>
        ensures resends { Resends self.now seq result out.old out.new }
        ensures fed { IsFed result }
        ensures untouched { OnErr result (out.new ≡ out.old) }
        ensures sendable { OnOk result (IsSendable out.new) }
    {
        self.ring.resend(seq, out)
    }
}

// Returns whether the first packet of a forwarded frame is sent with the mask of the subscriber's targets.
fn is_remasked(opened: bool, carries_mask: bool) -> bool
    ensures { result ≡ (opened || carries_mask) }
{
    opened || carries_mask
}
