// The public calls of a room.
use crate::content::Content;
use crate::recorder::Recorder;
use sfu_base::{Call, Kind, PacketBuf, Refusal, Reply, Scratch, Wish};
use std::alloc::Global;

/// A room has tracks and subscribers. Each track has the packets of one publisher, and each subscriber belongs to one track. `publish` begins a
/// track, `packet` adds a packet to the track, and `tick` advances the track's time. `join` adds a subscriber, `take` returns the next packet to send
/// to the subscriber, and `resend` returns a packet that was taken before. Moments and hold times are in milliseconds.
///
/// The packets of a layered track are assembled into frames (RTP Payload Format For AV1, Appendix A). Each subscriber gets the frames of the best
/// decode target that the subscriber's wish allows. The packets of a plain track are forwarded in order.
///
/// A refused call changes nothing except what the recorder stores. Unless the recorder runs out of memory, the reply is the first refusal that applies,
/// in the order of the method's list. If the recorder can't run out of memory, only `publish` and `join` can. These rules are the project's own, and are
/// in no standard.
#[derive(Drop)]
pub struct Room<R: Recorder> {
    alloc: Global,
    recorder: R,
    pub(crate) content: Content,
}

impl<R: Recorder> Room<R> {
    ghost use Rattle.std.specs.Prelude.{◌≡◌, [], List, IfSome};
    ghost use Rattle.sfu_base.specs.declared.call.Call.TheVariants as call;
    ghost use Rattle.room_core.specs.Noted.{Noted};
    ghost use Rattle.room_core.specs.History.{Entry, kept};
    ghost use Rattle.room_core.specs.Serves.{DoesAsServe, ServesInto, Stands, recorder_may_refuse};
    ghost use Rattle.room_core.specs.Kinds.{IsKindOf};

    /// Creates a room on which no call has been made. The recorder must have recorded nothing yet. Allocates no memory.
    pub fn new(alloc: Global, recorder: R) -> Room<R>
        requires { IfSome (R.noted recorder) (λ notes. notes ≡ []) }
        ensures stands { Stands R.noted result [] }
        ensures recorder { recorder_may_refuse R.may_refuse result ≡ R.may_refuse recorder }
    {
        Room {
            alloc,
            recorder,
            content: Content::new(alloc),
        }
    }

    /// Serves one call. `seat` is the number of the caller. Each of the methods from `publish` to `why` serves one kind of call in the same way. If the
    /// reply is `Packet`, the packet's bytes are in `scratch.packet`. If the reply is `Names`, the sequence numbers are in `scratch.names`. Any other
    /// reply leaves the scratch unchanged.
    pub fn serve(&mut self, seat: u32, call: &Call, scratch: &mut Scratch) -> Reply
        ensures { ServesInto R.noted R.may_refuse self.old self.new seat call.now result scratch.old scratch.new }
    {
        // Most calls are `Packet`, `Tick` or `Take`. The methods for other calls aren't inlined, because they would take registers and stack from
        // these three calls.
        match call {
            Call::Publish {
                track,
                kind,
                ssrc,
                hold,
            } => self.publish(seat, *track, *kind, *ssrc, *hold),
            Call::Unpublish { track } => self.unpublish(seat, *track),
            Call::Packet {
                track,
                moment,
                bytes,
            } => self.serve_packet(seat, call, *track, *moment, bytes),
            Call::Tick { track, moment } => self.tick(seat, *track, *moment),
            Call::Join {
                subscriber,
                track,
                ssrc,
                first,
                wish,
            } => self.join(seat, *subscriber, *track, *ssrc, *first, *wish),
            Call::Leave { subscriber } => self.leave(seat, *subscriber),
            Call::Aim { subscriber, wish } => self.aim(seat, *subscriber, *wish),
            Call::Take { subscriber } => self.take(seat, *subscriber, scratch),
            Call::Resend { subscriber, seq } => self.resend(seat, *subscriber, *seq, scratch),
            Call::Missing { track } => self.missing(seat, *track, scratch),
            Call::KeyWanted { track } => self.key_wanted(seat, *track),
            Call::Plead { subscriber } => self.plead(seat, *subscriber),
            Call::Why { subscriber, number } => self.why(seat, *subscriber, *number),
        }
    }

    /// Begins a track, as [`Call::Publish`] does. `NumberUsed`: the number is 0, or an earlier track had this number or a higher one. `TooMany`: 64
    /// tracks are live already. `BadExtensionId`: the id of a layered track's header extension element is 0 or 15. `NoMemory`: memory ran out. No other
    /// refusal applies then, unless the recorder ran out of memory.
    #[inline(never)]
    pub fn publish(&mut self, seat: u32, track: u32, kind: Kind, ssrc: u32, hold: u32) -> Reply
        ensures { DoesAsServe R.noted R.may_refuse self.old self.new seat (call.Publish track kind ssrc hold) result }
    {
        let call = Call::Publish {
            track,
            kind,
            ssrc,
            hold,
        };
        match self
            .content
            .prepare_track(self.alloc, track, kind, ssrc, hold)
        {
            Ok(ready) => match self.recorder.note(seat, &call) {
                Ok(()) => self.content.publish(track, ready),
                Err(_) => Reply::Refused(Refusal::NoMemory),
            },
            Err(_) => Reply::Refused(Refusal::NoMemory),
        }
    }

    /// Ends a track, as [`Call::Unpublish`] does. The track's subscribers stay, and `take`, `resend`, `aim` and `why` work for them as before.
    /// `NoTrack`: no live track has the number.
    #[inline(never)]
    pub fn unpublish(&mut self, seat: u32, track: u32) -> Reply
        ensures { DoesAsServe R.noted R.may_refuse self.old self.new seat (call.Unpublish track) result }
    {
        match self.recorder.note(seat, &Call::Unpublish { track }) {
            Ok(()) => self.content.unpublish(track),
            Err(_) => Reply::Refused(Refusal::NoMemory),
        }
    }

    /// Adds a packet to a track, as [`Call::Packet`] does. The packet arrived at the time `moment`. The recorder gets a copy of the packet. `NoTrack`: no
    /// live track has the number. `TooBig`: the packet has more than 1,500 bytes. `Unreadable`: the bytes aren't an RTP packet. `WrongSsrc`: the packet's
    /// SSRC isn't the track's. `Spent`: the packet's unwrapped sequence number is 2^46 or more. `Late`: the packet's unwrapped sequence number is below
    /// the lowest number for which the track waits. `Repeat`: a packet with this sequence number is buffered already.
    pub fn packet(&mut self, seat: u32, track: u32, moment: u64, bytes: &PacketBuf) -> Reply
        ensures { DoesAsServe R.noted R.may_refuse self.old self.new seat (call.Packet track moment bytes.now) result }
    {
        let mut copy = PacketBuf::new();
        copy.fill(bytes.bytes());
        let call = Call::Packet {
            track,
            moment,
            bytes: copy,
        };
        self.serve_packet(seat, &call, track, moment, bytes)
    }

    // Does the same as `packet`. `made` is the call, and the other parameters are the call's fields.
    #[inline(always)]
    fn serve_packet(
        &mut self,
        seat: u32,
        made: &Call,
        track: u32,
        moment: u64,
        bytes: &PacketBuf,
    ) -> Reply
        requires { made.now ≡ call.Packet track moment bytes.now }
        ensures { DoesAsServe R.noted R.may_refuse self.old self.new seat (call.Packet track moment bytes.now) result }
    {
        match self.recorder.note(seat, made) {
            Ok(()) => self.content.packet(track, moment, bytes),
            Err(_) => Reply::Refused(Refusal::NoMemory),
        }
    }

    /// Advances a track's time to `moment`, as [`Call::Tick`] does. If the packet after the lowest gap has been buffered for the track's hold time or
    /// longer, the track gives up that gap. The same rule then applies to the next gap, and so on. `NoTrack`: no live track has the number.
    pub fn tick(&mut self, seat: u32, track: u32, moment: u64) -> Reply
        ensures { DoesAsServe R.noted R.may_refuse self.old self.new seat (call.Tick track moment) result }
    {
        match self.recorder.note(seat, &Call::Tick { track, moment }) {
            Ok(()) => self.content.tick(track, moment),
            Err(_) => Reply::Refused(Refusal::NoMemory),
        }
    }

    /// Adds a subscriber to a track, as [`Call::Join`] does. `NoTrack`: no live track has the number. `NumberUsed`: the number is 0, or an earlier
    /// subscriber had this number or a higher one. `TooMany`: 256 subscribers are live already. `NoMemory`: memory ran out. No other refusal applies
    /// then, unless the recorder ran out of memory.
    #[inline(never)]
    pub fn join(
        &mut self,
        seat: u32,
        subscriber: u32,
        track: u32,
        ssrc: u32,
        first: u16,
        wish: Wish,
    ) -> Reply
        ensures { DoesAsServe R.noted R.may_refuse self.old self.new seat (call.Join subscriber track ssrc first wish) result }
    {
        let call = Call::Join {
            subscriber,
            track,
            ssrc,
            first,
            wish,
        };
        match self
            .content
            .prepare_subscriber(self.alloc, subscriber, track, ssrc, first, wish)
        {
            Ok(ready) => match self.recorder.note(seat, &call) {
                Ok(()) => self.content.join(subscriber, ready),
                Err(_) => Reply::Refused(Refusal::NoMemory),
            },
            Err(_) => Reply::Refused(Refusal::NoMemory),
        }
    }

    /// Removes a subscriber from its track, as [`Call::Leave`] does. `NoSubscriber`: no live subscriber has the number.
    #[inline(never)]
    pub fn leave(&mut self, seat: u32, subscriber: u32) -> Reply
        ensures { DoesAsServe R.noted R.may_refuse self.old self.new seat (call.Leave subscriber) result }
    {
        match self.recorder.note(seat, &Call::Leave { subscriber }) {
            Ok(()) => self.content.leave(subscriber),
            Err(_) => Reply::Refused(Refusal::NoMemory),
        }
    }

    /// Changes a subscriber's wish, as [`Call::Aim`] does. `NoSubscriber`: no live subscriber has the number.
    #[inline(never)]
    pub fn aim(&mut self, seat: u32, subscriber: u32, wish: Wish) -> Reply
        ensures { DoesAsServe R.noted R.may_refuse self.old self.new seat (call.Aim subscriber wish) result }
    {
        match self.recorder.note(seat, &Call::Aim { subscriber, wish }) {
            Ok(()) => self.content.aim(subscriber, wish),
            Err(_) => Reply::Refused(Refusal::NoMemory),
        }
    }

    /// Removes the oldest packet from a subscriber's queue, as [`Call::Take`] does. Replies `Packet`, and writes the packet's bytes to
    /// `scratch.packet`. `NoSubscriber`: no live subscriber has the number. `Empty`: the queue is empty.
    pub fn take(&mut self, seat: u32, subscriber: u32, scratch: &mut Scratch) -> Reply
        ensures { ServesInto R.noted R.may_refuse self.old self.new seat (call.Take subscriber) result scratch.old scratch.new }
    {
        match self.recorder.note(seat, &Call::Take { subscriber }) {
            Ok(()) => self.content.take(subscriber, &mut scratch.packet),
            Err(_) => Reply::Refused(Refusal::NoMemory),
        }
    }

    /// Looks up a packet for retransmission (RFC 4585, section 6.2.1), as [`Call::Resend`] does. This is the packet with sequence number `seq` that the
    /// subscriber took. Replies `Packet`, and writes the packet's bytes to `scratch.packet`. `NoSubscriber`: no live subscriber has the number.
    /// `NotKept`: none of the subscriber's last 1,024 taken packets has this sequence number.
    #[inline(never)]
    pub fn resend(&mut self, seat: u32, subscriber: u32, seq: u16, scratch: &mut Scratch) -> Reply
        ensures { ServesInto R.noted R.may_refuse self.old self.new seat (call.Resend subscriber seq) result scratch.old scratch.new }
    {
        match self.recorder.note(seat, &Call::Resend { subscriber, seq }) {
            Ok(()) => self.content.resend(subscriber, seq, &mut scratch.packet),
            Err(_) => Reply::Refused(Refusal::NoMemory),
        }
    }

    /// Lists the sequence numbers of the packets for which a track waits, as [`Call::Missing`] does. Replies `Names`, and writes the numbers to
    /// `scratch.names`, in ascending order of the unwrapped numbers. `NoTrack`: no live track has the number.
    #[inline(never)]
    pub fn missing(&mut self, seat: u32, track: u32, scratch: &mut Scratch) -> Reply
        ensures { ServesInto R.noted R.may_refuse self.old self.new seat (call.Missing track) result scratch.old scratch.new }
    {
        match self.recorder.note(seat, &Call::Missing { track }) {
            Ok(()) => self.content.missing(track, &mut scratch.names),
            Err(_) => Reply::Refused(Refusal::NoMemory),
        }
    }

    /// Returns whether a key frame should be requested from a track's publisher, as [`Call::KeyWanted`] does. On a layered track, the result is true if a
    /// key frame request is pending, or if a live subscriber of the track has no current decode target. Otherwise it is false. `NoTrack`: no live track
    /// has the number.
    #[inline(never)]
    pub fn key_wanted(&mut self, seat: u32, track: u32) -> Reply
        ensures { DoesAsServe R.noted R.may_refuse self.old self.new seat (call.KeyWanted track) result }
    {
        match self.recorder.note(seat, &Call::KeyWanted { track }) {
            Ok(()) => self.content.key_wanted(track),
            Err(_) => Reply::Refused(Refusal::NoMemory),
        }
    }

    /// Requests a key frame for a subscriber, as [`Call::Plead`] does (RFC 4585, section 6.3.1). The request is pending until the track's next
    /// complete key frame. `NoSubscriber`: no live subscriber has the number. `NoTrack`: the subscriber's track ended. `Plain`: the subscriber's
    /// track is plain.
    #[inline(never)]
    pub fn plead(&mut self, seat: u32, subscriber: u32) -> Reply
        ensures { DoesAsServe R.noted R.may_refuse self.old self.new seat (call.Plead subscriber) result }
    {
        match self.recorder.note(seat, &Call::Plead { subscriber }) {
            Ok(()) => self.content.plead(subscriber),
            Err(_) => Reply::Refused(Refusal::NoMemory),
        }
    }

    /// Returns the reason why a frame was or wasn't forwarded to a subscriber, as [`Call::Why`] does. `NoSubscriber`: no live subscriber has the number.
    /// `Ahead`: the frame number is above the newest frame's number, or no frame has arrived since the subscriber joined. `TooOld`: the frame number is
    /// 4,096 or more below the newest frame's number.
    #[inline(never)]
    pub fn why(&mut self, seat: u32, subscriber: u32, number: u64) -> Reply
        ensures { DoesAsServe R.noted R.may_refuse self.old self.new seat (call.Why subscriber number) result }
    {
        match self.recorder.note(seat, &Call::Why { subscriber, number }) {
            Ok(()) => self.content.why(subscriber, number),
            Err(_) => Reply::Refused(Refusal::NoMemory),
        }
    }

    /// Returns the kind of the track that the subscriber joined, even if this track has ended. This query isn't recorded, and allocates no memory.
    /// `NoSubscriber`: no live subscriber has the number.
    pub fn kind_of(&self, subscriber: u32) -> Result<Kind, Refusal>
        ensures kind { (history : List Entry) → Stands R.noted self.now history → IsKindOf history subscriber result }
    {
        match self.content.kind_of(subscriber) {
            Some(kind) => Ok(kind),
            None => Err(Refusal::NoSubscriber),
        }
    }

    /// Ends the room. Returns the room's recorder, with everything that was recorded.
    pub fn into_recorder(self) -> R
        ensures kept { (history : List Entry) → Stands R.noted self history → IfSome (R.noted result) (λ notes. notes ≡ kept history) }
        ensures recorder { R.may_refuse result ≡ recorder_may_refuse R.may_refuse self }
    {
        let Room {
            alloc: _,
            recorder,
            content: _,
        } = self;
        recorder
    }
}
