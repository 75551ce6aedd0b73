// The sessions of publishers, subscribers and controllers over links.
ghost use Rattle.std.specs.Prelude.{◌≡◌, ◌≢◌, ◌<◌, None};
ghost use Rattle.session_steps.specs.Sessions.{control_deed, publisher_deed, rtx_deed, subscriber_deed};
ghost use Rattle.sfu_serve.specs.Parts.{Keeps};
ghost use Rattle.sfu_serve.specs.Replies.{MayStarve};
ghost use Rattle.sfu_serve.specs.SentPackets.{SendsWhatItWasGiven};

use crate::driver::{Stage, run_session};
use crate::ends::SessionEnd;
use crate::shared_room::SharedRoom;
use room_core::Recorder;
use rtx_stream::Rtx;
use session_steps::{ControlSession, PublisherSession, SubscriberSession};
use sfu_base::{Clock, Link, Scratch};
use std::sync::Wait;
use turn_lock::{Seat, Turns};

/// Runs a publisher's session of `limit` turns. Each turn adds the received RTP packet, if any, to the track, and then ticks the track. In the first
/// turn, and then at intervals of at least 20 milliseconds, the session queries which packets are missing and whether a key frame is wanted. The
/// session sends one NACK (RFC 4585, section 6.2.1) for all missing packets. If a key frame is wanted, the session sends a picture loss indication
/// (section 6.3.1), unless less than 500 milliseconds have passed since the previous one. The session ends early if a call on the link fails or the
/// lock has no ticket left.
pub fn publisher_session<R: Recorder, L: Link, C: Clock, W: Wait + Sync>(
    rt: &W,
    turns: &Turns<SharedRoom<R>>,
    seat: &mut Seat<SharedRoom<R>>,
    track: u32,
    ssrc: u32,
    link: &mut L,
    clock: &C,
    limit: u64,
    scratch: &mut Scratch,
) -> SessionEnd
    requires lock { seat.old.lock ≡ turns.now }
    ensures keeps { Keeps (MayStarve R.may_refuse) (publisher_deed track ssrc limit None None) limit
        seat.old seat.new (L.traffic link.old) (L.traffic link.new) (L.faults link.old) (L.faults link.new) result }
    ensures name { L.name link.new ≡ L.name link.old }
{
    let stage = Stage::new(rt, turns, clock, limit);
    run_session(
        &stage,
        seat,
        &mut PublisherSession::new(track, ssrc),
        link,
        scratch,
    )
}

/// Runs a subscriber's session of `limit` turns. Each turn first serves the items of the received RTCP feedback, one by one, and then takes and sends at most
/// 32 packets. For each packet that a NACK names (RFC 4585, section 6.2.1), the session requests a resend and sends the retransmission. For a picture loss
/// indication (section 6.3.1), the session requests a key frame. Items whose media source isn't `ssrc` are skipped. The session ends early if a call on the
/// link fails or the lock has no ticket left.
pub fn subscriber_session<R: Recorder, L: Link, C: Clock, W: Wait + Sync>(
    rt: &W,
    turns: &Turns<SharedRoom<R>>,
    seat: &mut Seat<SharedRoom<R>>,
    subscriber: u32,
    ssrc: u32,
    link: &mut L,
    clock: &C,
    limit: u64,
    scratch: &mut Scratch,
) -> SessionEnd
    requires lock { seat.old.lock ≡ turns.now }
    ensures keeps { Keeps (MayStarve R.may_refuse) (subscriber_deed subscriber ssrc limit) limit
        seat.old seat.new (L.traffic link.old) (L.traffic link.new) (L.faults link.old) (L.faults link.new) result }
    ensures name { L.name link.new ≡ L.name link.old }
{
    let stage = Stage::new(rt, turns, clock, limit);
    let mut session = SubscriberSession::new(subscriber, ssrc, None);
    run_session(&stage, seat, &mut session, link, scratch)
}

/// Runs a subscriber's session as [`subscriber_session`] does, but sends retransmissions on the stream `rtx` (RFC 4588, section 4). The sequence numbers of
/// this stream are 0, 1 and so on, modulo 65,536. NACKs still name sequence numbers of the media stream. A NACK whose media source is the SSRC of `rtx` is
/// skipped. The SSRC of `rtx` must differ from `ssrc`, and the payload type of `rtx` must be below 128.
pub fn rtx_session<R: Recorder, L: Link, C: Clock, W: Wait + Sync>(
    rt: &W,
    turns: &Turns<SharedRoom<R>>,
    seat: &mut Seat<SharedRoom<R>>,
    subscriber: u32,
    ssrc: u32,
    rtx: &Rtx,
    link: &mut L,
    clock: &C,
    limit: u64,
    scratch: &mut Scratch,
) -> SessionEnd
    requires lock { seat.old.lock ≡ turns.now }
    requires apart { rtx.now.ssrc ≢ ssrc }
    requires payload_type { rtx.now.payload_type < 128 }
    ensures keeps { Keeps (MayStarve R.may_refuse) (rtx_deed subscriber ssrc rtx.now limit) limit
        seat.old seat.new (L.traffic link.old) (L.traffic link.new) (L.faults link.old) (L.faults link.new) result }
    ensures sends { SendsWhatItWasGiven (MayStarve R.may_refuse) subscriber ssrc rtx.now limit
        seat.old seat.new (L.traffic link.old) (L.traffic link.new) (L.faults link.old) (L.faults link.new) result }
    ensures name { L.name link.new ≡ L.name link.old }
{
    let stage = Stage::new(rt, turns, clock, limit);
    let mut session = SubscriberSession::new(subscriber, ssrc, Some(*rtx));
    run_session(&stage, seat, &mut session, link, scratch)
}

/// Runs a controller's session of `limit` turns. A datagram is a call if it is one line of text for publish, unpublish, join, leave, aim, key, plead or why,
/// without a line end. The session sends the text of the call's reply, also without a line end. The reply to any other datagram is `fault line`. The session
/// ends early if a call on the link fails or the lock has no ticket left.
pub fn control_session<R: Recorder, L: Link, C: Clock, W: Wait + Sync>(
    rt: &W,
    turns: &Turns<SharedRoom<R>>,
    seat: &mut Seat<SharedRoom<R>>,
    link: &mut L,
    clock: &C,
    limit: u64,
    scratch: &mut Scratch,
) -> SessionEnd
    requires lock { seat.old.lock ≡ turns.now }
    ensures keeps { Keeps (MayStarve R.may_refuse) (control_deed limit) limit
        seat.old seat.new (L.traffic link.old) (L.traffic link.new) (L.faults link.old) (L.faults link.new) result }
    ensures name { L.name link.new ≡ L.name link.old }
{
    let stage = Stage::new(rt, turns, clock, limit);
    run_session(&stage, seat, &mut ControlSession::new(), link, scratch)
}
