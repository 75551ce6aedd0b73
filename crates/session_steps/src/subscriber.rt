// The session of a subscriber.
ghost use Rattle.std.specs.Prelude.{◌≡◌, ℕ, ◌+◌, ◌<◌, ◌≤◌, [], if◌then◌else◌, length, Option, IfSome, MatchOption};
ghost use Rattle.std.proofs.Props.{props};
ghost use Rattle.sfu_base.specs.declared.call.Call.TheVariants as call;
ghost use Rattle.rtx_stream.specs.declared.retransmission.Rtx.{Rtx as RtxData};
ghost use Rattle.session_steps.specs.Deeds.{Ask};
ghost use Rattle.session_steps.specs.Datagrams.{feedback_in, media_of};
ghost use Rattle.session_steps.specs.Sessions.{Doing, call_for, outgoing_deed, resends, serves, takes};
ghost use Rattle.session_steps.specs.Stepping.{Waits};

use crate::resending::resend;
use crate::rtcp::is_rtcp;
use crate::session::{Output, Session};
use rtcp_feedback::{Feedback, FeedbackQueue};
use rtx_stream::Rtx;
use sfu_base::{Call, PacketBuf, Reply, Scratch};

/// The most packets that a session takes in one turn.
const MOST_TAKES: u32 = 32;

/// The next step of a subscriber's session.
#[derive(Clone, Copy, Debug)]
enum Next {
    /// Wait for the next datagram.
    Datagram,
    /// Make the call for an item of feedback.
    Feedback,
    /// Make a take call. At most `behind` more take calls follow in this turn.
    Take { behind: u32 },
}

/// The session of a subscriber. In each turn it serves the RTCP feedback that came, item by item. For each packet that a NACK names (RFC 4585, section
/// 6.2.1) it requests a resend and sends the retransmission. For a picture loss indication (section 6.3.1) it requests a key frame. Items whose media
/// source isn't the subscriber's SSRC are skipped. After the feedback, the session takes packets and sends them. It stops when a take returns no
/// packet, or after 32 packets.
///
/// The session reuses its calls from turn to turn. A [`Call`] has a packet buffer, and creating a new call would mean clearing that buffer.
#[derive(Debug, Drop)]
pub struct SubscriberSession {
    subscriber: u32,
    ssrc: u32,
    /// The retransmission stream. If it is `None`, a retransmission is the packet as it was first sent.
    rtx: Option<Rtx>,
    /// The sequence number of the next retransmission on the stream `rtx`.
    number: u16,
    /// The items of this turn's feedback that aren't served yet.
    feedback: FeedbackQueue,
    next: Next,
    asked: Call,
    take: Call,
    ghost take_is: { take ≡ call.Take subscriber },
    ghost payload_type: { IfSome rtx (λ stream. stream.payload_type < 128) } by { Prim.hlevel props },
}

/// Returns the call for an item of feedback.
fn call_of(subscriber: u32, item: Feedback) -> Call
    ensures { result ≡ call_for subscriber item }
{
    match item {
        Feedback::Nack { media: _, seq } => Call::Resend { subscriber, seq },
        Feedback::Pli { media: _ } => Call::Plead { subscriber },
    }
}

/// Returns the SSRC of an item's media source.
fn media(item: Feedback) -> u32
    ensures { result ≡ media_of item }
{
    match item {
        Feedback::Nack { media, seq: _ } => media,
        Feedback::Pli { media } => media,
    }
}

/// Fills the queue with the feedback that was received. The queue is empty afterwards if no datagram was received, if the datagram isn't RTCP, or if
/// its RTCP has a fault.
fn read_feedback(feedback: &mut FeedbackQueue, came: bool, datagram: &PacketBuf)
    ensures { feedback.new ≡ (if came then feedback_in datagram.now else []) }
{
    let bytes = datagram.bytes();
    if !came {
        return feedback.clear();
    }
    if !is_rtcp(bytes) {
        return feedback.clear();
    }
    let _fault = feedback.fill(bytes);
}

/// Removes and returns the next item of feedback whose media source is `ssrc`, if there is one. Drops the items before it, which are on other SSRCs.
fn next_item(feedback: &mut FeedbackQueue, ssrc: u32) -> Option<Feedback>
    ensures serves { (subscriber number : ℕ) (rtx : Option RtxData) (next : ℕ → Doing) → MatchOption result
        (serves subscriber ssrc rtx feedback.old number next ≡ next number)
        (λ item. serves subscriber ssrc rtx feedback.old number next
        ≡ Ask (call_for subscriber item) (λ answer. resends rtx number answer (λ later. serves subscriber ssrc rtx feedback.new later next))) }
    ensures fewer { IfSome result (λ item. length feedback.new < length feedback.old) }
{
    while let Some(item) = feedback.pop() {
        if media(item) == ssrc {
            return Some(item);
        }
    }
    None
}

impl SubscriberSession {
    ghost use Rattle.session_steps.specs.declared.subscriber.SubscriberSession.{SubscriberSession as SubscriberData};
    ghost use Rattle.session_steps.specs.Subscribing.{calls_at, subscribing, subscribing_at, subscribing_calls, then_takes};

    /// Returns a subscriber's session that has received no datagram yet. `ssrc` is the SSRC of the media sent to the subscriber. If `rtx` is a stream
    /// (RFC 4588), retransmissions are sent on this stream. Their sequence numbers there are 0, 1, 2 and so on, modulo 65,536. The stream's payload
    /// type must be below 128. Without `rtx`, a retransmission is the packet as it was first sent.
    pub fn new(subscriber: u32, ssrc: u32, rtx: Option<Rtx>) -> SubscriberSession
        requires payload_type { IfSome rtx (λ stream. stream.payload_type < 128) }
        ensures left { (turns : ℕ) → subscribing result turns ≡ outgoing_deed subscriber ssrc rtx turns 0 }
        ensures waits { (turns : ℕ) → Waits (subscribing result turns) turns }
    {
        SubscriberSession {
            subscriber,
            ssrc,
            rtx,
            number: 0,
            feedback: FeedbackQueue::new(),
            next: Next::Datagram,
            asked: Call::Plead { subscriber },
            take: Call::Take { subscriber },
        }
    }

    /// Returns the next step after the feedback or after a take. At most `left` takes remain in this turn.
    fn next_take(left: u32) -> Next
        ensures left { (s : SubscriberData) (turns : ℕ) → subscribing_at result s turns ≡ takes s.subscriber left (outgoing_deed s.subscriber s.ssrc s.rtx turns s.number) }
        ensures calls { (items : ℕ) → calls_at result items ≡ left }
    {
        if left == 0 {
            Next::Datagram
        } else {
            Next::Take { behind: left - 1 }
        }
    }

    /// Goes on to the next item of feedback on the subscriber's SSRC. If none is left, goes on to the takes.
    fn advance(&mut self)
        ensures left { (turns : ℕ) → subscribing self.new turns ≡ serves self.old.subscriber self.old.ssrc self.old.rtx self.old.feedback self.old.number (then_takes self.old turns) }
        ensures fewer { subscribing_calls self.new ≤ length self.old.feedback + 32 }
    {
        match next_item(&mut self.feedback, self.ssrc) {
            Some(item) => {
                self.asked = call_of(self.subscriber, item);
                self.next = Next::Feedback;
            }
            None => self.next = SubscriberSession::next_take(MOST_TAKES),
        }
    }
}

impl Session for SubscriberSession {
    ghost use Rattle.session_steps.specs.Subscribing.{subscribing, subscribing_calls};

    ghost left = { subscribing };

    ghost calls = { subscribing_calls };

    fn call(&self) -> Option<&Call> {
        match self.next {
            Next::Datagram => None,
            Next::Feedback => Some(&self.asked),
            Next::Take { .. } => Some(&self.take),
        }
    }

    fn received(&mut self, came: bool, _moment: u64, scratch: &mut Scratch) -> Output {
        read_feedback(&mut self.feedback, came, &scratch.packet);
        self.advance();
        Output::Nothing
    }

    fn replied(&mut self, reply: Reply, scratch: &mut Scratch) -> Output {
        match self.next {
            Next::Datagram => unreachable!(),
            Next::Feedback => {
                let output = resend(self.rtx, &mut self.number, reply, scratch);
                self.advance();
                output
            }
            Next::Take { behind } => {
                let Reply::Packet = reply else {
                    self.next = Next::Datagram;
                    return Output::Nothing;
                };
                self.next = SubscriberSession::next_take(behind);
                Output::Packet
            }
        }
    }
}
