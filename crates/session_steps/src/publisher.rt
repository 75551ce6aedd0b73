// The session of a publisher.
ghost use Rattle.std.specs.Prelude.{◌≡◌, ◌&&◌, not, ℕ, ◌<◌, Option, None, length};
ghost use Rattle.sfu_base.specs.Answer.{answer_of};
ghost use Rattle.sfu_base.specs.declared.call.Call.TheVariants as call;
ghost use Rattle.rtcp_feedback.specs.Writing.{Rise};
ghost use Rattle.session_steps.specs.Datagrams.{is_rtcp};
ghost use Rattle.session_steps.specs.Sessions.{Doing, is_due, nacks, pleads, publisher_deed};
ghost use Rattle.session_steps.specs.Stepping.{GoesOn, Waits};

use crate::rtcp::is_rtcp;
use crate::session::{Output, Session};
use rtcp_feedback::{write_nack, write_pli};
use sfu_base::{Call, PacketBuf, Reply, Scratch};
use sfu_script::{set_packet, set_tick};

/// The packet sender's SSRC in the RTCP feedback (RFC 4585, section 6.1).
const SENDER: u32 = 1;

/// The least time between two turns that request missing packets, in milliseconds.
const ASKING_APART: u64 = 20;

/// The least time between two picture loss indications, in milliseconds.
const PLIS_APART: u64 = 500;

/// The next step of a publisher's session.
#[derive(Clone, Copy, Debug)]
enum Next {
    /// Wait for the next datagram.
    Datagram,
    /// Make the call with the packet that was received.
    Packet,
    /// Make the tick call, with the moment of this turn.
    Tick,
    /// Make the call for the list of missing packets. The next step is `KeyWanted`.
    Missing,
    /// Make the call that asks whether a key frame is wanted.
    KeyWanted,
}

/// The session of a publisher of one track. In each turn it adds the received RTP packet, if any, to the track, and then ticks the track. In the first
/// turn, and then at intervals of at least 20 milliseconds, it asks the room which packets are missing and whether a key frame is wanted. One NACK
/// names all missing packets (RFC 4585, section 6.2.1). If a key frame is wanted, the session sends a picture loss indication (section 6.3.1), unless
/// it sent the last one less than 500 milliseconds ago.
///
/// The session reuses its calls from turn to turn. A [`Call`] has a packet buffer, and creating a new call would mean clearing that buffer.
#[derive(Debug, Drop)]
pub struct PublisherSession {
    track: u32,
    ssrc: u32,
    /// The moment of the last turn that asked about missing packets and a key frame.
    asked: Option<u64>,
    /// The moment of the last picture loss indication sent.
    pleaded: Option<u64>,
    /// The moment of this turn.
    moment: u64,
    next: Next,
    packet: Call,
    tick: Call,
    missing: Call,
    key_wanted: Call,
    ghost missing_is: { missing ≡ call.Missing track },
    ghost key_wanted_is: { key_wanted ≡ call.KeyWanted track },
}

/// Returns whether `last` is `None`, or `moment` is at least `apart` milliseconds after `last`.
fn is_due(apart: u64, moment: u64, last: Option<u64>) -> bool
    ensures { result ≡ is_due apart moment last }
{
    match last {
        None => true,
        Some(last) => moment >= last && moment - last >= apart,
    }
}

/// Returns whether an RTP packet was received. Any datagram that isn't RTCP counts as an RTP packet.
fn is_packet(came: bool, datagram: &PacketBuf) -> bool
    ensures { result ≡ (came && not (is_rtcp datagram.now)) }
{
    came && !is_rtcp(datagram.bytes())
}

/// Writes one NACK for all missing packets that the reply names, if it names any.
fn nack(ssrc: u32, reply: Reply, scratch: &mut Scratch) -> Output
    requires rise { reply ≡ Reply.Names → 0 < length scratch.old.names → Rise 1023 scratch.old.names }
    ensures { (rest : Doing) → GoesOn (nacks ssrc (answer_of reply scratch.old.packet scratch.old.names) rest) rest scratch.new.packet result }
{
    let Reply::Names = reply else {
        return Output::Nothing;
    };
    if scratch.names.numbers().is_empty() {
        return Output::Nothing;
    }
    write_nack(SENDER, ssrc, &scratch.names, &mut scratch.packet);
    Output::Packet
}

/// If a key frame is wanted and a picture loss indication is due, writes the indication and records its moment.
fn plead(
    ssrc: u32,
    moment: u64,
    pleaded: &mut Option<u64>,
    reply: Reply,
    scratch: &mut Scratch,
) -> Output
    ensures { (next : Option ℕ → Doing) → GoesOn (pleads ssrc moment pleaded.old (answer_of reply scratch.old.packet scratch.old.names) next) (next pleaded.new)
        scratch.new.packet result }
{
    let Reply::Key { wanted } = reply else {
        return Output::Nothing;
    };
    if !wanted {
        return Output::Nothing;
    }
    if !is_due(PLIS_APART, moment, *pleaded) {
        return Output::Nothing;
    }
    *pleaded = Some(moment);
    write_pli(SENDER, ssrc, &mut scratch.packet);
    Output::Packet
}

impl PublisherSession {
    ghost use Rattle.session_steps.specs.Publishing.{publishing};

    /// Returns the session of a track's publisher. The session has received no datagram yet. `ssrc` is the SSRC of the packets that the publisher sends.
    pub fn new(track: u32, ssrc: u32) -> PublisherSession
        ensures left { (turns : ℕ) → publishing result turns ≡ publisher_deed track ssrc turns None None }
        ensures waits { (turns : ℕ) → Waits (publishing result turns) turns }
    {
        PublisherSession {
            track,
            ssrc,
            asked: None,
            pleaded: None,
            moment: 0,
            next: Next::Datagram,
            packet: Call::Packet {
                track,
                moment: 0,
                bytes: PacketBuf::new(),
            },
            tick: Call::Tick { track, moment: 0 },
            missing: Call::Missing { track },
            key_wanted: Call::KeyWanted { track },
        }
    }
}

impl Session for PublisherSession {
    ghost use Rattle.session_steps.specs.Publishing.{publishing, publishing_calls};

    ghost left = { publishing };

    ghost calls = { λ p. publishing_calls p.next };

    fn call(&self) -> Option<&Call> {
        match self.next {
            Next::Datagram => None,
            Next::Packet => Some(&self.packet),
            Next::Tick => Some(&self.tick),
            Next::Missing => Some(&self.missing),
            Next::KeyWanted => Some(&self.key_wanted),
        }
    }

    fn received(&mut self, came: bool, moment: u64, scratch: &mut Scratch) -> Output {
        self.moment = moment;
        set_tick(&mut self.tick, self.track, moment);
        if is_packet(came, &scratch.packet) {
            set_packet(&mut self.packet, self.track, moment, scratch.packet.bytes());
            self.next = Next::Packet;
            return Output::Nothing;
        }
        self.next = Next::Tick;
        Output::Nothing
    }

    fn replied(&mut self, reply: Reply, scratch: &mut Scratch) -> Output {
        match self.next {
            Next::Datagram => unreachable!(),
            Next::Packet => {
                self.next = Next::Tick;
                Output::Nothing
            }
            Next::Tick => {
                let due = is_due(ASKING_APART, self.moment, self.asked);
                self.next = if due { Next::Missing } else { Next::Datagram };
                Output::Nothing
            }
            Next::Missing => {
                self.next = Next::KeyWanted;
                nack(self.ssrc, reply, scratch)
            }
            Next::KeyWanted => {
                self.next = Next::Datagram;
                self.asked = Some(self.moment);
                plead(self.ssrc, self.moment, &mut self.pleaded, reply, scratch)
            }
        }
    }
}
