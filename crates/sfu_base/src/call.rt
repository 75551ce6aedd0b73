// The calls on a room and their replies.
ghost use Rattle.std.specs.Prelude.{◌≡◌, []};

use crate::frame::{Verdict, Wish};
use crate::{PacketBuf, SeqList};
use thiserror::Error;

/// What a track carries.
#[derive(Clone, Copy, Debug, PartialEq, Eq)]
pub enum Kind {
    /// Packets that are forwarded in order, with only sequence number and SSRC changed.
    Plain,
    /// AV1 packets (RTP Payload Format For AV1). Each packet has a dependency descriptor in the header extension element with this `id`. The id is 1
    /// to 14 or 16 to 255 (RFC 8285, section 4).
    Layered { id: u8 },
}

/// A call on a room (own rule). The caller numbers the tracks: a new track's number is above 0 and above the number of every earlier track.
/// Subscribers are numbered in the same way, independently of the tracks.
#[derive(Debug, Drop)]
pub enum Call {
    /// A track begins. The track's packets have this SSRC. `hold` is the reorder timeout in milliseconds: how long a packet is buffered behind
    /// a gap in the sequence numbers.
    Publish {
        track: u32,
        kind: Kind,
        ssrc: u32,
        hold: u32,
    },
    /// A track ends. The track's subscribers stay, and the packets that are queued for them can still be taken.
    Unpublish {
        track: u32,
    },
    /// An RTP packet of the track arrived at the time `moment`, in milliseconds.
    Packet {
        track: u32,
        moment: u64,
        bytes: PacketBuf,
    },
    /// The time is `moment`, in milliseconds. If the packet after the lowest gap has been buffered for `hold` or longer, the track gives up
    /// that gap. The same rule then applies to the next gap, and so on.
    Tick {
        track: u32,
        moment: u64,
    },
    /// A subscriber joins the track. The packets sent to the subscriber have this SSRC, and their sequence numbers begin at `first`. On a layered
    /// track, `wish` limits the spatial and temporal layers that are sent.
    Join {
        subscriber: u32,
        track: u32,
        ssrc: u32,
        first: u16,
        wish: Wish,
    },
    /// The subscriber leaves its track.
    Leave {
        subscriber: u32,
    },
    /// Changes the subscriber's wish: the highest layers that it wants. The new wish applies from the next frame on.
    Aim {
        subscriber: u32,
        wish: Wish,
    },
    /// Removes the oldest packet from the subscriber's queue and returns it.
    Take {
        subscriber: u32,
    },
    /// Requests a retransmission of a packet that the subscriber took before (RFC 4585, section 6.2.1). `seq` is the packet's sequence number.
    Resend {
        subscriber: u32,
        seq: u16,
    },
    /// Lists the sequence numbers of the packets for which the track waits.
    Missing {
        track: u32,
    },
    /// Reports whether a key frame should be requested from the track's publisher.
    KeyWanted {
        track: u32,
    },
    /// The subscriber requests a key frame (RFC 4585, section 6.3.1).
    Plead {
        subscriber: u32,
    },
    /// Reports whether a frame was forwarded to the subscriber and, if it wasn't, why not. `number` is the frame's unwrapped frame number.
    Why {
        subscriber: u32,
        number: u64,
    },
}

/// The reason why some bytes aren't an RTP packet (RFC 3550, section 5.1). If several reasons apply, the first in the order of this list is reported.
#[derive(Clone, Copy, Debug, PartialEq, Eq, Error)]
pub enum RtpFault {
    /// Fewer than 12 bytes.
    #[error("fewer than 12 bytes")]
    Short,
    /// The version isn't 2.
    #[error("the version isn't 2")]
    Version,
    /// The bytes end before the end of the CSRC list.
    #[error("the CSRC words aren't all there")]
    Csrc,
    /// The bytes end before the end of the header extension.
    #[error("the header extension isn't all there")]
    Extension,
    /// The padding count is 0, or more than the number of bytes after the header.
    #[error("the padding count is 0 or too great")]
    Padding,
}

/// The reason why a call was refused (own rule). A refused call changes nothing.
#[derive(Clone, Copy, Debug, PartialEq, Eq, Error)]
pub enum Refusal {
    /// No live track has this number, or the subscriber's track ended.
    #[error("no live track has this number, or the subscriber's track has ended")]
    NoTrack,
    /// No live subscriber has this number.
    #[error("no live subscriber has this number")]
    NoSubscriber,
    /// The number of the new track isn't above `highest`. `highest` is the highest number of any earlier track, or 0 if there was none. For a new
    /// subscriber, the same applies to the numbers of subscribers.
    #[error("the number isn't above {highest}, the highest that was ever live")]
    NumberUsed { highest: u32 },
    /// The limit on live tracks, or on live subscribers, is reached. `live` is the number of live tracks, or of live subscribers.
    #[error("{live} are live, which is the maximum")]
    TooMany { live: u32 },
    /// The header extension id is 0, which stands for padding, or 15, at which processing stops (RFC 8285, section 4.2).
    #[error("the header extension id is 0 or 15")]
    BadExtensionId,
    /// The packet has `len` bytes, which is more than 1,500.
    #[error("the packet has {len} bytes, more than 1,500")]
    TooBig { len: u32 },
    /// The bytes aren't an RTP packet.
    #[error("the bytes aren't an RTP packet: {0}")]
    Unreadable(RtpFault),
    /// The packet's SSRC is `got`, and the track's is `wanted`.
    #[error("the packet's SSRC is {got}, and the track's is {wanted}")]
    WrongSsrc { got: u32, wanted: u32 },
    /// The packet's unwrapped sequence number is 2^46 or more.
    #[error("the packet's unwrapped sequence number is 2^46 or more")]
    Spent,
    /// The packet's unwrapped sequence number is below `next`, the lowest number for which the track waits.
    #[error("the packet's unwrapped sequence number is below {next}, for which the track waits")]
    Late { next: u64 },
    /// A packet with this sequence number is buffered already.
    #[error("the packet is already buffered")]
    Repeat,
    /// The subscriber's queue is empty.
    #[error("no packet is queued for the subscriber")]
    Empty,
    /// The packet isn't stored for retransmission. `oldest` is the sequence number of the oldest stored packet, or `next` if there is none.
    /// `next` is the sequence number that the next taken packet will have.
    #[error("the packet isn't kept: the oldest kept number is {oldest}, that of the next take {next}")]
    NotKept { oldest: u16, next: u16 },
    /// The frame number is above `newest`, the newest frame's number. `None` means that no frame has arrived.
    #[error("no whole frame with this number or a higher one has come")]
    Ahead { newest: Option<u64> },
    /// The frame number is 4,096 or more below the number of the newest frame. `oldest` is the lowest number that the call accepts.
    #[error("the frame number is below {oldest}, the lowest that may be asked for")]
    TooOld { oldest: u64 },
    /// The subscriber's track is plain.
    #[error("the subscriber's track is plain")]
    Plain,
    /// Out of memory. All other refusals depend only on this call and on the earlier calls.
    #[error("out of memory")]
    NoMemory,
}

/// The reply to a call (own rule).
#[derive(Clone, Copy, Debug, PartialEq, Eq)]
pub enum Reply {
    /// The call was done.
    Done,
    /// A packet, whose bytes are in `Scratch::packet`.
    Packet,
    /// A list of sequence numbers, which is in `Scratch::names`.
    Names,
    /// Whether a key frame should be requested from the publisher.
    Key { wanted: bool },
    /// Whether a frame was forwarded and, if it wasn't, why not.
    Cause(Verdict),
    /// The call was refused.
    Refused(Refusal),
}

/// The output buffers of a call. If the reply is a packet or a list of sequence numbers, the call writes it into these buffers. One scratch can serve
/// many calls.
#[derive(Debug, Drop)]
pub struct Scratch {
    /// The bytes of a packet.
    pub packet: PacketBuf,
    /// Sequence numbers.
    pub names: SeqList,
}

impl Scratch {
    /// Empty buffers.
    pub fn new() -> Scratch
        ensures packet { result.packet ≡ [] }
        ensures names { result.names ≡ [] }
    {
        Scratch {
            packet: PacketBuf::new(),
            names: SeqList::new(),
        }
    }
}

impl Default for Scratch {
    /// Empty buffers.
    fn default() -> Scratch
        ensures packet { result.packet ≡ [] }
        ensures names { result.names ≡ [] }
    {
        Scratch::new()
    }
}
