// A copy of a call.
ghost use Rattle.std.specs.Prelude.{◌≡◌};

use crate::{Call, PacketBuf};

impl Call {
    /// The same call, with a copy of its bytes.
    pub fn copied(&self) -> Call
        ensures { result ≡ self.now }
    {
        match self {
            Call::Publish {
                track,
                kind,
                ssrc,
                hold,
            } => Call::Publish {
                track: *track,
                kind: *kind,
                ssrc: *ssrc,
                hold: *hold,
            },
            Call::Unpublish { track } => Call::Unpublish { track: *track },
            Call::Packet {
                track,
                moment,
                bytes,
            } => {
                let mut copy = PacketBuf::new();
                copy.fill(bytes.bytes());
                Call::Packet {
                    track: *track,
                    moment: *moment,
                    bytes: copy,
                }
            }
            Call::Tick { track, moment } => Call::Tick {
                track: *track,
                moment: *moment,
            },
            Call::Join {
                subscriber,
                track,
                ssrc,
                first,
                wish,
            } => Call::Join {
                subscriber: *subscriber,
                track: *track,
                ssrc: *ssrc,
                first: *first,
                wish: *wish,
            },
            Call::Leave { subscriber } => Call::Leave {
                subscriber: *subscriber,
            },
            Call::Aim { subscriber, wish } => Call::Aim {
                subscriber: *subscriber,
                wish: *wish,
            },
            Call::Take { subscriber } => Call::Take {
                subscriber: *subscriber,
            },
            Call::Resend { subscriber, seq } => Call::Resend {
                subscriber: *subscriber,
                seq: *seq,
            },
            Call::Missing { track } => Call::Missing { track: *track },
            Call::KeyWanted { track } => Call::KeyWanted { track: *track },
            Call::Plead { subscriber } => Call::Plead {
                subscriber: *subscriber,
            },
            Call::Why { subscriber, number } => Call::Why {
                subscriber: *subscriber,
                number: *number,
            },
        }
    }
}
