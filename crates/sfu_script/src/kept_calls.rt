// Stored calls that are overwritten in place: each call has a buffer for a packet, which a new call would have to clear.
ghost use Rattle.std.specs.Prelude.{◌≡◌, ◌≤◌, length};
ghost use Rattle.sfu_base.specs.declared.call.Call.TheVariants as call;

use sfu_base::{Call, PacketBuf};

// Out of line: overwriting a packet call then needs no buffer on the stack.
#[cold]
#[inline(never)]
fn replace_by_packet(kept: &mut Call, packet: &[u8], track: u32, moment: u64)
    requires { length packet.now ≤ 2048 }
    ensures { kept.new ≡ call.Packet track moment packet.now }
{
    let mut buf = PacketBuf::new();
    buf.fill(packet);
    *kept = Call::Packet {
        track,
        moment,
        bytes: buf,
    };
}

/// Turns a stored call into the call for a packet of at most 2,048 bytes. If the stored call is already a packet call, it is overwritten in place.
/// Otherwise it is replaced.
#[inline(always)]
pub fn set_packet(kept: &mut Call, track: u32, moment: u64, packet: &[u8])
    requires { length packet.now ≤ 2048 }
    ensures { kept.new ≡ call.Packet track moment packet.now }
{
    match kept {
        Call::Packet {
            track: of,
            moment: at,
            bytes,
        } => {
            *of = track;
            *at = moment;
            bytes.fill(packet);
        }
        _ => replace_by_packet(kept, packet, track, moment),
    }
}

/// Turns a stored call into a tick. If the stored call is already a tick, it is overwritten in place. Otherwise it is replaced.
#[inline(always)]
pub fn set_tick(kept: &mut Call, track: u32, moment: u64)
    ensures { kept.new ≡ call.Tick track moment }
{
    match kept {
        Call::Tick {
            track: of,
            moment: at,
        } => {
            *of = track;
            *at = moment;
        }
        _ => *kept = Call::Tick { track, moment },
    }
}

/// Turns a stored call into a take. If the stored call is already a take, it is overwritten in place. Otherwise it is replaced.
#[inline(always)]
pub fn set_take(kept: &mut Call, subscriber: u32)
    ensures { kept.new ≡ call.Take subscriber }
{
    match kept {
        Call::Take { subscriber: of } => *of = subscriber,
        _ => *kept = Call::Take { subscriber },
    }
}

/// The stored calls of a reader. Each of the most frequent kinds (packet, take and tick) has its own stored call. The next call of the same kind
/// overwrites it in place.
#[derive(Debug, Drop)]
pub struct KeptCalls {
    /// The last packet call.
    pub packet: Call,
    /// The last take call.
    pub take: Call,
    /// The last tick call.
    pub tick: Call,
    /// The last call of another kind.
    pub other: Call,
}

impl KeptCalls {
    /// Returns the stored calls of a reader that has read nothing.
    pub fn new() -> KeptCalls {
        KeptCalls {
            packet: Call::Packet {
                track: 0,
                moment: 0,
                bytes: PacketBuf::new(),
            },
            take: Call::Take { subscriber: 0 },
            tick: Call::Tick {
                track: 0,
                moment: 0,
            },
            other: Call::Take { subscriber: 0 },
        }
    }
}
