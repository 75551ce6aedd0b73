// The meaning of lines in scripts with bundles.
use sfu_base::Call;

/// The meaning of a line: a call on the room, or a command about a bundle. Own rule. A bundle is one outgoing stream. Its legs are 2 or 3 subscribers of
/// layered tracks. The bundle forwards the packets of one leg at a time. The caller chooses each bundle's number.
#[derive(Debug, Drop)]
pub enum BundleLine {
    /// A call on the room.
    Room(Call),
    /// Creates a bundle. Its legs are 2 or 3 subscribers: the first `count` items of `legs`. If `count` is 2, the third item is 0. The tracks of the legs use
    /// the header extension id `id` (RFC 8285, section 4). The bundle's packets have the SSRC `ssrc`, and their sequence numbers start at `first`.
    Bundle {
        bundle: u32,
        id: u8,
        ssrc: u32,
        first: u16,
        legs: [u32; 3],
        count: u8,
    },
    /// Tells the bundle to forward leg `leg`. Legs are counted from 1.
    Choose {
        bundle: u32,
        leg: u8,
    },
    /// Takes the packets that are queued for the bundle's legs.
    Pump {
        bundle: u32,
    },
    /// Takes the oldest packet that is queued for the bundle.
    Draw {
        bundle: u32,
    },
    /// Requests the retransmission of a packet that the bundle sent. `seq` is the packet's sequence number.
    Redraw {
        bundle: u32,
        seq: u16,
    },
}
