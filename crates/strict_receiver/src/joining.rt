// Checks whether a packet begins a frame, and whether it continues one.

ghost use Rattle.std.specs.Prelude.{◌≡◌, ◌<◌, ◌&&◌, Bool, Option, not, true};
ghost use Rattle.forwarding_model.specs.Receiver.{first_packet, header_of};
ghost use Rattle.dd_structure.specs.TemplateStructure.{TemplateStructure};
ghost use Rattle.packet_format.specs.Shown.{HasDistances};
ghost use Rattle.strict_receiver.specs.Frames.{follows, frame_said, header_said, said_by};

use crate::frame::{FrameStart, OpenFrame};
use dd_descriptor::Descriptor;
use packet_format::begins_epoch;

/// The largest number of packets of a frame.
const MOST_PACKETS: u16 = 512;

/// Whether a packet with this descriptor can begin a frame. In such a packet the start bit is set. The packet continues no element.
pub fn begins(first: &Descriptor, continues: bool) -> bool
    ensures { result ≡ (first.now.start && not continues) }
{
    first.start && !continues
}

/// The open frame after its first packet, whose descriptor is `first`.
pub fn begun(first: &Descriptor, carries: bool) -> OpenFrame
    requires { HasDistances first.now }
    ensures { (force : Option TemplateStructure) (continues : Bool)
        → frame_said result ≡ first_packet (said_by force first.now) (record { continues = continues; carries = carries }) }
{
    OpenFrame {
        start: start_of(first),
        packets: 1,
        carries,
    }
}

// The parts of a frame's first descriptor that a receiver uses.
fn start_of(first: &Descriptor) -> FrameStart
    requires { HasDistances first.now }
    ensures { (force : Option TemplateStructure) → header_said result ≡ header_of (said_by force first.now) }
{
    FrameStart {
        number: first.number,
        key: begins_epoch(first),
        ref_count: first.ref_count,
        refs: first.refs,
    }
}

/// Whether a packet with this descriptor continues the frame. Such a packet has the frame's number, and its start bit isn't set. The packet continues
/// an element exactly if the previous packet left one unfinished. A frame has at most 512 packets.
pub fn goes_on(frame: &OpenFrame, descriptor: &Descriptor, continues: bool) -> bool
    ensures follows { (force : Option TemplateStructure) → result ≡ follows (frame_said frame.now) (said_by force descriptor.now) continues }
    ensures few { result ≡ true → frame.now.packets < 512 }
{
    !descriptor.start
        && descriptor.number == frame.start.number
        && continues == frame.carries
        && frame.packets < MOST_PACKETS
}
