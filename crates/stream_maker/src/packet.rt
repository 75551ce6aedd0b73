// A packet's bytes.

ghost use Rattle.std.specs.Prelude.{◌≡◌, ◌≤◌, ◌++◌, ◌&&◌, if◌then◌else◌, length};
ghost use Rattle.sfu_base.specs.Bytes.{bit};
ghost use Rattle.stream_maker.specs.Packets.{is_upper};
ghost use Rattle.stream_maker.specs.Bytes.{header, extension, long_extension, short_extension, payload, packet_bytes};
ghost use Rattle.stream_maker.specs.Bytes.{starts_key_frame, ends_frame, template_of};

use crate::place::{Place, is_key_unit, is_upper};
use sfu_base::PacketBuf;

// Version 2, with a header extension.
const FIRST_BYTE: u8 = 0x90;

const PAYLOAD_TYPE: u8 = 96;

const SSRC_BYTE: u8 = 0x11;

// The number of RTP clock ticks from one unit to the next.
const UNIT_TICKS: u32 = 3000;

// The bytes after the frame number: the flag of a structure, the structure, and a byte of padding.
const STRUCTURE: [u8; 23] = [
    0x80, 0x03, 0x18, 0x7F, 0xAF, 0xAC, 0x4A, 0x0A, 0x04, 0x04, 0xD1, 0x41, 0x09, 0xA1, 0x15, 0x80,
    0x08, 0x64, 0x22, 0x22, 0x26, 0x40, 0x00,
];

// Fills the buffer with a packet's bytes.
#[tactic(auto, unfolding(crate::specs::Bytes::packet_bytes))]
pub(crate) fn write(place: Place, out: &mut PacketBuf)
    ensures { out.new ≡ packet_bytes place }
{
    out.fill(&header(place));
    write_extension(place, out);
    write_payload(place, out);
}

fn starts_key_frame(place: Place) -> bool
    ensures { result ≡ starts_key_frame place }
{
    place.part == 0 && is_key_unit(place.frame) && !is_upper(place.frame)
}

fn bit(set: bool) -> u8
    ensures value { result ≡ bit set }
    ensures bound { result ≤ 1 }
{
    u8::from(set)
}

fn is_marked(place: Place) -> bool
    ensures { result ≡ (is_upper place.frame && ends_frame place) }
{
    is_upper(place.frame) && place.ends_frame()
}

// Returns the RTP header (RFC 3550, section 5.1).
fn header(place: Place) -> [u8; 12]
    ensures { result ≡ header place }
{
    let marker = bit(is_marked(place));
    let [sequence_high, sequence_low] = ((place.sequence % 0x1_0000) as u16).to_be_bytes();
    let timestamp = UNIT_TICKS.wrapping_mul(place.frame / 2);
    let [timestamp_0, timestamp_1, timestamp_2, timestamp_3] = timestamp.to_be_bytes();
    [
        FIRST_BYTE,
        128 * marker + PAYLOAD_TYPE,
        sequence_high,
        sequence_low,
        timestamp_0,
        timestamp_1,
        timestamp_2,
        timestamp_3,
        SSRC_BYTE,
        SSRC_BYTE,
        SSRC_BYTE,
        SSRC_BYTE,
    ]
}

// Returns the template of a frame in the stream's structure.
fn template_of(frame: u32) -> u8
    ensures value { result ≡ template_of frame }
    ensures bound { result ≤ 5 }
{
    let first_of_layer = if is_upper(frame) { 3 } else { 0 };
    if is_key_unit(frame) {
        first_of_layer
    } else {
        first_of_layer + 1 + (frame / 2 % 2) as u8
    }
}

// Writes the header extension (RFC 8285), which has the dependency descriptor under id 4.
fn write_extension(place: Place, out: &mut PacketBuf)
    requires { length out.old ≤ 12 }
    ensures bytes { out.new ≡ out.old ++ extension place }
    ensures bound { length out.new ≤ 48 }
{
    if starts_key_frame(place) {
        write_long_descriptor(place.frame, out);
    } else {
        write_short_descriptor(place, out);
    }
}

fn write_long_descriptor(frame: u32, out: &mut PacketBuf)
    requires { length out.old ≤ 12 }
    ensures bytes { out.new ≡ out.old ++ long_extension frame }
    ensures bound { length out.new ≤ 48 }
{
    let [number_high, number_low] = ((frame % 0x1_0000) as u16).to_be_bytes();
    out.append(&[0x10, 0x00, 0, 7, 4, 25, 0x80, number_high, number_low]);
    out.append(&STRUCTURE);
}

fn write_short_descriptor(place: Place, out: &mut PacketBuf)
    requires { length out.old ≤ 12 }
    ensures bytes { out.new ≡ out.old ++ short_extension place }
    ensures bound { length out.new ≤ 48 }
{
    let flags = 128 * bit(place.part == 0) + 64 * bit(place.ends_frame());
    let template = template_of(place.frame);
    let [number_high, number_low] = ((place.frame % 0x1_0000) as u16).to_be_bytes();
    out.append(&[
        0xBE,
        0xDE,
        0,
        1,
        0x42,
        flags + template,
        number_high,
        number_low,
    ]);
}

// Returns the first byte of an element: an OBU header if the element begins a frame, else 0.
fn element_byte(starts: bool) -> u8
    ensures { result ≡ (if starts then 0x30 else 0) }
{
    if starts { 0x30 } else { 0 }
}

// Writes the AV1 payload: the aggregation header and one element.
fn write_payload(place: Place, out: &mut PacketBuf)
    requires { length out.old ≤ 48 }
    ensures { out.new ≡ out.old ++ payload place }
{
    let starts = place.part == 0;
    let continues = bit(!starts);
    let goes_on = bit(!place.ends_frame());
    let key = bit(starts_key_frame(place));
    let element = element_byte(starts);
    out.append(&[128 * continues + 64 * goes_on + 16 + 8 * key, element]);
    out.append(&[0; 199]);
}
