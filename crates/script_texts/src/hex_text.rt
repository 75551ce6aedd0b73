// Bytes in hex digits, and the line of a packet. Both are written directly into the output.
ghost use Rattle.std.specs.Prelude.{◌≡◌, ◌+◌, ◌++◌, ◌∷◌, ◌*◌, ◌≤◌, [], codes, length, OnErr, OnOk};
ghost use Rattle.hex.specs.Hex.{encode_lower};
ghost use Rattle.sfu_base.specs.Answer.{Sent};
ghost use Rattle.script_texts.specs.Replies.{answer_text};

use sfu_base::{Blob, NoMemory, PacketBuf, Text};

// Returns the two digits of a byte. Both are computed in one word and without a table, so that the compiler can compute the digits of eight bytes
// at once.
fn digits_of(byte: u8) -> [u8; 2]
    ensures { result ≡ encode_lower (byte ∷ []) }
{
    let nibbles = u16::from(byte >> 4) + (u16::from(byte & 15) << 8);
    // 1 in each nibble whose digit is a letter
    let letters = ((nibbles + 0x0606) >> 4) & 0x0101;
    (nibbles + 0x3030 + 39 * letters).to_le_bytes()
}

// Overwrites `digits` with the bytes in hex digits; `digits` is twice as long as `bytes`.
fn write_hex(bytes: &[u8], digits: &mut [u8])
    requires { length digits.old ≡ 2 * length bytes.now }
    ensures { digits.new ≡ encode_lower bytes.now }
{
    for (i, byte) in bytes.iter().enumerate() {
        let pair = digits_of(*byte);
        digits[2 * i] = pair[0];
        digits[2 * i + 1] = pair[1];
    }
}

// The text before the digits of a packet's line, and the text after them.
const HEAD: &[u8; 7] = b"packet ";

const END: &[u8; 1] = b"\n";

// Overwrites `line`, which is as long as the packet's line, with that line.
fn write_line(bytes: &[u8], line: &mut [u8])
    requires { length line.old ≡ 2 * length bytes.now + 8 }
    ensures { line.new ≡ codes "packet " ++ (encode_lower bytes.now ++ 10 ∷ []) }
{
    let (head, rest) = line.split_at_mut(7);
    head.copy_from_slice(HEAD);
    let (digits, end) = rest.split_at_mut(2 * bytes.len());
    write_hex(bytes, digits);
    end.copy_from_slice(END);
}

// Bytes in hex digits. They are at most 2,048 bytes, as a packet is, so the number of digits doesn't overflow.
#[derive(Drop)]
struct HexDigits<'a> {
    bytes: &'a [u8],
    ghost bounded: { length bytes.now ≤ 2048 },
}

impl<'a> Text for HexDigits<'a> {
    ghost text = { λ digits. encode_lower digits.bytes.now };

    fn size(&self) -> usize {
        2 * self.bytes.len()
    }

    fn write(&self, out: &mut [u8]) {
        write_hex(self.bytes, out);
    }
}

// The line of a packet, with its line end.
#[derive(Drop)]
struct PacketLine<'a> {
    bytes: &'a [u8],
    ghost bounded: { length bytes.now ≤ 2048 },
}

impl<'a> Text for PacketLine<'a> {
    ghost text = { λ line. codes "packet " ++ (encode_lower line.bytes.now ++ 10 ∷ []) };

    fn size(&self) -> usize {
        2 * self.bytes.len() + 8
    }

    fn write(&self, out: &mut [u8]) {
        write_line(self.bytes, out);
    }
}

/// Appends the bytes in lower-case hex digits. There must be at most 2,048 bytes. On `NoMemory`, `out` is unchanged.
pub fn append_hex(bytes: &[u8], out: &mut Blob) -> Result<(), NoMemory>
    requires { length bytes.now ≤ 2048 }
    ensures ok { OnOk result (out.new ≡ out.old ++ encode_lower bytes.now) }
    ensures err { OnErr result (out.new ≡ out.old) }
{
    out.write(&HexDigits { bytes })
}

/// Appends the line `packet HEX`, with its line end. HEX is the packet's bytes in lower-case hex digits. On `NoMemory`, `out` is unchanged.
#[inline(never)]
pub fn append_line(packet: &PacketBuf, out: &mut Blob) -> Result<(), NoMemory>
    ensures ok { OnOk result (out.new ≡ out.old ++ (answer_text (Sent packet.now) ++ 10 ∷ [])) }
    ensures err { OnErr result (out.new ≡ out.old) }
{
    let bytes = packet.bytes();
    out.write(&PacketLine { bytes })
}
