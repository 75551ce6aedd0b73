// Reads the length of an element, encoded in leb128.

ghost use Rattle.std.specs.Prelude.{◌≡◌, None, Some, MatchOption};
ghost use Rattle.av1_payload.specs.Reading.{length_at};

/// An encoded length has at most this number of bytes.
const MOST_BYTES: usize = 8;

/// Every length is below this number.
const BOUND: u64 = 0x1_0000_0000;

/// The highest bit of a byte. It is set if more bytes of the length follow.
const MORE: u8 = 0x80;

/// Reads a leb128 length from the start of the bytes (AV1 Bitstream Specification, section 4.10.5). Returns the length and the bytes after it. Returns `None`
/// if the bytes end before or within the length, if the length is encoded in more than 8 bytes, or if its value is 2^32 or more.
pub fn split_length<'a>(bytes: &'a [u8]) -> Option<(usize, &'a [u8])>
    ensures { MatchOption result (length_at bytes.now ≡ None) (λ x. length_at bytes.now ≡ Some (x.0, x.1.now)) }
{
    let mut value: u64 = 0;
    let mut scale: u64 = 1;
    for place in 0..MOST_BYTES {
        let byte = *bytes.get(place)?;
        value += scale * u64::from(byte % MORE);
        if byte < MORE {
            return if value < BOUND {
                Some((value as usize, &bytes[place + 1..]))
            } else {
                None
            };
        }
        scale *= 128;
    }
    None
}
