// The range of a byte's values, for contracts.
ghost use Rattle.hex.specs.Hex.{IsBytes};

/// Shows that each byte is below 256. Contracts know this only of bytes that the code has read. Therefore the function reads each byte. It does nothing
/// else.
#[inline(always)]
pub fn are_bytes(bytes: &[u8])
    ensures { IsBytes bytes.now }
{
    for byte in bytes {
        let _read = *byte;
    }
}
