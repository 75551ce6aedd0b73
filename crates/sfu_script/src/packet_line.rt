// A line that consists of a packet's bytes in hex digits.
ghost use Rattle.std.specs.Prelude.{◌≡◌, List, MatchResult, None, OnErr, OnOk, Some, ℕ};
ghost use Rattle.script_texts.specs.Grammar.{Fills, Hex};
ghost use Rattle.sfu_script.specs.Reading.{bytes_of};

use crate::NoLine;
use crate::hex_text::{MOST_BYTES, decode};
use sfu_base::PacketBuf;

/// Reads packet lines as [`read_packet`] does, but with one buffer for hex decoding that is used again for each line.
#[derive(Debug, Drop)]
pub struct PacketReader {
    buf: [u8; MOST_BYTES],
}

impl PacketReader {
    /// Returns a reader that has read no line.
    pub fn new() -> PacketReader {
        PacketReader {
            buf: [0; MOST_BYTES],
        }
    }

    /// Reads a line that consists of the hex digits of 1 to 2,048 bytes. These bytes replace the contents of `out`. Returns `NoLine` exactly when the line
    /// isn't of this form. In that case, `out` is unchanged. Allocates no memory.
    pub fn read(&mut self, line: &[u8], out: &mut PacketBuf) -> Result<(), NoLine>
        ensures value { MatchResult result (λ _. bytes_of line.now ≡ Some out.new) (λ _. bytes_of line.now ≡ None) }
        ensures ok { OnOk result (Fills (Hex out.new) line.now) }
        ensures none { OnErr result ((bytes : List ℕ) → ¬ (Fills (Hex bytes) line.now)) }
        ensures err { OnErr result (out.new ≡ out.old) }
    {
        let count = decode(line, &mut self.buf)?;
        out.fill(&self.buf[..count]);
        Ok(())
    }
}

impl Default for PacketReader {
    fn default() -> PacketReader {
        PacketReader::new()
    }
}

/// Reads a line that consists of the hex digits of 1 to 2,048 bytes. These bytes replace the contents of `out`. Returns `NoLine` exactly when the line
/// isn't of this form. In that case, `out` is unchanged. Allocates no memory.
pub fn read_packet(line: &[u8], out: &mut PacketBuf) -> Result<(), NoLine>
    ensures value { MatchResult result (λ _. bytes_of line.now ≡ Some out.new) (λ _. bytes_of line.now ≡ None) }
    ensures ok { OnOk result (Fills (Hex out.new) line.now) }
    ensures none { OnErr result ((bytes : List ℕ) → ¬ (Fills (Hex bytes) line.now)) }
    ensures err { OnErr result (out.new ≡ out.old) }
{
    PacketReader::new().read(line, out)
}
