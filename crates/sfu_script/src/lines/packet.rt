// The line `packet T MOMENT HEX`; its first word has been read.
ghost use Rattle.std.specs.Prelude.{◌≡◌, MatchResult, None, Some};
ghost use Rattle.std.specs.Result.{result_ok};
ghost use Rattle.sfu_script.specs.ReadLines.{packet_head_of, packet_of};

use crate::NoLine;
use crate::hex_text::{MOST_BYTES, decode};
use crate::words::{leading32, leading64};
use sfu_base::{Call, PacketBuf};

/// Reads a track number and a moment from the start of `rest`. Returns both, and the text after them.
#[tactic(auto, unfolding(crate::specs::ReadLines::packet_head_of))]
#[inline(always)]
pub fn head(rest: &[u8]) -> Result<(u32, u64, &[u8]), NoLine>
    ensures { MatchResult result (λ head. packet_head_of rest.now ≡ Some (head.0, head.1, head.2.now)) (λ _. packet_head_of rest.now ≡ None) }
{
    let (track, rest) = leading32(rest)?;
    let (moment, rest) = leading64(rest)?;
    Ok((track, moment, rest))
}

/// Returns the call in a `packet` line. `rest` is the line's text after the word `packet`.
#[tactic(auto, unfolding(crate::specs::ReadLines::packet_of))]
#[inline(always)]
pub fn read(rest: &[u8]) -> Result<Call, NoLine>
    ensures { result_ok result ≡ packet_of rest.now }
{
    let (track, moment, digits) = head(rest)?;
    let mut buf = [0; MOST_BYTES];
    let count = decode(digits, &mut buf)?;
    Ok(Call::Packet {
        track,
        moment,
        bytes: PacketBuf::of(buf, count),
    })
}
