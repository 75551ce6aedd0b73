// The texts of replies that are short enough for a packet's buffer.
ghost use Rattle.std.specs.Prelude.{◌≡◌, ◌+◌, ◌≤◌, ◌++◌, ℕ, List, length, decimal};
ghost use Rattle.std.specs.Int.{to_be_bytes, w32};
ghost use Rattle.hex.specs.Hex.{encode_lower};
ghost use Rattle.sfu_base.specs.Answer.{answer_of};
ghost use Rattle.script_texts.specs.Pieces.{piece_word, pieces_text};
ghost use Rattle.script_texts.specs.Replies.{answer_text, HasText, IsShort};
ghost use Rattle.script_texts.specs.Sizes.{piece_size, pieces_size};

use crate::pieces::Piece;
use crate::refusals::refusal_pieces;
use crate::verdicts::verdict_pieces;
use itoa::Buffer;
use sfu_base::{PacketBuf, Reply};

fn put_number(number: u64, out: &mut PacketBuf)
    requires { length out.old + 20 ≤ 2048 }
    ensures text { out.new ≡ out.old ++ decimal number }
    ensures capacity { length out.new ≤ length out.old + 20 }
{
    let mut digits = Buffer::new();
    out.append(digits.format(number).as_bytes());
}

fn put_ssrc(ssrc: u32, out: &mut PacketBuf)
    requires { length out.old + 8 ≤ 2048 }
    ensures text { out.new ≡ out.old ++ encode_lower (to_be_bytes w32 ssrc) }
    ensures capacity { length out.new ≡ length out.old + 8 }
{
    let mut digits = [0; 8];
    hex::encode_to_slice(ssrc.to_be_bytes(), &mut digits).unwrap();
    out.append(&digits);
}

fn put_piece(piece: &Piece, out: &mut PacketBuf)
    requires { length out.old + piece_size piece.now ≤ 2048 }
    ensures text { out.new ≡ out.old ++ piece_word piece.now }
    ensures capacity { length out.new ≤ length out.old + piece_size piece.now }
{
    match piece {
        Piece::Text(text) => out.append(text),
        Piece::Number(number) => put_number(*number, out),
        Piece::Ssrc(ssrc) => put_ssrc(*ssrc, out),
    }
}

fn put_pieces(pieces: &[Piece], out: &mut PacketBuf)
    requires { length out.old + pieces_size pieces.now ≤ 2048 }
    ensures { out.new ≡ out.old ++ pieces_text pieces.now }
{
    let [first, others @ ..] = pieces else {
        return;
    };
    put_piece(first, out);
    for piece in others {
        out.append(b" ");
        put_piece(piece, out);
    }
}

/// Replaces the bytes of `out` with the text of a reply, without a line end. The reply must not be `Packet` or `Names`. Allocates no memory.
pub fn write_short(reply: &Reply, out: &mut PacketBuf)
    requires { IsShort reply.now }
    ensures text { (bytes numbers : List ℕ) → out.new ≡ answer_text (answer_of reply.now bytes numbers) }
    ensures says { (bytes numbers : List ℕ) → HasText (answer_of reply.now bytes numbers) }
{
    out.fill(b"");
    match reply {
        Reply::Done => out.append(b"ok"),
        Reply::Key { wanted: true } => out.append(b"key yes"),
        Reply::Key { wanted: false } => out.append(b"key no"),
        Reply::Cause(verdict) => put_pieces(verdict_pieces(verdict).words(), out),
        Reply::Refused(why) => put_pieces(refusal_pieces(why).words(), out),
        Reply::Packet | Reply::Names => unreachable!(),
    }
}
