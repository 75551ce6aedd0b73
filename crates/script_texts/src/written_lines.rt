// Writers for the lines of calls.
ghost use Rattle.std.specs.Prelude.{◌≡◌, ◌<◌, ◌++◌, [], ◌∷◌, length, OnErr, OnOk};
ghost use Rattle.script_texts.specs.Grammar.{Number, text_of, Word};
ghost use Rattle.script_texts.specs.Lines.{HasBytes, HasLine, IsLine, line_of};
ghost use Rattle.script_texts.specs.Texts.{GoesOn};

use crate::byte_ranges::are_bytes;
use crate::hex_text::append_hex;
use crate::pieces::Piece::{Number, Ssrc, Text};
use crate::pieces::append_pieces;
use crate::undo::whole_or_nothing;
use sfu_base::{Blob, Call, Kind, NoMemory, PacketBuf, Wish};

// Appends a command's word, a space, and the number of a track or subscriber.
fn append_numbered(word: &[u8], number: u32, out: &mut Blob) -> Result<(), NoMemory>
    ensures ok { OnOk result (out.new ≡ out.old ++ text_of (Word word.now ∷ Number 32 number ∷ [])) }
    ensures begun { GoesOn out.old out.new }
{
    append_pieces(&[Text(word), Number(u64::from(number))], out)
}

// Appends a command's word and two numbers, with one space between them.
fn append_numbers(word: &[u8], number: u32, second: u64, out: &mut Blob) -> Result<(), NoMemory>
    ensures ok { OnOk result (out.new ≡ out.old ++ text_of (Word word.now ∷ Number 32 number ∷ Number 64 second ∷ [])) }
    ensures begun { GoesOn out.old out.new }
{
    append_pieces(
        &[Text(word), Number(u64::from(number)), Number(second)],
        out,
    )
}

fn append_publish(
    track: u32,
    kind: Kind,
    ssrc: u32,
    hold: u32,
    out: &mut Blob,
) -> Result<(), NoMemory>
    ensures ok { OnOk result (out.new ≡ out.old ++ line_of (Call.Publish track kind ssrc hold)) }
    ensures within { HasLine (Call.Publish track kind ssrc hold) }
    ensures begun { GoesOn out.old out.new }
{
    let (name, track) = (Text(b"publish"), Number(u64::from(track)));
    let (ssrc, hold) = (Ssrc(ssrc), Number(u64::from(hold)));
    match kind {
        Kind::Plain => append_pieces(&[name, track, Text(b"plain"), ssrc, hold], out),
        Kind::Layered { id } => {
            let id = Number(u64::from(id));
            append_pieces(&[name, track, Text(b"layered"), ssrc, hold, id], out)
        }
    }
}

fn append_packet(track: u32, moment: u64, bytes: &PacketBuf, out: &mut Blob) -> Result<(), NoMemory>
    requires { 0 < length bytes.now }
    ensures ok { OnOk result (out.new ≡ out.old ++ line_of (Call.Packet track moment bytes.now)) }
    ensures within { HasLine (Call.Packet track moment bytes.now) }
    ensures begun { GoesOn out.old out.new }
{
    let bytes = bytes.bytes();
    are_bytes(bytes);
    append_pieces(
        &[Text(b"packet"), Number(u64::from(track)), Number(moment)],
        out,
    )?;
    out.append(b" ")?;
    append_hex(bytes, out)
}

fn append_join(
    subscriber: u32,
    track: u32,
    ssrc: u32,
    first: u16,
    wish: Wish,
    out: &mut Blob,
) -> Result<(), NoMemory>
    ensures ok { OnOk result (out.new ≡ out.old ++ line_of (Call.Join subscriber track ssrc first wish)) }
    ensures within { HasLine (Call.Join subscriber track ssrc first wish) }
    ensures begun { GoesOn out.old out.new }
{
    append_pieces(
        &[
            Text(b"join"),
            Number(u64::from(subscriber)),
            Number(u64::from(track)),
            Ssrc(ssrc),
            Number(u64::from(first)),
            Number(u64::from(wish.spatial)),
            Number(u64::from(wish.temporal)),
        ],
        out,
    )
}

fn append_aim(subscriber: u32, wish: Wish, out: &mut Blob) -> Result<(), NoMemory>
    ensures ok { OnOk result (out.new ≡ out.old ++ line_of (Call.Aim subscriber wish)) }
    ensures within { HasLine (Call.Aim subscriber wish) }
    ensures begun { GoesOn out.old out.new }
{
    append_pieces(
        &[
            Text(b"aim"),
            Number(u64::from(subscriber)),
            Number(u64::from(wish.spatial)),
            Number(u64::from(wish.temporal)),
        ],
        out,
    )
}

/// Appends the line of a call. On `NoMemory` a prefix of the line may have been appended.
pub fn append_call(call: &Call, out: &mut Blob) -> Result<(), NoMemory>
    requires { HasBytes call.now }
    ensures ok { OnOk result (out.new ≡ out.old ++ line_of call.now) }
    ensures within { HasLine call.now }
    ensures begun { GoesOn out.old out.new }
{
    match call {
        Call::Publish {
            track,
            kind,
            ssrc,
            hold,
        } => append_publish(*track, *kind, *ssrc, *hold, out),
        Call::Unpublish { track } => append_numbered(b"unpublish", *track, out),
        Call::Packet {
            track,
            moment,
            bytes,
        } => append_packet(*track, *moment, bytes, out),
        Call::Tick { track, moment } => append_numbers(b"tick", *track, *moment, out),
        Call::Join {
            subscriber,
            track,
            ssrc,
            first,
            wish,
        } => append_join(*subscriber, *track, *ssrc, *first, *wish, out),
        Call::Leave { subscriber } => append_numbered(b"leave", *subscriber, out),
        Call::Aim { subscriber, wish } => append_aim(*subscriber, *wish, out),
        Call::Take { subscriber } => append_numbered(b"take", *subscriber, out),
        Call::Resend { subscriber, seq } => {
            append_numbers(b"resend", *subscriber, u64::from(*seq), out)
        }
        Call::Missing { track } => append_numbered(b"missing", *track, out),
        Call::KeyWanted { track } => append_numbered(b"key", *track, out),
        Call::Plead { subscriber } => append_numbered(b"plead", *subscriber, out),
        Call::Why { subscriber, number } => append_numbers(b"why", *subscriber, *number, out),
    }
}

/// Appends the line of a call, without a line end. If the call is a packet, the packet is written in lower-case hex digits. It must have at least one
/// byte. On `NoMemory`, `out` is unchanged.
pub fn write_call(call: &Call, out: &mut Blob) -> Result<(), NoMemory>
    requires { HasBytes call.now }
    ensures ok { OnOk result (out.new ≡ out.old ++ line_of call.now) }
    ensures back { OnOk result (IsLine call.now (line_of call.now)) }
    ensures err { OnErr result (out.new ≡ out.old) }
{
    let start = out.bytes().len();
    let written = append_call(call, out);
    whole_or_nothing(written, start, out)
}
