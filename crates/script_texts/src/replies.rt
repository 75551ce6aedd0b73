// The texts of replies.
ghost use Rattle.std.specs.Prelude.{◌≡◌, ◌++◌, map, OnErr, OnOk};
ghost use Rattle.std.specs.List.{flat_map};
ghost use Rattle.sfu_base.specs.Answer.{answer_of, Named, Refused, Sent, CauseIs};
ghost use Rattle.script_texts.specs.Replies.{answer_text, HasText};
ghost use Rattle.script_texts.specs.Texts.{GoesOn};

use crate::byte_ranges::are_bytes;
use crate::hex_text::append_hex;
use crate::number_text::append_number;
use crate::pieces::append_pieces;
use crate::refusals::refusal_pieces;
use crate::undo::whole_or_nothing;
use crate::verdicts::verdict_pieces;
use sfu_base::{Blob, NoMemory, PacketBuf, Refusal, Reply, Scratch, Verdict};

fn append_packet(packet: &PacketBuf, out: &mut Blob) -> Result<(), NoMemory>
    ensures ok { OnOk result (out.new ≡ out.old ++ answer_text (Sent packet.now)) }
    ensures says { HasText (Sent packet.now) }
    ensures begun { GoesOn out.old out.new }
{
    let bytes = packet.bytes();
    are_bytes(bytes);
    out.append(b"packet ")?;
    append_hex(bytes, out)
}

fn append_names(numbers: &[u16], out: &mut Blob) -> Result<(), NoMemory>
    ensures ok { OnOk result (out.new ≡ out.old ++ answer_text (Named numbers.now)) }
    ensures says { OnOk result (HasText (Named numbers.now)) }
    ensures begun { GoesOn out.old out.new }
{
    out.append(b"missing")?;
    for number in numbers {
        out.append(b" ")?;
        append_number(u64::from(*number), out)?;
    }
    Ok(())
}

// Out of line, as is the next function: the most frequent replies then need no stack space for words.
#[inline(never)]
fn append_cause(verdict: &Verdict, out: &mut Blob) -> Result<(), NoMemory>
    ensures ok { OnOk result (out.new ≡ out.old ++ answer_text (CauseIs verdict.now)) }
    ensures says { HasText (CauseIs verdict.now) }
    ensures begun { GoesOn out.old out.new }
{
    append_pieces(verdict_pieces(verdict).words(), out)
}

#[inline(never)]
fn append_refusal(why: &Refusal, out: &mut Blob) -> Result<(), NoMemory>
    ensures ok { OnOk result (out.new ≡ out.old ++ answer_text (Refused why.now)) }
    ensures says { HasText (Refused why.now) }
    ensures begun { GoesOn out.old out.new }
{
    append_pieces(refusal_pieces(why).words(), out)
}

fn append_reply(reply: &Reply, scratch: &Scratch, out: &mut Blob) -> Result<(), NoMemory>
    ensures ok { OnOk result (out.new ≡ out.old ++ answer_text (answer_of reply.now scratch.now.packet scratch.now.names)) }
    ensures says { OnOk result (HasText (answer_of reply.now scratch.now.packet scratch.now.names)) }
    ensures begun { GoesOn out.old out.new }
{
    match reply {
        Reply::Done => out.append(b"ok"),
        Reply::Packet => append_packet(&scratch.packet, out),
        Reply::Names => append_names(scratch.names.numbers(), out),
        Reply::Key { wanted: true } => out.append(b"key yes"),
        Reply::Key { wanted: false } => out.append(b"key no"),
        Reply::Cause(verdict) => append_cause(verdict, out),
        Reply::Refused(why) => append_refusal(why, out),
    }
}

/// Appends the text of a reply, without a line end. If the reply is `Packet` or `Names`, `scratch` has the packet's bytes or the sequence numbers. On
/// `NoMemory`, `out` is unchanged.
pub fn write_reply(reply: &Reply, scratch: &Scratch, out: &mut Blob) -> Result<(), NoMemory>
    ensures ok { OnOk result (out.new ≡ out.old ++ answer_text (answer_of reply.now scratch.now.packet scratch.now.names)) }
    ensures says { OnOk result (HasText (answer_of reply.now scratch.now.packet scratch.now.names)) }
    ensures err { OnErr result (out.new ≡ out.old) }
{
    let start = out.bytes().len();
    let written = append_reply(reply, scratch, out);
    whole_or_nothing(written, start, out)
}
