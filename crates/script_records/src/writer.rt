// Writers for records.
ghost use Rattle.std.specs.Prelude.{◌≡◌, ◌<◌, ◌≤◌, ◌++◌, ◌∷◌, length, OnErr, OnOk};
ghost use Rattle.sfu_base.specs.declared.call.Call.{Call};
ghost use Rattle.script_texts.specs.Lines.{HasBytes, HasLine};
ghost use Rattle.script_texts.specs.Texts.{GoesOn};
ghost use Rattle.script_records.specs.Kinds.{code_of};
ghost use Rattle.script_records.specs.Records.{IsBody, body_of, framed, record_of};
ghost use Rattle.script_records.specs.Values.{values_bytes};

use crate::kind::RecordKind;
use crate::values::Value::{Bytes, Of8, Of16, Of32, Of64};
use crate::values::{Value, append_values, size};
use sfu_base::{Blob, Call, Kind, NoMemory, Wish};

// Appends the record of a kind with these values. On `NoMemory` a prefix of it may have been appended.
fn append(kind: RecordKind, values: &[Value], out: &mut Blob) -> Result<(), NoMemory>
    requires { length (values_bytes values.now) ≤ 2060 }
    ensures ok { OnOk result (out.new ≡ out.old ++ framed (code_of kind ∷ values_bytes values.now)) }
    ensures begun { GoesOn out.old out.new }
{
    let length = 1 + size(values);
    let length = length as u16;
    append_values(&[Of16(length), Of8(kind.code())], out)?;
    append_values(values, out)
}

fn append_publish(
    track: u32,
    kind: Kind,
    ssrc: u32,
    hold: u32,
    out: &mut Blob,
) -> Result<(), NoMemory>
    ensures ok { OnOk result (out.new ≡ out.old ++ record_of (Call.Publish track kind ssrc hold)) }
    ensures within { HasLine (Call.Publish track kind ssrc hold) }
    ensures begun { GoesOn out.old out.new }
{
    let (track, ssrc, hold) = (Of32(track), Of32(ssrc), Of32(hold));
    match kind {
        Kind::Plain => append(RecordKind::PublishPlain, &[track, ssrc, hold], out),
        Kind::Layered { id } => {
            append(
                RecordKind::PublishLayered,
                &[track, ssrc, hold, Of8(id)],
                out,
            )
        }
    }
}

fn append_packet(track: u32, moment: u64, packet: &[u8], out: &mut Blob) -> Result<(), NoMemory>
    requires some { 0 < length packet.now }
    requires few { length packet.now ≤ 2048 }
    ensures ok { OnOk result (out.new ≡ out.old ++ record_of (Call.Packet track moment packet.now)) }
    ensures within { HasLine (Call.Packet track moment packet.now) }
    ensures begun { GoesOn out.old out.new }
{
    let values = [Of32(track), Of64(moment), Bytes(packet)];
    append(RecordKind::Packet, &values, out)
}

fn append_join(
    subscriber: u32,
    track: u32,
    ssrc: u32,
    first: u16,
    wish: Wish,
    out: &mut Blob,
) -> Result<(), NoMemory>
    ensures ok { OnOk result (out.new ≡ out.old ++ record_of (Call.Join subscriber track ssrc first wish)) }
    ensures within { HasLine (Call.Join subscriber track ssrc first wish) }
    ensures begun { GoesOn out.old out.new }
{
    let values = [
        Of32(subscriber),
        Of32(track),
        Of32(ssrc),
        Of16(first),
        Of8(wish.spatial),
        Of8(wish.temporal),
    ];
    append(RecordKind::Join, &values, out)
}

fn append_aim(subscriber: u32, wish: Wish, out: &mut Blob) -> Result<(), NoMemory>
    ensures ok { OnOk result (out.new ≡ out.old ++ record_of (Call.Aim subscriber wish)) }
    ensures within { HasLine (Call.Aim subscriber wish) }
    ensures begun { GoesOn out.old out.new }
{
    let values = [Of32(subscriber), Of8(wish.spatial), Of8(wish.temporal)];
    append(RecordKind::Aim, &values, out)
}

// Appends the record of a call. On `NoMemory` a prefix of the record may have been appended.
fn append_call(call: &Call, out: &mut Blob) -> Result<(), NoMemory>
    requires { HasBytes call.now }
    ensures ok { OnOk result (out.new ≡ out.old ++ record_of call.now) }
    ensures within { HasLine call.now }
    ensures begun { GoesOn out.old out.new }
{
    match call {
        Call::Publish {
            track,
            kind,
            ssrc,
            hold,
        } => append_publish(*track, *kind, *ssrc, *hold, out),
        Call::Unpublish { track } => append(RecordKind::Unpublish, &[Of32(*track)], out),
        Call::Packet {
            track,
            moment,
            bytes,
        } => append_packet(*track, *moment, bytes.bytes(), out),
        Call::Tick { track, moment } => {
            append(RecordKind::Tick, &[Of32(*track), Of64(*moment)], out)
        }
        Call::Join {
            subscriber,
            track,
            ssrc,
            first,
            wish,
        } => append_join(*subscriber, *track, *ssrc, *first, *wish, out),
        Call::Leave { subscriber } => append(RecordKind::Leave, &[Of32(*subscriber)], out),
        Call::Aim { subscriber, wish } => append_aim(*subscriber, *wish, out),
        Call::Take { subscriber } => append(RecordKind::Take, &[Of32(*subscriber)], out),
        Call::Resend { subscriber, seq } => {
            append(RecordKind::Resend, &[Of32(*subscriber), Of16(*seq)], out)
        }
        Call::Missing { track } => append(RecordKind::Missing, &[Of32(*track)], out),
        Call::KeyWanted { track } => append(RecordKind::KeyWanted, &[Of32(*track)], out),
        Call::Plead { subscriber } => append(RecordKind::Plead, &[Of32(*subscriber)], out),
        Call::Why { subscriber, number } => {
            append(RecordKind::Why, &[Of32(*subscriber), Of64(*number)], out)
        }
    }
}

/// Appends a call's record: the length of the body in two bytes, then the body. If the call is a packet, the packet must have at least one byte. On
/// `NoMemory`, `out` is unchanged.
pub fn write_record(call: &Call, out: &mut Blob) -> Result<(), NoMemory>
    requires { HasBytes call.now }
    ensures ok { OnOk result (out.new ≡ out.old ++ record_of call.now) }
    ensures back { OnOk result (IsBody call.now (body_of call.now)) }
    ensures err { OnErr result (out.new ≡ out.old) }
{
    let start = out.bytes().len();
    let written = append_call(call, out);
    if written.is_err() {
        out.truncate(start);
    }
    written
}
