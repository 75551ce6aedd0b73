// Readers for records.
ghost use Rattle.std.specs.Prelude.{◌≡◌, ◌+◌, ◌<◌, ◌≤◌, [], ◌∷◌, IfOk, OnErr, Some, is_ok, length, true};
ghost use Rattle.std.specs.Result.{result_ok};
ghost use Rattle.sfu_base.specs.declared.call.Call.{Call};
ghost use Rattle.script_records.specs.Kinds.{has_length, is_in_table};
ghost use Rattle.script_records.specs.ReadRecords.{call_at, call_of, numbers_at};
ghost use Rattle.script_records.specs.Records.{IsBody};

use crate::fields::read_numbers;
use crate::kind::RecordKind;
use sfu_base::{Call, Kind, PacketBuf, Wish};
use sfu_script::Field;
use sfu_script::Field::{Number8, Number16, Number32, Number64, Ssrc};
use thiserror::Error;

/// A record is outside the grammar.
#[derive(Clone, Copy, Debug, PartialEq, Eq, Error)]
#[error("the record is outside the grammar")]
pub struct NoRecord;

/// The number of bytes between the kind and the packet, in the body of a `Packet` record.
pub const PACKET_HEAD: usize = 12;

// The readers of single kinds are inlined: each function that returns a call by value would clear and copy its 2 KB again.
#[inline(always)]
fn publish_plain(bytes: &[u8]) -> Call
    requires { length bytes.now ≡ 12 }
    ensures { call_at RecordKind.PublishPlain bytes.now ≡ Some result }
{
    let [track, ssrc, hold] = read_numbers(&[Number32, Ssrc, Number32], bytes);
    Call::Publish {
        track: track as u32,
        kind: Kind::Plain,
        ssrc: ssrc as u32,
        hold: hold as u32,
    }
}

#[inline(always)]
fn publish_layered(bytes: &[u8]) -> Call
    requires { length bytes.now ≡ 13 }
    ensures { call_at RecordKind.PublishLayered bytes.now ≡ Some result }
{
    let [track, ssrc, hold, id] = read_numbers(&[Number32, Ssrc, Number32, Number8], bytes);
    Call::Publish {
        track: track as u32,
        kind: Kind::Layered { id: id as u8 },
        ssrc: ssrc as u32,
        hold: hold as u32,
    }
}

#[inline(always)]
fn packet(bytes: &[u8]) -> Call
    requires { (12 < length bytes.now) × (length bytes.now ≤ 2060) }
    ensures { call_at RecordKind.Packet bytes.now ≡ Some result }
{
    let [track, moment] = read_numbers(&[Number32, Number64], bytes);
    let mut packet = PacketBuf::new();
    packet.fill(&bytes[PACKET_HEAD..]);
    Call::Packet {
        track: track as u32,
        moment,
        bytes: packet,
    }
}

#[inline(always)]
fn tick(bytes: &[u8]) -> Call
    requires { length bytes.now ≡ 12 }
    ensures { call_at RecordKind.Tick bytes.now ≡ Some result }
{
    let [track, moment] = read_numbers(&[Number32, Number64], bytes);
    Call::Tick {
        track: track as u32,
        moment,
    }
}

#[inline(always)]
fn join(bytes: &[u8]) -> Call
    requires { length bytes.now ≡ 16 }
    ensures { call_at RecordKind.Join bytes.now ≡ Some result }
{
    let fields = [Number32, Number32, Ssrc, Number16, Number8, Number8];
    let [subscriber, track, ssrc, first, spatial, temporal] = read_numbers(&fields, bytes);
    let wish = Wish {
        spatial: spatial as u8,
        temporal: temporal as u8,
    };
    Call::Join {
        subscriber: subscriber as u32,
        track: track as u32,
        ssrc: ssrc as u32,
        first: first as u16,
        wish,
    }
}

#[inline(always)]
fn aim(bytes: &[u8]) -> Call
    requires { length bytes.now ≡ 6 }
    ensures { call_at RecordKind.Aim bytes.now ≡ Some result }
{
    let [subscriber, spatial, temporal] = read_numbers(&[Number32, Number8, Number8], bytes);
    let wish = Wish {
        spatial: spatial as u8,
        temporal: temporal as u8,
    };
    Call::Aim {
        subscriber: subscriber as u32,
        wish,
    }
}

#[inline(always)]
fn resend(bytes: &[u8]) -> Call
    requires { length bytes.now ≡ 6 }
    ensures { call_at RecordKind.Resend bytes.now ≡ Some result }
{
    let [subscriber, seq] = read_numbers(&[Number32, Number16], bytes);
    Call::Resend {
        subscriber: subscriber as u32,
        seq: seq as u16,
    }
}

#[inline(always)]
fn why(bytes: &[u8]) -> Call
    requires { length bytes.now ≡ 12 }
    ensures { call_at RecordKind.Why bytes.now ≡ Some result }
{
    let [subscriber, number] = read_numbers(&[Number32, Number64], bytes);
    Call::Why {
        subscriber: subscriber as u32,
        number,
    }
}

/// Returns the number of a track or subscriber. `bytes` is the rest of a body after the kind, and has only this number.
pub fn number(bytes: &[u8]) -> u32
    requires { length bytes.now ≡ 4 }
    ensures { numbers_at (Field.Number32 ∷ []) bytes.now ≡ result ∷ [] }
{
    let [number] = read_numbers(&[Number32], bytes);
    number as u32
}

// Returns the call of a body of this kind; `bytes` are the body's bytes after the kind.
#[inline(always)]
fn call(kind: RecordKind, bytes: &[u8]) -> Call
    requires { has_length kind (1 + length bytes.now) ≡ true }
    ensures { call_at kind bytes.now ≡ Some result }
{
    match kind {
        RecordKind::PublishPlain => publish_plain(bytes),
        RecordKind::PublishLayered => publish_layered(bytes),
        RecordKind::Unpublish => Call::Unpublish {
            track: number(bytes),
        },
        RecordKind::Packet => packet(bytes),
        RecordKind::Tick => tick(bytes),
        RecordKind::Join => join(bytes),
        RecordKind::Leave => Call::Leave {
            subscriber: number(bytes),
        },
        RecordKind::Aim => aim(bytes),
        RecordKind::Take => Call::Take {
            subscriber: number(bytes),
        },
        RecordKind::Resend => resend(bytes),
        RecordKind::Missing => Call::Missing {
            track: number(bytes),
        },
        RecordKind::KeyWanted => Call::KeyWanted {
            track: number(bytes),
        },
        RecordKind::Plead => Call::Plead {
            subscriber: number(bytes),
        },
        RecordKind::Why => why(bytes),
    }
}

// Reads a body as a call.
#[inline(always)]
fn said(body: &[u8]) -> Result<Call, NoRecord>
    ensures value { result_ok result ≡ call_of body.now }
    ensures table { is_ok result ≡ is_in_table body.now }
{
    let [code, bytes @ ..] = body else {
        return Err(NoRecord);
    };
    match RecordKind::named(*code) {
        Some(kind) if kind.has_length(body.len()) => Ok(call(kind, bytes)),
        _ => Err(NoRecord),
    }
}

/// Reads the body of a record as a call. The body is all bytes of the record after the length field. Returns `NoRecord` exactly when the bytes aren't the
/// body of a call. Allocates no memory.
pub fn read_record(body: &[u8]) -> Result<Call, NoRecord>
    ensures value { result_ok result ≡ call_of body.now }
    ensures ok { IfOk result (λ said. IsBody said body.now) }
    ensures err { OnErr result ((said : Call) → ¬ (IsBody said body.now)) }
    ensures table { is_ok result ≡ is_in_table body.now }
{
    said(body)
}
