// A reader that reuses its buffers from record to record.
ghost use Rattle.std.specs.Prelude.{◌≡◌, ◌+◌, ◌<◌, ◌≤◌, IfOk, MatchResult, None, OnErr, Some, is_ok, length, true};
ghost use Rattle.sfu_base.specs.declared.call.Call.{Call};
ghost use Rattle.script_records.specs.Kinds.{is_in_table};
ghost use Rattle.script_records.specs.ReadRecords.{call_at, call_of};
ghost use Rattle.script_records.specs.Records.{IsBody};

use crate::fields::read_numbers;
use crate::kind::RecordKind;
use crate::reader::{NoRecord, PACKET_HEAD, number, read_record};
use sfu_base::Call;
use sfu_script::Field::{Number32, Number64};
use sfu_script::{KeptCalls, set_packet, set_take, set_tick};

/// Reads records one after another. Reads each record as [`read_record`] does, but returns a reference to the call.
#[derive(Debug, Drop)]
pub struct RecordReader {
    calls: KeptCalls,
}

impl RecordReader {
    /// Returns a reader that has read no record.
    pub fn new() -> RecordReader {
        RecordReader {
            calls: KeptCalls::new(),
        }
    }

    fn read_packet(&mut self, fields: &[u8])
        requires { (12 < length fields.now) × (length fields.now ≤ 2060) }
        ensures { call_at RecordKind.Packet fields.now ≡ Some self.new.calls.packet }
    {
        let [track, moment] = read_numbers(&[Number32, Number64], fields);
        set_packet(
            &mut self.calls.packet,
            track as u32,
            moment,
            &fields[PACKET_HEAD..],
        );
    }

    fn read_take(&mut self, fields: &[u8])
        requires { length fields.now ≡ 4 }
        ensures { call_at RecordKind.Take fields.now ≡ Some self.new.calls.take }
    {
        set_take(&mut self.calls.take, number(fields));
    }

    fn read_tick(&mut self, fields: &[u8])
        requires { length fields.now ≡ 12 }
        ensures { call_at RecordKind.Tick fields.now ≡ Some self.new.calls.tick }
    {
        let [track, moment] = read_numbers(&[Number32, Number64], fields);
        set_tick(&mut self.calls.tick, track as u32, moment);
    }

    // Out of line: other records then need no stack space for a call that is returned by value.
    #[inline(never)]
    fn read_other(&mut self, body: &[u8]) -> Result<(), NoRecord>
        ensures value { MatchResult result (λ _. call_of body.now ≡ Some self.new.calls.other) (λ _. call_of body.now ≡ None) }
        ensures table { is_ok result ≡ is_in_table body.now }
    {
        self.calls.other = read_record(body)?;
        Ok(())
    }

    #[inline(always)]
    fn lend(&mut self, body: &[u8]) -> Result<&Call, NoRecord>
        ensures value { MatchResult result (λ said. call_of body.now ≡ Some said.now) (λ _. call_of body.now ≡ None) }
        ensures table { is_ok result ≡ is_in_table body.now }
    {
        let [code, fields @ ..] = body else {
            return Err(NoRecord);
        };
        match RecordKind::named(*code) {
            Some(RecordKind::Packet) if RecordKind::Packet.has_length(body.len()) => {
                self.read_packet(fields);
                Ok(&self.calls.packet)
            }
            Some(RecordKind::Take) if RecordKind::Take.has_length(body.len()) => {
                self.read_take(fields);
                Ok(&self.calls.take)
            }
            Some(RecordKind::Tick) if RecordKind::Tick.has_length(body.len()) => {
                self.read_tick(fields);
                Ok(&self.calls.tick)
            }
            _ => {
                self.read_other(body)?;
                Ok(&self.calls.other)
            }
        }
    }

    /// Reads the body of a record as a call. The call stays valid until the next record is read. Returns `NoRecord` exactly when the bytes aren't the
    /// body of a call. Allocates no memory.
    pub fn read(&mut self, body: &[u8]) -> Result<&Call, NoRecord>
        ensures value { MatchResult result (λ said. call_of body.now ≡ Some said.now) (λ _. call_of body.now ≡ None) }
        ensures ok { IfOk result (λ said. IsBody said.now body.now) }
        ensures err { OnErr result ((said : Call) → ¬ (IsBody said body.now)) }
        ensures table { is_ok result ≡ is_in_table body.now }
    {
        self.lend(body)
    }
}
