// A reader that reuses its buffers from line to line.
ghost use Rattle.std.specs.Prelude.{◌≡◌, IfOk, MatchResult, None, OnErr, Some};
ghost use Rattle.sfu_base.specs.declared.call.Call.{Call};
ghost use Rattle.script_texts.specs.Lines.{IsLine};
ghost use Rattle.sfu_script.specs.ReadLines.{call_of, packet_of, subscriber_call_of, track_call_of};

use crate::commands::{SubscriberCommand, TrackCommand};
use crate::hex_text::{MOST_BYTES, decode};
use crate::kept_calls::{KeptCalls, set_packet, set_take, set_tick};
use crate::lines::packet;
use crate::words::{leading32, number32, number64};
use crate::{NoLine, read_call};
use sfu_base::Call;

/// Reads line after line like [`read_call`], but returns a reference to the call.
#[derive(Debug, Drop)]
pub struct LineReader {
    buf: [u8; MOST_BYTES],
    calls: KeptCalls,
}

impl LineReader {
    /// Returns a reader that has read no line.
    pub fn new() -> LineReader {
        LineReader {
            buf: [0; MOST_BYTES],
            calls: KeptCalls::new(),
        }
    }

    #[tactic(auto, unfolding(crate::specs::ReadLines::packet_of))]
    #[inline(always)]
    fn read_packet(&mut self, rest: &[u8]) -> Result<(), NoLine>
        ensures { MatchResult result (λ _. packet_of rest.now ≡ Some self.new.calls.packet) (λ _. packet_of rest.now ≡ None) }
    {
        let (track, moment, digits) = packet::head(rest)?;
        let count = decode(digits, &mut self.buf)?;
        set_packet(&mut self.calls.packet, track, moment, &self.buf[..count]);
        Ok(())
    }

    #[inline(always)]
    fn read_take(&mut self, rest: &[u8]) -> Result<(), NoLine>
        ensures { MatchResult result (λ _. subscriber_call_of SubscriberCommand.Take rest.now ≡ Some self.new.calls.take)
            (λ _. subscriber_call_of SubscriberCommand.Take rest.now ≡ None) }
    {
        let subscriber = number32(rest)?;
        set_take(&mut self.calls.take, subscriber);
        Ok(())
    }

    #[inline(always)]
    fn read_tick(&mut self, rest: &[u8]) -> Result<(), NoLine>
        ensures { MatchResult result (λ _. track_call_of TrackCommand.Tick rest.now ≡ Some self.new.calls.tick) (λ _. track_call_of TrackCommand.Tick rest.now
            ≡ None) }
    {
        let (track, rest) = leading32(rest)?;
        let moment = number64(rest)?;
        set_tick(&mut self.calls.tick, track, moment);
        Ok(())
    }

    // Out of line: other lines then need no stack space for a call that is returned by value.
    #[inline(never)]
    fn read_other(&mut self, line: &[u8]) -> Result<(), NoLine>
        ensures { MatchResult result (λ _. call_of line.now ≡ Some self.new.calls.other) (λ _. call_of line.now ≡ None) }
    {
        self.calls.other = read_call(line)?;
        Ok(())
    }

    #[inline(always)]
    fn lend(&mut self, line: &[u8]) -> Result<&Call, NoLine>
        ensures { MatchResult result (λ said. call_of line.now ≡ Some said.now) (λ _. call_of line.now ≡ None) }
    {
        match line {
            [b'p', b'a', b'c', b'k', b'e', b't', b' ', rest @ ..] => {
                self.read_packet(rest)?;
                Ok(&self.calls.packet)
            }
            [b't', b'a', b'k', b'e', b' ', rest @ ..] => {
                self.read_take(rest)?;
                Ok(&self.calls.take)
            }
            [b't', b'i', b'c', b'k', b' ', rest @ ..] => {
                self.read_tick(rest)?;
                Ok(&self.calls.tick)
            }
            _ => {
                self.read_other(line)?;
                Ok(&self.calls.other)
            }
        }
    }

    /// Reads a line as a call. The call stays valid until the next read. Returns `NoLine` exactly when the grammar assigns no call to the line.
    /// Allocates no memory.
    #[inline(always)]
    pub fn read(&mut self, line: &[u8]) -> Result<&Call, NoLine>
        ensures value { MatchResult result (λ said. call_of line.now ≡ Some said.now) (λ _. call_of line.now ≡ None) }
        ensures ok { IfOk result (λ said. IsLine said.now line.now) }
        ensures err { OnErr result ((said : Call) → ¬ (IsLine said line.now)) }
    {
        self.lend(line)
    }
}
