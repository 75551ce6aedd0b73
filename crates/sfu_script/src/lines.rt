// Readers for the lines of a script.
ghost use Rattle.std.specs.Prelude.{◌≡◌, IfOk, OnErr, List, ℕ};
ghost use Rattle.std.specs.Result.{result_ok};
ghost use Rattle.sfu_base.specs.declared.call.Call.{Call};
ghost use Rattle.script_texts.specs.Lines.{IsLine};
ghost use Rattle.sfu_script.specs.ReadLines.{call_of, command_of};

pub mod packet;
mod publish;
mod subscriber;
mod track;

use crate::commands::{subscriber_command, track_command};
use crate::words::split;
use sfu_base::Call;
use thiserror::Error;

/// The error for a line that is outside the grammar.
#[derive(Clone, Copy, Debug, PartialEq, Eq, Error)]
#[error("the line is outside the grammar")]
pub struct NoLine;

// The readers of single lines are inlined here: each function that returns a call by value would clear and copy its 2 KB again.
#[inline(always)]
fn behind(word: &[u8], rest: &[u8]) -> Result<Call, NoLine>
    ensures { result_ok result ≡ command_of word.now rest.now }
{
    match track_command(word) {
        Some(command) => track::read(command, rest),
        None => match subscriber_command(word) {
            Some(command) => subscriber::read(command, rest),
            None => Err(NoLine),
        },
    }
}

/// Reads a line as a call.
#[inline(always)]
pub fn call(line: &[u8]) -> Result<Call, NoLine>
    ensures { result_ok result ≡ call_of line.now }
{
    let (word, rest) = split(line)?;
    behind(word, rest)
}

/// Reads a line, without its line end, as a call. Returns `NoLine` exactly when the grammar assigns no call to the line. Allocates no memory.
pub fn read_call(line: &[u8]) -> Result<Call, NoLine>
    ensures value { result_ok result ≡ call_of line.now }
    ensures ok { IfOk result (λ said. IsLine said line.now) }
    ensures err { OnErr result ((said : Call) → ¬ (IsLine said line.now)) }
{
    call(line)
}
