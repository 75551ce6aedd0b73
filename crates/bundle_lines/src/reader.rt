// Readers for lines.
ghost use Rattle.std.specs.Prelude.{◌≡◌, IfOk, OnErr};
ghost use Rattle.std.specs.Result.{result_ok};
ghost use Rattle.bundle_lines.specs.declared.line.BundleLine.{BundleLine};
ghost use Rattle.bundle_lines.specs.Lines.{IsBundleLine};
ghost use Rattle.bundle_lines.specs.ReadLines.{bundle_of, line_of, own_of, said_of, three_legs_of, two_legs_of};

use crate::BundleLine;
use crate::command::{BundleCommand, bundle_command};
use sfu_script::Field::{Number8, Number16, Number32, Ssrc};
use sfu_script::{NoLine, read_call, read_fields, split};

// The readers of single lines are inlined: each function that returns a line by value would clear and copy the 2 KB of its call again.
#[inline(always)]
fn two_legs(rest: &[u8]) -> Result<BundleLine, NoLine>
    ensures { result_ok result ≡ two_legs_of rest.now }
{
    let fields = [Number32, Number8, Ssrc, Number16, Number32, Number32];
    let [bundle, id, ssrc, first, one, two] = read_fields(&fields, rest)?;
    Ok(BundleLine::Bundle {
        bundle: bundle as u32,
        id: id as u8,
        ssrc: ssrc as u32,
        first: first as u16,
        legs: [one as u32, two as u32, 0],
        count: 2,
    })
}

#[inline(always)]
fn three_legs(rest: &[u8]) -> Result<BundleLine, NoLine>
    ensures { result_ok result ≡ three_legs_of rest.now }
{
    let fields = [
        Number32, Number8, Ssrc, Number16, Number32, Number32, Number32,
    ];
    let [bundle, id, ssrc, first, one, two, three] = read_fields(&fields, rest)?;
    Ok(BundleLine::Bundle {
        bundle: bundle as u32,
        id: id as u8,
        ssrc: ssrc as u32,
        first: first as u16,
        legs: [one as u32, two as u32, three as u32],
        count: 3,
    })
}

#[inline(always)]
fn bundle(rest: &[u8]) -> Result<BundleLine, NoLine>
    ensures { result_ok result ≡ bundle_of rest.now }
{
    match three_legs(rest) {
        Ok(line) => Ok(line),
        Err(NoLine) => two_legs(rest),
    }
}

// Returns the meaning of a command about a bundle; `rest` are the line's further words.
#[inline(always)]
fn behind(command: BundleCommand, rest: &[u8]) -> Result<BundleLine, NoLine>
    ensures { result_ok result ≡ said_of command rest.now }
{
    match command {
        BundleCommand::Bundle => bundle(rest),
        BundleCommand::Choose => {
            let [bundle, leg] = read_fields(&[Number32, Number8], rest)?;
            Ok(BundleLine::Choose {
                bundle: bundle as u32,
                leg: leg as u8,
            })
        }
        BundleCommand::Pump => {
            let [bundle] = read_fields(&[Number32], rest)?;
            Ok(BundleLine::Pump {
                bundle: bundle as u32,
            })
        }
        BundleCommand::Draw => {
            let [bundle] = read_fields(&[Number32], rest)?;
            Ok(BundleLine::Draw {
                bundle: bundle as u32,
            })
        }
        BundleCommand::Redraw => {
            let [bundle, seq] = read_fields(&[Number32, Number16], rest)?;
            Ok(BundleLine::Redraw {
                bundle: bundle as u32,
                seq: seq as u16,
            })
        }
    }
}

// Reads a line as a command about a bundle.
#[inline(always)]
fn own(line: &[u8]) -> Result<BundleLine, NoLine>
    ensures { result_ok result ≡ own_of line.now }
{
    let (word, rest) = split(line)?;
    match bundle_command(word) {
        Some(command) => behind(command, rest),
        None => Err(NoLine),
    }
}

#[inline(always)]
fn said(line: &[u8]) -> Result<BundleLine, NoLine>
    ensures { result_ok result ≡ line_of line.now }
{
    match read_call(line) {
        Ok(call) => Ok(BundleLine::Room(call)),
        Err(NoLine) => own(line),
    }
}

/// Reads a line. `line` doesn't include the line end. Returns `NoLine` if and only if the line has no meaning: the line is neither a call on the room nor a
/// command about a bundle. Allocates no memory.
pub fn read_bundle_line(line: &[u8]) -> Result<BundleLine, NoLine>
    ensures value { result_ok result ≡ line_of line.now }
    ensures ok { IfOk result (λ said. IsBundleLine said line.now) }
    ensures err { OnErr result ((said : BundleLine) → ¬ (IsBundleLine said line.now)) }
{
    said(line)
}
