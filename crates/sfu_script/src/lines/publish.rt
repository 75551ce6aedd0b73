// The lines `publish T plain SSRC HOLD` and `publish T layered SSRC HOLD ID`, read after `publish`.
ghost use Rattle.std.specs.Prelude.{◌≡◌};
ghost use Rattle.std.specs.Result.{result_ok};
ghost use Rattle.sfu_script.specs.ReadLines.{kind_of, layered_of, plain_of, publish_of};

use crate::NoLine;
use crate::fields::Field::{Number8, Number32, Ssrc};
use crate::fields::read_fields;
use crate::words::{number32, split};
use sfu_base::{Call, Kind};

#[inline(always)]
fn plain(track: u32, rest: &[u8]) -> Result<Call, NoLine>
    ensures { result_ok result ≡ plain_of track rest.now }
{
    let [ssrc, hold] = read_fields(&[Ssrc, Number32], rest)?;
    Ok(Call::Publish {
        track,
        kind: Kind::Plain,
        ssrc: ssrc as u32,
        hold: hold as u32,
    })
}

#[inline(always)]
fn layered(track: u32, rest: &[u8]) -> Result<Call, NoLine>
    ensures { result_ok result ≡ layered_of track rest.now }
{
    let [ssrc, hold, id] = read_fields(&[Ssrc, Number32, Number8], rest)?;
    Ok(Call::Publish {
        track,
        kind: Kind::Layered { id: id as u8 },
        ssrc: ssrc as u32,
        hold: hold as u32,
    })
}

#[inline(always)]
fn of_kind(track: u32, kind: &[u8], rest: &[u8]) -> Result<Call, NoLine>
    ensures { result_ok result ≡ kind_of track kind.now rest.now }
{
    match kind {
        b"plain" => plain(track, rest),
        b"layered" => layered(track, rest),
        _ => Err(NoLine),
    }
}

/// Returns the call in a `publish` line. `rest` is the line's text after the word `publish`.
#[tactic(auto, unfolding(crate::specs::ReadLines::publish_of))]
#[inline(always)]
pub fn read(rest: &[u8]) -> Result<Call, NoLine>
    ensures { result_ok result ≡ publish_of rest.now }
{
    let (word, rest) = split(rest)?;
    let track = number32(word)?;
    let (kind, rest) = split(rest)?;
    of_kind(track, kind, rest)
}
