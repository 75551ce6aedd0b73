// The lines about a track; their first word has been read.
ghost use Rattle.std.specs.Prelude.{◌≡◌};
ghost use Rattle.std.specs.Result.{result_ok};
ghost use Rattle.sfu_script.specs.ReadLines.{track_call_of};

use crate::NoLine;
use crate::commands::TrackCommand;
use crate::fields::Field::{Number32, Number64};
use crate::fields::read_fields;
use crate::lines::{packet, publish};
use sfu_base::Call;

/// Returns the call in a line. `command` is the line's first word, and `rest` is the text after it.
#[inline(always)]
pub fn read(command: TrackCommand, rest: &[u8]) -> Result<Call, NoLine>
    ensures { result_ok result ≡ track_call_of command rest.now }
{
    match command {
        TrackCommand::Publish => publish::read(rest),
        TrackCommand::Unpublish => {
            let [track] = read_fields(&[Number32], rest)?;
            Ok(Call::Unpublish {
                track: track as u32,
            })
        }
        TrackCommand::Packet => packet::read(rest),
        TrackCommand::Tick => {
            let [track, moment] = read_fields(&[Number32, Number64], rest)?;
            Ok(Call::Tick {
                track: track as u32,
                moment,
            })
        }
        TrackCommand::Missing => {
            let [track] = read_fields(&[Number32], rest)?;
            Ok(Call::Missing {
                track: track as u32,
            })
        }
        TrackCommand::Key => {
            let [track] = read_fields(&[Number32], rest)?;
            Ok(Call::KeyWanted {
                track: track as u32,
            })
        }
    }
}
