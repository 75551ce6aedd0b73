// The command-line arguments.
ghost use Rattle.std.specs.Prelude.{map};
ghost use Rattle.std.specs.String.{string_bytes};
ghost use Rattle.sfu_commands.specs.Words.{Reads, ReadsFour, ReadsTwo, ReadsWord};

use crate::id_words::read_id;
use crate::stream_words::read_stream;

/// A single-threaded command.
#[derive(Clone, Copy, Debug, PartialEq, Eq)]
pub enum Command {
    /// Serves the calls of a script.
    Run,
    /// Writes the usage line.
    Help,
    /// Converts a script of lines to a script of records.
    Convert,
    /// Serves a script whose lines may also be calls on bundles. The crate `sfu_program` implements this command, since `sfu_commands` doesn't depend
    /// on bundles.
    Simulcast,
    /// Checks packets with a strict receiver. The number is the header extension id of the packets' dependency descriptors.
    Check(u8),
    /// Records packets as an IVF file. The number is the header extension id of the packets' dependency descriptors.
    Record(u8),
    /// Sends a generated stream to three subscribers, and writes what strict receivers find in their packets. The stream has `frames` frames; about
    /// `loss` percent of its packets are lost; `start` seeds the random generator.
    Trial { frames: u32, start: u64, loss: u8 },
    /// Sends a generated stream, as `Trial` does, but through two rooms. The second room is fed from the first, and has the three subscribers.
    Cascade { frames: u32, start: u64, loss: u8 },
}

// Reads one word as a command.
fn read_word(word: &str) -> Option<Command>
    ensures { ReadsWord word.now result }
{
    match word {
        "run" => Some(Command::Run),
        "convert" => Some(Command::Convert),
        "simulcast" => Some(Command::Simulcast),
        "help" => Some(Command::Help),
        _ => None,
    }
}

// Reads two words as a command.
fn read_two(word: &str, id: &str) -> Option<Command>
    ensures { ReadsTwo word.now id.now result }
{
    if let Some(id) = read_id("check", word, id) {
        return Some(Command::Check(id));
    }
    read_id("record", word, id).map(Command::Record)
}

// Reads four words as a command.
fn read_four(name: &str, frames: &str, start: &str, loss: &str) -> Option<Command>
    ensures { ReadsFour name.now frames.now start.now loss.now result }
{
    if let Some(made) = read_stream("trial", name, frames, start, loss) {
        return Some(Command::Trial {
            frames: made.frames,
            start: made.start,
            loss: made.loss,
        });
    }
    match read_stream("cascade", name, frames, start, loss) {
        Some(made) => Some(Command::Cascade {
            frames: made.frames,
            start: made.start,
            loss: made.loss,
        }),
        None => None,
    }
}

/// Reads the command-line arguments `words` as a command. Returns `None` if they aren't a command, and only then.
pub fn read_words(words: &[String]) -> Option<Command>
    ensures { Reads (map string_bytes words.now) result }
{
    match words {
        [word] => read_word(word.as_str()),
        [word, id] => read_two(word.as_str(), id.as_str()),
        [name, frames, start, loss] => read_four(
            name.as_str(),
            frames.as_str(),
            start.as_str(),
            loss.as_str(),
        ),
        _ => None,
    }
}
