// The words of a command that makes a stream.
ghost use Rattle.std.specs.Prelude.{◌≡◌, ◌^◌, ◌<◌, ◌∷◌, [], ℕ, MatchOption, decimal};
ghost use Rattle.stream_maker.specs.Stream.{Stream};
ghost use Rattle.sfu_commands.specs.StreamWords.{IsNumber, SaysStream};
ghost use Rattle.sfu_commands.specs.StreamNumbers.{stream_by};

use sfu_script::{Field, read_fields};

const MOST_FRAMES: u64 = 1_000_000;

const MOST_LOSS: u64 = 50;

/// The parameters of a generated stream.
#[derive(Clone, Copy, Debug, PartialEq, Eq)]
pub struct StreamNumbers {
    /// The number of frames, 1 to 1,000,000.
    pub frames: u32,
    /// The seed of the random generator.
    pub start: u64,
    /// The approximate packet loss in percent, at most 50.
    pub loss: u8,
}

// Reads a word as a number in decimal digits without a leading zero; `None` if it isn't one.
fn number(word: &str) -> Option<u64>
    ensures { MatchOption result ((n : ℕ) → ¬ (IsNumber n word.now)) (λ n. IsNumber n word.now) }
{
    match read_fields(&[Field::Number64], word.as_bytes()) {
        Ok(numbers) => Some(numbers[0]),
        Err(_) => None,
    }
}

/// Returns the parameters if `name` is `command` and the three other words are valid parameters; otherwise returns `None`.
pub fn read_stream(
    command: &str,
    name: &str,
    frames: &str,
    start: &str,
    loss: &str,
) -> Option<StreamNumbers>
    ensures { MatchOption result ((s : Stream) → ¬ (SaysStream command.now (name.now ∷ frames.now ∷ start.now ∷ loss.now ∷ []) s))
        (λ numbers. SaysStream command.now (name.now ∷ frames.now ∷ start.now ∷ loss.now ∷ []) (stream_by numbers)) }
{
    if name != command {
        return None;
    }
    let frames = number(frames)?;
    let start = number(start)?;
    let loss = number(loss)?;
    if frames < 1 || frames > MOST_FRAMES || loss > MOST_LOSS {
        return None;
    }
    Some(StreamNumbers {
        frames: frames as u32,
        start,
        loss: loss as u8,
    })
}
