// The words of the command `serve`.
ghost use Rattle.std.specs.Prelude.{◌∷◌, [], ℕ, MatchOption, map};
ghost use Rattle.std.specs.String.{string_bytes};
ghost use Rattle.sfu_commands.specs.StreamWords.{IsNumber};
ghost use Rattle.sfu_program.specs.ServeWords.{IsServe};

use sfu_script::{Field, read_fields};

/// The greatest number of turns of a session.
const MOST_TURNS: u64 = 1_000_000_000_000;

// Reads a word as a number in decimal digits without a leading zero; `None` if it isn't one.
fn number(word: &str) -> Option<u64>
    ensures { MatchOption result ((n : ℕ) → ¬ (IsNumber n word.now)) (λ n. IsNumber n word.now) }
{
    match read_fields(&[Field::Number64], word.as_bytes()) {
        Ok(numbers) => Some(numbers[0]),
        Err(_) => None,
    }
}

// Returns the number of turns if the two words are the command `serve` and a number; otherwise returns `None`.
fn read_turns(name: &str, turns: &str) -> Option<u64>
    ensures { MatchOption result ((n : ℕ) → ¬ (IsServe (name.now ∷ turns.now ∷ []) n)) (λ n. IsServe (name.now ∷ turns.now ∷ []) n) }
{
    if name != "serve" {
        return None;
    }
    let turns = number(turns)?;
    if turns < 1 || turns > MOST_TURNS {
        return None;
    }
    Some(turns)
}

/// Returns the number of turns if the arguments are the command `serve` and a number; otherwise returns `None`.
pub fn read_serve(words: &[String]) -> Option<u64>
    ensures { MatchOption result ((n : ℕ) → ¬ (IsServe (map string_bytes words.now) n)) (λ n. IsServe (map string_bytes words.now) n) }
{
    match words {
        [name, turns] => read_turns(name.as_str(), turns.as_str()),
        _ => None,
    }
}
