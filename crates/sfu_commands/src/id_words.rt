// The words of a command that takes a header extension id.
ghost use Rattle.std.specs.Prelude.{◌∷◌, [], MatchOption, ℕ};
ghost use Rattle.sfu_commands.specs.IdWords.{IsWithId};

use sfu_script::{Field, NoLine, read_fields};

/// If `word` is the command `name`, and `id` is a header extension id from 1 to 255, returns this id. Otherwise returns `None`.
pub fn read_id(name: &str, word: &str, id: &str) -> Option<u8>
    ensures { MatchOption result ((number : ℕ) → ¬ (IsWithId name.now (word.now ∷ id.now ∷ []) number))
        (λ number. IsWithId name.now (word.now ∷ id.now ∷ []) number) }
{
    if word != name {
        return None;
    }
    let [number] = match read_fields(&[Field::Number8], id.as_bytes()) {
        Ok(numbers) => numbers,
        Err(NoLine) => return None,
    };
    if number == 0 {
        return None;
    }
    u8::try_from(number).ok()
}
