// The words for a verdict: why a frame was or wasn't forwarded.
ghost use Rattle.std.specs.Prelude.{◌≡◌, ◌≤◌};
ghost use Rattle.script_texts.specs.Grammar.{text_of, word_of, AllWithin, IsWithin};
ghost use Rattle.script_texts.specs.Pieces.{piece_word, pieces_text};
ghost use Rattle.script_texts.specs.Sizes.{most_short, piece_size, pieces_size};
ghost use Rattle.script_texts.specs.Replies.{or_none, verdict_places};

use crate::pieces::Piece::{self, Number, Text};
use crate::pieces::Pieces;
use sfu_base::Verdict;

/// Returns one word: the number in decimal digits, or `none` if there is no number.
pub fn number_or_none(number: Option<u64>) -> Piece<'static>
    ensures word { piece_word result ≡ word_of (or_none 64 number) }
    ensures within { IsWithin (or_none 64 number) }
    ensures short { piece_size result ≤ 20 }
{
    match number {
        None => Text(b"none"),
        Some(number) => Number(number),
    }
}

fn target_or_none(target: Option<u8>) -> Piece<'static>
    ensures word { piece_word result ≡ word_of (or_none 8 target) }
    ensures within { IsWithin (or_none 8 target) }
    ensures short { piece_size result ≤ 20 }
{
    match target {
        None => Text(b"none"),
        Some(target) => Number(u64::from(target)),
    }
}

/// Returns the words of a verdict.
pub fn verdict_pieces(verdict: &Verdict) -> Pieces<'static>
    ensures text { pieces_text result ≡ text_of (verdict_places verdict.now) }
    ensures within { AllWithin (verdict_places verdict.now) }
    ensures short { pieces_size result ≤ most_short }
{
    match verdict {
        Verdict::Passed => Pieces::of(&[Text(b"passed")]),
        Verdict::NotOfTarget { target } => {
            Pieces::of(&[Text(b"notoftarget"), target_or_none(*target)])
        }
        Verdict::Behind { fdiff, start } => Pieces::of(&[
            Text(b"behind"),
            Number(u64::from(*fdiff)),
            Number(*start),
        ]),
        Verdict::Reference { number } => Pieces::of(&[Text(b"reference"), Number(*number)]),
        Verdict::Full { queued, needed } => Pieces::of(&[
            Text(b"full"),
            Number(u64::from(*queued)),
            Number(u64::from(*needed)),
        ]),
        Verdict::Link { at, number } => {
            Pieces::of(&[Text(b"link"), Number(*at), Number(*number)])
        }
        Verdict::Unopened { since } => Pieces::of(&[Text(b"unopened"), Number(*since)]),
        Verdict::Hole { below, above } => Pieces::of(&[
            Text(b"hole"),
            number_or_none(*below),
            Number(*above),
        ]),
    }
}
