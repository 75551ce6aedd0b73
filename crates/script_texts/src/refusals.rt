// The words for the reason of a refusal.
ghost use Rattle.std.specs.Prelude.{◌≡◌, ◌≤◌, ◌+◌, [], ◌∷◌, length};
ghost use Rattle.script_texts.specs.Grammar.{text_of, AllWithin, Word};
ghost use Rattle.script_texts.specs.Pieces.{piece_word, pieces_text};
ghost use Rattle.script_texts.specs.Sizes.{most_short, piece_size, pieces_size};
ghost use Rattle.script_texts.specs.Replies.{fault_word, refusal_places, refused};

use crate::pieces::Piece::{self, Number, Ssrc, Text};
use crate::pieces::Pieces;
use crate::verdicts::number_or_none;
use sfu_base::{Refusal, RtpFault};

fn fault_text(fault: RtpFault) -> &'static [u8]
    ensures word { result.now ≡ fault_word fault }
    ensures short { length result.now ≤ 9 }
{
    match fault {
        RtpFault::Short => b"short",
        RtpFault::Version => b"version",
        RtpFault::Csrc => b"csrc",
        RtpFault::Extension => b"extension",
        RtpFault::Padding => b"padding",
    }
}

// Returns the word `refused`, followed by this word.
fn refused_as<'a>(word: &'a [u8]) -> Pieces<'a>
    ensures text { pieces_text result ≡ text_of (refused (Word word.now ∷ [])) }
    ensures size { pieces_size result ≡ 9 + length word.now }
{
    Pieces::of(&[Text(b"refused"), Text(word)])
}

fn refused_with<'a>(word: &'a [u8], what: Piece<'a>) -> Pieces<'a>
    ensures text { pieces_text result ≡ text_of (refused (Word word.now ∷ Word (piece_word what.entry) ∷ [])) }
    ensures size { pieces_size result ≡ 10 + length word.now + piece_size what.entry }
{
    Pieces::of(&[Text(b"refused"), Text(word), what])
}

/// Returns the words with which a reply reports this refusal.
pub fn refusal_pieces(why: &Refusal) -> Pieces<'static>
    ensures text { pieces_text result ≡ text_of (refusal_places why.now) }
    ensures within { AllWithin (refusal_places why.now) }
    ensures short { pieces_size result ≤ most_short }
{
    match why {
        Refusal::NoTrack => refused_as(b"notrack"),
        Refusal::NoSubscriber => refused_as(b"nosubscriber"),
        Refusal::NumberUsed { highest } => refused_with(b"numberused", Number(u64::from(*highest))),
        Refusal::TooMany { live } => refused_with(b"toomany", Number(u64::from(*live))),
        Refusal::BadExtensionId => refused_as(b"badextensionid"),
        Refusal::TooBig { len } => refused_with(b"toobig", Number(u64::from(*len))),
        Refusal::Unreadable(fault) => refused_with(b"unreadable", Text(fault_text(*fault))),
        Refusal::WrongSsrc { got, wanted } => Pieces::of(&[
            Text(b"refused"),
            Text(b"wrongssrc"),
            Ssrc(*got),
            Ssrc(*wanted),
        ]),
        Refusal::Spent => refused_as(b"spent"),
        Refusal::Late { next } => refused_with(b"late", Number(*next)),
        Refusal::Repeat => refused_as(b"repeat"),
        Refusal::Empty => Pieces::of(&[Text(b"empty")]),
        Refusal::NotKept { oldest, next } => Pieces::of(&[
            Text(b"notkept"),
            Number(u64::from(*oldest)),
            Number(u64::from(*next)),
        ]),
        Refusal::Ahead { newest } => refused_with(b"ahead", number_or_none(*newest)),
        Refusal::TooOld { oldest } => refused_with(b"tooold", Number(*oldest)),
        Refusal::Plain => refused_as(b"plain"),
        Refusal::NoMemory => refused_as(b"nomemory"),
    }
}
