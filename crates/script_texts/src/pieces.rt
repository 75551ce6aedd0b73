// The words of a text, and one writer for all lists of words.
ghost use Rattle.std.specs.Prelude.{◌≡◌, ◌≤◌, ◌++◌, length, OnOk, take};
ghost use Rattle.script_texts.specs.Pieces.{piece_word, pieces_text};
ghost use Rattle.script_texts.specs.Texts.{GoesOn};

use crate::hex_text::append_hex;
use crate::number_text::append_number;
use sfu_base::{Blob, NoMemory};
use std::marker::Model;

/// A word of a text.
#[derive(Clone, Copy, Debug, PartialEq, Eq)]
pub enum Piece<'a> {
    /// This text, unchanged.
    Text(&'a [u8]),
    /// A number in decimal digits.
    Number(u64),
    /// A number of 32 bits in eight hex digits.
    Ssrc(u32),
}

// The greatest number of words in the line of a call.
const MOST_PIECES: usize = 7;

/// Up to seven words. Contracts see a `Pieces` as the list of its words.
#[derive(Debug, Drop)]
pub struct Pieces<'a> {
    items: [Piece<'a>; MOST_PIECES],
    count: usize,
}

impl<'a> Model for Pieces<'a> {
    ghost use Rattle.std.specs.Prelude.{List, take, ◌≤◌};
    ghost use Rattle.script_texts.specs.declared.pieces.Piece.{Piece};
    ghost use Rattle.script_texts.specs.declared.pieces.TheConstants.{MOST_PIECES};

    ghost Value = { List Piece };

    ghost view = { λ p. take p.count p.items };

    ghost invariant = { λ p. p.count ≤ MOST_PIECES };
}

impl<'a> Pieces<'a> {
    /// Returns the list of these words.
    pub fn of(words: &[Piece<'a>]) -> Pieces<'a>
        requires { length words.now ≤ MOST_PIECES }
        ensures { result ≡ words.now }
    {
        let count = words.len();
        let mut items = [Piece::Text(b""); MOST_PIECES];
        items[..count].copy_from_slice(words);
        Pieces { items, count }
    }

    /// Returns the words, in order.
    pub fn words(&self) -> &[Piece<'a>]
        ensures { result.now ≡ self.now }
    {
        &self.items[..self.count]
    }
}

fn append_piece(piece: &Piece, out: &mut Blob) -> Result<(), NoMemory>
    ensures ok { OnOk result (out.new ≡ out.old ++ piece_word piece.now) }
    ensures begun { GoesOn out.old out.new }
{
    match piece {
        Piece::Text(text) => out.append(text),
        Piece::Number(number) => append_number(*number, out),
        Piece::Ssrc(ssrc) => append_hex(&ssrc.to_be_bytes(), out),
    }
}

/// Appends the words, with one space between two words. On `NoMemory` a prefix of the text may have been appended.
pub fn append_pieces(pieces: &[Piece], out: &mut Blob) -> Result<(), NoMemory>
    ensures ok { OnOk result (out.new ≡ out.old ++ pieces_text pieces.now) }
    ensures begun { GoesOn out.old out.new }
{
    let [first, others @ ..] = pieces else {
        return Ok(());
    };
    append_piece(first, out)?;
    for piece in others {
        out.append(b" ")?;
        append_piece(piece, out)?;
    }
    Ok(())
}
