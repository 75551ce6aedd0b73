// Reads the elements of a block one by one.

ghost use Rattle.std.specs.Prelude.{◌≡◌, ◌<◌, ◌∷◌, [], MatchOption};
ghost use Rattle.rtp_extension.specs.Reading.{elements_in};
ghost use Rattle.rtp_extension.specs.Seen.{plain};

use crate::form::Form;
use std::marker::Model;

/// An element of a header extension. Its value is borrowed from the block.
#[derive(Clone, Copy, Debug, PartialEq, Eq)]
pub struct Element<'a> {
    /// The local identifier: 1 to 14 in the one-byte form, 1 to 255 in the two-byte form.
    pub id: u8,
    /// The value: 1 to 16 bytes in the one-byte form, 0 to 255 in the two-byte form.
    pub value: &'a [u8],
}

/// An iterator over the elements of a block. Contracts see it as the list of the remaining elements.
#[derive(Debug, Drop)]
pub struct Elements<'a> {
    pub(crate) form: Form,
    pub(crate) rest: &'a [u8],
}

impl<'a> Model for Elements<'a> {
    ghost use Rattle.std.specs.Prelude.{List};
    ghost use Rattle.rtp_extension.specs.Forms.{PlainElement};
    ghost use Rattle.rtp_extension.specs.Reading.{elements_in};

    ghost Value = { List PlainElement };

    ghost view = { λ e. elements_in e.form e.rest.now };
}

impl<'a> Iterator for Elements<'a> {
    ghost use Rattle.std.specs.Iterator.{YieldsFirstBy, item_count};
    ghost use Rattle.rtp_extension.specs.Seen.{plain};

    type Item = Element<'a>;

    ghost next_gives = { YieldsFirstBy plain (λ left. left) };

    ghost remaining = { item_count (λ left. left) };

    fn next(&mut self) -> Option<Element<'a>> {
        match first(self.form, self.rest) {
            Some((element, rest)) => {
                self.rest = rest;
                Some(element)
            }
            None => {
                self.rest = &[];
                None
            }
        }
    }
}

/// In the one-byte form, reading stops at this id.
const RESERVED_ID: u8 = 15;

/// Returns the block's first element, and the bytes after this element. Returns `None` if reading stops before any element.
pub(crate) fn first<'a>(form: Form, block: &'a [u8]) -> Option<(Element<'a>, &'a [u8])>
    ensures { MatchOption result (elements_in form block.now ≡ []) (λ x. elements_in form block.now ≡ plain x.0 ∷ elements_in form x.1.now) }
{
    let mut rest = block;
    while let Some((head, behind)) = rest.split_first() {
        if *head != 0 {
            return match form {
                Form::OneByte => one_byte(*head, behind),
                Form::TwoByte => two_byte(*head, behind),
            };
        }
        rest = behind;
    }
    None
}

/// In the one-byte form, returns the element that begins with the byte `head`, and the bytes after it. Returns `None` if reading stops at this byte.
fn one_byte<'a>(head: u8, behind: &'a [u8]) -> Option<(Element<'a>, &'a [u8])>
    requires { 0 < head }
    ensures { MatchOption result (elements_in Form.OneByte (head ∷ behind.now) ≡ [])
        (λ x. elements_in Form.OneByte (head ∷ behind.now) ≡ plain x.0 ∷ elements_in Form.OneByte x.1.now) }
{
    let id = head / 16;
    let count = (head % 16) as usize + 1;
    if id == 0 || id == RESERVED_ID || behind.len() < count {
        return None;
    }
    let (value, rest) = behind.split_at(count);
    Some((Element { id, value }, rest))
}

/// In the two-byte form, returns the element that begins with the byte `id`, and the bytes after it. Returns `None` if the bytes end within the element.
fn two_byte<'a>(id: u8, behind: &'a [u8]) -> Option<(Element<'a>, &'a [u8])>
    requires { 0 < id }
    ensures { MatchOption result (elements_in Form.TwoByte (id ∷ behind.now) ≡ [])
        (λ x. elements_in Form.TwoByte (id ∷ behind.now) ≡ plain x.0 ∷ elements_in Form.TwoByte x.1.now) }
{
    let (count, behind) = behind.split_first()?;
    let count = *count as usize;
    if behind.len() < count {
        return None;
    }
    let (value, rest) = behind.split_at(count);
    Some((Element { id, value }, rest))
}
