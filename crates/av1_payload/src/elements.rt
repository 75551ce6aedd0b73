// An iterator over the elements of a payload.

use crate::left::{Left, first_element};
use std::marker::Model;

/// An iterator over the elements of a payload. Each element is borrowed from the payload's bytes. Contracts see the iterator as the list of the
/// remaining elements.
#[derive(Debug, Drop)]
pub struct PayloadElements<'a> {
    pub(crate) left: Left<'a>,
}

impl<'a> Model for PayloadElements<'a> {
    ghost use Rattle.std.specs.Prelude.{List, ℕ};
    ghost use Rattle.av1_payload.specs.Seen.{found_left};

    ghost Value = { List (List ℕ) };

    ghost view = { λ e. (found_left e.left).elements };
}

impl<'a> Iterator for PayloadElements<'a> {
    ghost use Rattle.std.specs.Iterator.{YieldsFirstBy, item_count};

    type Item = &'a [u8];

    ghost next_gives = { YieldsFirstBy (λ element. element.now) (λ left. left) };

    ghost remaining = { item_count (λ left. left) };

    fn next(&mut self) -> Option<&'a [u8]> {
        match first_element(self.left) {
            Ok(Some((element, others))) => {
                self.left = others;
                Some(element)
            }
            _ => None,
        }
    }
}
