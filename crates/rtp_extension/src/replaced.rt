// The elements of a block, with a new value for one of them.

ghost use Rattle.std.specs.Prelude.{◌≡◌, ◌∷◌, [], MatchOption};
ghost use Rattle.rtp_extension.specs.Seen.{elements_left, plain};

use crate::element::{Element, first};
use crate::form::Form;

/// The remaining elements of a block, with one value replaced. The first element with the id `id` gets the value `value`. Once this element has been
/// returned, `value` is `None`.
#[derive(Clone, Copy, Debug)]
pub(crate) struct Replaced<'a> {
    pub(crate) form: Form,
    pub(crate) rest: &'a [u8],
    pub(crate) id: u8,
    pub(crate) value: Option<&'a [u8]>,
}

/// Returns the first remaining element and the elements after it, or `None` if no element remains.
pub(crate) fn first_left<'a>(left: Replaced<'a>) -> Option<(Element<'a>, Replaced<'a>)>
    ensures { MatchOption result (elements_left left.entry ≡ []) (λ x. elements_left left.entry ≡ plain x.0 ∷ elements_left x.1) }
{
    let (element, rest) = first(left.form, left.rest)?;
    match left.value {
        Some(value) if element.id == left.id => {
            let placed = Replaced {
                rest,
                value: None,
                ..left
            };
            Some((Element { value, ..element }, placed))
        }
        _ => Some((element, Replaced { rest, ..left })),
    }
}
