// The remaining elements of a payload, and how the first of them is read.

ghost use Rattle.std.specs.Prelude.{◌≡◌, Ok, Err, MatchOption, MatchResult};
ghost use Rattle.av1_payload.specs.Reading.{count_in, no_elements, only_fault, sized_at, with_element};
ghost use Rattle.av1_payload.specs.Seen.{found_left, layout_with};

use crate::fault::PayloadFault;
use crate::leb::split_length;

/// The layout of the remaining elements.
#[derive(Clone, Copy, Debug, PartialEq, Eq)]
pub(crate) enum Layout {
    /// Each element is preceded by its length.
    EachSized,
    /// First come this number of elements, each preceded by its length. Then the last element follows, without a length.
    LastBare(u8),
}

/// The remaining elements.
#[derive(Clone, Copy, Debug, PartialEq, Eq)]
pub(crate) struct Left<'a> {
    pub(crate) layout: Layout,
    pub(crate) bytes: &'a [u8],
}

/// Returns the layout of the elements after this aggregation header.
pub(crate) fn layout_behind(header: u8) -> Layout
    ensures { result ≡ layout_with (count_in header) }
{
    match header / 16 % 4 {
        0 => Layout::EachSized,
        count => Layout::LastBare(count - 1),
    }
}

/// Returns the first remaining element and the elements after it. Returns `None` if no element remains. Returns `Leb` if the first element's length can't be
/// read. Returns `Length` if this length is greater than the number of bytes after the length field.
pub(crate) fn first_element<'a>(
    left: Left<'a>,
) -> Result<Option<(&'a [u8], Left<'a>)>, PayloadFault>
    ensures { MatchResult result
        (λ o. MatchOption o (found_left left.entry ≡ no_elements)
        (λ x. found_left left.entry ≡ with_element x.0.now (found_left x.1)))
        (λ e. found_left left.entry ≡ only_fault e) }
{
    match left.layout {
        Layout::EachSized => {
            if left.bytes.is_empty() {
                return Ok(None);
            }
            let (element, bytes) = split_sized(left.bytes)?;
            let layout = Layout::EachSized;
            Ok(Some((element, Left { layout, bytes })))
        }
        Layout::LastBare(sized) => {
            if sized == 0 {
                let nothing = Left {
                    layout: Layout::EachSized,
                    bytes: &[],
                };
                return Ok(Some((left.bytes, nothing)));
            }
            let (element, bytes) = split_sized(left.bytes)?;
            let layout = Layout::LastBare(sized - 1);
            Ok(Some((element, Left { layout, bytes })))
        }
    }
}

/// Reads a length, and then an element of this length. Returns the element and the bytes after the element. Returns `Leb` if the length can't be read. Returns
/// `Length` if the length is greater than the number of bytes after the length field.
fn split_sized<'a>(bytes: &'a [u8]) -> Result<(&'a [u8], &'a [u8]), PayloadFault>
    ensures { MatchResult result (λ x. sized_at bytes.now ≡ Ok (x.0.now, x.1.now)) (λ e. sized_at bytes.now ≡ Err e) }
{
    let Some((length, rest)) = split_length(bytes) else {
        return Err(PayloadFault::Leb);
    };
    if rest.len() < length {
        return Err(PayloadFault::Length);
    }
    Ok(rest.split_at(length))
}
