// Copies a header extension with a new value for one element.

ghost use Rattle.std.specs.Prelude.{◌≡◌, ◌+◌, ◌++◌, ◌<◌, ◌≤◌, ◌↔◌, IsOk, IsSome, MatchOption, OnErr, OnOk, length};
ghost use Rattle.rtp_extension.specs.Forms.{IsBetween};
ghost use Rattle.rtp_extension.specs.Reading.{elements_of, value_of};
ghost use Rattle.rtp_extension.specs.Reblocked.{ElementsFit, elements_laid, extension_with};
ghost use Rattle.rtp_extension.specs.Seen.{elements_left};

use crate::form::{Form, element_len, named_form, wide_enough};
use crate::replaced::{Replaced, first_left};
use crate::writers::{CAPACITY, append_element};
use sfu_base::{NoFit, PacketBuf};

/// The total length, in bytes, of the profile field and the length field of a header extension (RFC 3550, section 5.3.1).
const EXTENSION_HEADER: usize = 4;

/// The length of a 32-bit word, in bytes.
const WORD: usize = 4;

/// Appends a header extension, including its profile field and its length field. The new extension has the elements of the old block in the same
/// order. The first element with the id `id` gets the value `value` (own rule). This element must exist, and the value must have 1 to 255 bytes.
/// Bytes that aren't part of an element are left out, and zero bytes fill up the last 32-bit word. If the old block has the one-byte form and the
/// value has more than 16 bytes, the new block has the two-byte form and profile 0x1000. Otherwise the profile stays the same. If the buffer would
/// exceed 2,048 bytes, returns `NoFit` and leaves the buffer unchanged.
pub fn reblock(
    profile: u16,
    block: &[u8],
    id: u8,
    value: &[u8],
    out: &mut PacketBuf,
) -> Result<(), NoFit>
    requires found { IsSome (value_of id (elements_of profile block.now)) }
    requires value { IsBetween 1 255 (length value.now) }
    ensures fits { IsOk result ↔ (length out.old + length (extension_with profile block.now id value.now) ≤ 2048) }
    ensures ok { OnOk result (out.new ≡ out.old ++ extension_with profile block.now id value.now) }
    ensures err { OnErr result (out.new ≡ out.old) }
{
    let Some(old_form) = named_form(profile) else {
        unreachable!()
    };
    let elements = Replaced {
        form: old_form,
        rest: block,
        id,
        value: Some(value),
    };
    let (profile, form) = wide_enough(profile, old_form, value);
    let Some(len) = written_len(form, elements) else {
        return Err(NoFit);
    };
    let words = len.div_ceil(WORD);
    if out.bytes().len() + EXTENSION_HEADER + WORD * words > CAPACITY {
        return Err(NoFit);
    }
    out.append(&profile.to_be_bytes());
    out.append(&(words as u16).to_be_bytes());
    append_elements(out, form, elements);
    out.append(&[0; WORD][..WORD * words - len]);
    Ok(())
}

/// Returns the length of the elements in this form, in bytes, or `None` if this length exceeds 2,048 bytes, the capacity of a buffer.
fn written_len(form: Form, elements: Replaced<'_>) -> Option<usize>
    ensures { MatchOption result (2048 < length (elements_laid form (elements_left elements.entry)))
        (λ n. (n ≡ length (elements_laid form (elements_left elements.entry))) × (n ≤ 2048)) }
{
    let mut len = 0;
    let mut left = elements;
    while let Some((element, others)) = first_left(left) {
        len += element_len(form, element.value);
        if len > CAPACITY {
            return None;
        }
        left = others;
    }
    Some(len)
}

/// Appends the elements in this form.
fn append_elements(out: &mut PacketBuf, form: Form, elements: Replaced<'_>)
    requires fit { ElementsFit form (elements_left elements) }
    requires capacity { length out.old + length (elements_laid form (elements_left elements)) ≤ 2048 }
    ensures { out.new ≡ out.old ++ elements_laid form (elements_left elements.entry) }
{
    let mut left = elements;
    while let Some((element, others)) = first_left(left) {
        append_element(out, form, element.id, element.value);
        left = others;
    }
}
