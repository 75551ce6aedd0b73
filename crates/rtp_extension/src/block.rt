// Reads the elements of a block, and finds one by its id.

ghost use Rattle.std.specs.Prelude.{◌≡◌, option_copied};
ghost use Rattle.rtp_extension.specs.Blocks.{HasElements};
ghost use Rattle.rtp_extension.specs.Forms.{form_of};
ghost use Rattle.rtp_extension.specs.Reading.{elements_of, value_of};

use crate::element::Elements;
use crate::form::{Form, named_form};

/// Returns the elements of a header extension's block, in order (RFC 8285, sections 4.2 and 4.3). Profile 0xBEDE means the one-byte form. Profiles
/// 0x1000 to 0x100F mean the two-byte form. With any other profile, there are no elements (own rule). In the one-byte form, reading stops at id 15,
/// or at id 0 with a nonzero length field (own rule). In either form, reading stops at an element that would extend past the end of the block (own
/// rule). An element at which reading stops isn't returned.
pub fn elements<'a>(profile: u16, block: &'a [u8]) -> Elements<'a>
    ensures value { result ≡ elements_of profile block.now }
    ensures grammar { HasElements (form_of profile) block.now result }
{
    match named_form(profile) {
        Some(form) => Elements { form, rest: block },
        None => Elements {
            form: Form::OneByte,
            rest: &[],
        },
    }
}

/// Returns the value of the first element with this id (own rule), or `None` if no element has this id.
pub fn find<'a>(profile: u16, block: &'a [u8], id: u8) -> Option<&'a [u8]>
    ensures { option_copied result ≡ value_of id (elements_of profile block.now) }
{
    let element = elements(profile, block).find(|element| element.id == id)?;
    Some(element.value)
}
