// The two forms of a header extension's elements.

ghost use Rattle.std.specs.Prelude.{◌≡◌, ◌+◌, Some, length};
ghost use Rattle.rtp_extension.specs.Forms.{PlainElement, element_bytes, form_of};
ghost use Rattle.rtp_extension.specs.Reblocked.{profile_for};

/// The encoding of elements: the one-byte form (RFC 8285, section 4.2) or the two-byte form (section 4.3).
#[derive(Clone, Copy, Debug)]
pub(crate) enum Form {
    OneByte,
    TwoByte,
}

/// The profile of the one-byte form.
const ONE_BYTE_PROFILE: u16 = 0xBEDE;

/// The lowest of the sixteen profiles of the two-byte form.
const TWO_BYTE_PROFILE: u16 = 0x1000;

/// The largest length of a value in the one-byte form, in bytes.
pub(crate) const LONGEST_ONE_BYTE: usize = 16;

/// The largest length of a value in the two-byte form, in bytes.
pub(crate) const LONGEST_TWO_BYTE: usize = 255;

/// Returns the form that a profile stands for, or `None` if the profile stands for neither form.
pub(crate) fn named_form(profile: u16) -> Option<Form>
    ensures { result ≡ form_of profile }
{
    if profile == ONE_BYTE_PROFILE {
        Some(Form::OneByte)
    } else if profile / 16 == TWO_BYTE_PROFILE / 16 {
        Some(Form::TwoByte)
    } else {
        None
    }
}

/// Returns the profile and the form of a new block, in which one element of the old block gets the value `value`. `profile` and `form` are those of
/// the old block.
pub(crate) fn wide_enough(profile: u16, form: Form, value: &[u8]) -> (u16, Form)
    requires { form_of profile ≡ Some form }
    ensures profile { result.0 ≡ profile_for profile value.now }
    ensures form { form_of result.0 ≡ Some result.1 }
{
    if profile == ONE_BYTE_PROFILE && value.len() > LONGEST_ONE_BYTE {
        (TWO_BYTE_PROFILE, Form::TwoByte)
    } else {
        (profile, form)
    }
}

/// Returns the length, in bytes, of an element that has this value and this form.
pub(crate) fn element_len(form: Form, value: &[u8]) -> usize
    ensures { (e : PlainElement) → e.value ≡ value.now → result ≡ length (element_bytes form e) }
{
    match form {
        Form::OneByte => 1 + value.len(),
        Form::TwoByte => 2 + value.len(),
    }
}
