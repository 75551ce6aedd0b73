// A parsed payload.

ghost use Rattle.std.specs.Prelude.{◌≡◌, None, Some, IfOk, IfErr, MatchResult};
ghost use Rattle.av1_payload.specs.Faults.{HasFault};
ghost use Rattle.av1_payload.specs.Payloads.{IsPayload};
ghost use Rattle.av1_payload.specs.Reading.{elements_of, first_fault, flags_of};
ghost use Rattle.av1_payload.specs.Seen.{elements_within, flags_in, found_in_all};

use crate::elements::PayloadElements;
use crate::fault::PayloadFault;
use crate::left::{Layout, Left, first_element, layout_behind};

/// The payload of an AV1 RTP packet (RTP Payload Format For AV1, section 4.4).
#[derive(Clone, Copy, Debug, PartialEq, Eq)]
pub struct Payload<'a> {
    /// Z: the first element continues the last element of the previous packet.
    pub continues: bool,
    /// Y: the last element continues in the next packet.
    pub carries: bool,
    /// N: the packet is the first of a coded video sequence. The bit is read but not checked (own rule).
    pub new_sequence: bool,
    left: Left<'a>,
}

/// Reads a payload (RTP Payload Format For AV1, section 4.4). Reserved bits are ignored, and an element may be empty (own rule). The bytes are read from left
/// to right, and the error is the first fault. `Empty`: there are no bytes. `NoElement`: W is 0, and nothing follows the aggregation header. `Leb`: the bytes
/// end before or within a required length, a length is encoded in more than 8 bytes, or its value is 2^32 or more. `Length`: a length is greater than the
/// number of bytes after the length field.
#[inline(always)]
pub fn read<'a>(bytes: &'a [u8]) -> Result<Payload<'a>, PayloadFault>
    ensures flags { IfOk result (λ p. flags_in p ≡ flags_of bytes.now) }
    ensures elements { IfOk result (λ p. elements_within p ≡ elements_of bytes.now) }
    ensures grammar { IfOk result (λ p. IsPayload bytes.now (flags_in p) (elements_within p)) }
    ensures ok { IfOk result (λ _. first_fault bytes.now ≡ None) }
    ensures fault { IfErr result (λ e. first_fault bytes.now ≡ Some e) }
    ensures fault_is_there { IfErr result (λ e. HasFault e bytes.now) }
{
    let Some((header, elements)) = bytes.split_first() else {
        return Err(PayloadFault::Empty);
    };
    let header = *header;
    let layout = layout_behind(header);
    let left = Left {
        layout,
        bytes: elements,
    };
    check(left)?;
    Ok(Payload {
        continues: header / 128 == 1,
        carries: header / 64 % 2 == 1,
        new_sequence: header / 8 % 2 == 1,
        left,
    })
}

/// Checks all elements, and returns the first fault.
fn check(elements: Left) -> Result<(), PayloadFault>
    ensures { MatchResult result
        (λ _. (found_in_all elements.entry.layout elements.entry.bytes.now).fault ≡ None)
        (λ e. (found_in_all elements.entry.layout elements.entry.bytes.now).fault ≡ Some e) }
{
    if elements.layout == Layout::EachSized && elements.bytes.is_empty() {
        return Err(PayloadFault::NoElement);
    }
    let mut left = elements;
    while let Some((_, others)) = first_element(left)? {
        left = others;
    }
    Ok(())
}

impl<'a> Payload<'a> {
    ghost use Rattle.std.specs.Prelude.{◌≡◌};
    ghost use Rattle.av1_payload.specs.Seen.{elements_within};

    /// Returns the elements in order. They are borrowed from the bytes that were read.
    pub fn elements(&self) -> PayloadElements<'a>
        ensures { result ≡ elements_within self.now }
    {
        PayloadElements { left: self.left }
    }
}
