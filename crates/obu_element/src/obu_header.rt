// The header of an OBU.

ghost use Rattle.std.specs.Prelude.{◌≡◌, IfErr, IfOk, None, Some};
ghost use Rattle.obu_element.specs.Header.{BeginsWith};
ghost use Rattle.obu_element.specs.Reading.{first_fault, header_of};

use thiserror::Error;

/// The fields of an OBU header (AV1 Bitstream Specification, sections 5.3.2 and 5.3.3).
#[derive(Clone, Copy, Debug, PartialEq, Eq)]
pub struct ObuHeader {
    /// obu_type, below 16 (section 6.2.2): 1 is a sequence header, 2 a temporal delimiter, 3 a frame header, 4 a tile group,
    /// 5 metadata, 6 a frame, 7 a redundant frame header, 8 a tile list, 15 padding.
    pub kind: u8,
    /// temporal_id, below 8; it is 0 if there is no extension byte.
    pub temporal: u8,
    /// spatial_id, below 4; it is 0 if there is no extension byte.
    pub spatial: u8,
    /// Whether the size of the OBU follows the header.
    pub has_size: bool,
    /// The length of the header in bytes: 2 with an extension byte, otherwise 1.
    pub len: u8,
}

/// The reason why some bytes don't begin with an OBU header.
#[derive(Clone, Copy, Debug, PartialEq, Eq, Error)]
pub enum ObuFault {
    /// There are no bytes.
    #[error("there is no byte")]
    Empty,
    /// obu_forbidden_bit, the first bit, is 1.
    #[error("obu_forbidden_bit is 1")]
    Forbidden,
    /// The extension byte is missing.
    #[error("the extension byte is missing")]
    Cut,
}

/// Reads the header at the start of the bytes (AV1 Bitstream Specification, sections 5.3.2 and 5.3.3). Reserved bits are ignored. The error is
/// the first fault that applies, in the order `Empty`, `Forbidden`, `Cut`.
pub fn header(bytes: &[u8]) -> Result<ObuHeader, ObuFault>
    ensures found { IfOk result (λ h. BeginsWith bytes.now h) }
    ensures none { IfErr result (λ _. (h : ObuHeader) → BeginsWith bytes.now h → ⊥) }
    ensures fields { IfOk result (λ h. h ≡ header_of bytes.now) }
    ensures ok { IfOk result (λ _. first_fault bytes.now ≡ None) }
    ensures fault { IfErr result (λ e. first_fault bytes.now ≡ Some e) }
{
    located(bytes)
}

/// Reads each field of the header at its position, or returns the first fault.
#[tactic(auto, unfolding(crate::specs::Reading::first_fault))]
fn located(bytes: &[u8]) -> Result<ObuHeader, ObuFault>
    ensures fields { IfOk result (λ h. h ≡ header_of bytes.now) }
    ensures ok { IfOk result (λ _. first_fault bytes.now ≡ None) }
    ensures fault { IfErr result (λ e. first_fault bytes.now ≡ Some e) }
{
    let (first, rest) = bytes.split_first().ok_or(ObuFault::Empty)?;
    if *first >= 128 {
        return Err(ObuFault::Forbidden);
    }
    let kind = first / 8;
    let has_size = first / 2 % 2 == 1;
    if first / 4 % 2 == 0 {
        return Ok(ObuHeader {
            kind,
            temporal: 0,
            spatial: 0,
            has_size,
            len: 1,
        });
    }
    let extension = rest.first().ok_or(ObuFault::Cut)?;
    Ok(ObuHeader {
        kind,
        temporal: extension / 32,
        spatial: extension / 8 % 4,
        has_size,
        len: 2,
    })
}
