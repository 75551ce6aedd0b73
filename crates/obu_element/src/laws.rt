// Laws of the definitions in the contract of `header`.

ghost use Rattle.std.specs.Prelude.{◌≡◌, List, None, ℕ};
ghost use Rattle.obu_element.specs.Header.{BeginsWith};
ghost use Rattle.obu_element.specs.Reading.{first_fault, header_of};
ghost use Rattle.obu_element.specs.declared.obu_header.ObuHeader.{ObuHeader};
ghost use Rattle.sfu_base.specs.Bytes.{AreBytes};

/// Bytes without a fault begin with a header. The header's fields are those that are read from the bytes.
pub fn faultless_bytes_begin_with_a_header()
    ensures { (bytes : List ℕ) → AreBytes bytes → first_fault bytes ≡ None → BeginsWith bytes (header_of bytes) }
{}

/// Bytes that begin with a header have no fault. The fields that are read from the bytes are the fields of that header. So bytes begin with at most
/// one header.
pub fn a_header_has_one_reading()
    ensures no_fault { (bytes : List ℕ) (h : ObuHeader) → BeginsWith bytes h → first_fault bytes ≡ None }
    ensures fields { (bytes : List ℕ) (h : ObuHeader) → BeginsWith bytes h → header_of bytes ≡ h }
    ensures one { (bytes : List ℕ) (g h : ObuHeader) → BeginsWith bytes g → BeginsWith bytes h → g ≡ h }
{}
