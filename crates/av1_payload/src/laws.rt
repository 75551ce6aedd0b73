// Laws of the grammar in the contracts of the calls.

ghost use Rattle.std.specs.Prelude.{◌≡◌, ◌↔◌, ℕ, List, None, Some};
ghost use Rattle.sfu_base.specs.Bytes.{AreBytes};
ghost use Rattle.av1_payload.specs.declared.fault.PayloadFault.{PayloadFault};
ghost use Rattle.av1_payload.specs.Faults.{HasFault};
ghost use Rattle.av1_payload.specs.Payloads.{Flags, IsPayload};
ghost use Rattle.av1_payload.specs.Reading.{elements_of, first_fault, flags_of};

/// If bytes have no fault, the grammar accepts them as a payload. In the grammar, the payload has the flags and the elements that are read from the bytes.
pub fn each_faultless_payload_is_in_the_grammar()
    ensures { (bytes : List ℕ) → AreBytes bytes → first_fault bytes ≡ None
        → IsPayload bytes (flags_of bytes) (elements_of bytes) }
{}

/// If the grammar accepts bytes as a payload, the bytes have no fault. The payload's flags and elements are those that are read from the bytes. So the grammar
/// accepts the same bytes with only one set of flags and one list of elements.
pub fn a_payload_has_one_reading()
    ensures faultless { (bytes : List ℕ) (flags : Flags) (elements : List (List ℕ)) → IsPayload bytes flags elements
        → first_fault bytes ≡ None }
    ensures flags { (bytes : List ℕ) (flags : Flags) (elements : List (List ℕ)) → IsPayload bytes flags elements
        → flags_of bytes ≡ flags }
    ensures elements { (bytes : List ℕ) (flags : Flags) (elements : List (List ℕ)) → IsPayload bytes flags elements
        → elements_of bytes ≡ elements }
    ensures one { (bytes : List ℕ) (flags more_flags : Flags) (elements more : List (List ℕ)) → IsPayload bytes flags elements
        → IsPayload bytes more_flags more → (flags ≡ more_flags) × (elements ≡ more) }
{}

/// `first_fault` returns a fault for some bytes if and only if `HasFault` holds for the same fault and the same bytes.
pub fn faults_are_what_they_say()
    ensures { (fault : PayloadFault) (bytes : List ℕ) → AreBytes bytes → (first_fault bytes ≡ Some fault) ↔ HasFault fault bytes }
{}
