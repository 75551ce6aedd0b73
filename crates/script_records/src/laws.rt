// Theorems about records and their calls, for every call and all bytes. Each is the contract of a function that does nothing.
ghost use Rattle.std.specs.Prelude.{◌≡◌, ◌↔◌, List, Some, true, length, ℕ};
ghost use Rattle.byteorder.specs.Endian.{big_number};
ghost use Rattle.sfu_base.specs.Bytes.{AreBytes};
ghost use Rattle.sfu_base.specs.declared.call.Call.{Call};
ghost use Rattle.script_texts.specs.Lines.{HasLine, IsLine};
ghost use Rattle.script_records.specs.Kinds.{is_in_table};
ghost use Rattle.script_records.specs.ReadRecords.{call_of};
ghost use Rattle.script_records.specs.Records.{IsBody, body_of, record_of};

/// Bytes are read as a call if and only if they are the call's body.
pub fn reads_exactly_the_records()
    ensures { (call : Call) (body : List ℕ) → AreBytes body → (call_of body ≡ Some call) ↔ IsBody call body }
{}

/// The grammar assigns at most one call to a body.
pub fn records_say_one_call()
    ensures { (one other : Call) (body : List ℕ) → IsBody one body → IsBody other body → one ≡ other }
{}

/// The body that is written for a call is read back as the same call.
pub fn records_read_back()
    ensures { (call : Call) → HasLine call → call_of (body_of call) ≡ Some call }
{}

/// A call's body begins with the number of a kind, and has a length that this kind may have.
pub fn records_are_in_the_table()
    ensures { (call : Call) (body : List ℕ) → IsBody call body → is_in_table body ≡ true }
{}

/// A record's first two bytes are the length of its body, in network byte order.
pub fn lengths_read_back()
    ensures { (call : Call) → HasLine call → big_number 2 (record_of call) ≡ length (body_of call) }
{}

/// The record that is written for the call of a line is read back as the same call.
pub fn converted_lines_say_the_same()
    ensures { (call : Call) (line : List ℕ) → IsLine call line → IsBody call (body_of call) × (call_of (body_of call) ≡ Some call) }
{}
