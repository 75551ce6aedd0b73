// Theorems about lines, for every line and every meaning. Each is the contract of a function that does nothing.
ghost use Rattle.std.specs.Prelude.{◌≡◌, ◌↔◌, List, Some, ℕ};
ghost use Rattle.sfu_base.specs.declared.call.Call.{Call};
ghost use Rattle.script_texts.specs.Lines.{IsLine};
ghost use Rattle.bundle_lines.specs.declared.line.BundleLine.{BundleLine};
ghost use Rattle.bundle_lines.specs.Lines.{IsBundleLine};
ghost use Rattle.bundle_lines.specs.ReadLines.{line_of};

/// The reader returns a meaning for a line if and only if the grammar assigns the same meaning to the line.
pub fn reads_exactly_the_bundle_lines()
    ensures { (said : BundleLine) (line : List ℕ) → (line_of line ≡ Some said) ↔ IsBundleLine said line }
{}

/// The grammar assigns at most one meaning to a line.
pub fn bundle_lines_say_one_thing()
    ensures { (one other : BundleLine) (line : List ℕ) → IsBundleLine one line → IsBundleLine other line → one ≡ other }
{}

/// If the grammar of `script_texts` assigns a call on the room to a line, the line is read as this call.
pub fn every_line_of_a_call_says_it()
    ensures { (call : Call) (line : List ℕ) → IsLine call line → line_of line ≡ Some (BundleLine.Room call) }
{}
