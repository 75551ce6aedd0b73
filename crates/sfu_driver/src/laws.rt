// Theorems about whole inputs. Each is the contract of a function that does nothing.
ghost use Rattle.std.specs.Prelude.{◌≡◌, ℕ, List, [], map};
ghost use Rattle.sfu_driver.specs.Outcome.{takes};
ghost use Rattle.sfu_driver.specs.Lines.{line_scan, line_scan_end};
ghost use Rattle.sfu_driver.specs.Point.{byte, due};
ghost use Rattle.sfu_driver.specs.Units.{rule_of};
ghost use Rattle.sfu_driver.specs.Input.{due_all, judged_all, judged_lines, judged_units, lines_of, said, units_of};
ghost use Rattle.sfu_driver.specs.Statuses.{due_of};

use crate::{Cut, Judge};

/// For a whole input, the texts due for its bytes are the texts due for its lines. For bytes after which more may come, the texts due are those for the
/// lines judged so far.
pub fn bytes_make_lines<J: Judge>()
    ensures whole { (state : J.State) (number : ℕ) (bytes : List ℕ)
        → due (rule_of line_scan line_scan_end J.step J.outside J.closing) (record { state = state; number = number; kept = [] }) bytes
        ≡ due_all (rule_of line_scan line_scan_end J.step J.outside J.closing) (map said (lines_of bytes)) number state }
    ensures part { (state : J.State) (number : ℕ) (bytes : List ℕ)
        → due_of (takes (byte (rule_of line_scan line_scan_end J.step J.outside J.closing)) (record { state = state; number = number; kept = [] }) bytes)
        ≡ due_of (judged_all (rule_of line_scan line_scan_end J.step J.outside J.closing) (map said (judged_lines (lines_of bytes))) number state) }
{}

/// The same law as `bytes_make_lines`, for any way of cutting the input into units.
pub fn bytes_make_units<C: Cut, J: Judge>()
    ensures whole { (state : J.State) (number : ℕ) (bytes : List ℕ)
        → due (rule_of C.scan C.scan_end J.step J.outside J.closing) (record { state = state; number = number; kept = [] }) bytes
        ≡ due_all (rule_of C.scan C.scan_end J.step J.outside J.closing) (units_of C.scan C.scan_end number [] bytes) number state }
    ensures part { (state : J.State) (number : ℕ) (bytes : List ℕ)
        → due_of (takes (byte (rule_of C.scan C.scan_end J.step J.outside J.closing)) (record { state = state; number = number; kept = [] }) bytes)
        ≡ due_of (judged_all (rule_of C.scan C.scan_end J.step J.outside J.closing) (judged_units C.scan number [] bytes) number state) }
{}
