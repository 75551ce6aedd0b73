// Theorems about the texts. Each is the contract of a function that does nothing.
ghost use Rattle.std.specs.Prelude.{◌≡◌, ◌↔◌, ℕ, List, Some};
ghost use Rattle.sfu_base.specs.declared.call.Call.{Call};
ghost use Rattle.sfu_base.specs.Answer.{Answer};
ghost use Rattle.sfu_script.specs.ActorLines.{actor_call_of, IsActorLine};
ghost use Rattle.script_texts.specs.Grammar.{Fills, Hex};
ghost use Rattle.script_texts.specs.Lines.{IsLine, line_of, HasLine};
ghost use Rattle.sfu_script.specs.ReadLines.{call_of};
ghost use Rattle.sfu_script.specs.Ports.{port_of, IsPortLine};
ghost use Rattle.sfu_script.specs.declared.ports.PortLine.{PortLine};
ghost use Rattle.sfu_script.specs.Reading.{bytes_of};
ghost use Rattle.script_texts.specs.Replies.{answer_text, HasText};

/// A line is read as a call if and only if the grammar assigns this call to the line.
pub fn reads_exactly_the_lines()
    ensures { (call : Call) (line : List ℕ) → (call_of line ≡ Some call) ↔ IsLine call line }
{}

/// The grammar assigns at most one call to a line.
pub fn lines_say_one_call()
    ensures { (one other : Call) (line : List ℕ) → IsLine one line → IsLine other line → one ≡ other }
{}

/// The line that is written for a call is read back as the same call.
pub fn lines_read_back()
    ensures { (call : Call) → HasLine call → call_of (line_of call) ≡ Some call }
{}

/// Two answers with the same text are equal.
pub fn replies_say_one_answer()
    ensures { (one other : Answer) → HasText one → HasText other → answer_text one ≡ answer_text other → one ≡ other }
{}

/// A line is read as a packet if and only if it consists of the packet's 1 to 2,048 bytes in hex digits.
pub fn reads_exactly_the_packets()
    ensures { (bytes line : List ℕ) → (bytes_of line ≡ Some bytes) ↔ Fills (Hex bytes) line }
{}

/// A line is read as actor K's call if and only if it consists of `@K`, a space, and a line to which the grammar assigns this call. K is 1 to 8.
pub fn reads_exactly_the_actors_lines()
    ensures { (actor : ℕ) (call : Call) (line : List ℕ) → (actor_call_of line ≡ Some (actor, call)) ↔ IsActorLine actor call line }
{}

/// A line is read as a port if and only if the grammar assigns this port to the line.
pub fn reads_exactly_the_ports()
    ensures { (port : PortLine) (line : List ℕ) → (port_of line ≡ Some port) ↔ IsPortLine port line }
{}
