// What a command writes for the units of its input.
ghost use Rattle.std.specs.Prelude.{◌≡◌, ◌≤◌, ◌++◌, length, ℕ, List, OnOk, OnErr};
ghost use Rattle.sfu_driver.specs.Outcome.{Outcome};
ghost use Rattle.sfu_driver.specs.Drive.{Judges};

use crate::Halt;
use sfu_base::{Blob, NoMemory};

/// Judges units one after another. Each unit has a number. The judge appends its texts to `ready`, and writes nothing to the sink.
pub trait Judge {
    /// The states of the judge, as contracts see them.
    ghost State: { Type 0 };

    /// Whether the judge is in this state.
    ghost stands: { Self → Self.State → Type 0 };

    /// The outcome of a unit. The arguments are the judge's state, the unit's number and the unit's text. The outcome has the text that is due, and then
    /// either the next state or the reason why the command ends.
    ghost step: { Self.State → ℕ → List ℕ → Outcome Self.State };

    /// The command's last text, if the unit with this number is outside the grammar of units.
    ghost outside: { ℕ → List ℕ };

    /// The text that is due at the end of the input.
    ghost closing: { Self.State → List ℕ };

    /// Judges the unit with this number, and appends the text that is due for the unit. If the unit ends the command, only the command's last text is
    /// appended. If memory runs out, nothing is appended.
    fn judge(&mut self, number: u32, unit: &[u8], ready: &mut Blob) -> Result<(), Halt>
        ensures judges { (state : Self.State) → Self.stands self.old state
            → Judges Self.stands (Self.step state number unit.now) self.new ready.old ready.new result }
        ensures grows { length ready.old ≤ length ready.new };

    /// Appends the command's last text. The command ends because the unit with this number is outside the grammar of units.
    fn refuse(&self, number: u64, ready: &mut Blob) -> Result<(), NoMemory>
        ensures ok { OnOk result (ready.new ≡ ready.old ++ Self.outside number) }
        ensures err { OnErr result (ready.new ≡ ready.old) };

    /// Appends the text that is due at the end of the input.
    fn close(&mut self, ready: &mut Blob) -> Result<(), NoMemory>
        ensures ok { OnOk result ((state : Self.State) → Self.stands self.old state → Self.stands self.new state
            × (ready.new ≡ ready.old ++ Self.closing state)) }
        ensures err { OnErr result (ready.new ≡ ready.old) };
}
