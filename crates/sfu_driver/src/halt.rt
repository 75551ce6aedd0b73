// Why a command ends.
ghost use Rattle.std.specs.Prelude.{◌≡◌};
ghost use Rattle.sfu_driver.specs.declared.halt.Halt.TheVariants.{Starved};

use sfu_base::NoMemory;

/// Why the input ends a command.
#[derive(Clone, Copy, Debug, PartialEq, Eq)]
pub enum Ending {
    /// A unit is outside the grammar.
    Outside,
    /// The strict receiver complains.
    Complaint,
    /// A packet completes a frame in which an element isn't an OBU.
    Obu,
}

/// Why a unit, or the end of the input, ends a command.
#[derive(Clone, Copy, Debug, PartialEq, Eq)]
pub enum Halt {
    /// The input ends the command.
    Ended(Ending),
    /// Out of memory.
    Starved,
}

impl From<NoMemory> for Halt {
    ghost from_gives = { λ _ halt. halt ≡ Starved };

    fn from(_: NoMemory) -> Halt {
        Halt::Starved
    }
}

/// Why a command ends before it has handled all of its input.
#[derive(Clone, Copy, Debug, PartialEq, Eq)]
pub enum Interruption {
    /// The source failed.
    SourceFault,
    /// The sink failed. If the sink fails only while the last text of a `Halted` command is written, the command is still `Halted`.
    SinkFault,
    /// A unit, or the end of the input, ended the command.
    Halted(Halt),
}
