// How a command ended.
ghost use Rattle.std.specs.Prelude.{◌≡◌};
ghost use Rattle.sfu_driver.specs.Statuses.{number_of, status_for};

use crate::{Ending, Halt, Interruption};

/// How a command ended. Each status has a number, the program's exit status.
#[derive(Clone, Copy, Debug, PartialEq, Eq)]
pub enum Status {
    /// Exit status 0: all texts that were due were written.
    Done,
    /// Exit status 2: the arguments aren't a command.
    NoCommand,
    /// Exit status 3: the source failed.
    SourceFault,
    /// Exit status 4: the sink failed. If the sink fails only in the last text, which says why the input ended the command, the status is `Ended`.
    SinkFault,
    /// Exit status 6: out of memory.
    NoMemory,
    /// Exit status 7: a port failed.
    PortFault,
    /// The input ended the command. Exit status 5: a unit is outside the grammar. Exit status 8: the strict receiver complains. Exit status 10: an element
    /// of a frame isn't an OBU.
    Ended(Ending),
}

impl Status {
    /// Returns the status of a command whose input loop (`drive`) returned this result.
    pub fn of(came_out: Result<(), Interruption>) -> Status
        ensures { number_of result ≡ status_for came_out }
    {
        match came_out {
            Ok(()) => Status::Done,
            Err(Interruption::SourceFault) => Status::SourceFault,
            Err(Interruption::SinkFault) => Status::SinkFault,
            Err(Interruption::Halted(Halt::Starved)) => Status::NoMemory,
            Err(Interruption::Halted(Halt::Ended(why))) => Status::Ended(why),
        }
    }

    /// Returns the program's exit status.
    pub fn number(self) -> u8
        ensures { result ≡ number_of self }
    {
        match self {
            Status::Done => 0,
            Status::NoCommand => 2,
            Status::SourceFault => 3,
            Status::SinkFault => 4,
            Status::Ended(Ending::Outside) => 5,
            Status::NoMemory => 6,
            Status::PortFault => 7,
            Status::Ended(Ending::Complaint) => 8,
            Status::Ended(Ending::Obu) => 10,
        }
    }
}
