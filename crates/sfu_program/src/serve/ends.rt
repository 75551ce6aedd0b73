// The output lines of sessions that ended.
ghost use Rattle.std.specs.Prelude.{◌≡◌, ◌++◌, ◌≤◌, length, OnOk};
ghost use Rattle.sfu_program.specs.ServeEnds.{AreUnworn, IsUnworn, all_made, end_line, ends_of, ends_text, is_all};

use sfu_base::{Blob, NoMemory};
use sfu_script::write_end;
use sfu_serve::{Ended, SessionEnd};

// Appends the line of the session with this number to `ready`, the output so far.
fn add_end(number: u32, end: SessionEnd, ready: &mut Blob) -> Result<(), NoMemory>
    requires { IsUnworn end }
    ensures { OnOk result (ready.new ≡ ready.old ++ end_line number end) }
{
    let fault = match end {
        SessionEnd::AllTurns => None,
        SessionEnd::LinkFault { turn } => Some(turn),
        SessionEnd::Worn => unreachable!(),
    };
    write_end(number, fault, ready)?;
    ready.append(b"\n")
}

/// Appends one line for each session, in order, to `ready`, which holds the output so far. The first session has the number 1.
pub fn add_ends<L>(ended: &[Ended<L>], ready: &mut Blob) -> Result<(), NoMemory>
    requires few { length ended.now ≤ 64 }
    requires unworn { AreUnworn (ends_of ended.now) }
    ensures { OnOk result (ready.new ≡ ready.old ++ ends_text 1 (ends_of ended.now)) }
{
    let mut number = 0;
    for session in ended {
        number += 1;
        add_end(number, session.end, ready)?;
    }
    Ok(())
}

// Returns whether a session made all its turns.
fn made_all(end: SessionEnd) -> bool
    ensures { result ≡ is_all end }
{
    matches!(end, SessionEnd::AllTurns)
}

/// Returns whether all sessions made all their turns.
pub fn made_all_turns<L>(ended: &[Ended<L>]) -> bool
    ensures { result ≡ all_made (ends_of ended.now) }
{
    for session in ended {
        if !made_all(session.end) {
            return false;
        }
    }
    true
}
