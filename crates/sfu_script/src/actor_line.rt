// A line with a call of an actor. Actors run at the same time.
ghost use Rattle.std.specs.Prelude.{◌≡◌, IfOk, OnErr, ℕ};
ghost use Rattle.std.specs.Result.{result_ok};
ghost use Rattle.sfu_base.specs.declared.call.Call.{Call};
ghost use Rattle.sfu_script.specs.ActorLines.{IsActorLine, actor_call_of, actor_of};

use crate::NoLine;
use crate::lines::call;
use crate::words::split;
use sfu_base::Call;

fn actor(word: &[u8]) -> Result<u8, NoLine>
    ensures { result_ok result ≡ actor_of word.now }
{
    match word {
        [b'@', digit @ b'1'..=b'8'] => Ok(*digit - b'0'),
        _ => Err(NoLine),
    }
}

#[inline(always)]
fn actor_call(line: &[u8]) -> Result<(u8, Call), NoLine>
    ensures { result_ok result ≡ actor_call_of line.now }
{
    let (word, rest) = split(line)?;
    let actor = actor(word)?;
    let call = call(rest)?;
    Ok((actor, call))
}

/// Reads a line `@K LINE`. K is the actor's number, 1 to 8, and LINE is the line of a call. Returns `NoLine` exactly when the line isn't of this form.
/// Allocates no memory.
pub fn read_actor_line(line: &[u8]) -> Result<(u8, Call), NoLine>
    ensures value { result_ok result ≡ actor_call_of line.now }
    ensures ok { IfOk result (λ said. IsActorLine said.0 said.1 line.now) }
    ensures err { OnErr result ((said : ℕ × Call) → ¬ (IsActorLine said.0 said.1 line.now)) }
{
    actor_call(line)
}
