// The top call.
ghost use Rattle.std.specs.Prelude.{◌≡◌, ◌↔◌, ◌∷◌, [], ℕ, IsTrue, map};
ghost use Rattle.std.specs.String.{string_bytes};
ghost use Rattle.sfu_commands.specs.Check.{Checks, IsCheck};
ghost use Rattle.sfu_commands.specs.Convert.{Converts, IsConvert};
ghost use Rattle.stream_maker.specs.Stream.{Stream};
ghost use Rattle.sfu_commands.specs.Help.{Helps, IsHelp, Refuses};
ghost use Rattle.script_run.specs.Promise.{AreServed};
ghost use Rattle.sfu_commands.specs.Record.{IsRecord, Records};
ghost use Rattle.script_run.specs.Run.{Runs};
ghost use Rattle.cascade.specs.Command.{PlaysCascade};
ghost use Rattle.sfu_commands.specs.StreamWords.{IsCascade, IsTrial};
ghost use Rattle.cascade.specs.Trial.{Tries};
ghost use Rattle.sfu_commands.specs.Words.{IsRun, IsSimulcast};
ghost use Rattle.sfu_program.specs.Simulcast.{Simulcasts};
ghost use Rattle.sfu_program.specs.SimulcastPromise.{AreBundlesServed};
ghost use Rattle.sfu_program.specs.Complete.{Completes, IsInside, NoneRose};
ghost use Rattle.sfu_program.specs.FirstFault.{FailsOnce};
ghost use Rattle.sfu_program.specs.Forms.{IsCommand, IsEnd, IsServing};
ghost use Rattle.sfu_program.specs.Serve.{Serves};
ghost use Rattle.sfu_program.specs.ServePorts.{seen_ports};
ghost use Rattle.sfu_program.specs.ServeWords.{IsServe};
ghost use Rattle.sfu_together.specs.Together.{IsTogether, Plays};
ghost use Rattle.sfu_driver.specs.Exchange.{exchange_of};

use crate::alone::sfu_alone;
use crate::serve::{read_serve, serve};
use sfu_base::{Clock, Ports, Sink, Source};
use sfu_together::play_script;
use std::alloc::Global;
use std::sync::Wait;
use std::thread::Threads;

// Returns whether a word is `together`.
fn is_together(word: &str) -> bool
    ensures { IsTrue result ↔ IsTogether (word.now ∷ []) }
{
    match word {
        "together" => true,
        _ => false,
    }
}

// Returns whether the words are `together`.
fn are_together(words: &[String]) -> bool
    ensures { IsTrue result ↔ IsTogether (map string_bytes words.now) }
{
    match words {
        [word] => is_together(word.as_str()),
        _ => false,
    }
}

/// Executes the command in the command-line arguments `words`, and returns the program's status. Only the command `serve` binds ports, and only
/// `serve` reads the clock. `serve` releases each port that it bound for a session, unless memory for the sessions runs out.
///
/// Status 0: the source was read to its end, if the command reads it, and all output was written. With `serve`, status 0 also means that each session
/// made all its turns. 2: the arguments aren't a command; nothing was read, and the usage line was written. 3: the source failed. 4: the sink failed.
/// 5: line N, or record N in a script of records, is outside the grammar. Two texts were written: the output that was due before this line or record,
/// and then `line N` or `record N`. `convert` writes only the first of these texts. 6: out of memory. 7: a port wasn't bound, or the link of a
/// session failed. If a link failed, a line for each session was written. 8: the strict receiver of `check` or `record` complains; `line N` and the
/// complaint were written. 10: `record` found an element that isn't an OBU; `line N obu` was written, with the line of the frame's last packet. The
/// first of these events ends the call and decides the status. Status 2, 5, 8 or 10 is returned even if the sink fails while the text of that status
/// is written.
pub fn sfu<W: Threads + Wait + Sync, S: Source, K: Sink, P: Ports, C: Clock + Sync>(
    rt: &W,
    alloc: Global,
    words: &[String],
    source: &mut S,
    sink: &mut K,
    ports: &mut P,
    clock: &C,
) -> u8
    requires unbound { P.bound ports.old ≡ 0 }
    ensures run { IsRun (map string_bytes words.now)
        → Runs (exchange_of S.left S.faults K.written K.faults source.old source.new sink.old sink.new) result }
    ensures headline { IsRun (map string_bytes words.now) → AreServed }
    ensures check { (id : ℕ) → IsCheck (map string_bytes words.now) id
        → Checks id (exchange_of S.left S.faults K.written K.faults source.old source.new sink.old sink.new) result }
    ensures record { (id : ℕ) → IsRecord (map string_bytes words.now) id
        → Records id (exchange_of S.left S.faults K.written K.faults source.old source.new sink.old sink.new) result }
    ensures convert { IsConvert (map string_bytes words.now)
        → Converts (exchange_of S.left S.faults K.written K.faults source.old source.new sink.old sink.new) result }
    ensures simulcast { IsSimulcast (map string_bytes words.now)
        → Simulcasts (exchange_of S.left S.faults K.written K.faults source.old source.new sink.old sink.new) result }
    ensures bundles { IsSimulcast (map string_bytes words.now) → AreBundlesServed }
    ensures help { IsHelp (map string_bytes words.now)
        → Helps source.old source.new (K.written sink.old) (K.written sink.new) (K.faults sink.old) (K.faults sink.new) result }
    ensures trial { (s : Stream) → IsTrial (map string_bytes words.now) s
        → Tries source.old source.new s (K.written sink.old) (K.written sink.new) (K.faults sink.old) (K.faults sink.new) result }
    ensures cascade { (s : Stream) → IsCascade (map string_bytes words.now) s
        → PlaysCascade source.old source.new s (K.written sink.old) (K.written sink.new) (K.faults sink.old) (K.faults sink.new) result }
    ensures together { IsTogether (map string_bytes words.now)
        → Plays (exchange_of S.left S.faults K.written K.faults source.old source.new sink.old sink.new) result }
    ensures serve { (turns : ℕ) → IsServe (map string_bytes words.now) turns
        → Serves P.Port.traffic P.Port.faults P.Port.name turns (exchange_of S.left S.faults K.written K.faults source.old source.new sink.old sink.new)
        (seen_ports (P.bound ports.old) (P.back_count ports.old) (P.returned ports.old) (P.faults ports.old))
        (seen_ports (P.bound ports.new) (P.back_count ports.new) (P.returned ports.new) (P.faults ports.new)) result }
    ensures unserved { ¬ (IsServing (map string_bytes words.now)) → ports.new ≡ ports.old }
    ensures other { ¬ (IsCommand (map string_bytes words.now))
        → Refuses source.old source.new (K.written sink.old) (K.written sink.new) (K.faults sink.old) (K.faults sink.new) result }
    ensures form { (result ≡ 2) ↔ ¬ (IsCommand (map string_bytes words.now)) }
    ensures only { IsEnd result }
    ensures first_fault { FailsOnce (exchange_of S.left S.faults K.written K.faults source.old source.new sink.old sink.new) (P.faults ports.old)
        (P.faults ports.new) result }
    ensures complete { NoneRose (exchange_of S.left S.faults K.written K.faults source.old source.new sink.old sink.new) (P.faults ports.old)
        (P.faults ports.new)
        → Completes (map string_bytes words.now) (exchange_of S.left S.faults K.written K.faults source.old source.new sink.old sink.new) result }
    ensures inside { NoneRose (exchange_of S.left S.faults K.written K.faults source.old source.new sink.old sink.new) (P.faults ports.old) (P.faults ports.new)
        → IsInside result }
{
    if are_together(words) {
        return play_script(rt, alloc, source, sink).number();
    }
    if let Some(turns) = read_serve(words) {
        ports.lemma_were_bound();
        return serve(rt, alloc, turns, source, sink, ports, clock).number();
    }
    sfu_alone(alloc, words, source, sink)
}
