// The single-threaded commands.
ghost use Rattle.std.specs.Prelude.{◌≡◌, ◌↔◌, ℕ, map};
ghost use Rattle.std.specs.String.{string_bytes};
ghost use Rattle.sfu_commands.specs.Check.{Checks, IsCheck};
ghost use Rattle.sfu_commands.specs.Convert.{Converts, IsConvert};
ghost use Rattle.stream_maker.specs.Stream.{Stream};
ghost use Rattle.sfu_commands.specs.Help.{Helps, IsHelp, Refuses};
ghost use Rattle.script_run.specs.Promise.{AreServed};
ghost use Rattle.sfu_commands.specs.Record.{IsRecord, Records};
ghost use Rattle.script_run.specs.Run.{Runs};
ghost use Rattle.cascade.specs.Command.{PlaysCascade};
ghost use Rattle.sfu_commands.specs.StreamWords.{IsCascade, IsTrial};
ghost use Rattle.cascade.specs.Trial.{Tries};
ghost use Rattle.sfu_base.specs.Faults.{Rose};
ghost use Rattle.sfu_commands.specs.Words.{IsForm, IsRun, IsSimulcast};
ghost use Rattle.sfu_program.specs.Complete.{Completes, IsInside};
ghost use Rattle.sfu_program.specs.Forms.{IsStatus};
ghost use Rattle.sfu_program.specs.Simulcast.{Simulcasts};
ghost use Rattle.sfu_program.specs.SimulcastPromise.{AreBundlesServed};
ghost use Rattle.sfu_driver.specs.Exchange.{exchange_of};
ghost use Rattle.sfu_driver.specs.Statuses.{FirstFault};

use crate::bundling::run_with_bundles;
use cascade::{cascade, trial};
use script_run::run;
use sfu_base::{Sink, Source};
use sfu_commands::{Command, check, convert, help, read_words, record, refuse};
use std::alloc::Global;

// Executes the command of these words. The function has one arm and one clause for each command.
fn follow<S: Source, K: Sink>(alloc: Global, words: &[String], source: &mut S, sink: &mut K) -> u8
    ensures run { IsRun (map string_bytes words.now)
        → Runs (exchange_of S.left S.faults K.written K.faults source.old source.new sink.old sink.new) result }
    ensures headline { IsRun (map string_bytes words.now) → AreServed }
    ensures check { (id : ℕ) → IsCheck (map string_bytes words.now) id
        → Checks id (exchange_of S.left S.faults K.written K.faults source.old source.new sink.old sink.new) result }
    ensures record { (id : ℕ) → IsRecord (map string_bytes words.now) id
        → Records id (exchange_of S.left S.faults K.written K.faults source.old source.new sink.old sink.new) result }
    ensures convert { IsConvert (map string_bytes words.now)
        → Converts (exchange_of S.left S.faults K.written K.faults source.old source.new sink.old sink.new) result }
    ensures simulcast { IsSimulcast (map string_bytes words.now)
        → Simulcasts (exchange_of S.left S.faults K.written K.faults source.old source.new sink.old sink.new) result }
    ensures bundles { IsSimulcast (map string_bytes words.now) → AreBundlesServed }
    ensures help { IsHelp (map string_bytes words.now)
        → Helps source.old source.new (K.written sink.old) (K.written sink.new) (K.faults sink.old) (K.faults sink.new) result }
    ensures trial { (s : Stream) → IsTrial (map string_bytes words.now) s
        → Tries source.old source.new s (K.written sink.old) (K.written sink.new) (K.faults sink.old) (K.faults sink.new) result }
    ensures cascade { (s : Stream) → IsCascade (map string_bytes words.now) s
        → PlaysCascade source.old source.new s (K.written sink.old) (K.written sink.new) (K.faults sink.old) (K.faults sink.new) result }
    ensures other { ¬ (IsForm (map string_bytes words.now))
        → Refuses source.old source.new (K.written sink.old) (K.written sink.new) (K.faults sink.old) (K.faults sink.new) result }
    ensures form { (result ≡ 2) ↔ ¬ (IsForm (map string_bytes words.now)) }
    ensures only { IsStatus result }
    ensures first_fault { FirstFault (S.faults source.old) (S.faults source.new) (K.faults sink.old) (K.faults sink.new) result }
    ensures inside { ¬ (Rose (S.faults source.old) (S.faults source.new)) → ¬ (Rose (K.faults sink.old) (K.faults sink.new)) → IsInside result }
{
    match read_words(words) {
        Some(Command::Run) => run(alloc, source, sink).number(),
        Some(Command::Convert) => convert(alloc, source, sink).number(),
        Some(Command::Simulcast) => run_with_bundles(alloc, source, sink).number(),
        Some(Command::Help) => help(sink).number(),
        Some(Command::Check(id)) => check(alloc, id, source, sink).number(),
        Some(Command::Record(id)) => record(alloc, id, source, sink).number(),
        Some(
            Command::Trial {
                frames,
                start,
                loss,
            },
        ) => trial(alloc, frames, start, loss, sink).number(),
        Some(
            Command::Cascade {
                frames,
                start,
                loss,
            },
        ) => cascade(alloc, frames, start, loss, sink).number(),
        None => refuse(sink).number(),
    }
}

/// Executes the single-threaded command in the command-line arguments `words`. Each command is single-threaded, except `together` and `serve`.
/// Returns the program's status. The call always returns.
///
/// Status 0: the source was read to its end, if the command reads it, and all output was written. 2: the arguments aren't a single-threaded command;
/// nothing was read, and the usage line was written. 3: the source failed. 4: the sink failed. 5: line N, or record N in a script of records, is
/// outside the grammar. Two texts were written: the output that was due before this line or record, and then `line N` or `record N`. `convert` writes
/// only the first of these texts. 6: out of memory. 8: the strict receiver of `check` or `record` complains; `line N` and the complaint were written.
/// 10: `record` found an element that isn't an OBU; `line N obu` was written, with the line of the frame's last packet. The first of these events
/// ends the call and decides the status. Status 2, 5, 8 or 10 is returned even if the sink fails while the text of that status is written.
pub fn sfu_alone<S: Source, K: Sink>(
    alloc: Global,
    words: &[String],
    source: &mut S,
    sink: &mut K,
) -> u8
    ensures run { IsRun (map string_bytes words.now)
        → Runs (exchange_of S.left S.faults K.written K.faults source.old source.new sink.old sink.new) result }
    ensures headline { IsRun (map string_bytes words.now) → AreServed }
    ensures check { (id : ℕ) → IsCheck (map string_bytes words.now) id
        → Checks id (exchange_of S.left S.faults K.written K.faults source.old source.new sink.old sink.new) result }
    ensures record { (id : ℕ) → IsRecord (map string_bytes words.now) id
        → Records id (exchange_of S.left S.faults K.written K.faults source.old source.new sink.old sink.new) result }
    ensures convert { IsConvert (map string_bytes words.now)
        → Converts (exchange_of S.left S.faults K.written K.faults source.old source.new sink.old sink.new) result }
    ensures simulcast { IsSimulcast (map string_bytes words.now)
        → Simulcasts (exchange_of S.left S.faults K.written K.faults source.old source.new sink.old sink.new) result }
    ensures bundles { IsSimulcast (map string_bytes words.now) → AreBundlesServed }
    ensures help { IsHelp (map string_bytes words.now)
        → Helps source.old source.new (K.written sink.old) (K.written sink.new) (K.faults sink.old) (K.faults sink.new) result }
    ensures trial { (s : Stream) → IsTrial (map string_bytes words.now) s
        → Tries source.old source.new s (K.written sink.old) (K.written sink.new) (K.faults sink.old) (K.faults sink.new) result }
    ensures cascade { (s : Stream) → IsCascade (map string_bytes words.now) s
        → PlaysCascade source.old source.new s (K.written sink.old) (K.written sink.new) (K.faults sink.old) (K.faults sink.new) result }
    ensures other { ¬ (IsForm (map string_bytes words.now))
        → Refuses source.old source.new (K.written sink.old) (K.written sink.new) (K.faults sink.old) (K.faults sink.new) result }
    ensures form { (result ≡ 2) ↔ ¬ (IsForm (map string_bytes words.now)) }
    ensures only { IsStatus result }
    ensures first_fault { FirstFault (S.faults source.old) (S.faults source.new) (K.faults sink.old) (K.faults sink.new) result }
    ensures inside { ¬ (Rose (S.faults source.old) (S.faults source.new)) → ¬ (Rose (K.faults sink.old) (K.faults sink.new)) → IsInside result }
    ensures complete { IsForm (map string_bytes words.now) → ¬ (Rose (S.faults source.old) (S.faults source.new))
        → ¬ (Rose (K.faults sink.old) (K.faults sink.new))
        → Completes (map string_bytes words.now) (exchange_of S.left S.faults K.written K.faults source.old source.new sink.old sink.new) result }
{
    follow(alloc, words, source, sink)
}
