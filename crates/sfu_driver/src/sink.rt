// Writing a text to its end.
ghost use Rattle.std.specs.Prelude.{◌≤◌, OnErr, OnOk};
ghost use Rattle.std.specs.Io.KnownBytes.{Appends};
ghost use Rattle.sfu_base.specs.Faults.{CountsFaults, Rose};
ghost use Rattle.sfu_driver.specs.Drive.{WritesPart};

use sfu_base::{Failed, Sink};

/// Writes a whole text, by repeated calls of the sink. If a call fails, the function makes no further call and returns `Failed`. The sink has then received
/// a strict prefix of the text.
pub fn write_all<K: Sink>(sink: &mut K, text: &[u8]) -> Result<(), Failed>
    ensures ok { OnOk result (Appends (K.written sink.old) (K.written sink.new) text.now) }
    ensures part { OnErr result (WritesPart (K.written sink.old) (K.written sink.new) text.now) }
    ensures rose { OnErr result (Rose (K.faults sink.old) (K.faults sink.new)) }
    ensures counts { CountsFaults (K.faults sink.old) (K.faults sink.new) result }
    ensures never_falls { K.faults sink.old ≤ K.faults sink.new }
{
    let mut at = 0;
    while at < text.len() {
        let count = sink.write(&text[at..])?;
        if count == 0 {
            return Err(Failed);
        }
        at += count;
    }
    Ok(())
}
