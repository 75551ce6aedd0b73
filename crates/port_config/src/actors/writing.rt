// The text of a journal.
ghost use Rattle.std.specs.Prelude.{◌≡◌, IfOk};
ghost use Rattle.std.specs.List.{All, flat_map};
ghost use Rattle.script_texts.specs.Entries.{entry_text};
ghost use Rattle.script_texts.specs.Lines.{HasBytes};

use script_texts::{Journal, write_entry};
use sfu_base::{Blob, NoMemory};
use std::alloc::Global;

/// Returns the text of the journal: two lines for each entry, in the order of the entries.
pub fn text_of(alloc: Global, journal: &Journal) -> Result<Blob, NoMemory>
    requires { All (λ entry. HasBytes entry.call) journal.now }
    ensures { IfOk result (λ text. text ≡ flat_map entry_text journal.now) }
{
    let mut text = Blob::new(alloc);
    for entry in journal.entries() {
        write_entry(entry, &mut text)?;
    }
    Ok(text)
}
