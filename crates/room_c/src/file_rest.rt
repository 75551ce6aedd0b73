// The bytes of a file that C hasn't fetched yet.
ghost use Rattle.std.specs.Prelude.{◌≡◌, drop, length, min, take};

use sfu_base::Blob;
use std::marker::Model;

/// The remaining bytes of a file that is fetched in pieces. Contracts see this value as the list of the remaining bytes.
#[derive(Drop)]
pub struct FileRest {
    file: Blob,
    given: usize,
}

impl Model for FileRest {
    ghost use Rattle.std.specs.Prelude.{List, ℕ, drop, length, ◌≤◌};

    ghost Value = { List ℕ };

    ghost view = { λ rest. drop rest.given rest.file };

    ghost invariant = { λ rest. rest.given ≤ length rest.file };
}

impl FileRest {
    /// Returns a value in which all bytes of this file remain.
    pub fn of(file: Blob) -> FileRest
        ensures { result ≡ file }
    {
        FileRest { file, given: 0 }
    }

    /// Returns the number of remaining bytes.
    pub fn len(&self) -> usize
        ensures { result ≡ length self.now }
    {
        self.file.bytes().len() - self.given
    }

    /// Moves the next bytes to the start of `out`, as many as fit into `out`. Returns the number of bytes moved.
    pub fn give(&mut self, out: &mut [u8]) -> usize
        ensures count { result ≡ min (length out.old) (length self.old) }
        ensures gives { take result out.new ≡ take result self.old }
        ensures left { self.new ≡ drop result self.old }
        ensures rest { drop result out.new ≡ drop result out.old }
    {
        let rest = &self.file.bytes()[self.given..];
        let count = out.len().min(rest.len());
        out[..count].copy_from_slice(&rest[..count]);
        self.given += count;
        count
    }
}
