// Inputs with their texts and statuses, for one judge, in pieces of any size, and with failures outside.
use crate::{Ending, Halt, Judge, Lines, Units, answer};
use sfu_base::{Blob, Failed, MemSink, MemSource, NoMemory, Source};
use std::alloc::{AllocError, Global};
use std::test::Fail;

// Writes each line back, complains about a line that begins with `z`, and refuses one that begins with a space. No contract describes
// its state.
#[derive(Drop)]
struct Echo;

impl Judge for Echo {
    ghost use Rattle.std.specs.Prelude.{[]};
    ghost use Rattle.sfu_driver.specs.Outcome.{goes_on};

    ghost State = { Unit {0} };

    ghost stands = { λ _ _. ⊥ };

    ghost step = { λ state _ _. goes_on state };

    ghost outside = { λ _. [] };

    ghost closing = { λ _. [] };

    fn judge(&mut self, number: u32, unit: &[u8], ready: &mut Blob) -> Result<(), Halt> {
        match unit {
            [b'z', ..] => {
                ready.append(b"bad\n")?;
                Err(Halt::Ended(Ending::Complaint))
            }
            [b' ', ..] => {
                ready.append(if number == 2 { b"second\n" } else { b"line\n" })?;
                Err(Halt::Ended(Ending::Outside))
            }
            _ => {
                ready.append(unit)?;
                ready.append(b"\n")?;
                Ok(())
            }
        }
    }

    fn refuse(&self, _number: u64, _ready: &mut Blob) -> Result<(), NoMemory> {
        Ok(())
    }

    fn close(&mut self, _ready: &mut Blob) -> Result<(), NoMemory> {
        Ok(())
    }
}

// Returns pieces of at most `most` bytes.
#[derive(Drop)]
struct Pieces {
    inner: MemSource,
    most: usize,
}

impl Source for Pieces {
    ghost left = { λ s. ⟦<MemSource as Source>⟧.left s.inner };

    ghost faults = { λ s. ⟦<MemSource as Source>⟧.faults s.inner };

    fn read(&mut self, buf: &mut [u8]) -> Result<usize, Failed> {
        if self.most == 0 || buf.len() <= self.most {
            return self.inner.read(buf);
        }
        self.inner.read(&mut buf[..self.most])
    }
}

// Returns the status, and the bytes written.
fn run(
    alloc: Global,
    input: &[u8],
    most: usize,
    read_fails: &[u64],
    write_fails: &[u64],
) -> Result<(u8, Vec<u8>), AllocError> {
    let inner = MemSource::new(input.to_vec(alloc)?, read_fails.to_vec(alloc)?);
    let mut source = Pieces { inner, most };
    let mut sink = MemSink::new(alloc, write_fails.to_vec(alloc)?);
    let mut units = Units::new(Lines, Echo, 1);
    let status = answer(alloc, &mut units, &mut source, &mut sink).number();
    Ok((status, sink.written().to_vec(alloc)?))
}

#[test]
fn lines_end_by_lf_in_pieces_of_any_size(rt: HostRuntime) -> Result<(), Fail> {
    let alloc = rt.alloc();
    let cases = [
        ("", 0, ""),
        ("\n", 0, "\n"),
        ("a\nbc", 0, "a\nbc\n"),
        // A CR directly before an LF is removed; every other CR stays.
        ("a\r\n\r\n", 0, "a\n\n"),
        ("a\r\r\nb\r", 0, "a\r\nb\r\n"),
        ("\ra\n", 0, "\ra\n"),
        // A line that ends the command: nothing is written for the lines after it.
        ("a\nz\nb\n", 8, "a\nbad\n"),
        ("a\n b\nz\n", 5, "a\nsecond\n"),
        ("\n\n c", 5, "\n\nline\n"),
    ];
    for most in [1, 2, 3, 0] {
        for (input, status, text) in cases {
            let (got, written) = run(alloc, input.as_bytes(), most, &[], &[])?;
            assert_eq!(rt; got, status, "{input:?} in pieces of {most}");
            assert_eq!(rt;
                written.as_slice(),
                text.as_bytes(),
                "{input:?} in pieces of {most}"
            );
        }
    }
    Ok(())
}

#[test]
fn a_line_has_at_most_4200_bytes(rt: HostRuntime) -> Result<(), Fail> {
    let alloc = rt.alloc();
    let mut line = Vec::new(alloc);
    for _ in 0..4199 {
        line.push(b'a')?;
    }
    // The CR counts as a byte of the line, whether it is removed or not.
    for (end, status) in [
        ("a\n", 0),
        ("\r\n", 0),
        ("a", 0),
        ("a\r\n", 5),
        ("aa\n", 5),
        ("a\r", 5),
    ] {
        for most in [1, 4199, 4200, 4201, 0] {
            let mut input = line.clone()?;
            input.extend_from_slice(end.as_bytes())?;
            let (got, _) = run(alloc, input.as_slice(), most, &[], &[])?;
            assert_eq!(rt; got, status, "{end:?} in pieces of {most}");
        }
    }
    // The line is judged at its 4,201st byte. If a read fails before that byte, that failure decides.
    line.push(b'a')?;
    assert_eq!(rt; run(alloc, line.as_slice(), 0, &[1], &[])?.0, 3);
    line.push(b'a')?;
    assert_eq!(rt; run(alloc, line.as_slice(), 0, &[1], &[])?.0, 5);
    Ok(())
}

#[test]
fn the_first_fault_ends_the_command(rt: HostRuntime) -> Result<(), Fail> {
    let alloc = rt.alloc();
    // The input is read in pieces of 3 bytes. It has three lines with texts, the line that ends the command, and a line that isn't read.
    let input = b"a\nbc\nd\nz\ne\n";
    for (read_fails, write_fails, status, text) in [
        ([].as_slice(), [].as_slice(), 8, "a\nbc\nd\nbad\n"),
        (&[0], &[], 3, ""),
        (&[1], &[], 3, "a\n"),
        (&[2], &[], 3, "a\nbc\n"),
        (&[3], &[], 8, "a\nbc\nd\nbad\n"),
        (&[], &[0], 4, ""),
        (&[], &[1], 4, "a\n"),
        (&[], &[2], 4, "a\nbc\n"),
        (&[], &[3], 8, "a\nbc\nd\n"),
        (&[], &[4], 8, "a\nbc\nd\nbad\n"),
    ] {
        let (got, written) = run(alloc, input, 3, read_fails, write_fails)?;
        assert_eq!(rt; got, status, "{read_fails:?} {write_fails:?}");
        assert_eq!(rt;
            written.as_slice(),
            text.as_bytes(),
            "{read_fails:?} {write_fails:?}"
        );
    }
    Ok(())
}
