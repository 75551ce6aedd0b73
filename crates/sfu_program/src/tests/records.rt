// Scripts of records, and the command that converts lines to them.
use super::faults::ByteSource;
use super::run::words;
use crate::alone::sfu_alone;
use sfu_base::{MemSink, MemSource};
use std::alloc::{AllocError, Global};
use std::test::Fail;

// A script of lines with packets, whose replies contain each kind of text.
const SCRIPT: &str =
    "publish 1 layered 11111111 100 4\n# a comment\njoin 1 1 22222222 65535 0 0\n\n\
packet 1 0 90e003e80000000011111111bede000348c0000180003a4101000000183000\r\n\
packet 1 33 90e003e90000000011111111bede000142c10002103000\ntake 1\ntake 1\ntake 1\nresend 1 65535\n\
missing 1\nkey 1\nplead 1\nwhy 1 2\naim 1 0 0\ntick 1 99\nleave 1\nunpublish 1\npublish 1 plain 11111111 100";

// Runs a command with these bytes as its input; the reads with the numbers `read_fails` fail. Returns the status and the output.
fn command(
    alloc: Global,
    word: &str,
    input: &[u8],
    read_fails: &[u64],
) -> Result<(u8, Vec<u8>), AllocError> {
    let words = words(alloc, &[word])?;
    let mut source = MemSource::new(input.to_vec(alloc)?, read_fails.to_vec(alloc)?);
    let mut sink = MemSink::new(alloc, Vec::new(alloc));
    let status = sfu_alone(alloc, words.as_slice(), &mut source, &mut sink);
    Ok((status, sink.written().to_vec(alloc)?))
}

// Does the same for a source that returns one byte for each read.
fn command_by_bytes(alloc: Global, word: &str, input: &[u8]) -> Result<(u8, Vec<u8>), AllocError> {
    let words = words(alloc, &[word])?;
    let inner = MemSource::new(input.to_vec(alloc)?, Vec::new(alloc));
    let mut source = ByteSource { inner };
    let mut sink = MemSink::new(alloc, Vec::new(alloc));
    let status = sfu_alone(alloc, words.as_slice(), &mut source, &mut sink);
    Ok((status, sink.written().to_vec(alloc)?))
}

// A script of records that ends after the kind of its first record, whose length field is `length`.
fn begun(alloc: Global, kind: u8, length: u16) -> Result<Vec<u8>, AllocError> {
    let [high, low] = length.to_be_bytes();
    [0, 83, 70, 50, high, low, kind].to_vec(alloc)
}

#[test]
fn records_are_judged_as_soon_as_they_must_be(rt: HostRuntime) -> Result<(), Fail> {
    let alloc = rt.alloc();
    let cases: [(&[u8], u8, &str); 15] = [
        (
            b"\x00SF2\x00\x05\x09\x00\x00\x00\x01",
            0,
            "refused nosubscriber\n",
        ),
        (b"\x00", 5, "record 0\n"),
        (b"\x00S", 5, "record 0\n"),
        (b"\x00SF", 5, "record 0\n"),
        (b"\x00SF3\x00\x05\x09\x00\x00\x00\x01", 5, "record 0\n"),
        (b"\x00SF2", 0, ""),
        (b"\x00SF2\x00\x04", 5, "record 1\n"),
        (b"\x00SF2\x00\x00", 5, "record 1\n"),
        (b"\x00SF2\x08\x0e", 5, "record 1\n"),
        // A record that is cut off, after each of its bytes in turn.
        (b"\x00SF2\x00", 5, "record 1\n"),
        (b"\x00SF2\x00\x05\x09", 5, "record 1\n"),
        (b"\x00SF2\x00\x05\x09\x00", 5, "record 1\n"),
        (b"\x00SF2\x00\x05\x09\x00\x00\x00", 5, "record 1\n"),
        // The replies to the records before the truncated one are written.
        (
            b"\x00SF2\x00\x05\x09\x00\x00\x00\x01\x00\x05\x0c\x00\x00\x00\x02\x00",
            5,
            "refused nosubscriber\nrefused notrack\nrecord 3\n",
        ),
        // Numbers are big-endian.
        (
            b"\x00SF2\x00\x0d\x01\x00\x00\x00\x01\x11\x11\x11\x11\x00\x00\x00\x64\x00\x0d\x01\x00\x00\x00\x01\x11\x11\x11\x11\x00\x00\x00\x64",
            0,
            "ok\nrefused numberused 1\n",
        ),
    ];
    for (input, status, text) in cases {
        let (got, written) = command(alloc, "run", input, &[])?;
        assert_eq!(rt; got, status, "{input:?}");
        assert_eq!(rt; written.as_slice(), text.as_bytes(), "{input:?}");
        let (got, written) = command_by_bytes(alloc, "run", input)?;
        assert_eq!(rt; got, status, "{input:?} by bytes");
        assert_eq!(rt; written.as_slice(), text.as_bytes(), "{input:?} by bytes");
    }
    // A length that no record can have is refused before a further read.
    assert_eq!(rt; command(alloc, "run", b"\x00SF2\x08\x0e", &[1])?.0, 5);
    assert_eq!(rt; command(alloc, "run", b"\x00SF2\x08\x0d", &[1])?.0, 3);
    Ok(())
}

#[test]
fn a_kind_has_its_own_length(rt: HostRuntime) -> Result<(), Fail> {
    let alloc = rt.alloc();
    let kinds: [(u8, u16, u16); 14] = [
        (1, 13, 13),
        (2, 14, 14),
        (3, 5, 5),
        (4, 14, 2061),
        (5, 13, 13),
        (6, 17, 17),
        (7, 5, 5),
        (8, 7, 7),
        (9, 5, 5),
        (10, 7, 7),
        (11, 5, 5),
        (12, 5, 5),
        (13, 5, 5),
        (14, 13, 13),
    ];
    // The read that follows the kind fails. It is made only if the record isn't refused before.
    for (kind, least, most) in kinds {
        for (length, status) in [
            (least.wrapping_sub(1), 5),
            (least, 3),
            (most, 3),
            (most.wrapping_add(1), 5),
        ] {
            let input = begun(alloc, kind, length)?;
            assert_eq!(rt;
                command(alloc, "run", input.as_slice(), &[1])?.0,
                status,
                "{kind} {length}"
            );
        }
    }
    for kind in [0, 15, 255] {
        let input = begun(alloc, kind, 5)?;
        assert_eq!(rt;
            command(alloc, "run", input.as_slice(), &[1])?.0,
            5,
            "{kind}"
        );
    }
    Ok(())
}

#[test]
fn what_is_converted_runs_alike(rt: HostRuntime) -> Result<(), Fail> {
    let alloc = rt.alloc();
    let (status, records) = command(alloc, "convert", b"take 1", &[])?;
    assert_eq!(rt; status, 0);
    assert_eq!(rt;
        records.as_slice(),
        b"\x00SF2\x00\x05\x09\x00\x00\x00\x01".as_slice()
    );
    let (status, records) = command(alloc, "convert", SCRIPT.as_bytes(), &[])?;
    assert_eq!(rt; status, 0);
    let of_lines = command(alloc, "run", SCRIPT.as_bytes(), &[])?;
    let of_records = command(alloc, "run", records.as_slice(), &[])?;
    assert_eq!(rt; of_lines.0, 0);
    assert_eq!(rt; of_records.0, 0);
    assert_eq!(rt; of_records.1.as_slice(), of_lines.1.as_slice());
    let by_bytes = command_by_bytes(alloc, "run", records.as_slice())?;
    assert_eq!(rt; by_bytes.1.as_slice(), of_lines.1.as_slice());
    Ok(())
}

#[test]
fn convert_writes_a_header_and_records(rt: HostRuntime) -> Result<(), Fail> {
    let alloc = rt.alloc();
    let cases: [(&[u8], &[u64], u8, &[u8]); 6] = [
        (b"", &[], 0, b"\x00SF2"),
        (
            b"# a\n\nleave 258\n",
            &[],
            0,
            b"\x00SF2\x00\x05\x07\x00\x00\x01\x02",
        ),
        // A line outside the grammar has no output.
        (
            b"take 1\ntake 01\ntake 2",
            &[],
            5,
            b"\x00SF2\x00\x05\x09\x00\x00\x00\x01",
        ),
        // A script of records is outside the grammar at line 1.
        (b"\x00SF2\x00\x05\x09\x00\x00\x00\x01", &[], 5, b"\x00SF2"),
        // The source fails before the first line, and after one that was converted.
        (b"take 1\n", &[0], 3, b"\x00SF2"),
        (
            b"take 1\ntake",
            &[1],
            3,
            b"\x00SF2\x00\x05\x09\x00\x00\x00\x01",
        ),
    ];
    for (input, fails, status, output) in cases {
        let (got, written) = command(alloc, "convert", input, fails)?;
        assert_eq!(rt; got, status, "{input:?}");
        assert_eq!(rt; written.as_slice(), output, "{input:?}");
    }
    Ok(())
}
