// Each read and each write of each command fails in turn. A later command adds a row.
use super::check::{KEY, NEXT};
use super::record::{FILE, FORBIDDEN};
use super::run::{USAGE, words};
use super::serve::CONFIGURATION;
use super::trial::ONE_UNIT;
use super::two_rooms::TWO_FRAMES;
use crate::sfu::sfu;
use sfu_base::{CalmPorts, Failed, MemSink, MemSource, Sink, Source, StepClock};
use std::alloc::{AllocError, Global};
use std::sync::Wait;
use std::test::Fail;
use std::thread::Threads;

/// A source that returns its script byte by byte.
#[derive(Drop)]
pub struct ByteSource {
    pub inner: MemSource,
}

impl Source for ByteSource {
    ghost left = { λ s. ⟦<MemSource as Source>⟧.left s.inner };

    ghost faults = { λ s. ⟦<MemSource as Source>⟧.faults s.inner };

    fn read(&mut self, buf: &mut [u8]) -> Result<usize, Failed> {
        if buf.is_empty() {
            return Ok(0);
        }
        self.inner.read(&mut buf[..1])
    }
}

// A sink that takes a text byte by byte.
#[derive(Drop)]
struct ByteSink {
    inner: MemSink,
}

impl Sink for ByteSink {
    ghost written = { λ s. ⟦<MemSink as Sink>⟧.written s.inner };

    ghost faults = { λ s. ⟦<MemSink as Sink>⟧.faults s.inner };

    fn write(&mut self, bytes: &[u8]) -> Result<usize, Failed> {
        if bytes.is_empty() {
            return Ok(0);
        }
        self.inner.write(&bytes[..1])
    }
}

// A command with its input.
#[derive(Clone, Copy)]
struct Row<'a> {
    words: &'a [&'a str],
    /// The input in pieces. Each piece is paired with the text that is due after this piece.
    pieces: &'a [(&'a str, &'a str)],
    /// How many reads are made, each of one byte.
    reads: u64,
    /// The last text that the command writes, after the texts that belong to the pieces.
    last: &'a [u8],
    status: u8,
}

impl<'a> Row<'a> {
    // All pieces, concatenated.
    fn input(&self, alloc: Global) -> Result<Vec<u8>, AllocError> {
        let mut input = Vec::new(alloc);
        for (piece, _) in self.pieces {
            input.extend_from_slice(piece.as_bytes())?;
        }
        Ok(input)
    }

    // Returns the text that is due after the first `count` bytes of the input.
    fn due(&self, alloc: Global, count: usize) -> Result<Vec<u8>, AllocError> {
        let mut text = Vec::new(alloc);
        let mut left = count;
        for (piece, due) in self.pieces {
            let Some(rest) = left.checked_sub(piece.len()) else {
                return Ok(text);
            };
            left = rest;
            text.extend_from_slice(due.as_bytes())?;
        }
        Ok(text)
    }

    // Returns the offsets of the first and of the last byte of each text, and the offset after all texts.
    fn edges(&self, alloc: Global) -> Result<Vec<usize>, AllocError> {
        let mut places = Vec::new(alloc);
        let mut text = Vec::new(alloc);
        for (_, due) in self.pieces {
            add_edges(&mut places, &mut text, due.as_bytes())?;
        }
        add_edges(&mut places, &mut text, self.last)?;
        places.push(text.len())?;
        Ok(places)
    }
}

// Appends a text to `text`, and the offsets of its first and last byte to `places`.
fn add_edges(places: &mut Vec<usize>, text: &mut Vec<u8>, more: &[u8]) -> Result<(), AllocError> {
    let first = text.len();
    text.extend_from_slice(more)?;
    if text.len() > first {
        places.push(first)?;
        places.push(text.len() - 1)?;
    }
    Ok(())
}

// Returns the status if these reads and writes of single bytes fail, the output, and whether the next read fails.
fn outcome<W: Threads + Wait + Sync>(
    rt: &W,
    alloc: Global,
    texts: &[&str],
    input: &[u8],
    reads: &[u64],
    writes: &[u64],
) -> Result<(u8, Vec<u8>, bool), Fail> {
    let words = words(alloc, texts)?;
    let inner = MemSource::new(input.to_vec(alloc)?, reads.to_vec(alloc)?);
    let mut source = ByteSource { inner };
    let inner = MemSink::new(alloc, writes.to_vec(alloc)?);
    let mut sink = ByteSink { inner };
    let mut ports = CalmPorts::new(alloc)?;
    let clock = StepClock::new(0, 1);
    let status = sfu(
        rt,
        alloc,
        words.as_slice(),
        &mut source,
        &mut sink,
        &mut ports,
        &clock,
    );
    let fails = source.read(&mut [0u8; 1]).is_err();
    Ok((status, sink.inner.written().to_vec(alloc)?, fails))
}

const RECORD: &str = "\0\x05\x09\0\0\0\x01";

// The third and the fourth line are a key frame and a frame that refers to it.
const LAYERED: [(&str, &str); 8] = [
    ("publish 1 layered 11111111 100 4\n", "ok\n"),
    ("join 1 1 22222222 65535 0 0\n", "ok\n"),
    (
        "packet 1 0 90e003e80000000011111111bede000348c0000180003a4101000000183000\n",
        "ok\n",
    ),
    (
        "packet 1 33 90e003e90000000011111111bede000142c10002103000\n",
        "ok\n",
    ),
    (
        "take 1\n",
        "packet 90e0ffff0000000022222222bede000348c00001c0003a4101400000183000\n",
    ),
    (
        "take 1\n",
        "packet 90e000000000000022222222bede000142c10002103000\n",
    ),
    ("take 1\n", "empty\n"),
    (
        "resend 1 65535\n",
        "packet 90e0ffff0000000022222222bede000348c00001c0003a4101400000183000\n",
    ),
];

// The commands that read calls.
const OF_CALLS: [Row; 8] = [
    Row {
        words: &["run"],
        pieces: &LAYERED,
        reads: 231,
        last: b"",
        status: 0,
    },
    Row {
        words: &["run"],
        pieces: &[
            ("# a\n", ""),
            ("take 1\r\n", "refused nosubscriber\n"),
            ("take 01\n", ""),
            ("take 1\n", ""),
        ],
        reads: 20,
        last: b"line 3\n",
        status: 5,
    },
    Row {
        words: &["run"],
        pieces: &[
            ("\0SF2", ""),
            (RECORD, "refused nosubscriber\n"),
            (RECORD, "refused nosubscriber\n"),
        ],
        reads: 19,
        last: b"",
        status: 0,
    },
    Row {
        words: &["run"],
        pieces: &[
            ("\0SF2", ""),
            (RECORD, "refused nosubscriber\n"),
            ("\0\x04\x09", ""),
            ("\0\0\0", ""),
        ],
        reads: 14,
        last: b"record 2\n",
        status: 5,
    },
    Row {
        words: &["convert"],
        pieces: &[
            ("", "\0SF2"),
            ("take 1\n", RECORD),
            ("# a\n", ""),
            ("take 1", ""),
        ],
        reads: 18,
        last: b"\0\x05\x09\0\0\0\x01",
        status: 0,
    },
    Row {
        words: &["convert"],
        pieces: &[
            ("", "\0SF2"),
            ("take 1\n", RECORD),
            ("take 01\n", ""),
            ("take 1\n", ""),
        ],
        reads: 15,
        last: b"",
        status: 5,
    },
    Row {
        words: &["simulcast"],
        pieces: &[
            ("pump 1\n", "refused nobundle\n"),
            ("choose 1 1\n", "refused nobundle\n"),
            ("leave 7\n", "refused nosubscriber\n"),
        ],
        reads: 27,
        last: b"",
        status: 0,
    },
    Row {
        words: &["simulcast"],
        pieces: &[
            ("pump 1\n", "refused nobundle\n"),
            ("# a\n", ""),
            ("draw 01\n", ""),
            ("draw 1\n", ""),
        ],
        reads: 19,
        last: b"line 3\n",
        status: 5,
    },
];

// The commands that read packets.
const OF_PACKETS: [Row; 7] = [
    Row {
        words: &["check", "4"],
        pieces: &[(KEY, ""), (NEXT, "")],
        reads: 111,
        last: b"ok 2 packets 2 frames\n",
        status: 0,
    },
    Row {
        words: &["check", "4"],
        pieces: &[(KEY, ""), (KEY, ""), (NEXT, "")],
        reads: 126,
        last: b"line 2 sequence 65535 65535\n",
        status: 8,
    },
    Row {
        words: &["check", "4"],
        pieces: &[(KEY, ""), ("80 \n", ""), (NEXT, "")],
        reads: 67,
        last: b"line 2\n",
        status: 5,
    },
    Row {
        words: &["record", "4"],
        pieces: &[(KEY, ""), (NEXT, "")],
        reads: 111,
        last: FILE,
        status: 0,
    },
    Row {
        words: &["record", "4"],
        pieces: &[(KEY, ""), (KEY, ""), (NEXT, "")],
        reads: 126,
        last: b"line 2 sequence 65535 65535\n",
        status: 8,
    },
    Row {
        words: &["record", "4"],
        pieces: &[(FORBIDDEN, ""), (NEXT, "")],
        reads: 63,
        last: b"line 1 obu\n",
        status: 10,
    },
    Row {
        words: &["record", "4"],
        pieces: &[(KEY, ""), ("80 \n", ""), (NEXT, "")],
        reads: 67,
        last: b"line 2\n",
        status: 5,
    },
];

// A command that reads nothing, or words that aren't a command.
fn unread<'a>(words: &'a [&'a str], text: &'a str, status: u8) -> Row<'a> {
    Row {
        words,
        pieces: &[("take 1\n", "")],
        reads: 0,
        last: text.as_bytes(),
        status,
    }
}

// The commands that start threads.
const OF_THREADS: [Row; 4] = [
    Row {
        words: &["together"],
        pieces: &[("take 1\n", ""), ("@8 take 2\n", ""), ("take 3\n", "")],
        reads: 25,
        last: b"@0 take 1\nrefused nosubscriber\n@8 take 2\nrefused nosubscriber\n@0 take 3\nrefused nosubscriber\n",
        status: 0,
    },
    Row {
        words: &["together"],
        pieces: &[("take 1\n", ""), ("take\n", ""), ("take 1\n", "")],
        reads: 12,
        last: b"line 2\n",
        status: 5,
    },
    Row {
        words: &["serve", "1"],
        pieces: &[(CONFIGURATION, "")],
        reads: 167,
        last: b"ok\nok\nsession 1 all\nsession 2 all\n",
        status: 0,
    },
    Row {
        words: &["serve", "1"],
        pieces: &[
            ("publish 1 plain 11111111 100\n", ""),
            ("port 127.0.0.1:5000\n", ""),
        ],
        reads: 49,
        last: b"line 2\n",
        status: 5,
    },
];

// Lets each read of a byte fail in turn, then the write of the first and of the last byte of each text, and at last nothing. Returns the first
// read or write, counted from 0, whose failure had a wrong outcome.
fn try_row<W: Threads + Wait + Sync>(
    rt: &W,
    alloc: Global,
    row: Row,
) -> Result<Option<(&'static str, u64)>, Fail> {
    let input = row.input(alloc)?;
    let before = row.due(alloc, input.len())?;
    let mut whole = before.clone()?;
    whole.extend_from_slice(row.last)?;
    for n in 0..=row.reads {
        let (status, written, fails) = outcome(rt, alloc, row.words, input.as_slice(), &[n], &[])?;
        let right = if n < row.reads {
            status == 3 && written.as_slice() == row.due(alloc, n as usize)?.as_slice() && !fails
        } else {
            status == row.status && written.as_slice() == whole.as_slice() && fails
        };
        if !right {
            return Ok(Some(("read", n)));
        }
    }
    for n in row.edges(alloc)? {
        let place = n as u64;
        let (status, written, _) = outcome(rt, alloc, row.words, input.as_slice(), &[], &[place])?;
        let kept = n == whole.len() || row.status != 0 && n >= before.len();
        let wanted = if kept { row.status } else { 4 };
        if status != wanted || written.len() != n || !whole.starts_with(written.as_slice()) {
            return Ok(Some(("write", place)));
        }
    }
    Ok(None)
}

// Returns the first row with a wrong outcome: its status, and which read or write failed.
fn first_wrong<W: Threads + Wait + Sync>(
    rt: &W,
    alloc: Global,
    rows: &[Row],
) -> Result<Option<(u8, &'static str, u64)>, Fail> {
    for row in rows {
        if let Some((call, place)) = try_row(rt, alloc, *row)? {
            return Ok(Some((row.status, call, place)));
        }
    }
    Ok(None)
}

#[test]
fn each_read_and_each_write_fails_in_turn(rt: HostRuntime) -> Result<(), Fail> {
    let alloc = rt.alloc();
    let of_nothing = [
        unread(&["trial", "2", "7", "0"], ONE_UNIT, 0),
        unread(&["cascade", "2", "7", "0"], TWO_FRAMES, 0),
        unread(&["help"], USAGE, 0),
        unread(&["run", "run"], USAGE, 2),
    ];
    assert_eq!(rt; first_wrong(&rt, alloc, &OF_CALLS)?, None);
    assert_eq!(rt; first_wrong(&rt, alloc, &OF_PACKETS)?, None);
    assert_eq!(rt; first_wrong(&rt, alloc, &of_nothing)?, None);
    assert_eq!(rt; first_wrong(&rt, alloc, &OF_THREADS)?, None);
    Ok(())
}
