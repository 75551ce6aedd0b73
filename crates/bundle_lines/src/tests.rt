// Tables of lines.
ghost use Rattle.std.specs.Prelude.{◌≡◌, true};
ghost use Rattle.script_texts.specs.Lines.{HasBytes};

use crate::{BundleLine, read_bundle_line};
use sfu_base::{Blob, Call};
use sfu_script::{NoLine, write_call};
use std::test::Fail;

// A line as numbers: its kind, and its fields.
fn numbers(line: &BundleLine) -> [u64; 9] {
    match line {
        BundleLine::Room(_) => [0; 9],
        BundleLine::Bundle {
            bundle,
            id,
            ssrc,
            first,
            legs,
            count,
        } => {
            let (bundle, id, ssrc) = (u64::from(*bundle), u64::from(*id), u64::from(*ssrc));
            let [one, two, three] = legs.map(u64::from);
            let (first, count) = (u64::from(*first), u64::from(*count));
            [1, bundle, id, ssrc, first, one, two, three, count]
        }
        BundleLine::Choose { bundle, leg } => {
            [2, u64::from(*bundle), u64::from(*leg), 0, 0, 0, 0, 0, 0]
        }
        BundleLine::Pump { bundle } => [3, u64::from(*bundle), 0, 0, 0, 0, 0, 0, 0],
        BundleLine::Draw { bundle } => [4, u64::from(*bundle), 0, 0, 0, 0, 0, 0, 0],
        BundleLine::Redraw { bundle, seq } => {
            [5, u64::from(*bundle), u64::from(*seq), 0, 0, 0, 0, 0, 0]
        }
    }
}

// Lines about bundles, each with its meaning. The numbers in them are 0 and the
// greatest of their type. Exchanging two numbers of a line changes its meaning.
const LINES: [(&[u8], [u64; 9]); 21] = [
    (
        b"bundle 1 4 55555555 10 1 2",
        [1, 1, 4, 0x55555555, 10, 1, 2, 0, 2],
    ),
    (
        b"bundle 1 4 55555555 10 1 2 3",
        [1, 1, 4, 0x55555555, 10, 1, 2, 3, 3],
    ),
    (
        b"bundle 4 1 55555555 10 1 2",
        [1, 4, 1, 0x55555555, 10, 1, 2, 0, 2],
    ),
    (
        b"bundle 1 4 55555555 10 2 1",
        [1, 1, 4, 0x55555555, 10, 2, 1, 0, 2],
    ),
    (
        b"bundle 1 4 55555555 1 10 2",
        [1, 1, 4, 0x55555555, 1, 10, 2, 0, 2],
    ),
    (
        b"bundle 1 4 55555555 10 1 3 2",
        [1, 1, 4, 0x55555555, 10, 1, 3, 2, 3],
    ),
    (
        b"bundle 1 10 aAbBcCdD 4 1 2",
        [1, 1, 10, 0xaabbccdd, 4, 1, 2, 0, 2],
    ),
    (b"bundle 0 0 00000000 0 0 0", [1, 0, 0, 0, 0, 0, 0, 0, 2]),
    (b"bundle 0 0 00000000 0 0 0 0", [1, 0, 0, 0, 0, 0, 0, 0, 3]),
    (
        b"bundle 4294967295 255 ffffffff 65535 4294967295 4294967295",
        [
            1, 0xffffffff, 255, 0xffffffff, 65535, 0xffffffff, 0xffffffff, 0, 2,
        ],
    ),
    (
        b"bundle 4294967295 255 ffffffff 65535 4294967295 4294967295 4294967295",
        [
            1, 0xffffffff, 255, 0xffffffff, 65535, 0xffffffff, 0xffffffff, 0xffffffff, 3,
        ],
    ),
    (b"choose 1 2", [2, 1, 2, 0, 0, 0, 0, 0, 0]),
    (b"choose 2 1", [2, 2, 1, 0, 0, 0, 0, 0, 0]),
    (
        b"choose 4294967295 255",
        [2, 0xffffffff, 255, 0, 0, 0, 0, 0, 0],
    ),
    (b"pump 1", [3, 1, 0, 0, 0, 0, 0, 0, 0]),
    (b"pump 4294967295", [3, 0xffffffff, 0, 0, 0, 0, 0, 0, 0]),
    (b"draw 9", [4, 9, 0, 0, 0, 0, 0, 0, 0]),
    (b"draw 4294967295", [4, 0xffffffff, 0, 0, 0, 0, 0, 0, 0]),
    (b"redraw 1 1000", [5, 1, 1000, 0, 0, 0, 0, 0, 0]),
    (b"redraw 1000 1", [5, 1000, 1, 0, 0, 0, 0, 0, 0]),
    (
        b"redraw 4294967295 65535",
        [5, 0xffffffff, 65535, 0, 0, 0, 0, 0, 0],
    ),
];

// Lines outside the grammar: words in a wrong place, too few or too many legs, and numbers above their types.
const OUTSIDE: [&[u8]; 56] = [
    b"",
    b"bundle",
    b"bundle ",
    b"1 bundle 4 55555555 10 1 2",
    b"bundle 1 55555555 4 10 1 2",
    b"bundle 55555555 4 1 10 1 2",
    b"bundle 1 4 10 55555555 1 2",
    b"bundle 1 4 55555555 10",
    b"bundle 1 4 55555555 10 1",
    b"bundle 1 4 55555555 10 1 ",
    b"bundle 1 4 55555555 10 1 2 ",
    b"bundle 1 4 55555555 10 1 2  3",
    b"bundle 1 4 55555555 10 1 2 3 ",
    b"bundle 1 4 55555555 10 1 2 3 4",
    b"bundle 1 4 55555555 10 1 2 x",
    b"bundle 4294967296 4 55555555 10 1 2",
    b"bundle 1 256 55555555 10 1 2",
    b"bundle 1 4 155555555 10 1 2",
    b"bundle 1 4 5555555 10 1 2",
    b"bundle 1 4 5555555g 10 1 2",
    b"bundle 1 4 55555555 65536 1 2",
    b"bundle 1 4 55555555 10 4294967296 2",
    b"bundle 1 4 55555555 10 1 4294967296",
    b"bundle 1 4 55555555 10 1 2 4294967296",
    b"bundle 01 4 55555555 10 1 2",
    b"bundle 1 4 55555555 10 1 02",
    b"bundle 1 4 55555555 10 1 -2",
    b"Bundle 1 4 55555555 10 1 2",
    b" bundle 1 4 55555555 10 1 2",
    b"choose",
    b"choose 1",
    b"1 choose 2",
    b"choose 1 2 3",
    b"choose 4294967296 2",
    b"choose 1 256",
    b"choose 1 02",
    b"pump",
    b"pump ",
    b"1 pump",
    b"pump 1 2",
    b"pump 4294967296",
    b"draw",
    b"draw  9",
    b"9 draw",
    b"draw 9 1",
    b"draw 4294967296",
    b"redraw 1",
    b"1 redraw 1000",
    b"redraw 1 65536",
    b"redraw 4294967296 1",
    b"redraw 1 1000 1",
    b"redraw 1 1000\r",
    b"bundled 1 4 55555555 10 1 2",
    b"redraws 1 1000",
    b"take 1 2",
    b"@1 pump 1",
];

#[test]
fn lines_of_bundles_say_what_stands_there(rt: HostRuntime) -> Result<(), Fail> {
    for (line, said) in LINES {
        assert_eq!(rt; numbers(&read_bundle_line(line)?), said);
    }
    for line in OUTSIDE {
        assert_eq!(rt; read_bundle_line(line).err(), Some(NoLine));
    }
    Ok(())
}

// One line for each call.
const CALLS: [&[u8]; 14] = [
    b"publish 1 plain 11111111 100",
    b"publish 1 layered 11111111 100 4",
    b"unpublish 3",
    b"packet 1 0 806000010000000011111111aabb",
    b"tick 1 50",
    b"join 1 2 22222222 7 3 4",
    b"leave 2",
    b"aim 1 2 3",
    b"take 1",
    b"resend 1 1000",
    b"missing 1",
    b"key 1",
    b"plead 1",
    b"why 1 7",
];

// Returns whether `write_call` may be called with this call.
fn has_bytes(call: &Call) -> bool
    ensures { result ≡ true → HasBytes call.now }
{
    match call {
        Call::Packet { bytes, .. } => !bytes.bytes().is_empty(),
        _ => true,
    }
}

#[test]
fn each_line_of_a_call_says_that_call(rt: HostRuntime) -> Result<(), Fail> {
    let mut written = Blob::new(rt.alloc());
    for line in CALLS {
        let BundleLine::Room(call) = read_bundle_line(line)? else {
            panic!(rt; "no call")
        };
        assert!(rt; has_bytes(&call));
        written.clear();
        write_call(&call, &mut written)?;
        assert_eq!(rt; written.bytes(), line);
    }
    Ok(())
}

#[test]
fn a_bundle_of_two_legs_begins(rt: HostRuntime) -> Result<(), Fail> {
    let line = read_bundle_line(b"bundle 1 4 55555555 10 1 2")?;
    let BundleLine::Bundle { legs, count, .. } = line else {
        panic!(rt; "another line")
    };
    assert_eq!(rt; (legs, count), ([1, 2, 0], 2)); // the first two items are the legs
    let line = read_bundle_line(b"take 1")?;
    assert!(rt; matches!(line, BundleLine::Room(Call::Take { subscriber: 1 })));
    Ok(())
}
