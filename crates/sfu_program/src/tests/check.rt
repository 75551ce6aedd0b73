// The command `check` over sources and sinks in memory: packets, and what a strict receiver finds in them.
use super::run::words;
use crate::alone::sfu_alone;
use sfu_base::{MemSink, MemSource};
use std::alloc::{AllocError, Global};
use std::test::Fail;

/// `KEY` and `NEXT` are the two packets that are forwarded for the layered track of `run.rt`. `KEY` is a key frame of one packet. `NEXT` is a frame
/// that refers to this key frame.
pub const KEY: &str = "90e0ffff0000000022222222bede000348c00001c0003a4101400000183000\n";

pub const NEXT: &str = "90e000000000000022222222bede000142c10002103000\n";

/// The first packet of a frame that isn't finished.
pub const BEGUN: &str = "906000000000000011111111bede00034880000180003a4101000000183000\n";

/// Runs the command `name` with the id `id` as its argument; returns the status and the output.
pub fn command(
    alloc: Global,
    name: &str,
    id: &str,
    script: &str,
) -> Result<(u8, Vec<u8>), AllocError> {
    let words = words(alloc, &[name, id])?;
    let mut source = MemSource::new(script.as_bytes().to_vec(alloc)?, Vec::new(alloc));
    let mut sink = MemSink::new(alloc, Vec::new(alloc));
    let status = sfu_alone(alloc, words.as_slice(), &mut source, &mut sink);
    Ok((status, sink.written().to_vec(alloc)?))
}

#[test]
fn packets_are_counted_or_complained_of(rt: HostRuntime) -> Result<(), Fail> {
    let alloc = rt.alloc();
    for (lines, status, text) in [
        ([].as_slice(), 0, "ok 0 packets 0 frames\n"),
        (&[KEY, NEXT], 0, "ok 2 packets 2 frames\n"),
        (&[NEXT], 8, "line 1 nostructure\n"),
        (&[KEY, KEY], 8, "line 2 sequence 65535 65535\n"),
        (
            &[
                "90e000000000000011111111bede000348c0000180003a4101000000183000\n",
                "90e000010000000011111111bede000142c10003103000\n",
            ],
            8,
            "line 2 missingreference 3 1\n",
        ),
        (
            &[
                BEGUN,
                "90e000010000000011111111bede000348c0000280003a4101000000183000\n",
            ],
            8,
            "line 2 notwhole\n",
        ),
        (
            &[KEY, "90e000000000000033333333bede000142c10002103000\n"],
            8,
            "line 2 othersource 22222222 33333333\n",
        ),
        (&["80\n"], 8, "line 1 unread\n"),
        // The packet of an unfinished frame is counted, but not the frame.
        (&[BEGUN], 0, "ok 1 packets 0 frames\n"),
        // Upper case is read, the last line may lack its LF, and a CR directly before an LF is dropped.
        (
            &[
                "90E0FFFF0000000022222222BEDE000348C0000180003A4101000000183000\r\n",
                "90e000000000000022222222bede000142c10002103000",
            ],
            0,
            "ok 2 packets 2 frames\n",
        ),
        // Skipped lines are counted as lines and not fed to the receiver.
        (
            &["# a\n", "\n", KEY, "#80\n", "\r\n", NEXT],
            0,
            "ok 2 packets 2 frames\n",
        ),
        (
            &["# a\n", "\n", KEY, "\n", KEY],
            8,
            "line 5 sequence 65535 65535\n",
        ),
        // After a line outside the grammar, or a complaint, no further line is checked.
        (&[KEY, "take 1\n", KEY], 5, "line 2\n"),
        (&[KEY, "8\n"], 5, "line 2\n"),
        (&[KEY, "# a\n", "80 "], 5, "line 3\n"),
        (&[KEY, KEY, "take 1\n"], 8, "line 2 sequence 65535 65535\n"),
        (&[KEY, KEY, NEXT], 8, "line 2 sequence 65535 65535\n"),
    ] {
        let mut script = String::new(alloc);
        for line in lines {
            script.push_str(line)?;
        }
        let (got, written) = command(alloc, "check", "4", script.as_str())?;
        assert_eq!(rt; got, status, "{script}");
        assert_eq!(rt; written.as_slice(), text.as_bytes(), "{script}");
    }
    Ok(())
}

#[test]
fn the_id_is_that_of_the_words(rt: HostRuntime) -> Result<(), Fail> {
    let alloc = rt.alloc();
    // The same packet with its descriptor under the ids 1 and 255, the second in the two-byte form.
    let one = "90e0ffff0000000022222222bede000318c0000180003a4101000000183000\n";
    let last = "90e0ffff000000002222222210000003ff09c0000180003a41010000183000\n";
    for (id, script, status, text) in [
        ("1", one, 0, "ok 1 packets 1 frames\n"),
        ("4", one, 8, "line 1 unread\n"),
        ("255", last, 0, "ok 1 packets 1 frames\n"),
        ("254", last, 8, "line 1 unread\n"),
    ] {
        let (got, written) = command(alloc, "check", id, script)?;
        assert_eq!(rt; got, status, "{id}");
        assert_eq!(rt; written.as_slice(), text.as_bytes(), "{id}");
    }
    Ok(())
}
