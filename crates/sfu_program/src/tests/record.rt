// The command `record` over sources and sinks in memory: packets, and the file recorded from them.
use super::check::{BEGUN, KEY, NEXT, command};
use std::test::Fail;

// The key frame with an element whose forbidden bit is set.
pub const FORBIDDEN: &str = "90e0ffff0000000022222222bede000348c00001c0003a410140000018b000\n";

// The file of the key frame and the frame after it, and a file without frames.
pub const FILE: &[u8] =
    b"DKIF\0\0\x20\0AV01\0\0\0\0\x90\x5f\x01\0\x01\0\0\0\x01\0\0\0\0\0\0\0\x08\0\0\0\0\0\0\0\0\0\0\0\x12\0\x32\x01\0\x32\x01\0";

const NO_FRAMES: &[u8] = b"DKIF\0\0\x20\0AV01\0\0\0\0\x90\x5f\x01\0\x01\0\0\0\0\0\0\0\0\0\0\0";

#[test]
fn packets_are_recorded_or_complained_of(rt: HostRuntime) -> Result<(), Fail> {
    let alloc = rt.alloc();
    let rows: [(&[&str], u8, &[u8]); 13] = [
        (&[], 0, NO_FRAMES),
        (&[KEY, NEXT], 0, FILE),
        (&[FORBIDDEN], 10, b"line 1 obu\n"),
        (&[KEY, KEY], 8, b"line 2 sequence 65535 65535\n"),
        (&[NEXT], 8, b"line 1 nostructure\n"),
        // A frame that isn't finished is left out.
        (&[BEGUN], 0, NO_FRAMES),
        // Skipped lines are counted as lines and not fed to the recorder.
        (&["# a\n", "\r\n", KEY, "#80\n", NEXT], 0, FILE),
        (&["# a\n", "\n", FORBIDDEN], 10, b"line 3 obu\n"),
        // After a line outside the grammar, a complaint or a fault, no further line is recorded.
        (&[KEY, "take 1\n", KEY], 5, b"line 2\n"),
        (&["\0SF2\n", KEY], 5, b"line 1\n"),
        (&[KEY, KEY, "take 1\n"], 8, b"line 2 sequence 65535 65535\n"),
        (&[FORBIDDEN, "take 1\n"], 10, b"line 1 obu\n"),
        (&[FORBIDDEN, FORBIDDEN], 10, b"line 1 obu\n"),
    ];
    for (lines, status, text) in rows {
        let mut script = String::new(alloc);
        for line in lines {
            script.push_str(line)?;
        }
        let (got, written) = command(alloc, "record", "4", script.as_str())?;
        assert_eq!(rt; got, status, "{script}");
        assert_eq!(rt; written.as_slice(), text, "{script}");
    }
    Ok(())
}
