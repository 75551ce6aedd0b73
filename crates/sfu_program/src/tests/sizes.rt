// Large inputs don't run out of memory.
use super::run::{run, words};
use super::serve::served;
use super::together::played;
use super::trial::at_words;
use crate::alone::sfu_alone;
use sfu_base::{CalmPorts, MemSink, MemSource};
use std::alloc::{AllocError, Global};
use std::test::Fail;

// The output for 100,000 frames, as computed by `tests/models/trial_model.py`, which shares no code with the program.
const TRIAL: &str = "made 100000 frames 152000 packets\nlost 1477 repeated 1418 swapped 1473\n\
    subscriber 1 frames 75898 packets 111107 complaints 0\nsubscriber 2 frames 38446 packets 57253 complaints 0\n\
    subscriber 3 frames 21587 packets 23535 complaints 0\n";

#[test]
fn a_long_trial_has_its_figures(rt: HostRuntime) -> Result<(), Fail> {
    let alloc = rt.alloc();
    let (words, mut source) = at_words(alloc, &["trial", "100000", "7", "1"])?;
    let mut sink = MemSink::new(alloc, Vec::new(alloc));
    assert_eq!(rt;
        sfu_alone(alloc, words.as_slice(), &mut source, &mut sink),
        0
    );
    assert_eq!(rt; sink.written(), TRIAL.as_bytes());
    Ok(())
}

#[test]
fn sixty_four_ports_have_their_sessions(rt: HostRuntime) -> Result<(), Fail> {
    let alloc = rt.alloc();
    let (mut configuration, mut wanted) = (Vec::new(alloc), Vec::new(alloc));
    for k in 1..65 {
        let line = format!(in alloc; "port 10.0.0.{k}:5000 10.0.1.{k}:6000 control\n")?;
        configuration.extend_from_slice(line.as_bytes())?;
        let end = format!(in alloc; "session {k} all\n")?;
        wanted.extend_from_slice(end.as_bytes())?;
    }
    let mut ports = CalmPorts::new(alloc)?;
    let (status, written) = served(&rt, alloc, "1", configuration.as_slice(), &mut ports)?;
    assert_eq!(rt; written.as_slice(), wanted.as_slice());
    assert_eq!(rt; status, 0);
    Ok(())
}

#[test]
fn an_actor_has_10000_lines(rt: HostRuntime) -> Result<(), Fail> {
    let alloc = rt.alloc();
    let (mut script, mut journal) = (Vec::new(alloc), Vec::new(alloc));
    for n in 0..10_000 {
        let line = format!(in alloc; "@1 take {n}\n")?;
        script.extend_from_slice(line.as_bytes())?;
        journal.extend_from_slice(line.as_bytes())?;
        journal.extend_from_slice(b"refused nosubscriber\n")?;
    }
    let (status, written) = played(&rt, alloc, script.as_slice())?;
    assert_eq!(rt; status, 0);
    assert!(rt; written.as_slice() == journal.as_slice());
    Ok(())
}

// The text `first`, followed by 10,000 copies of `each`.
fn with_10000(alloc: Global, first: &[u8], each: &[u8]) -> Result<Vec<u8>, AllocError> {
    let mut bytes = first.to_vec(alloc)?;
    for _ in 0..10_000 {
        bytes.extend_from_slice(each)?;
    }
    Ok(bytes)
}

// 10,000 lines, each with a packet that is a key frame. The packets' sequence and frame numbers count from 0.
fn key_frames(alloc: Global) -> Result<Vec<u8>, AllocError> {
    let mut lines = Vec::new(alloc);
    for n in 0..10_000 {
        let line = format!(in alloc;
            "90e0{n:04x}0000000022222222bede000348c0{n:04x}80003a4101000000183000\n"
        )?;
        lines.extend_from_slice(line.as_bytes())?;
    }
    Ok(lines)
}

// The header of a file with one unit, and the first bytes of this unit, up to its temporal delimiter. The frames' OBUs, of three bytes each, follow.
const ONE_UNIT: &[u8] =
    b"DKIF\0\0\x20\0AV01\0\0\0\0\x90\x5f\x01\0\x01\0\0\0\x01\0\0\0\0\0\0\0\x32\x75\0\0\0\0\0\0\0\0\0\0\x12\0";

#[test]
fn each_command_that_reads_has_10000_lines(rt: HostRuntime) -> Result<(), Fail> {
    let alloc = rt.alloc();
    // Each row has the words, the input line, the first output, and the output for each line. A row without an input line has lines of key frames.
    let rows: [(&[&str], &[u8], &[u8], &[u8]); 5] = [
        (&["run"], b"take 1\n", b"", b"refused nosubscriber\n"),
        (&["simulcast"], b"pump 1\n", b"", b"refused nobundle\n"),
        (&["convert"], b"take 1\n", b"\0SF2", b"\0\x05\x09\0\0\0\x01"),
        (
            &["check", "4"],
            b"",
            b"ok 10000 packets 10000 frames\n",
            b"",
        ),
        (&["record", "4"], b"", ONE_UNIT, b"\x32\x01\0"),
    ];
    for (texts, line, first, each) in rows {
        let input = if line.is_empty() {
            key_frames(alloc)?
        } else {
            with_10000(alloc, b"", line)?
        };
        let wanted = with_10000(alloc, first, each)?;
        let words = words(alloc, texts)?;
        let mut source = MemSource::new(input, Vec::new(alloc));
        let mut sink = MemSink::new(alloc, Vec::new(alloc));
        let status = sfu_alone(alloc, words.as_slice(), &mut source, &mut sink);
        assert_eq!(rt; status, 0, "{texts:?}");
        assert!(rt; sink.written() == wanted.as_slice(), "{texts:?}");
    }
    Ok(())
}

#[test]
fn a_room_has_64_layered_tracks_and_256_subscribers(rt: HostRuntime) -> Result<(), Fail> {
    let alloc = rt.alloc();
    let (mut script, mut wanted) = (String::new(alloc), String::new(alloc));
    for track in 1u32..66 {
        let line = format!(in alloc; "publish {track} layered 11111111 100 4\n")?;
        script.push_str(line.as_str())?;
        wanted.push_str(if track < 65 {
            "ok\n"
        } else {
            "refused toomany 64\n"
        })?;
    }
    for subscriber in 1u32..258 {
        let track = subscriber % 64 + 1;
        let line = format!(in alloc; "join {subscriber} {track} 22222222 0 0 0\n")?;
        script.push_str(line.as_str())?;
        wanted.push_str(if subscriber < 257 {
            "ok\n"
        } else {
            "refused toomany 256\n"
        })?;
    }
    let (status, written) = run(alloc, script.as_str())?;
    assert_eq!(rt; status, 0);
    assert!(rt; written.as_slice() == wanted.as_bytes());
    Ok(())
}
