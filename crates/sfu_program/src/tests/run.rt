// The top call over sources and sinks in memory: scripts with their replies and statuses.
use super::faults::ByteSource;
use crate::alone::sfu_alone;
use sfu_base::{Failed, MemSink, MemSource, Source};
use std::alloc::{AllocError, Global};
use std::process::Abort;
use std::test::Fail;

const FIRST: &str =
    "publish 1 plain 11111111 100\njoin 1 1 22222222 7 0 0\ntake 1\npacket 1 0 806000010000000011111111aabb\n";

const FIRST_REPLIES: &str = "ok\nok\nempty\nok\n";

pub const USAGE: &str =
    "usage: run, together, trial, check, record, serve, convert, simulcast, cascade, help\n";

/// Returns these texts as the words of a command line.
pub fn words(alloc: Global, texts: &[&str]) -> Result<Vec<String>, AllocError> {
    let mut words = Vec::new(alloc);
    for text in texts {
        words.push(String::from_str(alloc, text)?)?;
    }
    Ok(words)
}

/// Runs a script; returns the status and the output.
pub fn run(alloc: Global, script: &str) -> Result<(u8, Vec<u8>), AllocError> {
    let words = words(alloc, &["run"])?;
    let mut source = MemSource::new(script.as_bytes().to_vec(alloc)?, Vec::new(alloc));
    let mut sink = MemSink::new(alloc, Vec::new(alloc));
    let status = sfu_alone(alloc, words.as_slice(), &mut source, &mut sink);
    Ok((status, sink.written().to_vec(alloc)?))
}

// Runs a script for each row: the text `opening` with the row's script after it. Compares the status, and the output after `replies`.
fn check_scripts(
    rt: &impl Abort,
    alloc: Global,
    opening: &str,
    replies: &str,
    rows: &[(&str, u8, &str)],
) -> Result<(), Fail> {
    for (script, status, text) in rows {
        let whole = format!(in alloc; "{opening}{script}")?;
        let wanted = format!(in alloc; "{replies}{text}")?;
        let (got, written) = run(alloc, whole.as_str())?;
        assert_eq!(rt; got, *status, "{script:?}");
        assert_eq!(rt; written.as_slice(), wanted.as_bytes(), "{script:?}");
    }
    Ok(())
}

#[test]
fn scripts_get_their_replies_and_statuses(rt: HostRuntime) -> Result<(), Fail> {
    let rows: [(&str, u8, &str); 5] = [
        // The packet is forwarded with the subscriber's number and SSRC; then the queue is empty.
        (
            "take 1\ntake 1\n",
            0,
            "packet 806000070000000022222222aabb\nempty\n",
        ),
        // A line outside the grammar, after the replies.
        ("packet 1 0 80605", 5, "line 5\n"),
        ("packet 1 0 80605\ntake 1\n", 5, "line 5\n"),
        // A packet after a gap is buffered.
        (
            "packet 1 0 806000030000000011111111cc\nmissing 1\npacket 1 0 806000020000000011111111cc\nmissing 1\n",
            0,
            "ok\nmissing 2\nok\nmissing\n",
        ),
        // Upper case is read, lower case is written.
        (
            "packet 1 0 80E000020000000011111111FF\ntake 1\ntake 1\n",
            0,
            "ok\npacket 806000070000000022222222aabb\npacket 80e000080000000022222222ff\n",
        ),
    ];
    check_scripts(&rt, rt.alloc(), FIRST, FIRST_REPLIES, &rows)
}

#[test]
fn calls_are_refused_for_their_reasons(rt: HostRuntime) -> Result<(), Fail> {
    let rows: [(&str, u8, &str); 8] = [
        (
            "publish 1 plain 11111111 100\n",
            0,
            "refused numberused 1\n",
        ),
        (
            "publish 2 layered 11111111 100 15\n",
            0,
            "refused badextensionid\n",
        ),
        ("join 2 9 22222222 0 0 0\n", 0, "refused notrack\n"),
        ("leave 9\n", 0, "refused nosubscriber\n"),
        ("packet 1 0 8060\n", 0, "refused unreadable short\n"),
        (
            "packet 1 0 406000010000000011111111\n",
            0,
            "refused unreadable version\n",
        ),
        (
            "packet 1 0 806000020000000033333333\n",
            0,
            "refused wrongssrc 33333333 11111111\n",
        ),
        (
            "unpublish 1\npacket 1 40 8060\n",
            0,
            "ok\nrefused notrack\n",
        ),
    ];
    check_scripts(&rt, rt.alloc(), FIRST, FIRST_REPLIES, &rows)
}

#[test]
fn two_frames_of_a_layered_track_are_forwarded_and_resent(rt: HostRuntime) -> Result<(), Fail> {
    let script = "publish 1 layered 11111111 100 4\njoin 1 1 22222222 65535 0 0\n\
        packet 1 0 90e003e80000000011111111bede000348c0000180003a4101000000183000\n\
        packet 1 33 90e003e90000000011111111bede000142c10002103000\n\
        take 1\ntake 1\ntake 1\nresend 1 65535\nkey 1\nwhy 1 2\n";
    let wanted = "ok\nok\nok\nok\n\
        packet 90e0ffff0000000022222222bede000348c00001c0003a4101400000183000\n\
        packet 90e000000000000022222222bede000142c10002103000\nempty\n\
        packet 90e0ffff0000000022222222bede000348c00001c0003a4101400000183000\nkey no\npassed\n";
    check_scripts(&rt, rt.alloc(), "", "", &[(script, 0, wanted)])
}

#[test]
fn lines_are_skipped_and_end_as_they_should(rt: HostRuntime) -> Result<(), Fail> {
    let rows: [(&str, u8, &str); 9] = [
        // An empty script has no output.
        ("", 0, ""),
        // The last line may lack its LF.
        ("take 1", 0, "refused nosubscriber\n"),
        // Skipped lines are counted and have no reply; a CR directly before an LF is dropped.
        ("# a\n\ntake 1\r\n", 0, "refused nosubscriber\n"),
        (
            "# a\n\ntake 1\ntake 01",
            5,
            "refused nosubscriber\nline 4\n",
        ),
        ("\r\n#\r\n# \u{e9}\ntake 01\n", 5, "line 4\n"),
        // A CR at the end of the input stays, and so does the first of two before an LF.
        ("take 1\r", 5, "line 1\n"),
        ("take 1\r\r\n", 5, "line 1\n"),
        ("\r", 5, "line 1\n"),
        (" ", 5, "line 1\n"),
    ];
    check_scripts(&rt, rt.alloc(), "", "", &rows)
}

#[test]
fn other_words_get_the_usage_line(rt: HostRuntime) -> Result<(), Fail> {
    let alloc = rt.alloc();
    for texts in [
        ["run", "run"].as_slice(),
        &[],
        &["--help"],
        &["--version"],
        &["check"],
        &["check", "0"],
        &["check", "256"],
        &["check", "04"],
        &["check", "+4"],
        &["check", "4 "],
        &["check", ""],
        &["check", "4a"],
        &["check", "4", "4"],
        &["4", "check"],
        &["Check", "4"],
        &["record"],
        &["record", "0"],
        &["record", "256"],
        &["record", "04"],
        &["record", "4", "4"],
        &["trial", "0", "7", "0"],
        &["help", "run"],
        &["Run"],
        &["help "],
    ] {
        let words = words(alloc, texts)?;
        let mut source = MemSource::new(FIRST.as_bytes().to_vec(alloc)?, [0u64].to_vec(alloc)?);
        let mut sink = MemSink::new(alloc, Vec::new(alloc));
        assert_eq!(rt;
            sfu_alone(alloc, words.as_slice(), &mut source, &mut sink),
            2
        );
        assert_eq!(rt; sink.written(), USAGE.as_bytes());
        // The status is unchanged if the sink fails.
        let mut sink = MemSink::new(alloc, [0u64].to_vec(alloc)?);
        assert_eq!(rt;
            sfu_alone(alloc, words.as_slice(), &mut source, &mut sink),
            2
        );
        assert_eq!(rt; sink.written(), b"".as_slice());
        // Nothing was read: the failing first read is still to come.
        let mut buf = [0u8; 8];
        assert_eq!(rt; source.read(&mut buf), Err(Failed));
    }
    Ok(())
}

#[test]
fn hostile_packets_and_lines_are_refused(rt: HostRuntime) -> Result<(), Fail> {
    let alloc = rt.alloc();
    let rows: [(&str, u8, &str); 4] = [
        (
            "packet 1 0 8f6000010000000011111111\nmissing 1\n",
            0,
            "refused unreadable csrc\nmissing\n",
        ),
        (
            "packet 1 0 906000010000000011111111bede0001\nmissing 1\n",
            0,
            "refused unreadable extension\nmissing\n",
        ),
        (
            "packet 1 0 a0600001000000001111111100\nmissing 1\n",
            0,
            "refused unreadable padding\nmissing\n",
        ),
        (
            "packet 1 0 a06000010000000011111111\nmissing 1\n",
            0,
            "refused unreadable padding\nmissing\n",
        ),
    ];
    check_scripts(&rt, alloc, "publish 1 plain 11111111 100\n", "ok\n", &rows)?;
    // A line of 4,201 bytes.
    let mut line = String::new(alloc);
    for _ in 0..4201 {
        line.push('a')?;
    }
    let (got, written) = run(alloc, line.as_str())?;
    assert_eq!(rt; (got, written.as_slice()), (5, b"line 1\n".as_slice()));
    Ok(())
}

#[test]
fn the_read_behind_a_whole_script_fails(rt: HostRuntime) -> Result<(), Fail> {
    let alloc = rt.alloc();
    let words = words(alloc, &["run"])?;
    // The first read returns the whole script. All its lines have replies, except a last line without LF. After a line outside the grammar no second
    // read is made.
    for (more, status, last) in [
        ("", 3, ""),
        (
            "take 1\ntake 1\n",
            3,
            "packet 806000070000000022222222aabb\nempty\n",
        ),
        ("take 1", 3, ""),
        ("take 01", 3, ""),
        ("take 01\n", 5, "line 5\n"),
        ("take 01\ntake 1", 5, "line 5\n"),
    ] {
        let script = format!(in alloc; "{FIRST}{more}")?;
        let mut source = MemSource::new(script.as_bytes().to_vec(alloc)?, [1u64].to_vec(alloc)?);
        let mut sink = MemSink::new(alloc, Vec::new(alloc));
        let wanted = format!(in alloc; "{FIRST_REPLIES}{last}")?;
        assert_eq!(rt;
            sfu_alone(alloc, words.as_slice(), &mut source, &mut sink),
            status,
            "{script}"
        );
        assert_eq!(rt; sink.written(), wanted.as_bytes(), "{script}");
    }
    Ok(())
}

#[test]
fn pieces_of_any_size_make_the_same_lines(rt: HostRuntime) -> Result<(), Fail> {
    let alloc = rt.alloc();
    let run_word = words(alloc, &["run"])?;
    let text = format!(in alloc; "{FIRST}# a\r\ntake 1\r\ntake 01")?;
    let mut source = ByteSource {
        inner: MemSource::new(text.as_bytes().to_vec(alloc)?, Vec::new(alloc)),
    };
    let mut sink = MemSink::new(alloc, Vec::new(alloc));
    assert_eq!(rt;
        sfu_alone(alloc, run_word.as_slice(), &mut source, &mut sink),
        5
    );
    let wanted = format!(in alloc; "{FIRST_REPLIES}packet 806000070000000022222222aabb\nline 7\n")?;
    assert_eq!(rt; sink.written(), wanted.as_bytes());
    // A comment has at most 4,200 bytes too.
    let mut line = [b'#'].to_vec(alloc)?;
    for _ in 1..4200 {
        line.push(b'a')?;
    }
    for (more, status, replies) in [
        ("", 0, ""),
        ("\n", 0, ""),
        ("a", 5, "line 1\n"),
        ("\r\n", 5, "line 1\n"),
    ] {
        let mut bytes = line.clone()?;
        bytes.extend_from_slice(more.as_bytes())?;
        let mut source = MemSource::new(bytes, Vec::new(alloc));
        let mut sink = MemSink::new(alloc, Vec::new(alloc));
        assert_eq!(rt;
            sfu_alone(alloc, run_word.as_slice(), &mut source, &mut sink),
            status,
            "{more:?}"
        );
        assert_eq!(rt; sink.written(), replies.as_bytes(), "{more:?}");
    }
    Ok(())
}
