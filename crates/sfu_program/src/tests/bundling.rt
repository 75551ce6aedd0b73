// The command `simulcast` over sources and sinks in memory: scripts with their replies and statuses. The packets follow RFC 3550 and RFC 8285, the
// descriptors Appendix A of RTP Payload Format For AV1. The expected texts are worked out by hand.
use super::run::words;
use crate::alone::sfu_alone;
use sfu_base::{MemSink, MemSource};
use std::alloc::{AllocError, Global};
use std::test::Fail;

// Two layered tracks with a subscriber each, which are the legs of a bundle.
const BEGUN: &str =
    "publish 1 layered 11111111 100 4\npublish 2 layered 44444444 100 4\njoin 1 1 22222221 0 0 0\njoin 2 2 22222222 0 0 0\nbundle 1 4 55555555 10 1 2\n";

const BEGUN_REPLIES: &str = "ok\nok\nok\nok\nok\n";

// Each track has a key frame and a frame that refers to it. Then the first track has one more such frame, the second another key frame.
const KEY_1: &str = "packet 1 0 90e003e80000000011111111bede000348c0000180003a4101000000183000\n";

const KEY_2: &str = "packet 2 0 90e007d00000000044444444bede000348c0000180003a4101000000183000\n";

const SECOND_1: &str = "packet 1 0 90e003e90000000011111111bede000142c10002103000\n";

const SECOND_2: &str = "packet 2 0 90e007d10000000044444444bede000142c10002103000\n";

const THIRD_1: &str = "packet 1 0 90e003ea0000000011111111bede000142c10003103000\n";

const KEY_3_2: &str = "packet 2 0 90e007d20000000044444444bede000348c0000380003a4101000000183000\n";

// The forwarded packets: the first track's three frames, then the second track's key
// frame, whose timestamp is 3,000 higher. Each key frame has a mask with its only target.
const OUT_10: &str = "packet 90e0000a0000000055555555bede000348c00001c0003a4101400000183000\n";

const OUT_11: &str = "packet 90e0000b0000000055555555bede000142c10002103000\n";

const OUT_12: &str = "packet 90e0000c0000000055555555bede000142c10003103000\n";

const OUT_13: &str = "packet 90e0000d00000bb855555555bede000348c00003c0003a4101400000183000\n";

// Runs a script; returns the status and the output.
fn run(alloc: Global, script: &str) -> Result<(u8, Vec<u8>), AllocError> {
    let words = words(alloc, &["simulcast"])?;
    let mut source = MemSource::new(script.as_bytes().to_vec(alloc)?, Vec::new(alloc));
    let mut sink = MemSink::new(alloc, Vec::new(alloc));
    let status = sfu_alone(alloc, words.as_slice(), &mut source, &mut sink);
    Ok((status, sink.written().to_vec(alloc)?))
}

#[test]
fn one_stream_goes_out_of_two_tracks(rt: HostRuntime) -> Result<(), Fail> {
    let alloc = rt.alloc();
    let script = format!(in alloc;
        "{BEGUN}{KEY_1}{KEY_2}pump 1\nchoose 1 2\n{SECOND_1}{SECOND_2}pump 1\n{KEY_3_2}{THIRD_1}pump 1\n"
    )?;
    let ends =
        "draw 1\ndraw 1\ndraw 1\ndraw 1\ndraw 1\ntake 1\nbundle 2 5 55555555 0 1 2\ndraw 9\n";
    let wanted = format!(in alloc;
        "{BEGUN_REPLIES}ok\nok\npumped 1 1\nok\nok\nok\npumped 1 1\nok\nok\npumped 2 0\n{OUT_10}{OUT_11}{OUT_12}{OUT_13}"
    )?;
    let (got, written) = run(alloc, format!(in alloc; "{script}{ends}")?.as_str())?;
    assert_eq!(rt; got, 0);
    assert_eq!(rt;
        written.as_slice(),
        format!(in alloc;
            "{wanted}empty\nrefused bound 1\nrefused bound 1\nrefused nobundle\n"
        )?.as_bytes()
    );
    Ok(())
}

#[test]
fn lines_of_bundles_are_refused_for_their_reasons(rt: HostRuntime) -> Result<(), Fail> {
    let alloc = rt.alloc();
    // After a bundle of the legs 1 and 2 was created, further subscribers join: 3 joins track 1, 4 a plain track, 5 a track with another id, and 6 track 2.
    let others = "publish 3 plain 77777777 0\npublish 4 layered 88888888 0 5\njoin 3 1 1 0 0 0\n";
    assert_eq!(rt; run(alloc, others)?.0, 5);
    let others =
        "publish 3 plain 77777777 0\npublish 4 layered 88888888 0 5\njoin 3 1 00000003 0 0 0\njoin 4 3 00000004 0 0 0\n\
        join 5 4 00000005 0 0 0\njoin 6 2 00000006 0 0 0\n";
    for (line, reply) in [
        // The first refusal that applies, in the order of the checks.
        ("bundle 1 5 55555555 0 9 9\n", "refused numberused 1\n"),
        ("bundle 0 4 55555555 0 3 6\n", "refused numberused 1\n"),
        ("bundle 2 5 55555555 0 1 9\n", "refused nosubscriber\n"),
        ("bundle 2 5 55555555 0 4 1\n", "refused bound 1\n"),
        ("bundle 2 4 55555555 0 3 6 2\n", "refused bound 1\n"),
        ("bundle 2 5 55555555 0 3 3\n", "refused bound 2\n"),
        ("bundle 2 4 55555555 0 3 6 3\n", "refused bound 2\n"),
        ("bundle 2 4 55555555 0 3 4\n", "refused wrongkind\n"),
        ("bundle 2 4 55555555 0 3 5\n", "refused wrongkind\n"),
        ("bundle 2 5 55555555 0 3 6\n", "refused wrongkind\n"),
        ("bundle 2 4 55555555 0 3 6\n", "ok\n"),
        ("choose 9 0\n", "refused nobundle\n"),
        ("choose 1 0\n", "refused noleg 2\n"),
        ("choose 1 3\n", "refused noleg 2\n"),
        ("choose 1 2\n", "ok\n"),
        ("pump 9\n", "refused nobundle\n"),
        ("pump 1\n", "pumped 0 0\n"),
        ("draw 9\n", "refused nobundle\n"),
        ("draw 1\n", "empty\n"),
        ("redraw 9 10\n", "refused nobundle\n"),
        ("redraw 1 10\n", "notkept 10 10\n"),
        ("take 2\n", "refused bound 1\n"),
        ("leave 1\n", "refused bound 1\n"),
        ("take 3\n", "empty\n"),
        ("leave 3\n", "ok\n"),
        ("take 9\n", "refused nosubscriber\n"),
    ] {
        let (got, written) = run(alloc, format!(in alloc; "{BEGUN}{others}{line}")?.as_str())?;
        assert_eq!(rt; got, 0, "{line}");
        let wanted = format!(in alloc; "{BEGUN_REPLIES}ok\nok\nok\nok\nok\nok\n{reply}")?;
        assert_eq!(rt; written.as_slice(), wanted.as_bytes(), "{line}");
    }
    Ok(())
}

#[test]
fn packets_are_redrawn_and_the_65th_bundle_is_refused(rt: HostRuntime) -> Result<(), Fail> {
    let alloc = rt.alloc();
    let script = format!(in alloc;
        "{BEGUN}{KEY_1}{SECOND_1}pump 1\ndraw 1\nredraw 1 10\nredraw 1 11\nredraw 1 9\n"
    )?;
    let wanted = format!(in alloc;
        "{BEGUN_REPLIES}ok\nok\npumped 2 0\n{OUT_10}{OUT_10}notkept 10 11\nnotkept 10 11\n"
    )?;
    let (got, written) = run(alloc, script.as_str())?;
    assert_eq!(rt; got, 0);
    assert_eq!(rt; written.as_slice(), wanted.as_bytes());
    let mut script = String::from_str(alloc, "publish 1 layered 11111111 100 4\n")?;
    let mut wanted = String::from_str(alloc, "ok\n")?;
    for number in 1u32..66 {
        let (one, two) = (2 * number, 2 * number + 1);
        let lines = format!(in alloc;
            "join {one} 1 00000000 0 0 0\njoin {two} 1 00000000 0 0 0\nbundle {number} 4 55555555 0 {one} {two}\n"
        )?;
        script.push_str(lines.as_str())?;
        wanted.push_str(if number < 65 {
            "ok\nok\nok\n"
        } else {
            "ok\nok\nrefused toomany 64\n"
        })?;
    }
    let (got, written) = run(alloc, script.as_str())?;
    assert_eq!(rt; got, 0);
    assert_eq!(rt; written.as_slice(), wanted.as_bytes());
    Ok(())
}

#[test]
fn lines_outside_the_grammar_end_the_script(rt: HostRuntime) -> Result<(), Fail> {
    let alloc = rt.alloc();
    for (script, status, text) in [
        ("", 0, ""),
        ("pump 1", 0, "refused nobundle\n"),
        ("# a\n\npump 1\r\n", 0, "refused nobundle\n"),
        ("draw 1\npump 01\ndraw 1\n", 5, "refused nobundle\nline 2\n"),
        ("bundle 1 4 55555555 10 1\n", 5, "line 1\n"),
        // Records aren't read.
        ("\0SF2\0\u{5}", 5, "line 1\n"),
    ] {
        let (got, written) = run(alloc, script)?;
        assert_eq!(rt; got, status, "{script:?}");
        assert_eq!(rt; written.as_slice(), text.as_bytes(), "{script:?}");
    }
    Ok(())
}
