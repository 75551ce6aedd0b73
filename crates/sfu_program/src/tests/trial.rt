// The command `trial`: its summary and its words.
use super::run::USAGE;
use crate::alone::sfu_alone;
use sfu_base::{Failed, MemSink, MemSource, Source};
use std::alloc::{AllocError, Global};
use std::test::Fail;

// Worked out from the rules of the stream: 500 units, 10 of them key units.
const THOUSAND: &str = "made 1000 frames 1520 packets\nlost 0 repeated 0 swapped 0\n\
    subscriber 1 frames 1000 packets 1520 complaints 0\nsubscriber 2 frames 500 packets 770 complaints 0\n\
    subscriber 3 frames 250 packets 270 complaints 0\n";

// One key unit: three packets of the lower frame, two of the upper one.
pub const ONE_UNIT: &str = "made 2 frames 5 packets\nlost 0 repeated 0 swapped 0\n\
    subscriber 1 frames 2 packets 5 complaints 0\nsubscriber 2 frames 2 packets 5 complaints 0\n\
    subscriber 3 frames 1 packets 3 complaints 0\n";

// Computed by `tests/models/trial_model.py`, which shares no code with the program: the last unit has no upper frame.
const SOME_LOST: &str = "made 401 frames 611 packets\nlost 23 repeated 11 swapped 26\n\
    subscriber 1 frames 280 packets 390 complaints 0\nsubscriber 2 frames 148 packets 212 complaints 0\n\
    subscriber 3 frames 94 packets 104 complaints 0\n";

const MANY_LOST: &str = "made 203 frames 310 packets\nlost 52 repeated 51 swapped 39\n\
    subscriber 1 frames 12 packets 21 complaints 0\nsubscriber 2 frames 9 packets 17 complaints 0\n\
    subscriber 3 frames 5 packets 9 complaints 0\n";

/// Returns these texts as the words of a command line, and a source whose first read fails.
pub fn at_words(alloc: Global, texts: &[&str]) -> Result<(Vec<String>, MemSource), AllocError> {
    let mut words = Vec::new(alloc);
    for text in texts {
        words.push(String::from_str(alloc, text)?)?;
    }
    let source = MemSource::new(Vec::new(alloc), [0u64].to_vec(alloc)?);
    Ok((words, source))
}

#[test]
fn a_trial_writes_its_summary_and_reads_nothing(rt: HostRuntime) -> Result<(), Fail> {
    let alloc = rt.alloc();
    for (frames, start, loss, text) in [
        ("1000", "7", "0", THOUSAND),
        ("2", "7", "0", ONE_UNIT),
        ("401", "11", "3", SOME_LOST),
        ("203", "2", "20", MANY_LOST),
    ] {
        let (words, mut source) = at_words(alloc, &["trial", frames, start, loss])?;
        let mut sink = MemSink::new(alloc, Vec::new(alloc));
        assert_eq!(rt;
            sfu_alone(alloc, words.as_slice(), &mut source, &mut sink),
            0
        );
        assert_eq!(rt; sink.written(), text.as_bytes(), "{frames} {start} {loss}");
        // The failing first read is still to come.
        assert_eq!(rt; source.read(&mut [0u8; 8]), Err(Failed));
    }
    Ok(())
}

#[test]
fn words_out_of_range_are_no_trial(rt: HostRuntime) -> Result<(), Fail> {
    let alloc = rt.alloc();
    for texts in [
        ["trial", "0", "7", "0"].as_slice(),
        &["trial", "1000001", "7", "0"],
        &["trial", "1", "7", "51"],
        &["trial", "1", "18446744073709551616", "0"],
        &["trial", "01", "7", "0"],
        &["trial", "1", "07", "0"],
        &["trial", "1", "7", "00"],
        &["trial", "+1", "7", "0"],
        &["trial", "1", "", "0"],
        &["trial", "1", "7 0", "0"],
        &["trial", "1", "7"],
        &["trial", "1", "7", "0", "0"],
        &["Trial", "1", "7", "0"],
        &["trial"],
        &["help", "x"],
    ] {
        let (words, mut source) = at_words(alloc, texts)?;
        let mut sink = MemSink::new(alloc, Vec::new(alloc));
        assert_eq!(rt;
            sfu_alone(alloc, words.as_slice(), &mut source, &mut sink),
            2,
            "{texts:?}"
        );
        assert_eq!(rt; sink.written(), USAGE.as_bytes(), "{texts:?}");
    }
    // The greatest seed and loss: one frame has three packets.
    let (words, mut source) = at_words(alloc, &["trial", "1", "18446744073709551615", "50"])?;
    let mut sink = MemSink::new(alloc, Vec::new(alloc));
    assert_eq!(rt;
        sfu_alone(alloc, words.as_slice(), &mut source, &mut sink),
        0
    );
    assert!(rt; sink.written().starts_with(b"made 1 frames 3 packets\n"));
    Ok(())
}
