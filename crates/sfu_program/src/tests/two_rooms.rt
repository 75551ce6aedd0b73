// The command `cascade`: its summary and its words.
use super::run::USAGE;
use super::trial::at_words;
use crate::alone::sfu_alone;
use sfu_base::{Failed, MemSink, Source};
use std::test::Fail;

// Worked out from the rules of the stream: 500 units, 10 of them key units.
const THOUSAND: &str = "made 1000 frames 1520 packets\nlost 0 repeated 0 swapped 0\n\
    subscriber 1 frames 1000 packets 1520 complaints 0\nsubscriber 2 frames 250 packets 270 complaints 0\n\
    subscriber 3 frames 1000 packets 1520 complaints 0\n";

// One key unit: three packets of the lower frame, two of the upper one.
pub const TWO_FRAMES: &str = "made 2 frames 5 packets\nlost 0 repeated 0 swapped 0\n\
    subscriber 1 frames 2 packets 5 complaints 0\nsubscriber 2 frames 1 packets 3 complaints 0\n\
    subscriber 3 frames 2 packets 5 complaints 0\n";

#[test]
fn a_cascade_writes_its_summary_and_reads_nothing(rt: HostRuntime) -> Result<(), Fail> {
    let alloc = rt.alloc();
    for (frames, start, loss, text) in [("1000", "7", "0", THOUSAND), ("2", "7", "0", TWO_FRAMES)] {
        let (words, mut source) = at_words(alloc, &["cascade", frames, start, loss])?;
        let mut sink = MemSink::new(alloc, Vec::new(alloc));
        assert_eq!(rt;
            sfu_alone(alloc, words.as_slice(), &mut source, &mut sink),
            0
        );
        assert_eq!(rt; sink.written(), text.as_bytes(), "{frames} {start} {loss}");
        // The failing first read is still to come.
        assert_eq!(rt; source.read(&mut [0u8; 8]), Err(Failed));
    }
    Ok(())
}

#[test]
fn words_out_of_range_are_no_cascade(rt: HostRuntime) -> Result<(), Fail> {
    let alloc = rt.alloc();
    for texts in [
        ["cascade", "0", "7", "0"].as_slice(),
        &["cascade", "1000001", "7", "0"],
        &["cascade", "1", "7", "51"],
        &["cascade", "1", "18446744073709551616", "0"],
        &["cascade", "01", "7", "0"],
        &["cascade", "1", "7"],
        &["cascades", "1", "7", "0"],
        &["cascade"],
    ] {
        let (words, mut source) = at_words(alloc, texts)?;
        let mut sink = MemSink::new(alloc, Vec::new(alloc));
        assert_eq!(rt;
            sfu_alone(alloc, words.as_slice(), &mut source, &mut sink),
            2,
            "{texts:?}"
        );
        assert_eq!(rt; sink.written(), USAGE.as_bytes(), "{texts:?}");
    }
    Ok(())
}
