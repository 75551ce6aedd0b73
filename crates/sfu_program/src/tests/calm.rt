// The top call where nothing outside can fail.
use super::check::KEY;
use super::record::FORBIDDEN;
use super::run::words;
use super::serve::CONFIGURATION;
use crate::calm::sfu_calm;
use sfu_base::{CalmPorts, CalmSink, CalmSource, StepClock};
use std::test::Fail;

#[test]
fn calm_calls_end_by_their_input(rt: HostRuntime) -> Result<(), Fail> {
    let alloc = rt.alloc();
    let twice = format!(in alloc; "{KEY}{KEY}")?;
    let rows: [(&[&str], &str, u8); 11] = [
        (&["run"], "take 1\n", 0),
        (&["run"], "take 1\ntake 01\n", 5),
        (&["convert"], "take 1\n", 0),
        (&["simulcast"], "take 1\npump 1\n", 0),
        (&["check", "4"], twice.as_str(), 8),
        (&["record", "4"], FORBIDDEN, 10),
        (&["trial", "2", "7", "0"], "", 0),
        (&["cascade", "2", "7", "0"], "", 0),
        (&["together"], "@2 take 1\n", 0),
        (&["serve", "2"], CONFIGURATION, 0),
        (&["run", "run"], "", 2),
    ];
    for (texts, input, wanted) in rows {
        let words = words(alloc, texts)?;
        let mut source = CalmSource::new(input.as_bytes().to_vec(alloc)?);
        let mut sink = CalmSink::new();
        let mut ports = CalmPorts::new(alloc)?;
        let clock = StepClock::new(0, 1);
        let status = sfu_calm(
            &rt,
            alloc,
            words.as_slice(),
            &mut source,
            &mut sink,
            &mut ports,
            &clock,
        );
        assert_eq!(rt; status, wanted, "{texts:?}");
    }
    Ok(())
}
