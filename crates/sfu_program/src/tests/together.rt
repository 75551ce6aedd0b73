// Scripts of actors with their journals and statuses.
use crate::sfu::sfu;
use sfu_base::{CalmPorts, MemSink, MemSource, StepClock};
use std::alloc::{AllocError, Global};
use std::sync::Wait;
use std::test::Fail;
use std::thread::Threads;

/// Runs a script of actors; returns the status and the output.
pub fn played<W: Threads + Wait + Sync>(
    rt: &W,
    alloc: Global,
    script: &[u8],
) -> Result<(u8, Vec<u8>), AllocError> {
    let words = [String::from_str(alloc, "together")?];
    let mut source = MemSource::new(script.to_vec(alloc)?, Vec::new(alloc));
    let mut sink = MemSink::new(alloc, Vec::new(alloc));
    let mut ports = CalmPorts::new(alloc).map_err(|_| AllocError)?;
    let clock = StepClock::new(0, 1);
    let status = sfu(
        rt,
        alloc,
        &words,
        &mut source,
        &mut sink,
        &mut ports,
        &clock,
    );
    Ok((status, sink.written().to_vec(alloc)?))
}

const PACKET: &str = "packet 1 0 90e003e80000000011111111bede000348c0000180003a4101000000183000\n";

const OPENED: &str =
    "@0 publish 1 layered 11111111 100 4\nok\n@0 join 1 1 22222222 65535 0 0\nok\n";

#[test]
fn a_journal_is_that_of_one_history(rt: HostRuntime) -> Result<(), Fail> {
    let alloc = rt.alloc();
    let script = format!(in alloc;
        "publish 1 layered 11111111 100 4\njoin 1 1 22222222 65535 0 0\n@1 {PACKET}@2 take 1\n"
    )?;
    let packet_first = format!(in alloc;
        "{OPENED}@1 {PACKET}ok\n@2 take 1\npacket 90e0ffff0000000022222222bede000348c00001c0003a4101400000183000\n"
    )?;
    let take_first = format!(in alloc; "{OPENED}@2 take 1\nempty\n@1 {PACKET}ok\n")?;
    let (status, written) = played(&rt, rt.alloc(), script.as_bytes())?;
    assert_eq!(rt; status, 0);
    let one = written.as_slice() == packet_first.as_bytes();
    let other = written.as_slice() == take_first.as_bytes();
    assert!(rt; one || other);
    Ok(())
}

#[test]
fn a_journal_has_its_parts_in_order(rt: HostRuntime) -> Result<(), Fail> {
    let rows = [
        ("", ""),
        ("# a\n\ntake 1", "@0 take 1\nrefused nosubscriber\n"),
        (
            "take 1\n@8 take 2\n@8 leave 3\ntake 4\n",
            "@0 take 1\nrefused nosubscriber\n@8 take 2\nrefused nosubscriber\n@8 leave 3\nrefused nosubscriber\n@0 take 4\nrefused nosubscriber\n",
        ),
    ];
    for (script, journal) in rows {
        let (status, written) = played(&rt, rt.alloc(), script.as_bytes())?;
        assert_eq!(rt; status, 0, "{script}");
        assert_eq!(rt; written.as_slice(), journal.as_bytes(), "{script}");
    }
    Ok(())
}
