// Configurations, what `serve` writes, its statuses, and the ports that it releases.
ghost use Rattle.std.specs.Prelude.{◌≡◌, All, IfOk};
ghost use Rattle.sfu_base.specs.Links.{IsFresh};

use crate::sfu::sfu;
use sfu_base::{
    CalmPorts, Clock, MemLink, MemPorts, MemSink, MemSource, PacketBuf, Ports, StepClock,
};
use std::alloc::{AllocError, Global};
use std::process::Abort;
use std::sync::Wait;
use std::test::Fail;
use std::thread::Threads;

// A track with its publisher's port, and a subscriber with its own.
pub const CONFIGURATION: &str =
    "publish 1 plain 11111111 100\njoin 1 1 22222222 7 0 0\nport 127.0.0.1:5000 127.0.0.1:6000 publisher 1 11111111\nport 127.0.0.1:5001 127.0.0.1:6001 subscriber 1 22222222\n";

/// A configuration in which the subscriber's retransmissions are sent on a separate stream.
pub const WITH_RTX: &str =
    "publish 1 plain 11111111 100\njoin 1 1 22222222 7 0 0\nport 127.0.0.1:5000 127.0.0.1:6000 publisher 1 11111111\nport 127.0.0.1:5001 127.0.0.1:6001 rtx 1 22222222 33333333 97\n";

const REPLIES: &str = "ok\nok\n";

/// The output if both sessions make all their turns.
pub const ALL: &str = "ok\nok\nsession 1 all\nsession 2 all\n";

/// Runs `serve` with this clock; returns the status and the output.
pub fn served_by<W: Threads + Wait + Sync, P: Ports, C: Clock + Sync>(
    rt: &W,
    alloc: Global,
    turns: &str,
    configuration: &[u8],
    ports: &mut P,
    clock: &C,
) -> Result<(u8, Vec<u8>), AllocError>
    requires unbound { P.bound ports.old ≡ 0 }
{
    let words = [
        String::from_str(alloc, "serve")?,
        String::from_str(alloc, turns)?,
    ];
    let mut source = MemSource::new(configuration.to_vec(alloc)?, Vec::new(alloc));
    let mut sink = MemSink::new(alloc, Vec::new(alloc));
    let status = sfu(rt, alloc, &words, &mut source, &mut sink, ports, clock);
    Ok((status, sink.written().to_vec(alloc)?))
}

/// Does the same as `served_by`, with a clock that advances by 20 milliseconds at each reading.
pub fn served<W: Threads + Wait + Sync, P: Ports>(
    rt: &W,
    alloc: Global,
    turns: &str,
    configuration: &[u8],
    ports: &mut P,
) -> Result<(u8, Vec<u8>), AllocError>
    requires unbound { P.bound ports.old ≡ 0 }
{
    let clock = StepClock::new(0, 20);
    served_by(rt, alloc, turns, configuration, ports, &clock)
}

/// Returns a link that receives these datagrams. `receives` and `sends` have the numbers of the receives and sends that fail, counted from 0.
pub fn link(
    alloc: Global,
    datagrams: &[&[u8]],
    receives: &[u64],
    sends: &[u64],
) -> Result<MemLink, AllocError>
    ensures { IfOk result IsFresh }
{
    let mut prepared = Vec::new(alloc);
    for bytes in datagrams {
        let mut datagram = PacketBuf::new();
        if bytes.len() <= 2048 {
            datagram.fill(bytes);
        }
        prepared.push(datagram)?;
    }
    Ok(MemLink::new(
        alloc,
        prepared,
        receives.to_vec(alloc)?,
        sends.to_vec(alloc)?,
    ))
}

// Two links; the link at index `place`, 0 or 1, fails its receive in the turn `turn`.
fn links(alloc: Global, place: u64, turn: u64) -> Result<Vec<MemLink>, AllocError>
    ensures { IfOk result (λ links. All IsFresh links.items) }
{
    let (first, second) = if place == 0 {
        (link(alloc, &[], &[turn], &[])?, link(alloc, &[], &[], &[])?)
    } else {
        (link(alloc, &[], &[], &[])?, link(alloc, &[], &[turn], &[])?)
    };
    let mut links = Vec::new(alloc);
    links.push(first)?;
    links.push(second)?;
    Ok(links)
}

// Runs `serve` over ports that never fail and receive nothing, for each row: the turns, the configuration, and the output. The status is 0.
fn check_calm<W: Threads + Wait + Sync + Abort>(
    rt: &W,
    alloc: Global,
    rows: &[(&str, &str, &str)],
) -> Result<(), Fail> {
    for (turns, configuration, text) in rows {
        let mut ports = CalmPorts::new(alloc)?;
        let (status, written) = served(rt, alloc, turns, configuration.as_bytes(), &mut ports)?;
        assert_eq!(rt; written.as_slice(), text.as_bytes());
        assert_eq!(rt; status, 0);
    }
    Ok(())
}

#[test]
fn sessions_over_calm_ports_make_all_their_turns(rt: HostRuntime) -> Result<(), Fail> {
    let rows = [
        ("1", CONFIGURATION, ALL),
        ("20", CONFIGURATION, ALL),
        ("1", WITH_RTX, ALL),
        ("20", WITH_RTX, ALL),
    ];
    check_calm(&rt, rt.alloc(), &rows)
}

#[test]
fn a_failed_receive_ends_its_session_alone(rt: HostRuntime) -> Result<(), Fail> {
    let alloc = rt.alloc();
    let rows: [(u64, u64, &str); 4] = [
        (0, 0, "ok\nok\nsession 1 fault 0\nsession 2 all\n"),
        (1, 0, "ok\nok\nsession 1 all\nsession 2 fault 0\n"),
        (0, 2, "ok\nok\nsession 1 fault 2\nsession 2 all\n"),
        (1, 2, "ok\nok\nsession 1 all\nsession 2 fault 2\n"),
    ];
    for (place, turn, text) in rows {
        let mut ports = MemPorts::new(alloc, links(alloc, place, turn)?, Vec::new(alloc))?;
        let (status, written) = served(&rt, alloc, "3", CONFIGURATION.as_bytes(), &mut ports)?;
        assert_eq!(rt; written.as_slice(), text.as_bytes());
        assert_eq!(rt; status, 7);
        assert_eq!(rt; ports.returned().len(), 2);
        let faults = [ports.returned()[0].faults(), ports.returned()[1].faults()];
        assert_eq!(rt; faults, if place == 0 { [1, 0] } else { [0, 1] });
    }
    Ok(())
}

// Configurations: a publisher of a plain track; a publisher of a layered track that has a subscriber; a controller.
const OF_PLAIN: &str =
    "publish 1 plain 11111111 100\nport 127.0.0.1:5000 127.0.0.1:6000 publisher 1 11111111\n";

const OF_LAYERED: &str =
    "publish 1 layered 11111111 100 4\njoin 1 1 22222222 65535 0 0\nport 127.0.0.1:5000 127.0.0.1:6000 publisher 1 11111111\n";

const OF_CONTROL: &str = "port 127.0.0.1:5002 127.0.0.1:6002 control\n";

// RTP packets with the sequence numbers 1000 and 1002 (RFC 3550, section 5.1).
const TWO: [&[u8]; 2] = [
    b"\x80\x60\x03\xe8\0\0\0\0\x11\x11\x11\x11\xaa\xbb",
    b"\x80\x60\x03\xea\0\0\0\0\x11\x11\x11\x11\xaa\xbb",
];

// A generic NACK of 1001 (RFC 4585, section 6.2.1), and a picture loss indication (section 6.3.1).
const NACK: &[u8] = b"\x81\xcd\0\x03\0\0\0\x01\x11\x11\x11\x11\x03\xe9\0\0";

const PLI: &[u8] = b"\x81\xce\0\x02\0\0\0\x01\x11\x11\x11\x11";

#[test]
fn each_receive_and_each_send_of_a_session_fails_in_turn(rt: HostRuntime) -> Result<(), Fail> {
    let alloc = rt.alloc();
    // Each row has the configuration, the turns, the received datagrams, the datagram
    // that is sent if nothing fails, the replies, and the turn of the only send.
    let rows: [(&str, &str, u64, &[&[u8]], &[u8], &str, u64); 3] = [
        (OF_PLAIN, "2", 2, &TWO, NACK, "ok\n", 1),
        (OF_LAYERED, "1", 1, &[], PLI, "ok\nok\n", 0),
        (
            OF_CONTROL,
            "1",
            1,
            &[b"packet 1 0 80"],
            b"fault line",
            "",
            0,
        ),
    ];
    for (configuration, turns, receives, datagrams, sent, replies, sends_in) in rows {
        // Each receive fails in turn, then the send, and then nothing.
        for place in 0..receives.saturating_add(2) {
            let (failing, turn): (&[u64], u64) = if place == receives {
                (&[0], sends_in)
            } else {
                (&[], place)
            };
            let link = link(alloc, datagrams, &[place], failing)?;
            let mut links = Vec::new(alloc);
            links.push(link)?;
            let mut ports = MemPorts::new(alloc, links, Vec::new(alloc))?;
            let (status, written) = served(
                &rt,
                alloc,
                turns,
                configuration.as_bytes(),
                &mut ports,
            )?;
            let all = place > receives;
            let end = if all {
                format!(in alloc; "all")?
            } else {
                format!(in alloc; "fault {turn}")?
            };
            let text = format!(in alloc; "{replies}session 1 {end}\n")?;
            assert_eq!(rt; written.as_slice(), text.as_bytes());
            assert_eq!(rt; status, if all { 0 } else { 7 });
            let back = ports.returned();
            assert_eq!(rt; back.len(), 1);
            assert_eq!(rt; back[0].sent().len(), if all { 1 } else { 0 });
            for datagram in back[0].sent() {
                assert_eq!(rt; datagram.bytes(), sent);
            }
        }
    }
    Ok(())
}

#[test]
fn a_publisher_is_asked_by_the_clock_that_is_handed_in(rt: HostRuntime) -> Result<(), Fail> {
    let alloc = rt.alloc();
    // Packet 1001 is missing from turn 1, at 12 milliseconds, until 112 milliseconds. The session asks the room for
    // missing numbers at intervals of at least 20 milliseconds: in the turns 0, 3 and 6, at 5, 26 and 47 milliseconds.
    let rows: [(&str, usize); 4] = [("3", 0), ("4", 1), ("6", 1), ("7", 2)];
    for (turns, nacks) in rows {
        let link = link(alloc, &TWO, &[], &[])?;
        let mut links = Vec::new(alloc);
        links.push(link)?;
        let mut ports = MemPorts::new(alloc, links, Vec::new(alloc))?;
        let clock = StepClock::new(5, 7);
        let (status, written) = served_by(
            &rt,
            alloc,
            turns,
            OF_PLAIN.as_bytes(),
            &mut ports,
            &clock,
        )?;
        assert_eq!(rt; written.as_slice(), b"ok\nsession 1 all\n".as_slice());
        assert_eq!(rt; status, 0);
        let back = ports.returned();
        assert_eq!(rt; back.len(), 1);
        assert_eq!(rt; back[0].sent().len(), nacks, "{turns} turns");
        for datagram in back[0].sent() {
            assert_eq!(rt; datagram.bytes(), NACK);
        }
    }
    Ok(())
}

#[test]
fn each_turn_looks_at_the_clock_once(rt: HostRuntime) -> Result<(), Fail> {
    let alloc = rt.alloc();
    for role in [
        "publisher 1 11111111",
        "subscriber 1 22222222",
        "rtx 1 22222222 33333333 97",
        "control",
    ] {
        let configuration = format!(in alloc; "port 127.0.0.1:5000 127.0.0.1:6000 {role}\n")?;
        let mut ports = CalmPorts::new(alloc)?;
        let clock = StepClock::new(0, 1);
        let (status, _) = served_by(
            &rt,
            alloc,
            "7",
            configuration.as_bytes(),
            &mut ports,
            &clock,
        )?;
        assert_eq!(rt; (status, clock.now()), (0, 7), "{role}");
    }
    Ok(())
}

#[test]
fn a_failed_bind_starts_no_session_and_gives_the_ports_back(rt: HostRuntime) -> Result<(), Fail> {
    let alloc = rt.alloc();
    for place in 0..3 {
        let mut fails = Vec::new(alloc);
        fails.push(place)?;
        let mut ports = MemPorts::new(alloc, Vec::new(alloc), fails)?;
        let (status, written) = served(&rt, alloc, "1", CONFIGURATION.as_bytes(), &mut ports)?;
        if place < 2 {
            assert_eq!(rt; written.as_slice(), REPLIES.as_bytes());
            assert_eq!(rt; status, 7);
            assert_eq!(rt; ports.returned().len() as u64, place);
        } else {
            assert_eq!(rt; (status, ports.returned().len()), (0, 2));
        }
    }
    Ok(())
}

#[test]
fn a_line_outside_the_grammar_binds_no_port(rt: HostRuntime) -> Result<(), Fail> {
    let alloc = rt.alloc();
    let rows: [(&str, &str); 5] = [
        ("take 1\n", "line 1\n"),
        (
            "port 127.0.0.1:5000 127.0.0.1:6000 rtx 1 22222222 33333333 64\n",
            "line 1\n",
        ),
        (
            "publish 1 plain 11111111 100\nport 127.0.0.1:5000\n",
            "line 2\n",
        ),
        ("\0", "line 1\n"),
        ("# a\n\nrecord\n", "line 3\n"),
    ];
    for (configuration, text) in rows {
        let mut ports = MemPorts::new(alloc, Vec::new(alloc), Vec::new(alloc))?;
        let (status, written) = served(&rt, alloc, "1", configuration.as_bytes(), &mut ports)?;
        assert_eq!(rt; written.as_slice(), text.as_bytes());
        assert_eq!(rt; status, 5);
        assert_eq!(rt; ports.returned().len(), 0);
    }
    Ok(())
}

#[test]
fn a_configuration_may_have_no_calls_and_no_ports(rt: HostRuntime) -> Result<(), Fail> {
    let rows: [(&str, &str, &str); 3] = [
        ("2", "", ""),
        ("2", "join 1 1 22222222 7 0 0", "refused notrack\n"),
        (
            "2",
            "port 127.0.0.1:5002 127.0.0.1:6002 control",
            "session 1 all\n",
        ),
    ];
    check_calm(&rt, rt.alloc(), &rows)
}
