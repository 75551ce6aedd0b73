// Configurations for `serve` with their calls and ports, or with the number of the line outside the grammar.
use super::{Served, read_served};
use sfu_base::{Call, MemSink, MemSource};
use sfu_driver::Status;
use sfu_script::{PortLine, PortRole};
use std::alloc::{AllocError, Global};
use std::test::Fail;

// Returns the result for a configuration, and the text written.
fn read(
    alloc: Global,
    configuration: &[u8],
) -> Result<(Result<Served, Status>, Vec<u8>), AllocError> {
    let mut source = MemSource::new(configuration.to_vec(alloc)?, Vec::new(alloc));
    let mut sink = MemSink::new(alloc, Vec::new(alloc));
    let read = read_served(alloc, &mut source, &mut sink);
    Ok((read, sink.written().to_vec(alloc)?))
}

// For each `publish` the track's number, for each `join` the subscriber's number plus 100, for any other call 0.
fn numbers(alloc: Global, calls: &[Call]) -> Result<Vec<u32>, AllocError> {
    let mut numbers = Vec::new(alloc);
    for call in calls {
        numbers.push(match call {
            Call::Publish { track, .. } => *track,
            Call::Join { subscriber, .. } => subscriber.saturating_add(100),
            _ => 0,
        })?;
    }
    Ok(numbers)
}

// For each port three numbers: its own UDP port, its peer's UDP port, and its track or subscriber, or 0 for a control port.
fn ports(alloc: Global, lines: &[PortLine]) -> Result<Vec<[u32; 3]>, AllocError> {
    let mut ports = Vec::new(alloc);
    for line in lines {
        let number = match line.role {
            PortRole::Publisher { track, .. } => track,
            PortRole::Subscriber { subscriber, .. } => subscriber,
            PortRole::Control => 0,
            PortRole::Rtx { subscriber, .. } => subscriber,
        };
        ports.push([
            u32::from(line.local.port),
            u32::from(line.peer.port),
            number,
        ])?;
    }
    Ok(ports)
}

#[test]
fn a_configuration_says_its_calls_and_ports(rt: HostRuntime) -> Result<(), Fail> {
    let alloc = rt.alloc();
    let rows: [(&str, &[u32], &[[u32; 3]]); 6] = [
        ("", &[], &[]),
        ("# a\n\npublish 1 plain 11111111 100", &[1], &[]),
        (
            "publish 1 plain 11111111 100\njoin 1 1 22222222 7 0 0\nport 127.0.0.1:5000 127.0.0.1:6000 publisher 1 11111111\nport 127.0.0.1:5001 127.0.0.1:6001 subscriber 1 22222222\n",
            &[1, 101],
            &[[5000, 6000, 1], [5001, 6001, 1]],
        ),
        (
            "port 0.0.0.0:5002 10.0.0.1:6002 control\r\njoin 7 2 22222222 7 1 1\npublish 2 layered 11111111 0 4\n",
            &[107, 2],
            &[[5002, 6002, 0]],
        ),
        (
            "publish 3 plain 11111111 0\n# port\nport 0.0.0.0:0 255.255.255.255:65535 publisher 3 00000000\npublish 3 plain 11111111 0\n",
            &[3, 3],
            &[[0, 65535, 3]],
        ),
        (
            "port 127.0.0.1:5000 127.0.0.1:6000 rtx 9 22222222 33333333 63\nport 127.0.0.1:5001 127.0.0.1:6001 rtx 8 22222222 33333333 96\n",
            &[],
            &[[5000, 6000, 9], [5001, 6001, 8]],
        ),
    ];
    for (configuration, calls, lines) in rows {
        let (read, written) = read(alloc, configuration.as_bytes())?;
        let Ok(served) = read else {
            panic!(rt; "no configuration: {configuration}")
        };
        assert_eq!(rt;
            numbers(alloc, served.calls.calls())?.as_slice(),
            calls,
            "{configuration}"
        );
        assert_eq!(rt;
            ports(alloc, served.ports.as_slice())?.as_slice(),
            lines,
            "{configuration}"
        );
        assert!(rt; written.is_empty(), "{configuration}");
    }
    Ok(())
}

#[test]
fn the_first_line_outside_the_grammar_is_named(rt: HostRuntime) -> Result<(), Fail> {
    let alloc = rt.alloc();
    let rows = [
        ("publish 1 plain 11111111 100\ntake 1\n", "line 2\n"),
        ("leave 1\njoin 1 1 22222222 7 0\n", "line 1\n"),
        ("# a\n\njoin 1 1 22222222 7 0 0\nunpublish 1\n", "line 4\n"),
        (
            "port 127.0.0.1:5000 127.0.0.1:6000 viewer 1 11111111\n",
            "line 1\n",
        ),
        ("port 127.0.0.1:5000 control\n", "line 1\n"),
        (
            "port 127.0.0.1:5000 127.0.0.1:6000 rtx 1 22222222 33333333 64\n",
            "line 1\n",
        ),
        (
            "port 127.0.0.1:5000 127.0.0.1:6000 rtx 1 22222222 22222222 97\n",
            "line 1\n",
        ),
        ("port 127.0.0.256:5000 127.0.0.1:6000 control\n", "line 1\n"),
        ("@1 publish 1 plain 11111111 100\n", "line 1\n"),
    ];
    for (configuration, line) in rows {
        let (read, written) = read(alloc, configuration.as_bytes())?;
        let Err(status) = read else {
            panic!(rt; "a configuration: {configuration}")
        };
        assert_eq!(rt; status.number(), 5, "{configuration}");
        assert_eq!(rt; written.as_slice(), line.as_bytes(), "{configuration}");
    }
    Ok(())
}

#[test]
fn the_65th_port_is_outside_the_grammar(rt: HostRuntime) -> Result<(), Fail> {
    let alloc = rt.alloc();
    let mut configuration = Vec::new(alloc);
    for _ in 0..64 {
        configuration.extend_from_slice(b"port 127.0.0.1:5000 127.0.0.1:6000 control\n")?;
    }
    let (whole, _) = read(alloc, configuration.as_slice())?;
    let Ok(served) = whole else {
        panic!(rt; "no configuration")
    };
    assert_eq!(rt; served.ports.len(), 64);
    configuration.extend_from_slice(b"publish 1 plain 11111111 100\n")?;
    let (call, _) = read(alloc, configuration.as_slice())?;
    assert!(rt; call.is_ok());
    configuration.extend_from_slice(b"port 127.0.0.1:5000 127.0.0.1:6000 control\n")?;
    let (one_more, written) = read(alloc, configuration.as_slice())?;
    assert!(rt; one_more.is_err());
    assert_eq!(rt; written.as_slice(), b"line 66\n".as_slice());
    Ok(())
}
