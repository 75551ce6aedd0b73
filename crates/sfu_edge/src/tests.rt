// Tests that use each adapter once through its trait: over bytes, over a failing reader and writer, over sockets of this machine, and over clocks.
use crate::trouble::{Trouble, trouble_of};
use crate::{StdSink, StdSource, SysClock, UdpPorts, WakeTable};
use sfu_base::{Address, Blob, Clock, Failed, Link, NoMemory, PacketBuf, Ports, Sink, Source};
use std::alloc::Global;
use std::io::{Read, Write};
use std::net::{Ipv4Addr, Net, SocketAddr, UdpSocket};
use std::test::Fail;
use std::time::Duration;
use std::{io, time};

mod waking;

// Linux's error numbers (errno(3)).
const EPERM: i32 = 1;

const EINTR: i32 = 4;

const EBADF: i32 = 9;

const EAGAIN: i32 = 11;

const EACCES: i32 = 13;

const EINVAL: i32 = 22;

const ENOTSOCK: i32 = 88;

const EMSGSIZE: i32 = 90;

const EADDRNOTAVAIL: i32 = 99;

const ENETDOWN: i32 = 100;

const ENETUNREACH: i32 = 101;

const ENOBUFS: i32 = 105;

const ECONNREFUSED: i32 = 111;

const EHOSTUNREACH: i32 = 113;

#[test]
fn what_the_network_loses_passes_and_a_socket_of_no_use_lasts(rt: HostRuntime) {
    let rows = [
        (EINTR, Trouble::Interrupted),
        (EAGAIN, Trouble::Waits),
        (EPERM, Trouble::Passes),
        (EACCES, Trouble::Passes),
        (EMSGSIZE, Trouble::Passes),
        (EADDRNOTAVAIL, Trouble::Passes),
        (ENETDOWN, Trouble::Passes),
        (ENETUNREACH, Trouble::Passes),
        (ENOBUFS, Trouble::Passes),
        (ECONNREFUSED, Trouble::Passes),
        (EHOSTUNREACH, Trouble::Passes),
        (EBADF, Trouble::Lasts),
        (EINVAL, Trouble::Lasts),
        (ENOTSOCK, Trouble::Lasts),
    ];
    for (code, wanted) in rows {
        assert_eq!(rt; trouble_of(&io::Error::from_raw_os_error(code)), wanted);
    }
}

// A packet of one byte.
fn packet(byte: u8) -> PacketBuf {
    let mut packet = PacketBuf::new();
    packet.fill(&[byte]);
    packet
}

// The results of three reads with a buffer of three bytes, and the bytes read, one after another.
fn drained<S: Source>(
    alloc: Global,
    source: &mut S,
) -> Result<([Result<usize, Failed>; 3], Blob), NoMemory> {
    let mut answers = [Err(Failed); 3];
    let mut all = Blob::new(alloc);
    for answer in &mut answers {
        let mut buf = [0u8; 3];
        *answer = source.read(&mut buf);
        if let Ok(count) = *answer {
            all.append(&buf[..count])?;
        }
    }
    Ok((answers, all))
}

// A reader and a writer of std that always fail.
#[derive(Drop)]
struct Broken;

impl Read for Broken {
    fn read(&mut self, _buf: &mut [u8]) -> io::Result<usize> {
        Err(io::Error::from(io::ErrorKind::BrokenPipe))
    }
}

impl Write for Broken {
    fn write(&mut self, _buf: &[u8]) -> io::Result<usize> {
        Err(io::Error::from(io::ErrorKind::BrokenPipe))
    }

    fn flush(&mut self) -> io::Result<()> {
        Ok(())
    }
}

// A reader and a writer of which every third call succeeds. Of the two calls before it, a signal interrupts one, and the pipe isn't ready for the other.
#[derive(Drop)]
struct Wavering {
    calls: u8,
}

impl Wavering {
    fn waver(&mut self) -> io::Result<()> {
        self.calls = self.calls.wrapping_add(1);
        match self.calls % 3 {
            1 => Err(io::Error::from_raw_os_error(EINTR)),
            2 => Err(io::Error::from_raw_os_error(EAGAIN)),
            _ => Ok(()),
        }
    }
}

impl Read for Wavering {
    fn read(&mut self, buf: &mut [u8]) -> io::Result<usize> {
        self.waver()?;
        match buf.first_mut() {
            Some(first) => {
                *first = self.calls;
                Ok(1)
            }
            None => Ok(0),
        }
    }
}

impl Write for Wavering {
    fn write(&mut self, buf: &[u8]) -> io::Result<usize> {
        self.waver()?;
        Ok(buf.len())
    }

    fn flush(&mut self) -> io::Result<()> {
        Ok(())
    }
}

#[test]
fn a_source_over_a_reader_gives_its_bytes_in_order_and_fails_where_it_does(
    rt: HostRuntime,
) -> Result<(), Fail> {
    let bytes = [7u8, 1, 4, 1, 30];
    let mut source = StdSource::new(&rt, bytes.as_slice());
    let (answers, all) = drained(rt.alloc(), &mut source)?;
    assert_eq!(rt; answers, [Ok(3), Ok(2), Ok(0)]);
    assert_eq!(rt; all.bytes(), bytes.as_slice());
    let (answers, _) = drained(rt.alloc(), &mut StdSource::new(&rt, Broken))?;
    assert_eq!(rt; answers, [Err(Failed); 3]);
    let mut wavering = Wavering { calls: 0 };
    let (answers, all) = drained(rt.alloc(), &mut StdSource::new(&rt, &mut wavering))?;
    assert_eq!(rt; answers, [Ok(1), Ok(1), Ok(1)]);
    assert_eq!(rt; all.bytes(), [3u8, 6, 9].as_slice());
    Ok(())
}

// The results of a sink for a piece of three bytes and one of two.
fn filled<K: Sink>(sink: &mut K) -> (Result<usize, Failed>, Result<usize, Failed>) {
    (sink.write(&[1, 2, 3]), sink.write(&[4, 5]))
}

#[test]
fn a_sink_over_a_writer_takes_what_is_written_and_fails_where_it_does(rt: HostRuntime) {
    let mut sink = StdSink::new(&rt, Vec::new(rt.alloc()));
    assert_eq!(rt; filled(&mut sink), (Ok(3), Ok(2)));
    assert_eq!(rt;
        filled(&mut StdSink::new(&rt, Broken)),
        (Err(Failed), Err(Failed))
    );
    let wavering = Wavering { calls: 0 };
    assert_eq!(rt; filled(&mut StdSink::new(&rt, wavering)), (Ok(3), Ok(2)));
}

// The result of a receive, and the first byte of the buffer, which was 9 before.
fn heard<L: Link>(link: &mut L) -> (Result<bool, Failed>, Option<u8>) {
    let mut buf = packet(9);
    let answer = link.receive(&mut buf);
    (answer, buf.bytes().first().copied())
}

// The address 127.0.0.1.
const LOOPBACK: u32 = 0x7f00_0001;

// A socket on a free port of this machine, and its address.
fn open(net: &impl Net) -> io::Result<(UdpSocket, SocketAddr, Address)> {
    let socket = UdpSocket::bind(net, SocketAddr::from((Ipv4Addr::LOCALHOST, 0)))?;
    let at = socket.local_addr()?;
    let port = at.port();
    Ok((socket, at, Address { ip: LOOPBACK, port }))
}

// The result of `heard` for the first of at most a hundred receives that doesn't return `Ok(false)`.
fn heard_soon<L: Link>(link: &mut L) -> (Result<bool, Failed>, Option<u8>) {
    for _ in 0..100 {
        let heard = heard(link);
        if heard.0 != Ok(false) {
            return heard;
        }
    }
    heard(link)
}

// Whether one of at most a hundred receives returns a datagram.
fn is_soon_there<L: Link>(link: &mut L, buf: &mut PacketBuf) -> bool {
    for _ in 0..100 {
        if link.receive(buf) == Ok(true) {
            return true;
        }
    }
    false
}

// Whether three sends to an address where nobody listens succeed, and no datagram comes back.
fn sends_to_nobody<L: Link>(link: &mut L) -> bool {
    for _ in 0..3 {
        if link.send(&packet(8)) != Ok(()) || heard(link) != (Ok(false), Some(9)) {
            return false;
        }
    }
    true
}

#[test]
fn a_link_over_udp_hears_its_peer_alone_and_outlasts_one_that_goes_and_comes_back(
    rt: HostRuntime,
) -> Result<(), Fail> {
    let (far, _, peer) = open(&rt)?;
    let (other, _, _) = open(&rt)?;
    let (free, at, local) = open(&rt)?;
    drop(free);
    let table = WakeTable::new(rt.alloc())?;
    let mut ports = UdpPorts::new(&rt, rt.alloc(), &table);
    let mut link = ports.bind(local, peer)?;
    assert_eq!(rt; ports.bind(local, peer).is_err(), true);
    assert_eq!(rt; heard(&mut link), (Ok(false), Some(9)));
    assert_eq!(rt; link.send(&packet(7)), Ok(()));
    let mut buf = [0u8; 4];
    assert_eq!(rt; far.recv_from(&mut buf)?, (1, at));
    assert_eq!(rt; buf[0], 7);
    other.send_to(&[1], at)?;
    far.send_to(&[2], at)?;
    assert_eq!(rt; heard_soon(&mut link), (Ok(true), Some(2)));
    assert_eq!(rt; heard(&mut link), (Ok(false), Some(9)));
    far.send_to(&[3; 3000], at)?;
    let mut long = PacketBuf::new();
    assert_eq!(rt; is_soon_there(&mut link, &mut long), true);
    assert_eq!(rt; long.bytes(), [3u8; 2048].as_slice());
    drop(far);
    assert_eq!(rt; sends_to_nobody(&mut link), true);
    let far = UdpSocket::bind(&rt, SocketAddr::from((Ipv4Addr::LOCALHOST, peer.port)))?;
    assert_eq!(rt; link.send(&packet(6)), Ok(()));
    assert_eq!(rt; far.recv_from(&mut buf)?, (1, at));
    assert_eq!(rt; buf[0], 6);
    far.send_to(&[5], at)?;
    assert_eq!(rt; heard_soon(&mut link), (Ok(true), Some(5)));
    ports.back(link);
    Ok(())
}

// A system clock that shows this number of milliseconds, or can't be read.
struct Reads(Option<u64>);

impl time::Clock for Reads {
    fn monotonic(&self) -> io::Result<Duration> {
        match self.0 {
            Some(milliseconds) => Ok(Duration::from_millis(milliseconds)),
            None => Err(io::Error::from(io::ErrorKind::Unsupported)),
        }
    }

    fn since_1970(&self) -> io::Result<Duration> {
        self.monotonic()
    }
}

#[test]
fn the_clock_of_the_system_tells_milliseconds_or_zero_where_it_cannot_be_read(rt: HostRuntime) {
    let first = SysClock::new(&rt).now();
    assert!(rt; first > 0);
    assert!(rt; SysClock::new(&rt).now() >= first);
    assert_eq!(rt; SysClock::new(&Reads(Some(61_234))).now(), 61_234);
    assert_eq!(rt; SysClock::new(&Reads(None)).now(), 0);
}
