// Links over UDP sockets, a part of the trusted edge. Their contracts don't say which datagrams arrive.
ghost use Rattle.std.specs.Prelude.{◌≡◌, ◌<◌, ◌≤◌, None, IfOk, IfSome, length};

use crate::receive_buffer::enlarge;
use crate::trouble::{Trouble, trouble_of};
use crate::wake_table::{WakeTable, tail_of};
use mio::unix::SourceFd;
use mio::{Events, Interest, Poll, Token, Waker};
use sfu_base::{Address, Failed, Link, PacketBuf, Ports};
use std::alloc::Global;
use std::net::{Ipv4Addr, Net, SocketAddr, SocketAddrV4, UdpSocket};
use std::os::fd::AsRawFd;
use std::time::Duration;
use std::{io, thread, time};

/// The longest sleep, in milliseconds, of a receive that a datagram or another link can wake. With the system's delay it stays below 5 milliseconds.
const LONGEST_SLEEP: u64 = 4;

/// The sleep of a quiet link's receive, in microseconds. With the system's delay it stays below 5 milliseconds. Nothing ends this sleep early, so it
/// costs less than a sleep that a datagram or another link can end.
const QUIET_SLEEP: u64 = 4500;

/// A link is quiet after this number of receives in a row that returned no datagram, if it sent nothing in between. These receives take some 2
/// seconds in all.
const QUIET_AFTER: u32 = 500;

/// The sleep of a busy link's receive, in microseconds. Datagrams that arrive during the sleep are forwarded together. Nothing ends this sleep early.
const BUSY_SLEEP: u64 = 700;

/// A link is busy if it found its socket empty twice within this number of microseconds and received a datagram in between.
const BUSY_WITHIN: u64 = 950;

/// The longest pause, in microseconds, of a link that follows a busy link. A longer pause would come from an error of the clock.
const LONGEST_PAUSE: u64 = 1500;

/// When this number of datagrams has been received in a row, the followers are woken even if the socket isn't empty. The same applies to each
/// multiple of the number.
const ROW: u32 = 32;

/// If a link has sent this number of packets or more since its socket was last found empty, further packets may wait to be sent. So the next receive
/// that would otherwise sleep doesn't sleep. A session sends at most 32 packets between two receives.
const MUCH: u32 = 16;

/// The wait between two tries of a send, in milliseconds, while the system's buffer is full.
const SEND_WAIT: u64 = 1;

/// One look for the peer's next datagram skips at most this number of datagrams from other addresses.
const OTHERS_LIMIT: u32 = 64;

/// A send is tried at most this many times while the system's buffer is full.
const SEND_TRIES: u32 = 100;

/// The largest number of bytes that are received of one datagram. Further bytes are cut off.
const DATAGRAM_LIMIT: usize = 2048;

/// A link over a UDP socket. It receives datagrams from its peer only: the socket is connected to the peer, so the system drops datagrams from
/// other addresses. If there is no route to the peer yet, each send tries again to connect. Loss in the network isn't a fault.
#[derive(Drop)]
pub struct UdpLink<'a, R> {
    system: &'a R,
    socket: UdpSocket,
    peer: SocketAddr,
    is_connected: bool,
    // waits for the socket and the waker; `events` says what ended a sleep, and isn't read
    poll: Poll,
    events: Events<Global>,
    table: &'a WakeTable,
    // the link's number in the table: how many links its ports had bound before
    name: u64,
    // the number of receives in a row without a datagram and without a send between them
    idle: u32,
    // the number of receives in a row that returned a datagram, and the last datagram's tail
    received: u32,
    received_tail: u64,
    // the number of packets sent since the socket was last empty, and the last packet's tail
    sent: u32,
    sent_tail: u64,
    is_busy: bool,
    // when the socket was last found empty after a datagram
    empty_at: Duration,
    datagram: [u8; DATAGRAM_LIMIT],
    faults: u64,
}

impl<'a, R: Net + time::Clock> UdpLink<'a, R> {
    // Binds a socket to the local address, and returns a link to this peer with this name and no faults yet. Returns the system's error, for
    // example if the address is in use.
    fn bind(
        system: &'a R,
        alloc: Global,
        table: &'a WakeTable,
        name: u64,
        local: Address,
        peer: Address,
    ) -> io::Result<Self>
        ensures faults { IfOk result (λ link. ⟦<UdpLink<'a, R> as Link>⟧.faults link ≡ 0) }
        ensures name { IfOk result (λ link. ⟦<UdpLink<'a, R> as Link>⟧.name link ≡ name) }
    {
        let socket = UdpSocket::bind(system, socket_address(local))?;
        socket.set_nonblocking(true)?;
        enlarge(&socket);
        let peer = socket_address(peer);
        let is_connected = connects(&socket, peer)?;
        let poll = Poll::new(system)?;
        let events = Events::with_capacity(alloc, 2)?;
        let fd = socket.as_raw_fd();
        poll.registry()
            .register(&mut SourceFd(&fd), Token(0), Interest::READABLE)?;
        table.bind(name, Waker::new(poll.registry(), Token(1))?);
        Ok(UdpLink {
            system,
            socket,
            peer,
            is_connected,
            poll,
            events,
            table,
            name,
            idle: 0,
            received: 0,
            received_tail: 0,
            sent: 0,
            sent_tail: 0,
            is_busy: false,
            empty_at: Duration::ZERO,
            datagram: [0; DATAGRAM_LIMIT],
            faults: 0,
        })
    }

    // Waits for the peer's next datagram, puts it into `datagram` and returns its length. Returns `None` if no datagram came by the end of the
    // sleep. If the last receive returned a datagram, this call looks for the next one before it sleeps.
    fn next(&mut self) -> io::Result<Option<usize>>
        ensures size { IfOk result (λ found. IfSome found (λ count. count ≤ 2048)) }
        ensures name { self.new.name ≡ self.old.name }
        ensures faults { self.new.faults ≡ self.old.faults }
    {
        if self.received > 0 {
            if let Some(count) = self.look()? {
                return Ok(Some(count));
            }
            self.finish_batch();
        }
        if !self.finish_turn() {
            self.sleep()?;
        }
        let found = self.look()?;
        if found.is_none() {
            self.idle = self.idle.saturating_add(1);
            self.is_busy = false;
        }
        Ok(found)
    }

    // Returns the length of the peer's next datagram if it is already there.
    fn look(&mut self) -> io::Result<Option<usize>>
        ensures size { IfOk result (λ found. IfSome found (λ count. count ≤ 2048)) }
        ensures name { self.new.name ≡ self.old.name }
        ensures faults { self.new.faults ≡ self.old.faults }
    {
        let found = take(&self.socket, self.peer, &mut self.datagram)?;
        if let Some(count) = found {
            self.idle = 0;
            self.received = self.received.saturating_add(1);
            self.received_tail = tail_of(&self.datagram[..count]);
            if self.received % ROW == 0 {
                self.table.wake_followers(self.name, self.received_tail);
            }
        }
        Ok(found)
    }

    // Ends a batch of datagrams: the socket is empty after a datagram, so the links that follow this one may forward the batch.
    fn finish_batch(&mut self)
        ensures name { self.new.name ≡ self.old.name }
        ensures faults { self.new.faults ≡ self.old.faults }
    {
        self.received = 0;
        self.table.wake_followers(self.name, self.received_tail);
        let moment = self.now();
        let took = moment.saturating_sub(self.empty_at);
        self.is_busy = took < Duration::from_micros(BUSY_WITHIN);
        self.empty_at = moment;
        let expected = if self.is_busy {
            moment.saturating_add(took)
        } else {
            Duration::ZERO
        };
        self.table.expect(self.name, expected);
    }

    // The time of the clock, or zero if the clock can't be read.
    fn now(&self) -> Duration {
        self.system.monotonic().unwrap_or(Duration::ZERO)
    }

    // How long this link sleeps if it follows a busy link. What the busy link receives during the sleep is forwarded together. `None` if this
    // link follows no busy link, or if that link should have received by now.
    fn pause(&self) -> Option<Duration> {
        let pause = self.table.next_turn(self.name)?.checked_sub(self.now())?;
        (pause < Duration::from_micros(LONGEST_PAUSE)).then_some(pause)
    }

    // Makes this link follow the link that received the last packet sent by this link. Returns whether this link sent at least `MUCH` packets,
    // so that more may wait to be sent.
    fn finish_turn(&mut self) -> bool
        ensures name { self.new.name ≡ self.old.name }
        ensures faults { self.new.faults ≡ self.old.faults }
    {
        let sent = self.sent;
        if sent > 0 {
            self.table.follow(self.name, self.sent_tail);
        }
        self.sent = 0;
        sent >= MUCH
    }

    // Sleeps for a time, or until a datagram comes or another link wakes this link.
    fn sleep(&mut self) -> io::Result<()>
        ensures name { self.new.name ≡ self.old.name }
        ensures faults { self.new.faults ≡ self.old.faults }
    {
        if self.is_busy {
            thread::sleep(self.system, Duration::from_micros(BUSY_SLEEP));
        } else if let Some(pause) = self.pause() {
            thread::sleep(self.system, pause);
        } else if self.idle >= QUIET_AFTER {
            thread::sleep(self.system, Duration::from_micros(QUIET_SLEEP));
        } else {
            if self.table.begin_sleep(self.name) {
                self.poll.poll(&mut self.events, Some(Duration::from_millis(LONGEST_SLEEP)))?;
            }
            self.table.end_sleep(self.name);
        }
        Ok(())
    }

    // Passes the datagram to the system. The system may report an error of an earlier datagram instead of sending this one, so this one is
    // tried once more. If that fails too, or if the system's buffer stays full, the datagram is lost.
    fn post(&mut self, bytes: &[u8]) -> io::Result<()>
        ensures name { self.new.name ≡ self.old.name }
        ensures faults { self.new.faults ≡ self.old.faults }
    {
        self.idle = 0;
        self.sent = self.sent.saturating_add(1);
        self.sent_tail = tail_of(bytes);
        if !self.is_connected {
            self.is_connected = connects(&self.socket, self.peer)?;
        }
        let mut is_reported = false;
        for _ in 0..SEND_TRIES {
            match self.hand_over(bytes) {
                Ok(_) => return Ok(()),
                Err(error) => match trouble_of(&error) {
                    Trouble::Interrupted => {}
                    Trouble::Waits => {
                        thread::sleep(self.system, Duration::from_millis(SEND_WAIT))
                    }
                    Trouble::Passes if is_reported => return Ok(()),
                    Trouble::Passes => is_reported = true,
                    Trouble::Lasts => return Err(error),
                },
            }
        }
        Ok(())
    }

    // Tries once to send the bytes as a datagram.
    fn hand_over(&self, bytes: &[u8]) -> io::Result<usize> {
        if self.is_connected {
            self.socket.send(bytes)
        } else {
            self.socket.send_to(bytes, self.peer)
        }
    }
}

// Connects the socket to the peer. Returns whether it is connected. Without a route to the peer, the socket isn't connected.
fn connects(socket: &UdpSocket, peer: SocketAddr) -> io::Result<bool> {
    match socket.connect(peer) {
        Ok(()) => Ok(true),
        Err(error) => match trouble_of(&error) {
            Trouble::Lasts => Err(error),
            _ => Ok(false),
        },
    }
}

// Receives the peer's next datagram into the start of `buffer`, and returns its length, or `None` if no datagram is there now. Skips datagrams
// from other addresses that arrived before the socket was connected, and skips errors of earlier datagrams.
fn take(socket: &UdpSocket, peer: SocketAddr, buffer: &mut [u8]) -> io::Result<Option<usize>>
    ensures { IfOk result (λ found. IfSome found (λ count. count ≤ length buffer.new)) }
{
    for _ in 0..OTHERS_LIMIT {
        match socket.recv_from(buffer) {
            Ok((count, sender)) => {
                if sender == peer {
                    return Ok(Some(count));
                }
            }
            Err(error) => match trouble_of(&error) {
                Trouble::Waits => return Ok(None),
                Trouble::Interrupted | Trouble::Passes => {}
                Trouble::Lasts => return Err(error),
            },
        }
    }
    Ok(None)
}

fn socket_address(address: Address) -> SocketAddr {
    SocketAddr::V4(SocketAddrV4::new(Ipv4Addr::from_bits(address.ip), address.port))
}

impl<'a, R: Net + time::Clock> Link for UdpLink<'a, R> {
    ghost traffic = { λ _. None };

    ghost name = { λ s. s.name };

    ghost faults = { λ s. s.faults };

    /// If there is no datagram from the peer, this call sleeps for at most 5 milliseconds. A datagram or another link may end the sleep earlier. If
    /// the last receive returned no datagram, this call sleeps before it looks for one.
    fn receive(&mut self, buf: &mut PacketBuf) -> Result<bool, Failed> {
        match self.next() {
            Ok(Some(count)) => {
                buf.fill(&self.datagram[..count]);
                Ok(true)
            }
            Ok(None) => Ok(false),
            Err(_) => {
                self.faults = self.faults.saturating_add(1);
                Err(Failed)
            }
        }
    }

    /// If the system's buffer is full, this call waits for up to about 100 milliseconds. The datagram is lost if the buffer stays full, or if the
    /// network doesn't accept it.
    fn send(&mut self, packet: &PacketBuf) -> Result<(), Failed> {
        match self.post(packet.bytes()) {
            Ok(()) => Ok(()),
            Err(_) => {
                self.faults = self.faults.saturating_add(1);
                Err(Failed)
            }
        }
    }
}

/// Binds links over UDP sockets. `back` closes the link that it takes.
#[derive(Drop)]
pub struct UdpPorts<'a, R> {
    system: &'a R,
    alloc: Global,
    table: &'a WakeTable,
    bound: u64,
    back_count: u64,
    faults: u64,
    ghost within: { back_count ≤ bound },
}

impl<'a, R: Net + time::Clock + Sync> UdpPorts<'a, R> {
    /// Ports before the first bind. `system` opens the sockets, and its clock is used for waiting. The links wake each other through `table`. No
    /// other ports may use the same table. Each link takes three file descriptors.
    pub fn new(system: &'a R, alloc: Global, table: &'a WakeTable) -> Self
        ensures bound { ⟦<UdpPorts<'a, R> as Ports>⟧.bound result ≡ 0 }
        ensures back_count { ⟦<UdpPorts<'a, R> as Ports>⟧.back_count result ≡ 0 }
        ensures faults { ⟦<UdpPorts<'a, R> as Ports>⟧.faults result ≡ 0 }
    {
        UdpPorts {
            system,
            alloc,
            table,
            bound: 0,
            back_count: 0,
            faults: 0,
        }
    }
}

impl<'a, R: Net + time::Clock + Sync> Ports for UdpPorts<'a, R> {
    type Port = UdpLink<'a, R>;

    ghost returned = { λ _. None };

    ghost bound = { λ s. s.bound };

    ghost back_count = { λ s. s.back_count };

    ghost faults = { λ s. s.faults };

    fn bind(&mut self, local: Address, peer: Address) -> Result<UdpLink<'a, R>, Failed> {
        match UdpLink::bind(self.system, self.alloc, self.table, self.bound, local, peer) {
            Ok(link) => {
                self.bound += 1;
                Ok(link)
            }
            Err(_) => {
                self.faults = self.faults.saturating_add(1);
                Err(Failed)
            }
        }
    }

    fn back(&mut self, port: UdpLink<'a, R>) {
        self.back_count += 1;
        if port.faults > 0 {
            self.faults = self.faults.saturating_add(1);
        }
    }

    fn lemma_were_bound(&self) {
        let _ = &self.bound;
    }
}
