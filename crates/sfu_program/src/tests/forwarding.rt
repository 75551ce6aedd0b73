// A packet that arrives at a publisher's port is forwarded from a subscriber's port.
ghost use Rattle.std.specs.Prelude.{◌≤◌, IfOk, None};
ghost use Rattle.sfu_base.specs.Links.{IsFresh};

use super::serve::{ALL, CONFIGURATION, WITH_RTX, link, served};
use sfu_base::{Address, Failed, Link, MemLink, PacketBuf, Ports};
use std::alloc::{AllocError, Global};
use std::sync::atomic::{AtomicBool, Ordering};
use std::test::Fail;
use std::thread;
use std::time::{Clock, Duration};

// The greatest number of times that the subscriber's link checks whether the packet was processed, with a millisecond between two checks.
const MOST_LOOKS: u32 = 10_000;

// A packet with the publisher's sequence number 1000 (RFC 3550, section 5.1), and the subscriber's first packet, with the number 7 of its line.
const COMES: &[u8] = b"\x80\x60\x03\xe8\0\0\0\0\x11\x11\x11\x11\xaa\xbb";

const GOES: &[u8] = b"\x80\x60\0\x07\0\0\0\0\x22\x22\x22\x22\xaa\xbb";

// The publisher's link receives one packet, the subscriber's link none.
fn new_link(alloc: Global, is_publishers: bool) -> Result<MemLink, AllocError>
    ensures { IfOk result IsFresh }
{
    if is_publishers {
        link(alloc, &[COMES], &[], &[])
    } else {
        link(alloc, &[], &[], &[])
    }
}

// A link of the publisher, or of the subscriber. The publisher's second receive shows that the
// packet of its first receive was processed. The subscriber's first receive waits for this.
#[derive(Drop)]
struct GatedLink<'a, R> {
    clock: &'a R,
    was_brought: &'a AtomicBool,
    is_publishers: bool,
    is_first: bool,
    name: u64,
    inner: MemLink,
}

impl<'a, R: Clock> GatedLink<'a, R> {
    fn wait(&self) {
        for _ in 0..MOST_LOOKS {
            if self.was_brought.load(Ordering::SeqCst) {
                return;
            }
            thread::sleep(self.clock, Duration::from_millis(1));
        }
    }
}

impl<'a, R: Clock> Link for GatedLink<'a, R> {
    ghost traffic = { λ s. ⟦<MemLink as Link>⟧.traffic s.inner };

    ghost name = { λ s. s.name };

    ghost faults = { λ s. ⟦<MemLink as Link>⟧.faults s.inner };

    fn receive(&mut self, buf: &mut PacketBuf) -> Result<bool, Failed> {
        if self.is_publishers && !self.is_first {
            self.was_brought.store(true, Ordering::SeqCst);
        }
        if !self.is_publishers && self.is_first {
            self.wait();
        }
        self.is_first = false;
        self.inner.receive(buf)
    }

    fn send(&mut self, packet: &PacketBuf) -> Result<(), Failed> {
        self.inner.send(packet)
    }
}

// The port that is bound first is the publisher's; any other port is the subscriber's. The released ports are kept.
#[derive(Drop)]
struct GatedPorts<'a, R> {
    alloc: Global,
    clock: &'a R,
    was_brought: &'a AtomicBool,
    kept: Vec<GatedLink<'a, R>>,
    bound: u64,
    back_count: u64,
    faults: u64,
    ghost within: { back_count ≤ bound },
}

impl<'a, R: Clock + Sync> Ports for GatedPorts<'a, R> {
    type Port = GatedLink<'a, R>;

    ghost returned = { λ _. None };

    ghost bound = { λ s. s.bound };

    ghost back_count = { λ s. s.back_count };

    ghost faults = { λ s. s.faults };

    fn bind(&mut self, _local: Address, _peer: Address) -> Result<GatedLink<'a, R>, Failed> {
        let is_publishers = self.bound == 0;
        let Ok(inner) = new_link(self.alloc, is_publishers) else {
            self.faults = self.faults.saturating_add(1);
            return Err(Failed);
        };
        let name = self.bound;
        self.bound += 1;
        Ok(GatedLink {
            clock: self.clock,
            was_brought: self.was_brought,
            is_publishers,
            is_first: true,
            name,
            inner,
        })
    }

    fn back(&mut self, port: GatedLink<'a, R>) {
        self.back_count += 1;
        if port.inner.faults() > 0 {
            self.faults = self.faults.saturating_add(1);
        }
        let _ = self.kept.push(port);
    }

    fn lemma_were_bound(&self) {
        let _ = &self.bound;
    }
}

#[test]
fn a_packet_of_a_publishers_port_goes_out_at_a_subscribers(rt: HostRuntime) -> Result<(), Fail> {
    let alloc = rt.alloc();
    for configuration in [CONFIGURATION, WITH_RTX] {
        let was_brought = AtomicBool::new(false);
        let mut ports = GatedPorts {
            alloc,
            clock: &rt,
            was_brought: &was_brought,
            kept: Vec::new(alloc),
            bound: 0,
            back_count: 0,
            faults: 0,
        };
        let (status, written) = served(&rt, alloc, "2", configuration.as_bytes(), &mut ports)?;
        assert_eq!(rt; written.as_slice(), ALL.as_bytes());
        assert_eq!(rt; status, 0);
        assert_eq!(rt; ports.kept.len(), 2);
        let sent = ports.kept[1].inner.sent();
        assert_eq!(rt; sent.len(), 1);
        assert_eq!(rt; sent[0].bytes(), GOES);
    }
    Ok(())
}
