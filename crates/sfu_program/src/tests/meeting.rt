// Three sessions that run at the same time.
ghost use Rattle.std.specs.Prelude.{◌≤◌, None};

use super::serve::{CONFIGURATION, served};
use sfu_base::{Address, Failed, Link, PacketBuf, Ports};
use std::sync::atomic::{AtomicBool, Ordering};
use std::test::Fail;
use std::thread;
use std::time::{Clock, Duration};

// The greatest number of times that a link checks for the other links, with a millisecond between two checks.
const MOST_LOOKS: u32 = 10_000;

// A flag of each link.
type Flags = [AtomicBool; 3];

fn are_up(flags: &Flags) -> bool {
    for flag in flags {
        if !flag.load(Ordering::SeqCst) {
            return false;
        }
    }
    true
}

// A link whose first receive sets its flag and waits until the other links' flags are set. It receives no datagram.
#[derive(Drop)]
struct MeetingLink<'a, R> {
    clock: &'a R,
    flags: &'a Flags,
    place: usize,
    has_met: bool,
    name: u64,
    faults: u64,
}

impl<'a, R: Clock> MeetingLink<'a, R> {
    // Sets the flag and waits for the others; returns whether all were set.
    fn meet(&self) -> bool {
        let flags = self.flags;
        if let Some(own) = flags.get(self.place) {
            own.store(true, Ordering::SeqCst);
        }
        for _ in 0..MOST_LOOKS {
            if are_up(flags) {
                return true;
            }
            thread::sleep(self.clock, Duration::from_millis(1));
        }
        false
    }
}

impl<'a, R: Clock> Link for MeetingLink<'a, R> {
    ghost traffic = { λ _. None };

    ghost name = { λ s. s.name };

    ghost faults = { λ s. s.faults };

    fn receive(&mut self, _buf: &mut PacketBuf) -> Result<bool, Failed> {
        let waits = !self.has_met;
        self.has_met = true;
        if waits && !self.meet() {
            self.faults = self.faults.saturating_add(1);
            return Err(Failed);
        }
        Ok(false)
    }

    fn send(&mut self, _packet: &PacketBuf) -> Result<(), Failed> {
        Ok(())
    }
}

// Returns whether an address is 127.0.0.1 with this port.
fn is_local(address: Address, port: u64) -> bool {
    address.ip == 0x7f00_0001 && u64::from(address.port) == port
}

// Ports of links that meet. The first is bound at 127.0.0.1:5000 for 127.0.0.1:6000, each later one at the next port numbers; others fail.
#[derive(Drop)]
struct MeetingPorts<'a, R> {
    clock: &'a R,
    flags: &'a Flags,
    place: usize,
    bound: u64,
    back_count: u64,
    faults: u64,
    ghost within: { back_count ≤ bound },
}

impl<'a, R: Clock + Sync> Ports for MeetingPorts<'a, R> {
    type Port = MeetingLink<'a, R>;

    ghost returned = { λ _. None };

    ghost bound = { λ s. s.bound };

    ghost back_count = { λ s. s.back_count };

    ghost faults = { λ s. s.faults };

    fn bind(&mut self, local: Address, peer: Address) -> Result<MeetingLink<'a, R>, Failed> {
        if !is_local(local, 5000 + self.bound) || !is_local(peer, 6000 + self.bound) {
            self.faults = self.faults.saturating_add(1);
            return Err(Failed);
        }
        let (place, name) = (self.place, self.bound);
        self.place = place.saturating_add(1);
        self.bound += 1;
        Ok(MeetingLink {
            clock: self.clock,
            flags: self.flags,
            place,
            has_met: false,
            name,
            faults: 0,
        })
    }

    fn back(&mut self, port: MeetingLink<'a, R>) {
        self.back_count += 1;
        if port.faults > 0 {
            self.faults = self.faults.saturating_add(1);
        }
    }

    fn lemma_were_bound(&self) {
        let _ = &self.bound;
    }
}

#[test]
fn three_sessions_are_at_work_at_the_same_time(rt: HostRuntime) -> Result<(), Fail> {
    let alloc = rt.alloc();
    let flags = [
        AtomicBool::new(false),
        AtomicBool::new(false),
        AtomicBool::new(false),
    ];
    let mut ports = MeetingPorts {
        clock: &rt,
        flags: &flags,
        place: 0,
        bound: 0,
        back_count: 0,
        faults: 0,
    };
    let configuration = format!(in alloc;
        "{CONFIGURATION}port 127.0.0.1:5002 127.0.0.1:6002 control\n"
    )?;
    let (status, written) = served(&rt, alloc, "1", configuration.as_bytes(), &mut ports)?;
    assert_eq!(rt;
        written.as_slice(),
        b"ok\nok\nsession 1 all\nsession 2 all\nsession 3 all\n".as_slice()
    );
    assert_eq!(rt; status, 0);
    assert!(rt; are_up(&flags), "a session never began");
    Ok(())
}
