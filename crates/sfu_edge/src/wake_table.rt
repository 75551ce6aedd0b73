// The table of links, from which a link finds the other links that it wakes. A packet that one link receives is sent by other links. Link A
// follows link B if B received the packet that A sent last. The followed link wakes its followers after it has received more packets. While it
// is busy, its followers sleep until the time by which it expects to have received more. A wrong or missing entry only costs time, because each
// sleep ends by itself.
use mio::Waker;
use std::alloc::{AllocError, Global};
use std::sync::OnceLock;
use std::sync::atomic::{AtomicU8, AtomicU64, Ordering};
use std::time::Duration;

/// The number of links that can be woken: those that are bound first. Links that are bound later can't be woken.
const LINKS: usize = 64;

/// The step between the delays of links, in microseconds. Links that end their sleep with different delays don't wait for the room's lock at the same
/// time.
const STEP: u64 = 40;

/// The number of different delays: link n is delayed by `n % STEPS * STEP` microseconds.
const STEPS: u64 = 4;

/// A number that no link has.
const NONE: u64 = u64::MAX;

// The states of a link: it runs, it sleeps until its waker is called, or another link has woken it since its last sleep.
const RUNS: u8 = 0;

const SLEEPS: u8 = 1;

const WOKEN: u8 = 2;

/// The data about one link, for use by the other links.
#[derive(Drop)]
struct Entry {
    waker: OnceLock<Waker>,
    state: AtomicU8,
    // the number of the link that this link follows
    follows: AtomicU64,
    // the tail of the last datagram that this link received, or 0
    received: AtomicU64,
    // the time by which this link expects to have received more, in microseconds of the clock; 0 if it isn't busy
    expected: AtomicU64,
}

impl Entry {
    fn new() -> Entry {
        Entry {
            waker: OnceLock::new(),
            state: AtomicU8::new(RUNS),
            follows: AtomicU64::new(NONE),
            received: AtomicU64::new(0),
            expected: AtomicU64::new(0),
        }
    }

    // Ends the link's sleep, or prevents its next sleep.
    fn wake(&self) {
        if self.state.swap(WOKEN, Ordering::SeqCst) == SLEEPS {
            if let Some(waker) = self.waker.get() {
                let _ = waker.wake();
            }
        }
    }
}

/// A table that is shared by links that wake each other. Links are numbered from 0 in the order in which they are bound.
#[derive(Drop)]
pub struct WakeTable {
    entries: Vec<Entry>,
}

impl WakeTable {
    /// A table for 64 links, none of which follows another.
    pub fn new(alloc: Global) -> Result<WakeTable, AllocError> {
        let mut entries = Vec::with_capacity(alloc, LINKS)?;
        for _ in 0..LINKS {
            entries.push(Entry::new())?;
        }
        Ok(WakeTable { entries })
    }

    /// Makes this waker end the sleeps of link `number`.
    pub fn bind(&self, number: u64, waker: Waker) {
        if let Some(entry) = self.entries.get(number as usize) {
            let _ = entry.waker.try_set(waker);
        }
    }

    /// Wakes the links that follow link `number`. Link `number` has just received datagrams, and `tail` is `tail_of` the last one.
    pub fn wake_followers(&self, number: u64, tail: u64) {
        let Some(entry) = self.entries.get(number as usize) else {
            return;
        };
        entry.received.store(tail, Ordering::SeqCst);
        for other in self.entries.iter() {
            if other.follows.load(Ordering::SeqCst) == number {
                other.wake();
            }
        }
    }

    /// Notes that link `number` is busy, and expects to have received more datagrams by the clock time `moment`. If `moment` is zero, the link isn't
    /// busy any more.
    pub fn expect(&self, number: u64, moment: Duration) {
        if let Some(entry) = self.entries.get(number as usize) {
            let micros = u64::try_from(moment.as_micros()).unwrap_or(0);
            entry.expected.store(micros, Ordering::SeqCst);
        }
    }

    /// The clock time at which link `number` should end its sleep, or `None` if it follows no busy link. This is the time by which the busy link
    /// expects to have received more datagrams, plus a delay of 0 to 120 microseconds that depends on `number`.
    pub fn next_turn(&self, number: u64) -> Option<Duration> {
        let followed = self
            .entries
            .get(number as usize)?
            .follows
            .load(Ordering::SeqCst);
        let expected = self
            .entries
            .get(followed as usize)?
            .expected
            .load(Ordering::SeqCst);
        if expected == 0 {
            return None;
        }
        Some(Duration::from_micros(expected.saturating_add(number % STEPS * STEP)))
    }

    /// Another link received the packet that link `number` sent last. Makes link `number` follow that link. `tail` is `tail_of` the packet.
    pub fn follow(&self, number: u64, tail: u64) {
        let Some(entry) = self.entries.get(number as usize) else {
            return;
        };
        for (other, its) in self.entries.iter().enumerate() {
            let other = other as u64;
            if tail != 0 && its.received.load(Ordering::SeqCst) == tail && other != number {
                entry.follows.store(other, Ordering::SeqCst);
            }
        }
    }

    /// Notes that link `number` is about to sleep. Returns true if no link has woken it since the last `end_sleep`.
    pub fn begin_sleep(&self, number: u64) -> bool {
        match self.entries.get(number as usize) {
            Some(entry) => entry.state.swap(SLEEPS, Ordering::SeqCst) != WOKEN,
            None => true,
        }
    }

    /// Notes that link `number` runs again.
    pub fn end_sleep(&self, number: u64) {
        if let Some(entry) = self.entries.get(number as usize) {
            entry.state.store(RUNS, Ordering::SeqCst);
        }
    }
}

/// The last eight bytes of a datagram as a number, or 0 if the datagram has fewer than eight bytes. A forwarded packet keeps its payload, so it has
/// the same tail when it is received and when it is sent.
pub fn tail_of(bytes: &[u8]) -> u64 {
    match bytes.split_last_chunk::<8>() {
        Some((_, last)) => u64::from_le_bytes(*last),
        None => 0,
    }
}
