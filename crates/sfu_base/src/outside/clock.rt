// The current moment (own rule). Contracts promise nothing about its value.
use std::sync::atomic::{AtomicU64, Ordering};

/// A clock in milliseconds. The clock can't fail, and no contract says which moments it returns.
pub trait Clock {
    /// The current moment, in milliseconds.
    fn now(&self) -> u64;
}

/// A clock for tests. Its first call returns the start moment. Each later call, from any thread, returns one step more than the call before it,
/// modulo 2^64.
#[derive(Drop)]
pub struct StepClock {
    moment: AtomicU64,
    step: u64,
}

impl StepClock {
    /// A clock whose first call returns `start`. Each later call returns `step` milliseconds more than the call before.
    pub fn new(start: u64, step: u64) -> Self {
        StepClock {
            moment: AtomicU64::new(start),
            step,
        }
    }
}

impl Clock for StepClock {
    fn now(&self) -> u64 {
        self.moment.fetch_add(self.step, Ordering::SeqCst)
    }
}
