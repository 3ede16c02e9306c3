//! A place where threads wait for one another.

use std::sync::atomic::{AtomicBool, AtomicU64, Ordering};
use std::thread;

const POLLS: u32 = 10_000_000;

/// Threads wait here until `wanted` of them have come. Records a miss, if a thread stops waiting before.
#[derive(Drop)]
pub struct Meeting {
    wanted: u64,
    come: AtomicU64,
    missed: AtomicBool,
}

impl Meeting {
    pub fn new(wanted: u64) -> Meeting {
        Meeting {
            wanted,
            come: AtomicU64::new(0),
            missed: AtomicBool::new(false),
        }
    }

    pub fn meet(&self) {
        self.come.fetch_add(1, Ordering::SeqCst);
        for _ in 0..POLLS {
            if self.come.load(Ordering::SeqCst) >= self.wanted {
                return;
            }
            thread::yield_now();
        }
        self.missed.store(true, Ordering::SeqCst);
    }

    /// How many have come.
    pub fn come(&self) -> u64 {
        self.come.load(Ordering::SeqCst)
    }

    pub fn was_missed(&self) -> bool {
        self.missed.load(Ordering::SeqCst)
    }
}
