//! What drivers look at with no lock held: whether those that wait are called, and whose turn it is to take a replica.
//!
//! Nothing that a run does hangs on it, only how long that takes: who looks in vain goes on all the same.
use std::sync::atomic::Ordering::Relaxed;
use std::sync::atomic::{AtomicU32, AtomicU64};
use std::{hint, thread};

/// How often a driver that waits looks whether it is called before it sleeps: several times as long as a sleeper takes to wake, so
/// that one who slept, and comes late, doesn't make the others sleep.
const LOOKS: u32 = 160;

/// How often a driver looks whether the replicas before its own are taken before it takes what comes next.
const PATIENCE: u32 = 120;

/// Nobody waits for a turn.
const NO_ORDER: u32 = u32::MAX;

/// What drivers look at.
#[derive(Drop)]
pub struct Lookout {
    /// How often those that wait were called.
    calls: AtomicU64,
    /// How many of them were called one by one, and did not hear it yet.
    called: AtomicU32,
    /// Which replica comes next, behind a call in order.
    next: AtomicU32,
    /// How many drivers will become spare yet. Until there is none, nobody looks out.
    surplus: AtomicU32,
}

impl Lookout {
    /// Nobody was called yet, and so many drivers will become spare.
    pub fn new(surplus: u32) -> Lookout {
        Lookout {
            calls: AtomicU64::new(0),
            called: AtomicU32::new(0),
            next: AtomicU32::new(NO_ORDER),
            surplus: AtomicU32::new(surplus),
        }
    }

    /// Calls those that wait, for whatever comes next.
    pub fn call(&self) {
        self.next.store(NO_ORDER, Relaxed);
        self.called.store(0, Relaxed);
        self.calls.fetch_add(1, Relaxed);
    }

    /// Calls one of them.
    pub fn call_one(&self) {
        self.next.store(NO_ORDER, Relaxed);
        self.called.fetch_add(1, Relaxed);
    }

    /// How many were called one by one, and did not hear it yet.
    pub fn called(&self) -> u32 {
        self.called.load(Relaxed)
    }

    /// Calls those that wait, behind a vote: each for the replica that it had.
    pub fn call_in_order(&self) {
        self.next.store(0, Relaxed);
        self.called.store(0, Relaxed);
        self.calls.fetch_add(1, Relaxed);
    }

    /// So many drivers are to become spare yet.
    pub fn expect_spares(&self, surplus: u32) {
        self.surplus.store(surplus, Relaxed);
    }

    /// Looks for a while whether those that wait are called, so that a short wait is no sleep.
    pub fn is_called(&self) -> bool {
        if self.surplus.load(Relaxed) > 0 {
            return false;
        }
        let calls = self.calls.load(Relaxed);
        for _ in 0..LOOKS {
            if self.calls.load(Relaxed) != calls || self.hears_one() {
                return true;
            }
            thread::yield_now();
        }
        false
    }

    // Whether one is called, and by this no more.
    fn hears_one(&self) -> bool {
        let called = self.called.load(Relaxed);
        called > 0
            && self
                .called
                .compare_exchange(called, called - 1, Relaxed, Relaxed)
                .is_ok()
    }

    /// Waits a moment for those that had the replicas before this one.
    pub fn await_turn(&self, replica: u32) {
        for _ in 0..PATIENCE {
            if self.next.load(Relaxed) >= replica {
                return;
            }
            hint::spin_loop();
        }
    }

    /// A driver that had no lease took this replica, or found that it can't be taken.
    pub fn took(&self, replica: u32) {
        if self.next.load(Relaxed) == replica {
            self.next.store(replica.saturating_add(1), Relaxed);
        }
    }
}
