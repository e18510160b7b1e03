//! What the threads of a drive tell one another beside the broker: that all loops end, whether
//! because the durable store failed, how many publishers still send, how far the drive is, and
//! bells that end a wait.

use crate::progress::Progress;
use std::sync::Wait;
use std::sync::atomic::{AtomicBool, AtomicU64, Ordering};
use std::thread;
use std::time::Duration;

// how many turns in a row a loop that finds nothing gives away before it sleeps
const TURNS: u64 = 10;

// A sleeper looks again after this time even if no bell rings. By the order in which loops look and
// wait no ring is lost, so this is only a guard.
fn longest() -> Duration {
    Duration::from_millis(1_000)
}

/// Ends waits. It counts its rings: a thread that reads the count, looks for something, finds
/// nothing and then waits for more rings than it read, misses none that came in between.
#[derive(Drop)]
pub struct Bell {
    rings: AtomicU64,
    sleepers: AtomicU64,
}

impl Bell {
    fn new() -> Bell {
        Bell {
            rings: AtomicU64::new(0),
            sleepers: AtomicU64::new(0),
        }
    }

    /// How often it rang. Read it before you look for something.
    pub fn rings(&self) -> u64 {
        self.rings.load(Ordering::SeqCst)
    }

    /// Ends all waits.
    pub fn ring(&self) {
        self.rings.fetch_add(1, Ordering::SeqCst);
        if self.sleepers.load(Ordering::SeqCst) != 0 {
            self.rings.wake_all();
        }
    }

    /// Waits for a ring after these. So many looks before this one have found nothing.
    pub fn wait<R: Wait>(&self, rt: &R, seen: u64, looks: u64) {
        if looks < TURNS {
            thread::yield_now();
            return;
        }
        self.sleepers.fetch_add(1, Ordering::SeqCst);
        self.rings
            .park_timeout(rt, (seen & 0xffff_ffff) as u32, longest());
        self.sleepers.fetch_sub(1, Ordering::SeqCst);
    }
}

/// What the threads of a drive share besides the broker. A thread that changes something rings the
/// bell afterwards.
#[derive(Drop)]
pub struct Signs<'a> {
    stopped: AtomicBool,
    store_failed: AtomicBool,
    sending: AtomicU64,
    /// Something was sent, or a publisher has ended.
    pub sent: Bell,
    /// Something was pulled.
    pub pulled: Bell,
    /// Something was placed, or the sequence was closed.
    pub placed: Bell,
    /// What the threads count.
    pub progress: &'a Progress,
}

impl<'a> Signs<'a> {
    /// For so many publishers.
    pub fn new(publishers: u64, progress: &'a Progress) -> Signs<'a> {
        Signs {
            stopped: AtomicBool::new(false),
            store_failed: AtomicBool::new(false),
            sending: AtomicU64::new(publishers),
            sent: Bell::new(),
            pulled: Bell::new(),
            placed: Bell::new(),
            progress,
        }
    }

    /// Ends all loops.
    pub fn stop(&self) {
        self.stopped.store(true, Ordering::SeqCst);
        self.sent.ring();
        self.pulled.ring();
        self.placed.ring();
    }

    /// Whether all loops end.
    pub fn is_stopped(&self) -> bool {
        self.stopped.load(Ordering::SeqCst)
    }

    /// Ends all loops, since the durable store failed.
    pub fn fail_store(&self) {
        self.store_failed.store(true, Ordering::SeqCst);
        self.stop();
    }

    /// Whether the durable store failed.
    pub fn has_store_failed(&self) -> bool {
        self.store_failed.load(Ordering::SeqCst)
    }

    /// One publisher less sends.
    pub fn end_sending(&self) {
        self.sending.fetch_sub(1, Ordering::SeqCst);
        self.sent.ring();
    }

    /// Whether all publishers have ended.
    pub fn all_sent(&self) -> bool {
        self.sending.load(Ordering::SeqCst) == 0
    }
}
