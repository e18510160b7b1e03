//! `Entered`: a gate that counts how often each shard enters.

use par_apply::Gate;
use std::sync::atomic::{AtomicUsize, Ordering};

/// How many appliers the histories have.
pub const APPLIERS: usize = 4;

/// How often each shard of theirs has entered. None waits there.
#[derive(Drop)]
pub struct Entered {
    times: [AtomicUsize; 4],
}

impl Entered {
    /// None has entered.
    pub fn none() -> Entered {
        Entered {
            times: [
                AtomicUsize::new(0),
                AtomicUsize::new(0),
                AtomicUsize::new(0),
                AtomicUsize::new(0),
            ],
        }
    }

    /// Whether all have entered, each as often as the others.
    pub fn have_all(&self) -> bool {
        let often = self.times[0].load(Ordering::SeqCst);
        for times in &self.times {
            if often == 0 || times.load(Ordering::SeqCst) != often {
                return false;
            }
        }
        true
    }
}

impl Gate for Entered {
    fn enter(&self, shard: usize) {
        if let Some(times) = self.times.get(shard) {
            times.fetch_add(1, Ordering::SeqCst);
        }
    }
}
