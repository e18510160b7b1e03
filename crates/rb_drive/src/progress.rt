//! `Progress`: how far a drive is. Its threads count, and any thread may read the counts meanwhile.

use std::alloc::{AllocError, Global};
use std::sync::atomic::{AtomicU64, Ordering};

/// How far a drive is, for a thread that shows it while the drive runs. The thread that reads the
/// input counts its lines, the sequencer's thread counts what it places, and each subscriber's
/// thread stores its cursor.
///
/// It has no lock, and only `new` allocates. It is for one drive. No count changes what a drive
/// does.
#[derive(Drop)]
pub struct Progress {
    read: AtomicU64,
    placed: AtomicU64,
    // how many subscribers have asked for a place
    places: AtomicU64,
    cursors: Vec<AtomicU64>,
}

/// What a `Progress` has counted.
#[derive(Clone, Copy, Debug, PartialEq, Eq)]
pub struct DriveCounts {
    /// The lines that are read.
    pub read: u64,
    /// The changesets that have a number.
    pub placed: u64,
    /// The least and the greatest cursor of the subscribers. Both are 0 if no cursor is counted.
    pub least: u64,
    pub greatest: u64,
}

impl Progress {
    /// For a drive with this number of subscribers, with cursor 0 for each. If the drive has more
    /// subscribers, the cursors of some are not counted.
    pub fn new(alloc: Global, subscribers: u64) -> Result<Progress, AllocError> {
        let mut cursors = Vec::new(alloc);
        for _ in 0..subscribers {
            cursors.push(AtomicU64::new(0))?;
        }
        Ok(Progress::of(cursors))
    }

    /// For a drive whose cursors are not counted. It does not allocate.
    pub fn without_cursors(alloc: Global) -> Progress {
        Progress::of(Vec::new(alloc))
    }

    fn of(cursors: Vec<AtomicU64>) -> Progress {
        Progress {
            read: AtomicU64::new(0),
            placed: AtomicU64::new(0),
            places: AtomicU64::new(0),
            cursors,
        }
    }

    /// What is counted so far. The threads go on meanwhile, so the counts may be of slightly
    /// different moments.
    pub fn counts(&self) -> DriveCounts {
        let mut least = u64::MAX;
        let mut greatest: u64 = 0;
        for cursor in &self.cursors {
            let cursor = cursor.load(Ordering::Relaxed);
            least = least.min(cursor);
            greatest = greatest.max(cursor);
        }
        DriveCounts {
            read: self.read.load(Ordering::Relaxed),
            // an entry can be accepted before its sequencer has counted it
            placed: self.placed.load(Ordering::Relaxed).max(greatest),
            least: least.min(greatest),
            greatest,
        }
    }

    /// This number of lines is read.
    pub fn set_read(&self, lines: u64) {
        self.read.store(lines, Ordering::Relaxed);
    }

    /// The entries up to this number are placed.
    pub fn set_placed(&self, last: u64) {
        self.placed.store(last, Ordering::Relaxed);
    }

    /// A place for the cursor of one more subscriber.
    pub fn take_place(&self) -> u64 {
        self.places.fetch_add(1, Ordering::Relaxed)
    }

    /// The cursor of the subscriber with this place. Does nothing if there is no such place.
    pub fn set_cursor(&self, place: u64, cursor: u64) {
        if let Some(own) = self.cursors.get(place as usize) {
            own.store(cursor, Ordering::Relaxed);
        }
    }
}
