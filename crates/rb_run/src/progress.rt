//! Shows how far a drive is, once a second.

use crate::screen::Screen;
use rb_drive::{DriveCounts, Progress};
use std::alloc::{AllocError, Global};
use std::sync::Wait;
use std::time::{Clock, Duration, Instant};

// how long a line stays
fn second() -> Duration {
    Duration::from_secs(1)
}

/// Shows once a second what a drive has counted, until the screen is closed. If the clock fails,
/// shows nothing more.
pub fn show_progress<R: Wait + Clock>(rt: &R, alloc: Global, progress: &Progress, screen: &Screen) {
    let mut before = progress.counts();
    let Ok(mut since) = Instant::now(rt) else {
        return;
    };
    for _ in rt.forever() {
        let Ok(now) = Instant::now(rt) else {
            return;
        };
        if screen.is_closed() {
            return;
        }
        let passed = now.duration_since(since);
        if passed < second() {
            screen.wait(rt, second().saturating_sub(passed));
            continue;
        }
        let counts = progress.counts();
        // without memory the last line stays
        if let Ok(line) = line(alloc, counts, rate(before, counts, passed)) {
            screen.show(rt, &line);
        }
        before = counts;
        since = now;
    }
    unreachable!()
}

// a line, which clears what another one has left of its own
fn line(alloc: Global, counts: DriveCounts, rate: u64) -> Result<String, AllocError> {
    let (read, placed) = (counts.read, counts.placed);
    let (least, greatest) = (counts.least, counts.greatest);
    format!(in alloc;
        "\rread {read}  placed {placed}  accepted {least}..{greatest}  {rate}/s\x1b[K"
    )
}

// The rate of a second: of lines read until something is placed, then of entries that the slowest
// subscriber accepted, or of changesets placed if it accepted none.
fn rate(before: DriveCounts, now: DriveCounts, passed: Duration) -> u64 {
    let read = now.read.saturating_sub(before.read);
    let placed = now.placed.saturating_sub(before.placed);
    let accepted = now.least.saturating_sub(before.least);
    let done = if now.placed == 0 {
        read
    } else if accepted == 0 {
        placed
    } else {
        accepted
    };
    each_second(done, passed)
}

// how many of them that is a second
fn each_second(done: u64, passed: Duration) -> u64 {
    let millis = u64::try_from(passed.as_millis()).unwrap_or(u64::MAX);
    done.saturating_mul(1_000) / millis.max(1)
}
