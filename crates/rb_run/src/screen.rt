//! A line on standard error that each next one replaces, and standard output beside it.

use std::io;
use std::io::{IsTerminal, Stderr, Stdout, Write};
use std::sync::atomic::{AtomicU64, Ordering};
use std::sync::{Mutex, Wait};
use std::time::Duration;

// goes to the first column, and clears the line
const CLEARED: &str = "\r\x1b[K";

/// A line on standard error, until it is closed.
#[derive(Drop)]
pub struct Screen {
    errors: Stderr,
    // Whether a line is there. A thread that writes one has the lock.
    is_shown: Mutex<bool>,
    // 1 once it is closed, else 0
    closed: AtomicU64,
}

impl Screen {
    /// One without a line.
    pub fn new(errors: Stderr) -> Screen {
        Screen {
            errors,
            is_shown: Mutex::new(false),
            closed: AtomicU64::new(0),
        }
    }

    /// Whether somebody can look at it.
    pub fn is_terminal(&self) -> bool {
        self.errors.is_terminal()
    }

    /// Writes this text in place of the line, unless it is closed.
    pub fn show<R: Wait>(&self, rt: &R, text: &str) {
        let mut is_shown = self.is_shown.lock(rt);
        if !self.is_closed() {
            *is_shown = true;
            self.put(text);
        }
    }

    /// Clears the line if there is one, and ends all waits. Nothing more is shown.
    pub fn close<R: Wait>(&self, rt: &R) {
        if self.closed.swap(1, Ordering::SeqCst) != 0 {
            return;
        }
        self.closed.wake_all();
        let is_shown = self.is_shown.lock(rt);
        if *is_shown {
            self.put(CLEARED);
        }
    }

    /// Whether it is closed.
    pub fn is_closed(&self) -> bool {
        self.closed.load(Ordering::SeqCst) != 0
    }

    /// Waits until it is closed, or for this time. It may also return for no reason.
    pub fn wait<R: Wait>(&self, rt: &R, time: Duration) {
        self.closed.park_timeout(rt, 0, time);
    }

    // Nobody misses a line that can't be written.
    fn put(&self, text: &str) {
        let mut errors = self.errors;
        let _ = errors.write_all(text.as_bytes());
    }
}

/// Standard output. It closes the screen before it writes, so that no line is in the midst of what
/// it writes to the same terminal.
#[derive(Drop)]
pub struct Output<'a, R> {
    pub rt: &'a R,
    pub stdout: Stdout,
    pub screen: &'a Screen,
}

impl<R: Wait> Write for Output<'_, R> {
    fn write(&mut self, buf: &[u8]) -> io::Result<usize> {
        self.screen.close(self.rt);
        self.stdout.write(buf)
    }

    fn flush(&mut self) -> io::Result<()> {
        self.stdout.flush()
    }
}
