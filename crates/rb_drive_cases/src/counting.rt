//! What a drive must have counted, by its input and its report.

use rb_case_files::lines;
use rb_drive::DriveCounts;
use rb_script::{is, number, parts};
use std::alloc::{AllocError, Global};

/// The counts of a drive with this input and this report.
pub fn reported(alloc: Global, input: &[u8], report: &[u8]) -> Result<DriveCounts, AllocError> {
    let mut counts = DriveCounts {
        read: line_count(alloc, input)?,
        placed: 0,
        least: u64::MAX,
        greatest: 0,
    };
    for line in lines(alloc, report)? {
        add(alloc, &mut counts, line)?;
    }
    Ok(counts)
}

// how many lines an input has; what comes after its last line end is none if it is empty
fn line_count(alloc: Global, input: &[u8]) -> Result<u64, AllocError> {
    let all = lines(alloc, input)?.len() as u64;
    if input.is_empty() || input.ends_with(b"\n") {
        Ok(all.saturating_sub(1))
    } else {
        Ok(all)
    }
}

// adds what a line of the report says: how many were placed, or a subscriber's cursor
fn add(alloc: Global, counts: &mut DriveCounts, line: &[u8]) -> Result<(), AllocError> {
    let words = parts(alloc, line)?;
    match words.as_slice() {
        [name, count] if is(name, b"placed") => {
            counts.placed = number(count).unwrap_or(u64::MAX);
        }
        [name, _, _, cursor, ..] if is(name, b"subscriber") => {
            let cursor = number(cursor).unwrap_or(u64::MAX);
            counts.least = counts.least.min(cursor);
            counts.greatest = counts.greatest.max(cursor);
        }
        _ => {}
    }
    Ok(())
}
