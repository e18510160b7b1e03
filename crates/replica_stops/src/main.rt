//! Tries replicas over databases that are no replica, and over disks that stop.
//! In a commit of so many changes as the first argument says, a file stops after each number of
//! operations. The replica that is opened then must have the rows and the cursor of before the
//! commit, or those of after it. The same of an accept: the subscription falls, and must be resumed
//! with what the replica has. The second argument is how many pages a database keeps in memory.
//! Prints what was found, and fails if anything else was.
#![tactic(auto)]

mod cases;
mod disks;
mod falls;
mod kept;
mod reading;
mod rows;
mod stand;
mod stops;
mod texts;

use crate::falls::Falls;
use crate::rows::Commits;
use crate::stops::Trial;
use std::alloc::Global;
use std::process::ExitCode;
use std::sync::Wait;
use std::thread::Threads;
use std::{env, io};

fn main(rt: HostRuntime) -> io::Result<ExitCode> {
    let Some((changes, pages)) = numbers_of(&rt)? else {
        eprintln!(rt; "usage: replica_stops CHANGES PAGES, two numbers from 2 to 65535")?;
        return Ok(ExitCode::FAILURE);
    };
    let alloc = rt.alloc();
    let commits = Commits::new(alloc, u32::from(changes))?;
    cases::tell_all(&rt, alloc)?;
    cases::tell_created(&rt, alloc, &commits)?;
    println!(rt; "{} changes:", commits.second.len())?;
    let pages = usize::from(pages);
    let are_right = tell_stops(&rt, alloc, &commits, pages)?;
    let are_resumed = tell_falls(&rt, alloc, &commits, pages)?;
    Ok(if are_right && are_resumed {
        ExitCode::SUCCESS
    } else {
        ExitCode::FAILURE
    })
}

// the two arguments
fn numbers_of(rt: &HostRuntime) -> io::Result<Option<(u16, u16)>> {
    let words: Vec<String> = env::args(rt)?.collect(rt.alloc())?;
    let [_, changes, pages] = words.as_slice() else {
        return Ok(None);
    };
    match (number(changes.as_str()), number(pages.as_str())) {
        (Some(changes), Some(pages)) => Ok(Some((changes, pages))),
        _ => Ok(None),
    }
}

fn number(word: &str) -> Option<u16> {
    match word.parse::<u16>() {
        Ok(number) if number >= 2 => Some(number),
        _ => None,
    }
}

// Tries each stop of each trial, and tells what was found. Returns whether all is as it must be.
fn tell_stops(rt: &impl Print, alloc: Global, commits: &Commits, pages: usize) -> io::Result<bool> {
    let mut are_right = true;
    for trial in Trial::all(pages) {
        let stops = trial.stops(alloc, commits)?;
        println!(rt; "{stops}")?;
        for counts in &stops.counts {
            println!(rt; "{counts}")?;
        }
        are_right = are_right && stops.are_right();
    }
    Ok(are_right)
}

// Tries each stop of each trial in an accept, and tells how often a subscription fell and was
// resumed. Returns whether all is as it must be.
fn tell_falls<R: Print + Wait + Threads + Sync>(
    rt: &R,
    alloc: Global,
    commits: &Commits,
    pages: usize,
) -> io::Result<bool> {
    let mut are_right = true;
    for trial in Trial::all(pages) {
        let falls = Falls::of(rt, alloc, trial, commits)?;
        println!(rt; "{falls}")?;
        are_right = are_right && falls.are_right();
    }
    Ok(are_right)
}
