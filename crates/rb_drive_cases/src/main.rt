//! Drives a broker with each input of a folder's packs, and compares the report, how it ends and
//! what it counted with what they must be. A case is texts and no code. One that says what a
//! replica must have is driven once more, with a database file. Prints what differs, and how many
//! lines it compared.
#![tactic(auto)]

mod case;
mod counting;
mod packs;
mod replica;

use case::DriveCase;
use packs::DrivePacks;
use sqlite::Connection;
use std::alloc::Global;
use std::process::ExitCode;
use std::sync::Wait;
use std::thread::Threads;
use std::{fs, io};

fn main(rt: HostRuntime) -> io::Result<ExitCode> {
    // files need the runtime itself, and threads a runtime of any type that can make them
    let failed = drives(&rt, &rt, rt.alloc())?;
    Ok(if failed == 0 {
        ExitCode::SUCCESS
    } else {
        println!(rt; "{failed} differ")?;
        ExitCode::FAILURE
    })
}

// Runs each drive. Returns how many differ.
fn drives<T: Threads + Wait + Sync>(
    rt: &HostRuntime,
    threads: &T,
    alloc: Global,
) -> io::Result<usize> {
    let packs = DrivePacks::open(rt, alloc)?;
    let names = packs.drive.names(alloc)?;
    let mut lines = 0_usize;
    let mut failed = 0_usize;
    for name in &names {
        match compared(rt, threads, alloc, &packs, name)? {
            Some(count) => lines = lines.saturating_add(count),
            None => failed = failed.saturating_add(1),
        }
    }
    println!(rt; "{} drives, {lines} lines compared", names.len())?;
    Ok(failed)
}

// Runs a drive. Returns the number of lines that were compared; if something differs, prints it and
// returns nothing.
fn compared<T: Threads + Wait + Sync>(
    rt: &HostRuntime,
    threads: &T,
    alloc: Global,
    packs: &DrivePacks,
    name: &str,
) -> io::Result<Option<usize>> {
    let case = DriveCase::of(packs, name);
    match ran(rt, threads, alloc, name, &case)? {
        Ok(count) => Ok(Some(count)),
        Err(difference) => {
            println!(rt; "{name}: {difference}")?;
            Ok(None)
        }
    }
}

// Runs a drive, and once more with a replica if it has one. Returns how many lines are as they must
// be, or what differs.
fn ran<T: Threads + Wait + Sync>(
    rt: &HostRuntime,
    threads: &T,
    alloc: Global,
    name: &str,
    case: &DriveCase<'_>,
) -> io::Result<Result<usize, String>> {
    let plain = case.run(threads, alloc)?;
    if !case.has_replica() {
        return Ok(plain);
    }
    let Ok(lines) = plain else {
        return Ok(plain);
    };
    let path = format!(in alloc; "{name}.db")?;
    let log = format!(in alloc; "{name}.db-wal")?;
    remove(rt, &path)?;
    remove(rt, &log)?;
    let kept = ran_durable(rt, threads, alloc, &path, &log, case)?;
    remove(rt, &path)?;
    remove(rt, &log)?;
    Ok(match kept {
        Ok(more) => Ok(lines.saturating_add(more)),
        Err(difference) => Err(difference),
    })
}

// Runs a drive with a replica in a new file, and opens that file again, without its log.
fn ran_durable<T: Threads + Wait + Sync>(
    rt: &HostRuntime,
    threads: &T,
    alloc: Global,
    path: &str,
    log: &str,
    case: &DriveCase<'_>,
) -> io::Result<Result<usize, String>> {
    let lines = match case.run_durable(threads, alloc, Connection::open(rt, path))? {
        Ok(lines) => lines,
        Err(difference) => return Ok(Err(difference)),
    };
    remove(rt, log)?;
    Ok(
        match case.compare_replica(alloc, Connection::open(rt, path))? {
            Ok(more) => Ok(lines.saturating_add(more)),
            Err(difference) => Err(difference),
        },
    )
}

// Removes a file, if it is there.
fn remove(rt: &HostRuntime, path: &str) -> io::Result<()> {
    match fs::remove_file(rt, path) {
        Err(why) if why.kind() == io::ErrorKind::NotFound => Ok(()),
        removed => removed,
    }
}
