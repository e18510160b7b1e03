//! `DriveCase`: an input with its expected report, which is compared.

use crate::counting::reported;
use crate::packs::DrivePacks;
use crate::replica::replica_lines;
use rb_case_files::{Options, difference, lines};
use rb_drive::{DriveCounts, DriveError, Progress, run_drive, run_durable_drive};
use sqlite::{Connection, Error, FileStore};
use sqlite_disk::{Disk, Memory};
use std::alloc::{AllocError, Global};
use std::sync::Wait;
use std::thread::Threads;

/// An input, its options, its expected report, how it is expected to end, and what the replica of
/// its first subscriber must have, if it is driven with one too.
#[derive(Clone, Copy)]
pub struct DriveCase<'a> {
    input: &'a [u8],
    options: &'a [u8],
    report: &'a [u8],
    ending: &'a [u8],
    replica: &'a [u8],
}

impl<'a> DriveCase<'a> {
    /// The drive of this name. Its options are such as `--batch 1 --subscribers 2`, and how it ends
    /// is its status or its fault.
    pub fn of(packs: &'a DrivePacks, name: &str) -> DriveCase<'a> {
        let status = packs.status.text(name);
        let ending = if status.is_empty() {
            packs.fault.text(name)
        } else {
            status
        };
        DriveCase {
            input: packs.drive.text(name),
            options: packs.args.text(name),
            report: packs.report.text(name),
            ending,
            replica: packs.replica.text(name),
        }
    }

    /// Whether it is driven with a replica too.
    pub fn has_replica(&self) -> bool {
        !self.replica.is_empty()
    }

    /// Drives a broker with the input, and compares its ending, its report and what it counted.
    /// Returns how many lines the report has, or a text with the first one that differs.
    pub fn run<T: Threads + Wait + Sync>(
        &self,
        threads: &T,
        alloc: Global,
    ) -> Result<Result<usize, String>, AllocError> {
        self.run_over::<T, Memory>(threads, alloc, None)
    }

    /// The same, with a replica of the first subscriber in this database.
    pub fn run_durable<T: Threads + Wait + Sync, D: Disk + Drop + Send>(
        &self,
        threads: &T,
        alloc: Global,
        file: Result<Connection<FileStore<D>>, Error>,
    ) -> Result<Result<usize, String>, AllocError> {
        self.run_over(threads, alloc, Some(file))
    }

    // a drive whose first subscriber has a replica in this database, if there is one
    fn run_over<T: Threads + Wait + Sync, D: Disk + Drop + Send>(
        &self,
        rt: &T,
        alloc: Global,
        file: Option<Result<Connection<FileStore<D>>, Error>>,
    ) -> Result<Result<usize, String>, AllocError> {
        let Some(options) = Options::of(self.options) else {
            return Ok(Err(String::from_str(alloc, "no such options")?));
        };
        let Options {
            config,
            subscribers,
            ..
        } = options;
        let progress = Progress::new(alloc, subscribers)?;
        let mut reader: &[u8] = self.input;
        let mut written = Vec::new(alloc);
        let (from, to) = (&mut reader, &mut written);
        let ended = match file {
            None => run_drive(rt, alloc, from, to, config, subscribers, &progress),
            Some(file) => {
                run_durable_drive(rt, alloc, from, to, config, subscribers, file, &progress)
            }
        };
        if ended.is_ok() && !self.has_counted(alloc, progress.counts())? {
            return Ok(Err(String::from_str(alloc, "it counted otherwise")?));
        }
        self.compare(alloc, &ended, &written)
    }

    // whether this is what the input has and the report must say
    fn has_counted(&self, alloc: Global, counts: DriveCounts) -> Result<bool, AllocError> {
        Ok(counts == reported(alloc, self.input, self.report)?)
    }

    // compares the ending and the report
    fn compare(
        &self,
        alloc: Global,
        ended: &Result<u8, DriveError>,
        written: &[u8],
    ) -> Result<Result<usize, String>, AllocError> {
        let ending = text_of_end(alloc, ended)?;
        if ending.as_bytes() != self.ending {
            return Ok(Err(format!(in alloc; "it ended with '{}'", ending.trim_end())?));
        }
        let given = lines(alloc, written)?;
        let wanted = lines(alloc, self.report)?;
        difference(alloc, "line", &given, &wanted)
    }

    /// Opens the database again, as another program would, and compares the replica in it. Returns
    /// how many lines it has, or a text with the first one that differs.
    pub fn compare_replica<D: Disk + Drop>(
        &self,
        alloc: Global,
        file: Result<Connection<FileStore<D>>, Error>,
    ) -> Result<Result<usize, String>, AllocError> {
        let Ok(text) = replica_lines(alloc, self.input, file) else {
            return Ok(Err(String::from_str(alloc, "its replica isn't opened")?));
        };
        let given = lines(alloc, text.as_bytes())?;
        let wanted = lines(alloc, self.replica)?;
        difference(alloc, "line of the replica", &given, &wanted)
    }
}

// The status or the fault as a line; the empty text at status 0.
fn text_of_end(alloc: Global, ended: &Result<u8, DriveError>) -> Result<String, AllocError> {
    match ended {
        Ok(0) => Ok(String::new(alloc)),
        Ok(status) => format!(in alloc; "{status}\n"),
        Err(fault) => format!(in alloc; "{fault}\n"),
    }
}
