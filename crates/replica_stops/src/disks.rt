//! A database file and its log in memory, of which one stops, and what crashes leave of them then.

use sqlite::{Connection, FileStore, Files, Options};
use sqlite_disk::{Crash, Disk, Fuse, Memory};
use std::alloc::Global;
use std::io;

/// A file in memory that stops after so many operations: each one after fails and changes nothing.
pub type TestDisk = Fuse<Memory>;

/// The file that stops.
#[derive(Clone, Copy)]
pub enum StoppedFile {
    Database,
    Log,
}

impl StoppedFile {
    /// What it is called.
    pub fn text(self) -> &'static str {
        match self {
            StoppedFile::Database => "the database file",
            StoppedFile::Log => "the log",
        }
    }
}

/// What a crash takes.
#[derive(Clone, Copy)]
pub enum Loss {
    /// All that was not synced.
    Unsynced,
    /// What was not synced of the database file.
    UnsyncedDatabase,
    /// What was not synced of the log.
    UnsyncedLog,
    Nothing,
}

impl Loss {
    /// Each of them.
    pub const ALL: [Loss; 4] = [
        Loss::Unsynced,
        Loss::UnsyncedDatabase,
        Loss::UnsyncedLog,
        Loss::Nothing,
    ];

    /// What is lost.
    pub fn text(self) -> &'static str {
        match self {
            Loss::Unsynced => "what was not synced is lost",
            Loss::UnsyncedDatabase => "what was not synced of the database file is lost",
            Loss::UnsyncedLog => "what was not synced of the log is lost",
            Loss::Nothing => "all is kept",
        }
    }

    fn is_of_database(self) -> bool {
        matches!(self, Loss::Unsynced | Loss::UnsyncedDatabase)
    }

    fn is_of_log(self) -> bool {
        matches!(self, Loss::Unsynced | Loss::UnsyncedLog)
    }
}

/// Empty files, of which this one stops after so many operations.
pub fn stopping(alloc: Global, file: StoppedFile, operations: u64) -> Files<TestDisk> {
    let (log, db) = match file {
        StoppedFile::Database => (u64::MAX, operations),
        StoppedFile::Log => (operations, u64::MAX),
    };
    Files {
        log: Fuse::new(Memory::new(alloc), log),
        db: Fuse::new(Memory::new(alloc), db),
    }
}

/// Opens the database. Nothing is left of files that can't be opened.
pub fn connected(
    alloc: Global,
    files: Files<TestDisk>,
    options: Options,
) -> io::Result<Connection<FileStore<TestDisk>>> {
    if !files.may_be_used() {
        return Err(io::Error::other("a sync has failed"));
    }
    match Connection::open_files(alloc, files, options) {
        Ok(conn) => Ok(conn),
        Err(_) => Err(io::Error::other("the files can't be opened")),
    }
}

/// What is in a database file and its log that have stopped.
#[derive(Drop)]
pub struct Wreck {
    log: Contents,
    db: Contents,
}

impl Wreck {
    /// What a database leaves.
    pub fn of(alloc: Global, conn: Connection<FileStore<TestDisk>>) -> io::Result<Wreck> {
        Wreck::of_files(alloc, conn.into_store().close())
    }

    fn of_files(alloc: Global, files: Files<TestDisk>) -> io::Result<Wreck> {
        let Files { log, db } = files;
        Ok(Wreck {
            log: Contents::of(alloc, log)?,
            db: Contents::of(alloc, db)?,
        })
    }

    /// The files after a crash, which stop no more.
    pub fn after(&self, alloc: Global, loss: Loss) -> io::Result<Files<TestDisk>> {
        Ok(Files {
            log: self.log.disk(alloc, loss.is_of_log())?,
            db: self.db.disk(alloc, loss.is_of_database())?,
        })
    }
}

/// What was written to a file, and what of it was synced.
#[derive(Drop)]
struct Contents {
    written: Vec<u8>,
    synced: Vec<u8>,
}

impl Contents {
    fn of(alloc: Global, mut disk: TestDisk) -> io::Result<Contents> {
        let written = Vec::from_slice(alloc, disk.inner().bytes())?;
        disk.crash();
        let synced = Vec::from_slice(alloc, disk.inner().bytes())?;
        Ok(Contents { written, synced })
    }

    fn disk(&self, alloc: Global, is_lost: bool) -> io::Result<TestDisk> {
        let bytes = if is_lost { &self.synced } else { &self.written };
        let mut memory = Memory::new(alloc);
        memory.write_at(0, bytes)?;
        memory.sync()?;
        Ok(Fuse::new(memory, u64::MAX))
    }
}
