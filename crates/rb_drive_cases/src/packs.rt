//! `DrivePacks`: what the drives have of each kind.

use rb_case_files::Pack;
use std::alloc::Global;
use std::io;

/// A pack for each kind of text.
#[derive(Drop)]
pub struct DrivePacks {
    pub drive: Pack,
    pub args: Pack,
    pub report: Pack,
    pub status: Pack,
    pub fault: Pack,
    pub replica: Pack,
}

impl DrivePacks {
    /// Reads the packs of the current folder.
    pub fn open(rt: &HostRuntime, alloc: Global) -> io::Result<DrivePacks> {
        Ok(DrivePacks {
            drive: Pack::open(rt, alloc, "drive.pack")?,
            args: Pack::open(rt, alloc, "args.pack")?,
            report: Pack::open(rt, alloc, "report.pack")?,
            status: Pack::open(rt, alloc, "status.pack")?,
            fault: Pack::open(rt, alloc, "fault.pack")?,
            replica: Pack::open(rt, alloc, "replica.pack")?,
        })
    }
}
