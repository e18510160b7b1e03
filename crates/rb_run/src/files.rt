//! Databases in files.

use sqlite::{Connection, Error, FileStore};
use sqlite_disk::Disk;

/// What opens a database in a file.
pub trait Files {
    ghost use Rattle.std.specs.Prelude.{List, ℕ, OnOk};

    /// How such a file and its log are read and written.
    type File: Disk + Drop + Send;

    /// A database was opened at this path.
    ghost opened: { Self → List ℕ → Type 0 };

    /// Opens the database at this path, and makes its file if there is none.
    fn open(&self, path: &str) -> Result<Connection<FileStore<Self::File>>, Error>
        ensures { OnOk result (opened self.now path.now) };
}
