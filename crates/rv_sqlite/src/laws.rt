//! What follows of a connection over files, as contracts of functions that do nothing: a check of the crate proves them.
ghost use Rattle.rv_sqlite.specs.NextRun.{OpensWhatIsLeft};

use crate::connected::recall;
use sqlite::{Connection, FileStore};
use sqlite_disk::Disk;

/// What is opened over the files that a crash left holds one of what the crash might leave: so the clauses on what a crash may leave say what
/// the next run finds.
pub fn crashes_are_opened<C: Disk, D: Disk>(
    before: &Connection<FileStore<C>>,
    _opened: &Connection<FileStore<D>>,
)
    ensures { OpensWhatIsLeft before.now _opened.now }
{
    recall(before);
}
