ghost use Rattle.std.specs.Prelude.{◌≡◌, ◌≢◌, ◌↔◌, Err, IfErr, IfOk, IsOk, Ok, codes, false, true};
ghost use Rattle.std_io.specs.IoError.{error_kind};
ghost use Rattle.std_io.specs.declared.io.kind.ErrorKind.TheVariants as kinds;
ghost use Rattle.rv_base.specs.declared.fault.Fault.TheVariants as fault;
ghost use Rattle.sqlite_wal.specs.Files.{image_at};
ghost use Rattle.rv_place.specs.Files.{FilesHold};
ghost use Rattle.rv_place.specs.Stored.{IsGiven};

use crate::opener::Opener;
use crate::run_place::RunPlace;
use crate::store_keeper::StoreKeeper;
use rv_base::{Bytes, Fault};
use rv_keeper::MemoryKeeper;
use rv_sqlite::{SqliteKeeper, fault_of};
use sqlite::{Connection, FileFrom, FileStore, Start};
use std::fs;
use std::io::{self, ErrorKind};
use std::marker::PhantomData;

/// Opens the stores of this machine: the store `memory`, which is a fresh one in memory, and else the SQLite file at the path that the name
/// is. A file that is not there is made. The accounts files are the files at their paths.
///
/// `S` stands for what the store's file and its log held, which no code reads: what is said of the store is so for all that they may have
/// held.
#[derive(Drop)]
pub struct FileOpener<'a, S> {
    rt: &'a HostRuntime,
    start: PhantomData<S>,
}

impl<'a, S> FileOpener<'a, S> {
    /// Who opens the stores that the machine of this runtime has.
    pub fn new(rt: &'a HostRuntime) -> FileOpener<'a, S> {
        FileOpener {
            rt,
            start: PhantomData,
        }
    }
}

// What a refusal of the file system is: want of memory exactly where it says so, and else a fault.
fn refused(error: io::Error) -> Fault
    ensures { (result ≡ fault.Memory) ↔ (error_kind error ≡ kinds.OutOfMemory) }
{
    match error.kind() {
        ErrorKind::OutOfMemory => Fault::Memory,
        _ => Fault::Failed,
    }
}

// What is told of a search for a file: it is there; or it isn't, which is a fault, or the search was refused.
fn found_by(found: io::Result<bool>) -> Result<(), Fault>
    ensures there { IsOk result ↔ found ≡ Ok true }
    ensures missing { found ≡ Ok false → result ≡ Err fault.Failed }
    ensures refused { IfErr found (λ error. (result ≡ Err fault.Memory) ↔ (error_kind error ≡ kinds.OutOfMemory)) }
{
    match found {
        Ok(true) => Ok(()),
        Ok(false) => Err(Fault::Failed),
        Err(error) => Err(refused(error)),
    }
}

// The keeper of the file at a path, which holds what that held.
fn open_file<S: Start>(
    rt: &HostRuntime,
    path: &str,
    start: S,
) -> Result<StoreKeeper<FileStore<FileFrom<S>>>, Fault>
    requires { path.now ≢ codes "memory" }
    ensures { IfOk result (IsGiven (image_at S.Start) path.now) }
{
    match Connection::open_from(rt, path, false, start) {
        Ok(connection) => Ok(StoreKeeper::Sqlite(SqliteKeeper::adopt(rt.alloc(), connection))),
        Err((error, _left)) => Err(fault_of(error)),
    }
}

// The keeper of the store of a name.
fn open_store<S: Start>(
    rt: &HostRuntime,
    name: &str,
    start: S,
) -> Result<StoreKeeper<FileStore<FileFrom<S>>>, Fault>
    ensures { IfOk result (IsGiven (image_at S.Start) name.now) }
{
    if name == "memory" {
        let alloc = rt.alloc();
        Ok(StoreKeeper::Memory(MemoryKeeper::new(alloc, Vec::new(alloc))))
    } else {
        open_file(rt, name, start)
    }
}

impl<S: Start + Send> Opener for FileOpener<'_, S> {
    type Start = S;

    type Kept = StoreKeeper<FileStore<FileFrom<S>>>;

    ghost held = { FilesHold (image_at S.Start) };

    // That a file is there the machine says, of which no clause tells.
    ghost found = { λ opener name. Unit {0} };

    fn find(&self, name: &str) -> Result<(), Fault> {
        if name == "memory" {
            return Ok(());
        }
        found_by(fs::exists(self.rt, name))
    }

    fn read_file(&self, path: &str) -> Result<Bytes, Fault> {
        match fs::read(self.rt, path) {
            Ok(bytes) => Ok(Bytes::from_vec(bytes)),
            Err(error) => Err(refused(error)),
        }
    }

    fn open(&self, name: &str, start: S) -> Result<StoreKeeper<FileStore<FileFrom<S>>>, Fault> {
        open_store(self.rt, name, start)
    }

    ghost held_one = { λ one two is also. also.only one is.stand };
}

/// The stores of this machine, for one run, which opens one of them.
pub type HostPlace<'a, S> = RunPlace<FileOpener<'a, S>, S, StoreKeeper<FileStore<FileFrom<S>>>>;

/// Closes the file of a store, if there is one: its log is copied into it. That it was not closed is nothing that anybody is told: what was
/// committed is in the file or its log, and the next opening reads both.
pub fn close_store<S: Start>(kept: StoreKeeper<FileStore<FileFrom<S>>>) {
    if let Some(connection) = kept.into_connection() {
        let _ = connection.close();
    }
}

/// Ends a run: the file of the store whose keeper came back is closed.
pub fn end_run<S: Start + Send>(place: HostPlace<'_, S>) {
    if let Some(kept) = place.into_keeper() {
        close_store(kept);
    }
}
