// Two disks in memory, connections over them, and what a crash may leave of them.
use rv_base::Memory;
use sqlite::{Connection, FileStore, Files, Options};
use sqlite_disk::{Crash, Disk, Fuse, Memory as MemoryDisk};
use std::alloc::Global;
use std::io;

/// A disk in memory that fails once so many calls have passed.
pub type Fused = Fuse<MemoryDisk>;

/// The disks of a database: its log's and its file's.
pub type Disks = Files<Fused>;

/// What a database over these disks is stored in.
pub type Stored = FileStore<Fused>;

/// One of the two disks.
#[derive(Clone, Copy)]
pub enum Which {
    /// The log's.
    Log,
    /// The file's.
    File,
}

/// What both disks hold.
#[derive(Clone, Copy)]
pub struct Contents<'c> {
    /// The log's disk.
    pub log: &'c [u8],
    /// The file's disk.
    pub file: &'c [u8],
}

// How many calls pass where none is to fail.
const ALL: u64 = u64::MAX;

// How many pages that were read are kept in memory: each opening clears so many.
const CACHE: usize = 64;

// How many bytes are lost or kept together.
const SECTOR: usize = 512;

// A disk that holds these bytes for good.
fn holding(alloc: Global, bytes: &[u8]) -> io::Result<MemoryDisk> {
    let mut disk = MemoryDisk::new(alloc);
    disk.write_at(0, bytes)?;
    disk.sync()?;
    Ok(disk)
}

// A disk that holds these bytes for good, and fails once so many calls have passed.
fn fused(alloc: Global, bytes: &[u8], calls: u64) -> Result<Fused, Memory> {
    match holding(alloc, bytes) {
        Ok(disk) => Ok(Fuse::new(disk, calls)),
        Err(_) => Err(Memory),
    }
}

/// Disks that hold this for good, and don't fail.
pub fn lasting(alloc: Global, contents: Contents<'_>) -> Result<Disks, Memory> {
    let log = fused(alloc, contents.log, ALL)?;
    let db = fused(alloc, contents.file, ALL)?;
    Ok(Files { log, db })
}

/// Empty disks, of which this one fails once so many calls have passed.
pub fn failing(alloc: Global, which: Which, calls: u64) -> Result<Disks, Memory> {
    let (log_calls, file_calls) = match which {
        Which::Log => (calls, ALL),
        Which::File => (ALL, calls),
    };
    let log = fused(alloc, &[], log_calls)?;
    let db = fused(alloc, &[], file_calls)?;
    Ok(Files { log, db })
}

/// The connection to the database on these disks, whose log goes to the file once it has so many pages; or the disks, where it can't
/// be opened.
pub fn open(
    alloc: Global,
    disks: Disks,
    pages: usize,
    seed: u64,
) -> Result<Connection<Stored>, Disks> {
    if !disks.may_be_used() {
        return Err(disks);
    }
    let mut options = Options::new(seed);
    options.cache_pages = CACHE;
    options.checkpoint_frames = pages;
    match Connection::open_files(alloc, disks, options) {
        Ok(connection) => Ok(connection),
        Err((_, left)) => Err(left.into_files()),
    }
}

/// Copies the log to the file and closes both. Whether that was done, and the disks.
pub fn close(connection: Connection<Stored>) -> (bool, Disks) {
    match connection.close_files() {
        Ok(disks) => (true, disks),
        Err((_, store)) => (false, store.close()),
    }
}

/// The disks of a connection that is left as it stands.
pub fn leave(connection: Connection<Stored>) -> Disks {
    connection.into_store().close()
}

fn has_failed(disk: &mut Fused) -> bool {
    !disk.may_be_used() || disk.len().is_err()
}

/// Whether one more call of this disk fails.
pub fn is_blown(disks: &mut Disks, which: Which) -> bool {
    match which {
        Which::Log => has_failed(&mut disks.log),
        Which::File => has_failed(&mut disks.db),
    }
}

// What a disk holds where of its sectors every second one is as it is now, from this one on, and the others are as they were.
fn torn(alloc: Global, now: &[u8], before: &[u8], first: usize) -> Result<Vec<u8>, Memory> {
    let mut bytes = Vec::new(alloc);
    for (at, byte) in now.iter().enumerate() {
        if at / SECTOR % 2 == first {
            bytes.push(*byte)?;
        } else {
            bytes.push(before.get(at).copied().unwrap_or(0))?;
        }
    }
    Ok(bytes)
}

// Adds contents, where they are not there yet.
fn add(all: &mut Vec<Vec<u8>>, bytes: Vec<u8>) -> Result<(), Memory> {
    for other in all.iter() {
        if *other == bytes {
            return Ok(());
        }
    }
    all.push(bytes)?;
    Ok(())
}

/// Four of the contents that a disk may have after a crash: all that was written, what was synced, and of what was written since every
/// second sector, from the first on or from the second. Each content stands once.
pub fn outcomes(alloc: Global, disk: Fused) -> Result<Vec<Vec<u8>>, Memory> {
    let mut disk = disk;
    let now = Vec::from_slice(alloc, disk.inner().bytes())?;
    disk.crash();
    let before = Vec::from_slice(alloc, disk.inner().bytes())?;
    let even = torn(alloc, &now, &before, 0)?;
    let odd = torn(alloc, &now, &before, 1)?;
    let mut all = Vec::new(alloc);
    add(&mut all, now)?;
    add(&mut all, before)?;
    add(&mut all, even)?;
    add(&mut all, odd)?;
    Ok(all)
}
