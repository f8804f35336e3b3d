// Runs over two disks: one that ends at the first failure, and one that meets none.
use crate::disks::{self, Disks, Stored};
use crate::held::Held;
use crate::playing::{End, Told, look, play};
use sqlite::Connection;
use std::alloc::Global;

/// A run that ends at the first call that is told to fail.
#[derive(Drop)]
pub struct Stopped {
    /// What was answered.
    pub told: Told,
    /// The disks.
    pub disks: Disks,
}

// Answers lines over a connection, and closes the files where all are answered.
fn stopped_over(alloc: Global, connection: Connection<Stored>, lines: &[String]) -> Stopped {
    let (told, connection) = play(alloc, connection, lines);
    let disks = if told.end == End::Done {
        disks::close(connection).1
    } else {
        disks::leave(connection)
    };
    Stopped { told, disks }
}

/// Opens the database on these disks and answers lines, up to the first call that is told to fail.
pub fn run_to_stop(
    alloc: Global,
    disks: Disks,
    pages: usize,
    seed: u64,
    lines: &[String],
) -> Stopped {
    match disks::open(alloc, disks, pages, seed) {
        Ok(connection) => stopped_over(alloc, connection, lines),
        Err(disks) => Stopped {
            told: Told::nothing(alloc, End::NotOpened),
            disks,
        },
    }
}

/// A run over disks that don't fail.
#[derive(Drop)]
pub struct Whole {
    /// What the store held at first, where it could be read.
    pub found: Option<Held>,
    /// What was answered.
    pub told: Told,
    /// What the store held at last, where it could be read.
    pub left: Option<Held>,
    /// Whether the files were closed.
    pub is_closed: bool,
}

fn whole_over(alloc: Global, connection: Connection<Stored>, lines: &[String]) -> Whole {
    let (found, connection) = look(alloc, connection);
    let (told, connection) = play(alloc, connection, lines);
    let (left, connection) = look(alloc, connection);
    let (is_closed, _disks) = disks::close(connection);
    Whole {
        found,
        told,
        left,
        is_closed,
    }
}

/// Opens the database on these disks, and answers lines.
pub fn run_whole(alloc: Global, disks: Disks, pages: usize, seed: u64, lines: &[String]) -> Whole {
    match disks::open(alloc, disks, pages, seed) {
        Ok(connection) => whole_over(alloc, connection, lines),
        Err(_disks) => Whole {
            found: None,
            told: Told::nothing(alloc, End::NotOpened),
            left: None,
            is_closed: false,
        },
    }
}
