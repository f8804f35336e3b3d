// The one order of the requests of connections that the entries of a book tell.
use crate::drawn::Connection;
use json::Scratch;
use rv_base::{Id, Memory};
use rv_book::Entry;
use rv_keeper::Cell;
use rv_record::{CellFault, entry_of_cell};
use std::alloc::Global;

/// A request in its turn.
#[derive(Clone, Copy)]
pub struct Turn {
    /// The place of its connection, from 0.
    pub connection: usize,
    /// Its place in the connection, from 0.
    pub request: usize,
}

fn group_of(entry: &Entry) -> &Id {
    match entry {
        Entry::Act { group, .. } => group,
        Entry::Look { group, .. } => group,
        Entry::Retire { group } => group,
    }
}

// The place of the connection that has this group, or that of none.
fn place_of(connections: &[Connection], group: &Id) -> usize {
    let mut place: usize = 0;
    for connection in connections {
        if connection.group.as_str() == group.as_str() {
            return place;
        }
        place = place.saturating_add(1);
    }
    place
}

// The place of the connection whose group the entry of a cell names, or that of none.
fn maker(alloc: Global, connections: &[Connection], cell: &Cell) -> Result<usize, Memory> {
    match entry_of_cell(alloc, cell, None, &mut Scratch::new(alloc)) {
        Ok((_, entry)) => Ok(place_of(connections, group_of(&entry))),
        Err(CellFault::Memory) => Err(Memory),
        Err(CellFault::BadCell(_)) => Ok(usize::MAX),
    }
}

// Whether the request at a place makes an entry.
fn makes(asked: &Connection, request: usize) -> bool {
    match asked.requests.get(request) {
        Some(request) => request.makes,
        None => false,
    }
}

// Adds the requests of a connection from one on, up to the next that makes an entry. Gives the place after them.
fn take(
    turns: &mut Vec<Turn>,
    connections: &[Connection],
    connection: usize,
    from: usize,
) -> Result<usize, Memory> {
    let Some(asked) = connections.get(connection) else {
        return Ok(from);
    };
    for request in from..asked.requests.len() {
        turns.push(Turn {
            connection,
            request,
        })?;
        if makes(asked, request) {
            return Ok(request + 1);
        }
    }
    Ok(asked.requests.len())
}

fn taken_of(alloc: Global, connections: &[Connection]) -> Result<Vec<usize>, Memory> {
    let mut taken = Vec::new(alloc);
    for _ in connections {
        taken.push(0)?;
    }
    Ok(taken)
}

// Adds the requests up to the one that made the entry of a cell.
fn take_made(
    alloc: Global,
    turns: &mut Vec<Turn>,
    connections: &[Connection],
    taken: &mut [usize],
    cell: &Cell,
) -> Result<(), Memory> {
    let connection = maker(alloc, connections, cell)?;
    if let Some(place) = taken.get_mut(connection) {
        *place = take(turns, connections, connection, *place)?;
    }
    Ok(())
}

// Adds all requests, those that made the entries of these cells in the entries' order.
fn take_all(
    alloc: Global,
    turns: &mut Vec<Turn>,
    connections: &[Connection],
    taken: &mut [usize],
    cells: &[Cell],
) -> Result<(), Memory> {
    for cell in cells {
        if cell.shelf == 1 {
            take_made(alloc, turns, connections, taken, cell)?;
        }
    }
    for (connection, place) in taken.iter().enumerate() {
        take(turns, connections, connection, *place)?;
    }
    Ok(())
}

/// The requests of the connections in one order, in which they make the entries of these cells: each entry tells whose turn it was. The
/// requests after the last that makes one come at the end.
pub fn turns_of(
    alloc: Global,
    connections: &[Connection],
    cells: &[Cell],
) -> Result<Vec<Turn>, Memory> {
    let mut taken = taken_of(alloc, connections)?;
    let mut turns = Vec::new(alloc);
    take_all(alloc, &mut turns, connections, &mut taken, cells)?;
    Ok(turns)
}
