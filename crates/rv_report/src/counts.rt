// How many of some rows are lists, todos and shares.
ghost use Rattle.std.specs.Prelude.{◌≡◌, ◌<◌, ◌^◌, IfOk, map, count_by, length};
ghost use Rattle.rv_report.specs.Counted.{counted_as, counts_list, counts_open, counts_share, counts_todo, counts_of};

use rv_base::Memory;
use rv_rows::{Row, RowsInOrder};
use std::alloc::Global;

// What a row counts as.
#[derive(Clone, Copy, Debug)]
enum Counted {
    Extent,
    List,
    Share,
    OpenTodo,
    CompleteTodo,
}

impl Counted {
    fn of(row: &Row) -> Counted
        ensures { result ≡ counted_as row.now }
    {
        match row {
            Row::Extent(_) => Counted::Extent,
            Row::List(_) => Counted::List,
            Row::Share(_) => Counted::Share,
            Row::Todo(todo) => {
                if todo.complete {
                    Counted::CompleteTodo
                } else {
                    Counted::OpenTodo
                }
            }
        }
    }

    fn is_list(self) -> bool
        ensures { result ≡ counts_list self }
    {
        matches!(self, Counted::List)
    }

    fn is_share(self) -> bool
        ensures { result ≡ counts_share self }
    {
        matches!(self, Counted::Share)
    }

    fn is_todo(self) -> bool
        ensures { result ≡ counts_todo self }
    {
        matches!(self, Counted::OpenTodo | Counted::CompleteTodo)
    }

    fn is_open(self) -> bool
        ensures { result ≡ counts_open self }
    {
        matches!(self, Counted::OpenTodo)
    }
}

/// How many of some rows are lists, todos, todos that aren't complete, and shares.
#[derive(Clone, Copy, Debug)]
pub(crate) struct Counts {
    pub(crate) lists: u64,
    pub(crate) todos: u64,
    pub(crate) incomplete: u64,
    pub(crate) shares: u64,
}

// What each of the rows counts as: a byte for each, so that a slice bounds their number.
fn counted_rows(alloc: Global, rows: RowsInOrder<'_>) -> Result<Vec<Counted>, Memory>
    ensures { IfOk result (λ counted. counted.items ≡ map (λ s. counted_as s.0) rows.entry) }
{
    let mut counted = Vec::new(alloc);
    for (row, _version) in rows {
        counted.push(Counted::of(row))?;
    }
    Ok(counted)
}

// How many are lists.
fn lists(counted: &[Counted]) -> u64
    ensures { result ≡ count_by counts_list counted.now }
{
    counted.iter().filter(|row| row.is_list()).count() as u64
}

// How many are todos.
fn todos(counted: &[Counted]) -> u64
    ensures { result ≡ count_by counts_todo counted.now }
{
    counted.iter().filter(|row| row.is_todo()).count() as u64
}

// How many are todos that aren't complete.
fn incomplete(counted: &[Counted]) -> u64
    ensures { result ≡ count_by counts_open counted.now }
{
    counted.iter().filter(|row| row.is_open()).count() as u64
}

// How many are shares.
fn shares(counted: &[Counted]) -> u64
    ensures { result ≡ count_by counts_share counted.now }
{
    counted.iter().filter(|row| row.is_share()).count() as u64
}

impl Counts {
    /// The counts of rows.
    pub(crate) fn of(alloc: Global, rows: RowsInOrder<'_>) -> Result<Counts, Memory>
        ensures { IfOk result (λ counts. counts ≡ counts_of rows.entry) }
    {
        let counted = counted_rows(alloc, rows)?;
        Ok(Counts {
            lists: lists(&counted),
            todos: todos(&counted),
            incomplete: incomplete(&counted),
            shares: shares(&counted),
        })
    }
}
