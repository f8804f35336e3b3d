// The report of the lists.
ghost use Rattle.std.specs.Prelude.{◌≡◌, ◌++◌, ℕ, IfOk, OnOk, codes};
ghost use Rattle.rv_report.specs.Texts.{quoted};
ghost use Rattle.rv_report.specs.Lists.{line_of_list, lists_text};
ghost use Rattle.rv_report.specs.ListLines.{counts_line, list_line, totals_line};

use crate::counts::Counts;
use crate::texts::{add, add_number, with_quoted};
use rv_base::{Bytes, Memory, Sequence};
use rv_rows::{ListRow, Row, Tables};
use std::alloc::Global;

/// A line for each list, in the order of their keys: its id, its owner and its name as JSON strings, and how many todos it has, how
/// many of them aren't complete, and how many shares, with one space between. Last `lists N todos N shares N`. Each line ends with
/// LF.
pub fn lists_text(alloc: Global, tables: &Tables) -> Result<Bytes, Memory>
    ensures { IfOk result (λ text. text ≡ lists_text tables.now.rows) }
{
    let mut out = Vec::new(alloc);
    for (row, _version) in tables.iter() {
        out = with_line(alloc, out, tables, row)?;
    }
    let all = Counts::of(alloc, tables.iter())?;
    add_totals(&mut out, &all)?;
    Ok(Sequence::from_vec(out))
}

// The buffer with the line of a row, which only a list has.
fn with_line(alloc: Global, out: Vec<u8>, tables: &Tables, row: &Row) -> Result<Vec<u8>, Memory>
    ensures { IfOk result (λ added. (version : ℕ) → added.items ≡ out.items ++ line_of_list tables.now.rows (row.now, version)) }
{
    match row {
        Row::Extent(_) => Ok(out),
        Row::List(list) => {
            let own = Counts::of(alloc, tables.of_list(&list.id))?;
            with_list(out, list, &own)
        }
        Row::Share(_) => Ok(out),
        Row::Todo(_) => Ok(out),
    }
}

// The buffer with the line of a list, which has these rows of its own.
fn with_list(out: Vec<u8>, list: &ListRow, own: &Counts) -> Result<Vec<u8>, Memory>
    ensures { IfOk result (λ added. added.items ≡ out.items ++ list_line list.now own.now) }
{
    let out = with_field(out, list.id.as_str())?;
    let out = with_field(out, list.owner.as_str())?;
    let mut out = with_field(out, list.name.as_str())?;
    add_counts(&mut out, own)?;
    Ok(out)
}

// The buffer with a text as a JSON string, and a space.
fn with_field(out: Vec<u8>, text: &str) -> Result<Vec<u8>, Memory>
    ensures { IfOk result (λ added. added.items ≡ out.items ++ (quoted text.now ++ codes " ")) }
{
    let mut out = with_quoted(out, text)?;
    add(&mut out, " ")?;
    Ok(out)
}

// Adds how many todos a list has, how many of them aren't complete, and how many shares.
fn add_counts(out: &mut Vec<u8>, own: &Counts) -> Result<(), Memory>
    ensures { OnOk result (out.new.items ≡ out.old.items ++ counts_line own.now) }
{
    add_number(out, own.todos)?;
    add(out, " ")?;
    add_number(out, own.incomplete)?;
    add(out, " ")?;
    add_number(out, own.shares)?;
    add(out, "\n")
}

// Adds the line of the totals.
fn add_totals(out: &mut Vec<u8>, all: &Counts) -> Result<(), Memory>
    ensures { OnOk result (out.new.items ≡ out.old.items ++ totals_line all.now) }
{
    add(out, "lists ")?;
    add_number(out, all.lists)?;
    add(out, " todos ")?;
    add_number(out, all.todos)?;
    add(out, " shares ")?;
    add_number(out, all.shares)?;
    add(out, "\n")
}
