// The changes of cells that what is entered makes.
ghost use Rattle.std.specs.Prelude.{◌≡◌, ◌++◌, IfOk, OnOk};
ghost use Rattle.rv_book.specs.declared.entry.Entry.TheVariants as entries;
ghost use Rattle.rv_keeper.specs.declared.change.Change.TheVariants as Change;
ghost use Rattle.rv_rows.specs.Keys.{key_text};
ghost use Rattle.rv_history.specs.Served.{Next};
ghost use Rattle.rv_state.specs.declared.prepared.Prepared.TheVariants as Prepared;
ghost use Rattle.rv_state.specs.Ready.{IsPrepared, act_entry, look_entry, next_of};
ghost use Rattle.rv_store.specs.EntryChanges.{Enters, first_group, removed_rows, row_changes, written_rows};

use crate::closing::closing_changes;
use crate::view_changes::{add_gone_view, add_gone_views};
use rv_base::{Id, Memory, Sequence, User};
use rv_book::Book;
use rv_keeper::{Change, Shelf};
use rv_mutators::Staged;
use rv_record::{
    cell_of_act, cell_of_client, cell_of_group, cell_of_look, cell_of_retirement, cell_of_row,
    cell_of_view,
};
use rv_rows::{Key, Row};
use rv_state::{Prepared, PreparedAct, PreparedLook, State};
use std::alloc::Global;

// The row of a key is removed.
fn removed_row(alloc: Global, key: &Key) -> Result<Change, Memory>
    ensures { IfOk result (λ change. change ≡ Change.Remove 2 (key_text key.now)) }
{
    let text = key.kind.key_text(alloc, key.id.as_str())?;
    Ok(Change::Remove(Shelf::Rows.number(), Sequence::from_vec(text.into_bytes())))
}

// The rows of the keys are removed.
fn add_removed_rows(alloc: Global, changes: &mut Vec<Change>, keys: &[Key]) -> Result<(), Memory>
    ensures { OnOk result (changes.new.items ≡ changes.old.items ++ removed_rows keys.now) }
{
    for key in keys {
        changes.push(removed_row(alloc, key)?)?;
    }
    Ok(())
}

// The rows are written with the version.
fn add_written_rows(
    alloc: Global,
    changes: &mut Vec<Change>,
    rows: &[Row],
    version: u32,
) -> Result<(), Memory>
    ensures { OnOk result (changes.new.items ≡ changes.old.items ++ written_rows version rows.now) }
{
    for row in rows {
        changes.push(Change::Put(cell_of_row(alloc, row, version)?))?;
    }
    Ok(())
}

// What an act has staged: the rows of the keys are removed, and the rows are written with the version, the place of the act.
fn add_row_changes(
    alloc: Global,
    changes: &mut Vec<Change>,
    staged: &Staged,
    version: u32,
) -> Result<(), Memory>
    ensures { OnOk result (changes.new.items ≡ changes.old.items ++ row_changes version staged.now) }
{
    add_removed_rows(alloc, changes, staged.keys.as_slice())?;
    add_written_rows(alloc, changes, staged.rows.as_slice(), version)?;
    Ok(())
}

// Writes the cell of a group that is not bound yet; `at` is where its row is looked for first.
fn add_first_group(
    alloc: Global,
    changes: &mut Vec<Change>,
    book: &Book,
    user: &User,
    group: &Id,
    at: usize,
) -> Result<(), Memory>
    ensures { OnOk result (changes.new.items ≡ changes.old.items ++ first_group book.now.book user.now group.now) }
{
    let told = book.group_found(group, at);
    if told.user.is_none() {
        changes.push(Change::Put(cell_of_group(alloc, group, user, told.last_order, false)?))?;
    }
    Ok(())
}

// Those of an act, which writes and removes rows, and whose group is written where the act is its first.
fn act_changes(alloc: Global, state: &State, act: &PreparedAct) -> Result<Vec<Change>, Memory>
    requires { IsPrepared state.now (Prepared.Act act.now) }
    ensures { IfOk result (λ changes. Enters state.now.book (Next.entry (act_entry act.now)) changes.items) }
{
    let PreparedAct {
        user,
        group,
        client,
        id,
        call,
        found,
        staged,
        ..
    } = act;
    let book = state.book();
    let place = book.len() + 1;
    let mut changes = Vec::new(alloc);
    changes.push(Change::Put(cell_of_act(alloc, place, user, group, client, *id, call)?))?;
    add_row_changes(alloc, &mut changes, staged, place)?;
    changes.push(Change::Put(cell_of_client(alloc, client, group, *id)?))?;
    add_first_group(alloc, &mut changes, book, user, group, found.group)?;
    Ok(changes)
}

// Those of a look, which has a view record.
fn look_changes(alloc: Global, state: &State, look: &PreparedLook) -> Result<Vec<Change>, Memory>
    requires { IsPrepared state.now (Prepared.Look look.now) }
    ensures { IfOk result (λ changes. Enters state.now.book (Next.entry (look_entry look.now)) changes.items) }
{
    let PreparedLook {
        user,
        group,
        order,
        base,
        view,
        gone,
        ..
    } = look;
    let book = state.book();
    let place = book.len() + 1;
    let mut changes = Vec::new(alloc);
    changes.push(Change::Put(cell_of_look(alloc, place, user, group, *order, *base)?))?;
    changes.push(Change::Put(cell_of_group(alloc, group, user, *order, false)?))?;
    add_gone_view(alloc, &mut changes, *gone)?;
    changes.push(Change::Put(cell_of_view(alloc, place, view)?))?;
    Ok(changes)
}

// Those of a group's retirement.
fn retirement_changes(alloc: Global, state: &State, group: &Id) -> Result<Vec<Change>, Memory>
    requires { IsPrepared state.now (Prepared.Retirement group.now) }
    ensures { IfOk result (λ changes. Enters state.now.book (Next.entry (entries.Retire group.now)) changes.items) }
{
    let book = state.book();
    let told = book.group(group);
    let Some(user) = told.user else {
        // a group that may be retired is bound
        unreachable!()
    };
    let place = book.len() + 1;
    let mut changes = Vec::new(alloc);
    changes.push(Change::Put(cell_of_retirement(alloc, place, group)?))?;
    changes.push(Change::Put(cell_of_group(alloc, group, user, told.last_order, true)?))?;
    add_gone_views(alloc, &mut changes, book, state.records(), group)?;
    Ok(changes)
}

/// The changes which make of the cells of the state's book those of the book with what is prepared: each place is named
/// once, on shelves from 1. They are as many as the rows that an act writes and removes, or as the kept looks of the group
/// that is retired, and at most four more; those of a closing at most as many as the entries and the kept looks, which go, and as what
/// the two pages have. It fails only where memory is refused.
pub fn changes_for(alloc: Global, state: &State, prepared: &Prepared) -> Result<Vec<Change>, Memory>
    requires { IsPrepared state.now prepared.now }
    ensures { IfOk result (λ changes. Enters state.now.book (next_of prepared.now) changes.items) }
{
    match prepared {
        Prepared::Act(act) => act_changes(alloc, state, act),
        Prepared::Look(look) => look_changes(alloc, state, look),
        Prepared::Retirement(group) => retirement_changes(alloc, state, group),
        Prepared::Closing(closed) => closing_changes(alloc, state, closed),
    }
}
