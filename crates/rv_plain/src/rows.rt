//! Lists of rows: their order, which of them a user sees, and what a call makes of them. Nothing here is a sorted table.
ghost use Rattle.std.specs.Prelude.{◌≡◌, IfOk, OnOk, map};
ghost use Rattle.rv_base.specs.Sorted.{InOrder, put_by, IsPositionOf};
ghost use Rattle.rv_rows.specs.Keys.{key_text, row_text, has_row, in_key_order};
ghost use Rattle.rv_rows.specs.Sharing.{seen};
ghost use Rattle.rv_rows.specs.Effects.{is_at, is_other, is_outside, may_change, is_unchanged, may_set_role, with_role, after_role, may_end, ends, sort_in, greatest_sort, next_sort, with_fields, after_update, replaced, with_row, with_extent, effect};
ghost use Rattle.rv_rows.specs.declared.call.Call.TheVariants.{CreateList, CreateShare, CreateTodo};
ghost use Rattle.rv_rows.specs.declared.row.Row.TheVariants.{Extent};
ghost use Rattle.std.specs.List.{filter, list_any};

use crate::sharing::{has_share, may_edit, may_edit_list_of, owns_list, owns_list_of, sees_row};
use rv_base::{Id, Memory, Num, Text, User};
use rv_rows::{Call, ExtentRow, Kind, ListRow, Lists, Role, Row, ShareRow, TodoRow};
use std::alloc::Global;

/// Whether the row has the key of this kind and id.
pub(crate) fn is_at(kind: Kind, id: &str, row: &Row) -> bool
    ensures { result ≡ is_at kind id.now row.now }
{
    row.kind() == kind && row.id() == id
}

/// Whether some row has the key of this kind and id.
pub(crate) fn has_row(rows: &[Row], kind: Kind, id: &str) -> bool
    ensures { result ≡ has_row (key_text (record { kind = kind; id = id.now })) rows.now }
{
    rows.iter().any(|row| is_at(kind, id, row))
}

// The rows that neither are the list nor belong to it.
#[tactic(auto, using(std::proofs::lemmas::List::Elements::filter_more))]
fn without_list(alloc: Global, rows: &[Row], list: &Id) -> Result<Vec<Row>, Memory>
    ensures { IfOk result (λ v. v.items ≡ filter (is_outside list.now) rows.now) }
{
    let mut kept = Vec::new(alloc);
    for row in rows {
        if !row.belongs(list) {
            kept.push(row.copy(alloc)?)?;
        }
    }
    Ok(kept)
}

// The rows but for the one of this key.
#[tactic(auto, using(std::proofs::lemmas::List::Elements::filter_more))]
fn without_row(alloc: Global, rows: &[Row], kind: Kind, id: &str) -> Result<Vec<Row>, Memory>
    ensures { IfOk result (λ v. v.items ≡ filter (is_other kind id.now) rows.now) }
{
    let mut kept = Vec::new(alloc);
    for row in rows {
        if !is_at(kind, id, row) {
            kept.push(row.copy(alloc)?)?;
        }
    }
    Ok(kept)
}

// Whether the row is this todo, and the user may edit its list.
#[tactic(auto, unfolding(rv_rows::specs::Effects::may_change))]
fn may_change(user: &User, rows: &[Row], id: &Id, row: &Row) -> bool
    ensures { result ≡ may_change user.now rows.now id.now row.now }
{
    is_at(Kind::Todo, id.as_str(), row) && may_edit_list_of(user, rows, row)
}

// The rows but for this todo, where the user may edit its list.
#[tactic(auto, using(std::proofs::lemmas::List::Elements::filter_more))]
fn without_todo(alloc: Global, rows: &[Row], user: &User, id: &Id) -> Result<Vec<Row>, Memory>
    ensures { IfOk result (λ v. v.items ≡ filter (is_unchanged user.now rows.now id.now) rows.now) }
{
    let mut kept = Vec::new(alloc);
    for row in rows {
        if !may_change(user, rows, id, row) {
            kept.push(row.copy(alloc)?)?;
        }
    }
    Ok(kept)
}

// Whether the user may end the share: the user owns its list, or is the one whom it names.
fn may_end(user: &User, rows: &[Row], row: &Row) -> bool
    ensures { result ≡ may_end user.now rows.now row.now }
{
    match row {
        Row::Extent(_) => false,
        Row::List(_) => false,
        Row::Share(row) => owns_list(user, &row.list, rows) || row.user == *user,
        Row::Todo(_) => false,
    }
}

#[tactic(auto, unfolding(rv_rows::specs::Effects::ends))]
fn ends(user: &User, rows: &[Row], id: &Id, row: &Row) -> bool
    ensures { result ≡ ends user.now rows.now id.now row.now }
{
    is_at(Kind::Share, id.as_str(), row) && may_end(user, rows, row)
}

fn ends_any(user: &User, rows: &[Row], id: &Id) -> bool
    ensures { result ≡ list_any (ends user.now rows.now id.now) rows.now }
{
    rows.iter().any(|row| ends(user, rows, id, row))
}

// The sort of a todo of the list, and 0 of any other row.
fn sort_in(list: &Id, row: &Row) -> u64
    ensures { result ≡ sort_in list.now row.now }
{
    match row {
        Row::Extent(_) => 0,
        Row::List(_) => 0,
        Row::Share(_) => 0,
        Row::Todo(row) => { if row.list == *list { row.sort.get() } else { 0 } }
    }
}

// The greatest sort in a list, and 0 where it has no todo.
#[tactic(auto, using(std::proofs::lemmas::List::Sums::fold_more))]
fn greatest_sort(list: &Id, rows: &[Row]) -> u64
    ensures { result ≡ greatest_sort list.now rows.now }
{
    let mut most = 0;
    for row in rows {
        let sort = sort_in(list, row);
        if most < sort {
            most = sort;
        }
    }
    most
}

// The row with the fields that are named, where it is a todo.
fn with_fields(
    alloc: Global,
    text: &Option<Text>,
    complete: Option<bool>,
    sort: Option<Num>,
    row: &Row,
) -> Result<Row, Memory>
    ensures { IfOk result (λ new. new ≡ with_fields text.now complete sort row.now) }
{
    match row {
        Row::Extent(row) => Ok(Row::Extent(row.copy(alloc)?)),
        Row::List(row) => Ok(Row::List(row.copy(alloc)?)),
        Row::Share(row) => Ok(Row::Share(row.copy(alloc)?)),
        Row::Todo(row) => Ok(Row::Todo(row.with_fields(alloc, text, complete, sort)?)),
    }
}

// The rows after a list was asked for.
fn create_list(
    alloc: Global,
    mut rows: Vec<Row>,
    user: &User,
    id: &Id,
    name: &Text,
    owner: &User,
) -> Result<Vec<Row>, Memory>
    ensures { IfOk result (λ new. new.items ≡ effect rows.items user.now (CreateList id.now name.now owner.now)) }
{
    if !has_row(&rows, Kind::List, id.as_str()) && owner == user {
        rows.push(Row::List(ListRow {
            id: id.copy(alloc)?,
            name: name.copy(alloc)?,
            owner: owner.copy(alloc)?,
        }))?;
    }
    Ok(rows)
}

// The rows after a share was asked for.
fn create_share(
    alloc: Global,
    mut rows: Vec<Row>,
    user: &User,
    id: &Id,
    list: &Id,
    other: &User,
    role: Role,
) -> Result<Vec<Row>, Memory>
    ensures { IfOk result (λ new. new.items ≡ effect rows.items user.now (CreateShare id.now list.now other.now role)) }
{
    if owns_list(user, list, &rows)
        && !has_row(&rows, Kind::Share, id.as_str())
        && other != user
        && !has_share(other, list, &rows)
    {
        rows.push(Row::Share(ShareRow {
            id: id.copy(alloc)?,
            list: list.copy(alloc)?,
            user: other.copy(alloc)?,
            role,
        }))?;
    }
    Ok(rows)
}

// Whether the row is this share, and the user owns its list.
#[tactic(auto, unfolding(rv_rows::specs::Effects::may_set_role))]
fn may_set_role(user: &User, rows: &[Row], id: &Id, row: &Row) -> bool
    ensures { result ≡ may_set_role user.now rows.now id.now row.now }
{
    is_at(Kind::Share, id.as_str(), row) && owns_list_of(user, rows, row)
}

// The row with the role, where it is a share.
fn with_role(alloc: Global, role: Role, row: &Row) -> Result<Row, Memory>
    ensures { IfOk result (λ new. new ≡ with_role role row.now) }
{
    match row {
        Row::Extent(row) => Ok(Row::Extent(row.copy(alloc)?)),
        Row::List(row) => Ok(Row::List(row.copy(alloc)?)),
        Row::Share(row) => Ok(Row::Share(row.with_role(alloc, role)?)),
        Row::Todo(row) => Ok(Row::Todo(row.copy(alloc)?)),
    }
}

// The rows after a share's role was asked for.
#[tactic(auto, using(std::proofs::lemmas::List::map_more))]
fn update_share(
    alloc: Global,
    rows: &[Row],
    user: &User,
    id: &Id,
    role: Role,
) -> Result<Vec<Row>, Memory>
    ensures { IfOk result (λ v. v.items ≡ map (after_role user.now rows.now id.now role) rows.now) }
{
    let mut updated = Vec::new(alloc);
    for row in rows {
        if may_set_role(user, rows, id, row) {
            updated.push(with_role(alloc, role, row)?)?;
        } else {
            updated.push(row.copy(alloc)?)?;
        }
    }
    Ok(updated)
}

// The rows after a todo was asked for.
fn create_todo(
    alloc: Global,
    mut rows: Vec<Row>,
    user: &User,
    id: &Id,
    list: &Id,
    text: &Text,
    complete: bool,
) -> Result<Vec<Row>, Memory>
    ensures { IfOk result (λ new. new.items ≡ effect rows.items user.now (CreateTodo id.now list.now text.now complete)) }
{
    if !has_row(&rows, Kind::Todo, id.as_str()) && may_edit(user, list, &rows) {
        let sort = TodoRow::sort_after(greatest_sort(list, &rows));
        rows.push(Row::Todo(TodoRow {
            id: id.copy(alloc)?,
            list: list.copy(alloc)?,
            text: text.copy(alloc)?,
            complete,
            sort,
        }))?;
    }
    Ok(rows)
}

// The rows after an update was asked for.
#[tactic(auto, using(std::proofs::lemmas::List::map_more))]
fn update_todo(
    alloc: Global,
    rows: &[Row],
    user: &User,
    id: &Id,
    text: &Option<Text>,
    complete: Option<bool>,
    sort: Option<Num>,
) -> Result<Vec<Row>, Memory>
    ensures { IfOk result (λ v. v.items ≡ map (after_update user.now rows.now id.now text.now complete sort) rows.now) }
{
    let mut updated = Vec::new(alloc);
    for row in rows {
        if may_change(user, rows, id, row) {
            updated.push(with_fields(alloc, text, complete, sort, row)?)?;
        } else {
            updated.push(row.copy(alloc)?)?;
        }
    }
    Ok(updated)
}

// The user's extent of these lists.
fn extent_of(alloc: Global, user: &User, lists: &Lists) -> Result<Row, Memory>
    ensures { IfOk result (λ row. row ≡ Extent (record { user = user.now; lists = lists.now })) }
{
    Ok(Row::Extent(ExtentRow {
        user: user.copy(alloc)?,
        lists: lists.copy(alloc)?,
    }))
}

// The rows with the new one in the place of the one that has its key.
#[tactic(auto, using(std::proofs::lemmas::List::map_more))]
fn replaced(alloc: Global, rows: &[Row], new: &Row) -> Result<Vec<Row>, Memory>
    ensures { IfOk result (λ v. v.items ≡ map (replaced new.now) rows.now) }
{
    let mut changed = Vec::new(alloc);
    for row in rows {
        if is_at(new.kind(), new.id(), row) {
            changed.push(new.copy(alloc)?)?;
        } else {
            changed.push(row.copy(alloc)?)?;
        }
    }
    Ok(changed)
}

// The rows with the new one: in the place of the one that has its key, and at the end where none has it.
fn with_row(alloc: Global, mut rows: Vec<Row>, new: Row) -> Result<Vec<Row>, Memory>
    ensures { IfOk result (λ v. v.items ≡ with_row new rows.items) }
{
    if has_row(&rows, new.kind(), new.id()) {
        return replaced(alloc, &rows, &new);
    }
    rows.push(new)?;
    Ok(rows)
}

// The rows with the user's extent of these lists, or with none.
fn with_extent(
    alloc: Global,
    rows: Vec<Row>,
    user: &User,
    lists: &Option<Lists>,
) -> Result<Vec<Row>, Memory>
    ensures { IfOk result (λ v. v.items ≡ with_extent user.now lists.now rows.items) }
{
    match lists {
        Some(lists) => {
            let new = extent_of(alloc, user, lists)?;
            with_row(alloc, rows, new)
        }
        None => without_row(alloc, &rows, Kind::Extent, user.as_str()),
    }
}

/// The rows after a call of the user.
pub(crate) fn effect(
    alloc: Global,
    rows: Vec<Row>,
    user: &User,
    call: &Call,
) -> Result<Vec<Row>, Memory>
    ensures { IfOk result (λ new. new.items ≡ effect rows.items user.now call.now) }
{
    match call {
        Call::CreateList { id, name, owner } => create_list(alloc, rows, user, id, name, owner),
        Call::DeleteList { id } => {
            if owns_list(user, id, &rows) {
                without_list(alloc, &rows, id)
            } else {
                Ok(rows)
            }
        }
        Call::CreateShare {
            id,
            list,
            user: other,
            role,
        } => create_share(alloc, rows, user, id, list, other, *role),
        Call::UpdateShare { id, role } => update_share(alloc, &rows, user, id, *role),
        Call::DeleteShare { id } => {
            if ends_any(user, &rows, id) {
                without_row(alloc, &rows, Kind::Share, id.as_str())
            } else {
                Ok(rows)
            }
        }
        Call::CreateTodo {
            id,
            list,
            text,
            complete,
        } => create_todo(alloc, rows, user, id, list, text, *complete),
        Call::UpdateTodo {
            id,
            text,
            complete,
            sort,
        } => update_todo(alloc, &rows, user, id, text, *complete, *sort),
        Call::DeleteTodo { id } => without_todo(alloc, &rows, user, id),
        Call::SetExtent { lists } => with_extent(alloc, rows, user, lists),
        Call::Void(_) => Ok(rows),
    }
}

// Where the row of a key stands, or where it would go.
fn place(rows: &[Row], row: &Row) -> Result<usize, usize>
    requires { InOrder row_text rows.now }
    ensures { IsPositionOf row_text (row_text row.now) rows.now result }
{
    rows.binary_search_by(|other| other.compare_key(row.kind(), row.id()))
}

// Writes a row into rows that stand in the order of their keys.
fn put(rows: &mut Vec<Row>, row: Row) -> Result<(), Memory>
    requires { InOrder row_text rows.old.items }
    ensures rows { OnOk result (rows.new.items ≡ put_by row_text row rows.old.items) }
    ensures order { OnOk result (InOrder row_text rows.new.items) }
{
    match place(rows, &row) {
        Ok(at) => {
            rows[at] = row;
            Ok(())
        }
        Err(at) => {
            rows.insert(at, row)?;
            Ok(())
        }
    }
}

/// The rows in the order of their keys.
#[tactic(auto, using(std::proofs::lemmas::List::Sums::fold_more))]
pub(crate) fn in_key_order(alloc: Global, rows: &[Row]) -> Result<Vec<Row>, Memory>
    ensures rows { IfOk result (λ v. v.items ≡ in_key_order rows.now) }
    ensures order { IfOk result (λ v. InOrder row_text v.items) }
{
    let mut sorted = Vec::new(alloc);
    for row in rows {
        put(&mut sorted, row.copy(alloc)?)?;
    }
    Ok(sorted)
}

/// The rows that the user sees, in the order of their keys.
#[tactic(auto, using(std::proofs::lemmas::List::Elements::filter_more))]
pub fn seen(alloc: Global, rows: &[Row], user: &User) -> Result<Vec<Row>, Memory>
    ensures { IfOk result (λ v. v.items ≡ seen user.now rows.now) }
{
    let sorted = in_key_order(alloc, rows)?;
    let mut seen = Vec::new(alloc);
    for row in &sorted {
        if sees_row(user, rows, row) {
            seen.push(row.copy(alloc)?)?;
        }
    }
    Ok(seen)
}
