// The changes of the cells of view records that go.
ghost use Rattle.std.specs.Prelude.{◌≡◌, ◌++◌, OnOk, IfOk};
ghost use Rattle.rv_book.specs.Kept.{is_look_at};
ghost use Rattle.rv_keeper.specs.declared.change.Change.TheVariants as Change;
ghost use Rattle.rv_record.specs.CellTexts.{ten_digits};
ghost use Rattle.rv_store.specs.EntryChanges.{gone_view, gone_views};

use rv_base::{Id, Memory};
use rv_book::Book;
use rv_keeper::{Change, Shelf};
use rv_news::Records;
use rv_record::ten_digits;
use std::alloc::Global;

// The view record of the look at a place is removed.
fn removed_view(alloc: Global, place: u32) -> Result<Change, Memory>
    ensures { IfOk result (λ change. change ≡ Change.Remove 5 (ten_digits place)) }
{
    Ok(Change::Remove(Shelf::Views.number(), ten_digits(alloc, place)?))
}

// The view record of the look at a place is removed, if there is a place.
pub(crate) fn add_gone_view(
    alloc: Global,
    changes: &mut Vec<Change>,
    place: Option<u32>,
) -> Result<(), Memory>
    ensures { OnOk result (changes.new.items ≡ changes.old.items ++ gone_view place) }
{
    match place {
        Some(place) => {
            changes.push(removed_view(alloc, place)?)?;
            Ok(())
        }
        None => Ok(()),
    }
}

// Whether the look at a place is of the group.
fn is_look_of(book: &Book, place: u32, group: &Id) -> bool
    ensures { result ≡ is_look_at group.now book.now.book place }
{
    match book.look(place) {
        Some(look) => *look.group == *group,
        None => false,
    }
}

// Of these view records those of looks of the group are removed.
pub(crate) fn add_gone_views(
    alloc: Global,
    changes: &mut Vec<Change>,
    book: &Book,
    records: &Records,
    group: &Id,
) -> Result<(), Memory>
    ensures { OnOk result (changes.new.items ≡ changes.old.items ++ gone_views group.now book.now.book records.now.records) }
{
    for (place, _) in records.as_slice() {
        if is_look_of(book, *place, group) {
            changes.push(removed_view(alloc, *place)?)?;
        }
    }
    Ok(())
}
