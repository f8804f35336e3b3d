// That values are of the form that is kept. Their types have it so, and these functions do nothing: their contracts say it where a proof
// asks for it, since the tool tells what an invariant says only where a method of the type is called.
ghost use Rattle.std.specs.Prelude.{◌<◌, ◌^◌};
ghost use Rattle.rv_rows.specs.RowTexts.{RowIsWithin};
ghost use Rattle.rv_record.specs.CellReading.{ClientFits, GroupFits, IsText, PageFits};
ghost use Rattle.rv_record.specs.EntryReading.{CallFits, EntryFits, IfThere, ListsFit};
ghost use Rattle.rv_record.specs.RowReading.{HasTexts, RowFits};

use rv_base::{Bounded, Id, Num, Text, User};
use rv_book::Entry;
use rv_rows::{Call, Lists, Row};

// A text is within its bounds, and UTF-8.
fn text_fits<const MIN: usize, const MAX: usize>(text: &Bounded<MIN, MAX>)
    ensures { IsText MIN MAX text.now }
{
    text.fits();
}

/// An id is within its bounds, and UTF-8.
pub fn id_fits(id: &Id)
    ensures { IsText 1 128 id.now }
{
    text_fits(id);
}

fn user_fits(user: &User)
    ensures { IsText 1 64 user.now }
{
    text_fits(user);
}

fn words_fit(text: &Text)
    ensures { IsText 0 16384 text.now }
{
    text_fits(text);
}

fn number_fits(number: Num)
    ensures { number < 2 ^ 53 }
{
    number.fits();
}

fn words_fit_if_there(text: &Option<Text>)
    ensures { IfThere (IsText 0 16384) text.now }
{
    if let Some(text) = text {
        words_fit(text);
    }
}

fn number_fits_if_there(number: Option<Num>)
    ensures { IfThere (λ n. n < 2 ^ 53) number }
{
    if let Some(number) = number {
        number_fits(number);
    }
}

fn update_fits(id: &Id, text: &Option<Text>, sort: Option<Num>)
    ensures { IsText 1 128 id.now × IfThere (IsText 0 16384) text.now × IfThere (λ n. n < 2 ^ 53) sort }
{
    id_fits(id);
    words_fit_if_there(text);
    number_fits_if_there(sort);
}

fn lists_fit_if_there(lists: &Option<Lists>)
    ensures { IfThere ListsFit lists.now }
{
    if let Some(lists) = lists {
        lists.ids_fit();
    }
}

fn call_fits(call: &Call)
    ensures { CallFits call.now }
{
    match call {
        Call::CreateList { id, name, owner } => {
            id_fits(id);
            words_fit(name);
            user_fits(owner);
        }
        Call::DeleteList { id } => id_fits(id),
        Call::CreateShare { id, list, user, .. } => {
            id_fits(id);
            id_fits(list);
            user_fits(user);
        }
        Call::UpdateShare { id, .. } => id_fits(id),
        Call::DeleteShare { id } => id_fits(id),
        Call::CreateTodo { id, list, text, .. } => {
            id_fits(id);
            id_fits(list);
            words_fit(text);
        }
        Call::UpdateTodo { id, text, sort, .. } => update_fits(id, text, *sort),
        Call::DeleteTodo { id } => id_fits(id),
        Call::SetExtent { lists } => lists_fit_if_there(lists),
        Call::Void(_) => {}
    }
}

/// The texts and the numbers of an act are within their bounds, and its texts are UTF-8.
pub fn act_fits(user: &User, group: &Id, client: &Id, id: Num, call: &Call)
    ensures { IsText 1 64 user.now × IsText 1 128 group.now × IsText 1 128 client.now × (id < 2 ^ 53) × CallFits call.now }
{
    user_fits(user);
    id_fits(group);
    id_fits(client);
    number_fits(id);
    call_fits(call);
}

/// The texts and the numbers of a look are within their bounds, and its texts are UTF-8.
pub fn look_fits(user: &User, group: &Id, order: Num, base: Option<u32>)
    ensures { IsText 1 64 user.now × IsText 1 128 group.now × (order < 2 ^ 53) × IfThere (λ n. n < 2 ^ 32) base }
{
    user_fits(user);
    id_fits(group);
    number_fits(order);
    place_fits_if_there(base);
}

fn place_fits_if_there(place: Option<u32>)
    ensures { IfThere (λ n. n < 2 ^ 32) place }
{
    if let Some(_place) = place {}
}

/// The texts and the numbers of an entry are within their bounds, and its texts are UTF-8.
pub fn entry_fits(entry: &Entry)
    ensures { EntryFits entry.now }
{
    match entry {
        Entry::Act {
            user,
            group,
            client,
            id,
            call,
        } => act_fits(user, group, client, *id, call),
        Entry::Look {
            user,
            group,
            order,
            base,
        } => look_fits(user, group, *order, *base),
        Entry::Retire { group } => id_fits(group),
    }
}

/// A place is one of a page's cell.
pub fn place_fits(place: u32)
    ensures { PageFits place }
{
    let _place = place;
}

/// The texts and the numbers of a row are within their bounds, and its texts are UTF-8.
pub fn texts_fit(row: &Row)
    ensures { RowIsWithin row.now × HasTexts row.now }
{
    match row {
        Row::Extent(row) => {
            user_fits(&row.user);
            row.lists.ids_fit();
        }
        Row::List(row) => {
            id_fits(&row.id);
            words_fit(&row.name);
            user_fits(&row.owner);
        }
        Row::Share(row) => {
            id_fits(&row.id);
            id_fits(&row.list);
            user_fits(&row.user);
        }
        Row::Todo(row) => {
            id_fits(&row.id);
            id_fits(&row.list);
            words_fit(&row.text);
            number_fits(row.sort);
        }
    }
}

/// A row with its version is of the form of a cell's.
pub fn row_fits(row: &Row, version: u32)
    ensures { RowFits (row.now, version) }
{
    texts_fit(row);
}

/// A client with its group and its last mutation id is of the form of a cell's.
pub fn client_fits(client: &Id, group: &Id, last: Num)
    ensures { ClientFits (client.now, group.now, last) }
{
    id_fits(client);
    id_fits(group);
    number_fits(last);
}

/// A group with its user, the order of its last look and whether it is retired is of the form of a cell's.
pub fn group_fits(group: &Id, user: &User, order: Num, retired: bool)
    ensures { GroupFits (group.now, user.now, order, retired) }
{
    id_fits(group);
    user_fits(user);
    number_fits(order);
}
