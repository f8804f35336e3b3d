// Lines that look like chance, each drawn by what a plain server has answered to those before it.
use crate::plain_server::PlainServer;
use crate::story::{CLIENTS, GROUPS, Story};
use rv_base::{Id, Memory, TextRefusal};
use rv_book::Entry;
use rv_plain::PlainBook;
use std::alloc::Global;
use trial_stage::Part::{Number, Text};
use trial_stage::calls::{self, USERS, name};
use trial_stage::{append_parts, joined};

// The last mutation id of a client.
fn last(alloc: Global, plain: &PlainServer, client: &str) -> Result<u64, Memory> {
    match Id::new(alloc, client) {
        Ok(client) => Ok(rv_plain::last(plain.book(), &client)),
        Err(TextRefusal::Memory) => Err(Memory),
        Err(_) => Ok(0),
    }
}

// Adds one mutation of a client, or two, one after the other.
fn add_mutations(
    alloc: Global,
    text: &mut String,
    plain: &PlainServer,
    story: &mut Story,
    user: usize,
    client: &str,
) -> Result<(), Memory> {
    let id = story.id_after(last(alloc, plain, client)?);
    calls::add_mutation(alloc, text, &mut story.draws, user, client, id)?;
    if !story.draws.once_in(4) {
        return Ok(());
    }
    append_parts(alloc, text, &[Text(",")])?;
    let next = id.saturating_add(1);
    calls::add_mutation(alloc, text, &mut story.draws, user, client, next)
}

// The name of a group or a client, by the letter of its kind and its number.
fn name_of(alloc: Global, letter: &str, number: usize, age: usize) -> Result<String, Memory> {
    joined(
        alloc,
        &[
            Text(letter),
            Number(number as u64),
            Text("x"),
            Number(age as u64),
        ],
    )
}

fn group_name(alloc: Global, story: &mut Story, group: usize) -> Result<String, Memory> {
    let age = story.age(group);
    name_of(alloc, "g", group, age)
}

// The mutations of a client, which goes with the group of its number.
fn mutations(
    alloc: Global,
    plain: &PlainServer,
    story: &mut Story,
    user: usize,
    client: usize,
) -> Result<String, Memory> {
    let age = story.age(client % GROUPS);
    let client = name_of(alloc, "c", client, age)?;
    let mut text = String::new(alloc);
    add_mutations(alloc, &mut text, plain, story, user, client.as_str())?;
    Ok(text)
}

fn add_push(
    alloc: Global,
    text: &mut String,
    plain: &PlainServer,
    story: &mut Story,
) -> Result<(), Memory> {
    let client = story.draws.below(CLIENTS);
    let group = story.mostly(client % GROUPS, GROUPS);
    let user = story.mostly(group % USERS, USERS);
    let mutations = mutations(alloc, plain, story, user, client)?;
    let group = group_name(alloc, story, group)?;
    let body = calls::push(alloc, group.as_str(), mutations.as_str())?;
    calls::add_line(alloc, text, name(user), "push", body.as_str())
}

// The order of a look, if it is of this group, or any where none is named.
fn order_of(entry: &Entry, group: Option<&str>) -> Option<u64> {
    match entry {
        Entry::Look {
            group: other,
            order,
            ..
        } => match group {
            Some(group) if group != other.as_str() => None,
            _ => Some(order.get()),
        },
        Entry::Act { .. } => None,
        Entry::Retire { .. } => None,
    }
}

// The place and the order of the look so many looks back, of this group or of any.
fn look_back(book: &PlainBook, group: Option<&str>, many: usize) -> Option<(u32, u64)> {
    let mut left = many;
    let mut place = book.len();
    for entry in book.entries().iter().rev() {
        if let Some(order) = order_of(entry, group) {
            if left == 0 {
                return Some((place, order));
            }
            left = left.saturating_sub(1);
        }
        place = place.saturating_sub(1);
    }
    None
}

// The cookie of a look, with so much added to its order, or null.
fn cookie_text(alloc: Global, look: Option<(u32, u64)>, more: usize) -> Result<String, Memory> {
    match look {
        Some((place, order)) => joined(
            alloc,
            &[
                Text("{\"cvrID\":\""),
                Number(u64::from(place)),
                Text("\",\"order\":"),
                Number(order.saturating_add(more as u64)),
                Text("}"),
            ],
        ),
        None => joined(alloc, &[Text("null")]),
    }
}

// The cookie of a pull: mostly the last of its group, and now and then an older one, one of any group, one of another order, none,
// or a number; and once the book was closed, one from before.
fn cookie(
    alloc: Global,
    plain: &PlainServer,
    story: &mut Story,
    group: &str,
) -> Result<String, Memory> {
    if let Some(look) = story.earlier_look(group) {
        return cookie_text(alloc, Some(look), 0);
    }
    let book = plain.book();
    let far = story.draws.below(20);
    match story.draws.below(20) {
        0..=10 => cookie_text(alloc, look_back(book, Some(group), 0), 0),
        11..=13 => cookie_text(alloc, look_back(book, Some(group), far), 0),
        14..=16 => cookie_text(alloc, look_back(book, None, far / 4), 0),
        17 => cookie_text(alloc, look_back(book, Some(group), 0), far),
        18 => joined(alloc, &[Number(far as u64)]),
        _ => cookie_text(alloc, None, 0),
    }
}

fn add_pull(
    alloc: Global,
    text: &mut String,
    plain: &PlainServer,
    story: &mut Story,
) -> Result<(), Memory> {
    let group = story.draws.below(GROUPS);
    let user = story.mostly(group % USERS, USERS);
    let group = group_name(alloc, story, group)?;
    let cookie = cookie(alloc, plain, story, group.as_str())?;
    let body = calls::pull(alloc, group.as_str(), cookie.as_str())?;
    calls::add_line(alloc, text, name(user), "pull", body.as_str())
}

fn add_retirement(alloc: Global, text: &mut String, story: &mut Story) -> Result<(), Memory> {
    let group = story.draws.below(GROUPS);
    let name = group_name(alloc, story, group)?;
    story.retires(group)?;
    append_parts(
        alloc,
        text,
        &[Text("{\"retire\":\""), Text(name.as_str()), Text("\"}\n")],
    )
}

/// Adds the line that closes the book. Its looks are remembered.
pub fn add_closing(
    alloc: Global,
    text: &mut String,
    book: &PlainBook,
    story: &mut Story,
) -> Result<(), Memory> {
    let mut place = book.page().at;
    for entry in book.entries() {
        place = place.saturating_add(1);
        if let Entry::Look { group, order, .. } = entry {
            let group = joined(alloc, &[Text(group.as_str())])?;
            story.closes(group, place, order.get())?;
        }
    }
    append_parts(alloc, text, &[Text("{\"closeBook\":true}\n")])
}

/// Adds the next line, with LF at its end.
pub fn add_line(
    alloc: Global,
    text: &mut String,
    plain: &PlainServer,
    story: &mut Story,
) -> Result<(), Memory> {
    match story.draws.below(60) {
        0 => add_retirement(alloc, text, story),
        1..=32 => add_push(alloc, text, plain, story),
        _ => add_pull(alloc, text, plain, story),
    }
}
