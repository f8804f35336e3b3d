// Marks of users, beside those that are computed entry by entry: from what each user sees before an entry and after it.
use crate::feeding::drawn_server;
use rv_base::{Memory, User};
use rv_book::Entry;
use rv_desk::{Desk, OpenFault};
use rv_keeper::{Keeper, MemoryKeeper};
use rv_plain::PlainBook;
use rv_turns::{Asked, Cookie, Outcome, PullRequest, Turns};
use std::alloc::Global;
use trial_stage::Part::{Number, Text};
use trial_stage::calls::{USERS, name};
use trial_stage::{append_parts, first_word, joined, number_in};

// The most entries of a book.
const LIMIT: u32 = u32::MAX;

// A user, what the user sees, as text, and the mark.
#[derive(Drop)]
struct Plain {
    user: User,
    sees: String,
    mark: u64,
}

// The users of drawn lines before the first entry.
fn nobody_marked(alloc: Global) -> Result<Vec<Plain>, Memory> {
    let mut all = Vec::new(alloc);
    for number in 0..USERS {
        let Ok(user) = User::new(alloc, name(number)) else {
            return Err(Memory);
        };
        all.push(Plain {
            user,
            sees: shown(alloc, &[], number)?,
            mark: 0,
        })?;
    }
    Ok(all)
}

// What the user with a number sees at these entries.
fn shown(alloc: Global, entries: &[Entry], number: usize) -> Result<String, Memory> {
    let Ok(user) = User::new(alloc, name(number)) else {
        return Err(Memory);
    };
    let many = entries.len().min(u32::MAX as usize);
    let book = PlainBook::of_entries(alloc, &entries[..many])?;
    let rows = rv_plain::rows_of(alloc, &book)?;
    let seen = rv_plain::seen(alloc, &rows, &user)?;
    Ok(format!(in alloc; "{seen:?}")?)
}

fn is_act_by(entry: &Entry, user: &User) -> bool {
    match entry {
        Entry::Act { user: by, .. } => by == user,
        Entry::Look { .. } => false,
        Entry::Retire { .. } => false,
    }
}

// The marks after the last of these entries, from those before it.
fn mark_last(alloc: Global, all: &mut [Plain], entries: &[Entry]) -> Result<(), Memory> {
    let Some(last) = entries.last() else {
        return Ok(());
    };
    for (number, plain) in all.iter_mut().enumerate() {
        let sees = shown(alloc, entries, number)?;
        if is_act_by(last, &plain.user) || sees != plain.sees {
            plain.mark = entries.len() as u64;
        }
        plain.sees = sees;
    }
    Ok(())
}

// The turn that makes such an entry.
fn take(alloc: Global, desk: &mut Desk<MemoryKeeper>, entry: &Entry) -> Result<Outcome, Memory> {
    match entry {
        Entry::Act {
            user,
            group,
            client,
            id,
            call,
        } => Ok(desk.mutate(user, group, client, *id, call.copy(alloc)?)),
        Entry::Look { user, group, .. } => {
            let request = PullRequest {
                group: group.copy(alloc)?,
                cookie: Cookie::Null,
            };
            Ok(desk.take(Asked::Pull {
                user,
                request: &request,
            }))
        }
        Entry::Retire { group } => Ok(desk.retire(group)),
    }
}

// The marks that a desk tells otherwise, with the number of its entries.
fn add_differences(
    alloc: Global,
    text: &mut String,
    desk: &Desk<MemoryKeeper>,
    all: &[Plain],
) -> Result<(), Memory> {
    for plain in all {
        let mark = u64::from(desk.mark(&plain.user));
        if mark != plain.mark {
            append_parts(
                alloc,
                text,
                &[
                    Text("at "),
                    Number(u64::from(desk.book().len())),
                    Text(" the mark of "),
                    Text(plain.user.as_str()),
                    Text(" is "),
                    Number(mark),
                    Text(" and not "),
                    Number(plain.mark),
                    Text("\n"),
                ],
            )?;
        }
    }
    Ok(())
}

// Plays the entries on a desk, and compares its marks after each.
fn played(
    alloc: Global,
    text: &mut String,
    desk: &mut Desk<MemoryKeeper>,
    all: &mut Vec<Plain>,
    entries: &[Entry],
) -> Result<(), Memory> {
    for number in 0..entries.len() {
        let _ = take(alloc, desk, &entries[number])?;
        mark_last(alloc, all, &entries[..number + 1])?;
        add_differences(alloc, text, desk, all)?;
    }
    Ok(())
}

fn opened(alloc: Global, keeper: MemoryKeeper) -> Result<Desk<MemoryKeeper>, Memory> {
    match Desk::open(alloc, keeper, LIMIT) {
        Ok(desk) => Ok(desk),
        Err((OpenFault::Memory, _)) => Err(Memory),
        Err(_) => Err(Memory),
    }
}

// Adds what a desk tells otherwise of these entries, and what one does that is opened from what the first has kept.
fn add_all(
    alloc: Global,
    text: &mut String,
    all: &mut Vec<Plain>,
    entries: &[Entry],
) -> Result<(), Memory> {
    let mut desk = opened(alloc, MemoryKeeper::new(alloc, Vec::new(alloc)))?;
    let played = played(alloc, text, &mut desk, all, entries);
    let keeper = desk.close();
    played?;
    let desk = opened(alloc, keeper)?;
    let again = add_differences(alloc, text, &desk, all);
    let _keeper = desk.close();
    again
}

// The marks of these entries, and what desks tell otherwise.
fn told(alloc: Global, entries: &[Entry]) -> Result<String, Memory> {
    let mut all = nobody_marked(alloc)?;
    let mut differences = String::new(alloc);
    add_all(alloc, &mut differences, &mut all, entries)?;
    let mut text = joined(
        alloc,
        &[Number(entries.len() as u64), Text(" entries, marks")],
    )?;
    for plain in &all {
        append_parts(
            alloc,
            &mut text,
            &[
                Text(" "),
                Text(plain.user.as_str()),
                Text(" "),
                Number(plain.mark),
            ],
        )?;
    }
    text.push_str("\n")?;
    text.push_str(differences.as_str())?;
    Ok(text)
}

/// `SEED N`: how many entries come of so many lines that are drawn by the seed, and the marks of the users at their end. A desk must tell
/// the same marks after each entry, and again when it was closed and opened.
pub fn compared(alloc: Global, words: &str) -> Result<Option<String>, Memory> {
    let (seed, words) = first_word(words);
    let (many, _) = first_word(words);
    match (number_in(seed), number_in(many)) {
        (Some(seed), Some(many)) => {
            let plain = drawn_server(alloc, seed, many)?;
            Ok(Some(told(alloc, plain.book().entries())?))
        }
        _ => Ok(None),
    }
}
