// The users who have an act or a look, and the groups that the page, an act or a look names, each once in the order of their bytes.
ghost use Rattle.std.specs.Prelude.{◌≡◌, ℕ, List, IfOk, OnOk, map, option_map};
ghost use Rattle.std.specs.Option.{option_map_or};
ghost use Rattle.rv_base.specs.Sorted.{put_by};
ghost use Rattle.rv_report.specs.Activity.{entry_user, group_ids, in_order, named_group, page_groups};
ghost use Rattle.rv_report.specs.Tallies.{tallied_with, tallied_key, tallies_of, tally_in, MayRise};
ghost use Rattle.rv_report.specs.Shown.{shown_groups, shown_users};

use crate::tally::Tally;
use rv_base::{Id, Memory, Num, User};
use rv_book::{Book, Entry};
use std::alloc::Global;
use std::collections::{BTreeMap, BTreeSet};

/// How much each user did, of those who have an act or a look.
pub(crate) type Tallies<'b> = BTreeMap<&'b User, Tally>;

/// Groups.
pub(crate) type Groups<'b> = BTreeSet<&'b Id>;

// Who made an act or a look.
fn entry_user(entry: &Entry) -> Option<&User>
    ensures { option_map (λ user. user.now) result ≡ entry_user entry.now }
{
    match entry {
        Entry::Act { user, .. } => Some(user),
        Entry::Look { user, .. } => Some(user),
        Entry::Retire { .. } => None,
    }
}

// The group that an act or a look names.
fn named_group(entry: &Entry) -> Option<&Id>
    ensures { option_map (λ group. group.now) result ≡ named_group entry.now }
{
    match entry {
        Entry::Act { group, .. } => Some(group),
        Entry::Look { group, .. } => Some(group),
        Entry::Retire { .. } => None,
    }
}

// The tally of a user so far.
fn tally<'b>(tallies: &Tallies<'b>, user: &'b User) -> Tally
    ensures { result ≡ tally_in user.now (shown_users tallies.now.entries) }
{
    match tallies.get(&user) {
        Some(tally) => *tally,
        None => Tally::new(),
    }
}

// Sets the tally of a user.
fn put<'b>(tallies: &mut Tallies<'b>, user: &'b User, tally: Tally) -> Result<(), Memory>
    ensures { OnOk result (shown_users tallies.new.entries ≡ put_by tallied_key (user.now, tally) (shown_users tallies.old.entries)) }
{
    match tallies.insert(user, tally) {
        Ok(_) => Ok(()),
        Err(_) => Err(Memory),
    }
}

// Counts one more entry.
fn count<'b>(tallies: &mut Tallies<'b>, entry: &'b Entry) -> Result<(), Memory>
    requires { (user : List ℕ) → MayRise (tally_in user (shown_users tallies.old.entries)) }
    ensures { OnOk result (shown_users tallies.new.entries ≡ tallied_with entry.now (shown_users tallies.old.entries)) }
{
    match entry_user(entry) {
        Some(user) => {
            let tally = tally(tallies, user).with(entry);
            put(tallies, user, tally)
        }
        None => Ok(()),
    }
}

// Adds a group, where it is not there yet.
fn put_group<'b>(groups: &mut Groups<'b>, group: &'b Id) -> Result<(), Memory>
    ensures { OnOk result (shown_groups groups.new.keys ≡ put_by (λ text. text) group.now (shown_groups groups.old.keys)) }
{
    match groups.insert(group) {
        Ok(_) => Ok(()),
        Err(_) => Err(Memory),
    }
}

// Adds the group that an act or a look names.
fn add<'b>(groups: &mut Groups<'b>, entry: &'b Entry) -> Result<(), Memory>
    ensures { OnOk result (shown_groups groups.new.keys ≡ option_map_or (λ group. put_by (λ text. text) group (shown_groups groups.old.keys)) (named_group entry.now) (shown_groups groups.old.keys)) }
{
    match named_group(entry) {
        Some(group) => put_group(groups, group),
        None => Ok(()),
    }
}

// The names of the groups.
fn names(alloc: Global, groups: &[(Id, User, Num, bool)]) -> Result<Groups<'_>, Memory>
    ensures { IfOk result (λ names. shown_groups names.keys ≡ in_order (map (λ group. group.0) groups.now)) }
{
    let mut names = BTreeSet::new(alloc);
    for group in groups {
        put_group(&mut names, &group.0)?;
    }
    Ok(names)
}

// The groups of the book's page, if it has one.
fn page_groups(alloc: Global, book: &Book) -> Result<Groups<'_>, Memory>
    ensures { IfOk result (λ groups. shown_groups groups.keys ≡ in_order (page_groups book.now.book.page)) }
{
    match book.page() {
        Some(page) => names(alloc, page.groups.as_slice()),
        None => Ok(BTreeSet::new(alloc)),
    }
}

/// The users who have an act or a look since the book's page, each with its tally, and the groups that the page, an act or a look names:
/// one walk of the page's groups and the entries.
pub(crate) fn walk(alloc: Global, book: &Book) -> Result<(Tallies<'_>, Groups<'_>), Memory>
    ensures { IfOk result (λ told. (shown_users told.0.entries ≡ tallies_of book.now.book) × (shown_groups told.1.keys ≡ group_ids book.now.book)) }
{
    let mut tallies = BTreeMap::new(alloc);
    let mut groups = page_groups(alloc, book)?;
    for before in book.opened_at()..book.len() {
        if let Some(entry) = book.entry(before + 1) {
            count(&mut tallies, entry)?;
            add(&mut groups, entry)?;
        }
    }
    Ok((tallies, groups))
}
