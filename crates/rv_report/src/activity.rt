// The report of who did how much.
ghost use Rattle.std.specs.Prelude.{◌≡◌, ◌++◌, IfOk, OnOk, count_by, length};
ghost use Rattle.rv_book.specs.Book.{retired};
ghost use Rattle.rv_report.specs.Activity.{activity_text};
ghost use Rattle.rv_report.specs.Tallies.{groups_line, tally_line};

use crate::tallies::{Groups, walk};
use crate::tally::Tally;
use crate::texts::{add, add_in_ten, add_number, with_quoted};
use rv_base::{Bytes, Memory, Sequence, User};
use rv_book::Book;
use std::alloc::Global;

/// A line for each user who has an act or a look, in the order of their bytes: how many acts, how many of them are no call, and how many
/// looks, each right in ten places, a space, and the user as a JSON string. The acts and looks that a page stands for are not counted. Last
/// `groups N retired N`: how many groups the page, an act or a look names, which are all that are bound, and how many of these are
/// retired. Each line ends with LF.
pub fn activity_text(alloc: Global, book: &Book) -> Result<Bytes, Memory>
    ensures { IfOk result (λ text. text ≡ activity_text book.now.book) }
{
    let (tallies, groups) = walk(alloc, book)?;
    let mut out = Vec::new(alloc);
    for (user, tally) in &tallies {
        out = with_line(out, user, *tally)?;
    }
    add_groups(&mut out, groups.len(), retired(book, &groups))?;
    Ok(Sequence::from_vec(out))
}

// The buffer with the line of a user.
fn with_line(mut out: Vec<u8>, user: &User, tally: Tally) -> Result<Vec<u8>, Memory>
    ensures { IfOk result (λ added. added.items ≡ out.items ++ tally_line (user.now, tally)) }
{
    add_in_ten(&mut out, tally.acts)?;
    add_in_ten(&mut out, tally.voids)?;
    add_in_ten(&mut out, tally.looks)?;
    add(&mut out, " ")?;
    let mut out = with_quoted(out, user.as_str())?;
    add(&mut out, "\n")?;
    Ok(out)
}

// How many of the groups are retired.
fn retired(book: &Book, groups: &Groups<'_>) -> usize
    ensures { result ≡ count_by (λ group. retired group.now book.now.book) groups.now.keys }
{
    groups.iter().filter(|group| book.retired(**group)).count()
}

// Adds the line on groups.
fn add_groups(out: &mut Vec<u8>, groups: usize, retired: usize) -> Result<(), Memory>
    ensures { OnOk result (out.new.items ≡ out.old.items ++ groups_line groups retired) }
{
    add(out, "groups ")?;
    add_number(out, groups as u64)?;
    add(out, " retired ")?;
    add_number(out, retired as u64)?;
    add(out, "\n")
}
