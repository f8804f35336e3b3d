// What a user sees of a table.
ghost use Rattle.std.specs.Prelude.{◌≡◌, ◌≤◌, ◌<◌, ◌+◌, length, IfOk, OnOk, option_map};
ghost use Rattle.rv_base.specs.Sorted.{InOrder};
ghost use Rattle.rv_rows.specs.Keys.{key_text};
ghost use Rattle.rv_rows.specs.Held.{rows_in, AreRows};
ghost use Rattle.rv_sharing.specs.Opened.{opened, AreOpened, AreAmong, AreSeen};
ghost use Rattle.rv_sharing.specs.Gathered.{extents, keys_at, merged, rows_at, Stand};
ghost use Rattle.rv_sharing.specs.Visible.{visible};

use crate::gathering::{merged, rows_of};
use crate::lists::{extent_of, has_list, may_see};
use crate::viewers::add;
use rv_base::{Id, Memory, Sequence, Steps, User};
use rv_rows::{Row, Tables, Visible};
use std::alloc::Global;
use std::marker::Brand;
use std::sync::ledger::{Blank, Ledger};

// The list that the row lets the user see: one that the user owns, or one that is there and shared with the user.
fn opened<'r>(tables: &Tables, user: &User, row: &'r Row) -> Option<&'r Id>
    ensures { option_map (λ list. list.now) result ≡ opened user.now (rows_in tables.now.rows) row.now }
{
    match row {
        Row::Extent(_) => None,
        Row::List(row) => if row.owner == *user {
            Some(&row.id)
        } else {
            None
        },
        Row::Share(row) => {
            if row.user == *user && has_list(tables, &row.list) {
                Some(&row.list)
            } else {
                None
            }
        }
        Row::Todo(_) => None,
    }
}

// The lists that the user may see, in order, each once: those that a row lets the user see that names the user.
fn lists_opened(alloc: Global, tables: &Tables, user: &User) -> Result<Vec<Id>, Memory>
    ensures { IfOk result (λ lists. AreOpened user.now (rows_in tables.now.rows) lists.items) }
{
    let mut lists = Vec::new(alloc);
    for (row, _version) in tables.of_user(user) {
        if let Some(list) = opened(tables, user, row) {
            add(alloc, &mut lists, list)?;
        }
    }
    Ok(lists)
}

// Of the named lists those that the user may see, in order, each once.
fn lists_among(alloc: Global, tables: &Tables, user: &User, named: &[Id]) -> Result<Vec<Id>, Memory>
    ensures { IfOk result (λ lists. AreAmong user.now (rows_in tables.now.rows) named.now lists.items) }
{
    let mut lists = Vec::new(alloc);
    for list in named {
        if may_see(tables, user, list) {
            add(alloc, &mut lists, list)?;
        }
    }
    Ok(lists)
}

// The lists that the user sees, in order, each once: where the user has an extent, only those that it names are looked at.
fn lists_seen(alloc: Global, tables: &Tables, user: &User) -> Result<Vec<Id>, Memory>
    ensures lists { IfOk result (λ lists. AreSeen user.now (rows_in tables.now.rows) lists.items) }
    ensures order { AreRows tables.now.rows }
{
    match extent_of(tables, user) {
        Some(named) => lists_among(alloc, tables, user, named.as_slice()),
        None => lists_opened(alloc, tables, user),
    }
}

// The rows and the user's extent, where there is one, in the order of their keys. The extent is a step.
fn with_extent<'t, L: Ledger>(
    alloc: Global,
    tables: &'t Tables,
    user: &User,
    rows: Vec<(&'t Row, u32)>,
    steps: &mut Steps<L>,
) -> Result<Vec<(&'t Row, u32)>, Memory>
    requires { AreRows (rows_at rows.items) }
    ensures rows { IfOk result (λ all. rows_at all.items ≡ merged (extents user.now tables.now.rows) (rows_at rows.entry.items)) }
    ensures read { OnOk result (steps.new ≡ steps.old + length (extents user.now tables.now.rows)) }
    ensures most { steps.new ≤ steps.old + length (extents user.now tables.now.rows) }
{
    match tables.extent(user) {
        Some(extent) => {
            steps.tick();
            merged(alloc, &[extent], &rows)
        }
        None => Ok(rows),
    }
}

/// The rows that the user sees, with their versions, in the order of their keys. No row of a list that the user does not see is
/// read, and each that is read is a step: there are as many as the user sees, and where memory is refused no more than that.
pub fn rows_seen<'t, L: Ledger>(
    alloc: Global,
    tables: &'t Tables,
    user: &User,
    steps: &mut Steps<L>,
) -> Result<Vec<(&'t Row, u32)>, Memory>
    ensures seen { IfOk result (λ rows. keys_at rows.items ≡ visible user.now tables.now.rows) }
    ensures order { IfOk result (λ rows. InOrder (λ pair. key_text pair.0) (keys_at rows.items)) }
    ensures stand { IfOk result (λ rows. Stand tables.now.rows (rows_at rows.items)) }
    ensures read { OnOk result (steps.new ≡ steps.old + length (visible user.now tables.now.rows)) }
    ensures most { steps.new ≤ steps.old + length (visible user.now tables.now.rows) }
{
    let lists = lists_seen(alloc, tables, user)?;
    let rows = rows_of(alloc, tables, &lists, steps)?;
    with_extent(alloc, tables, user, rows, steps)
}

/// The keys of rows, each with the version of its row.
pub fn keys_of(alloc: Global, rows: &[(&Row, u32)]) -> Result<Visible, Memory>
    ensures { IfOk result (λ keys. keys ≡ keys_at rows.now) }
{
    let mut keys = Sequence::new(alloc);
    for (row, version) in rows {
        keys.push((row.key(alloc)?, *version))?;
    }
    Ok(keys)
}

/// The keys that the user sees, in order, each with the version of its row.
pub fn visible(alloc: Global, tables: &Tables, user: &User) -> Result<Visible, Memory>
    ensures visible { IfOk result (λ v. v ≡ visible user.now tables.now.rows) }
    ensures order { IfOk result (λ v. InOrder (λ pair. key_text pair.0) v) }
{
    visible_from::<Brand>(alloc, tables, user, Blank::new(1))
}

// The same, with a count of its own.
fn visible_from<L: Ledger>(
    alloc: Global,
    tables: &Tables,
    user: &User,
    blank: Blank,
) -> Result<Visible, Memory>
    requires name { blank.name ≡ L.name }
    requires parts { (blank.parts ≡ L.parts) × (0 < L.parts) }
    ensures visible { IfOk result (λ v. v ≡ visible user.now tables.now.rows) }
    ensures order { IfOk result (λ v. InOrder (λ pair. key_text pair.0) v) }
{
    let mut steps = Steps::<L>::new(blank);
    let rows = rows_seen(alloc, tables, user, &mut steps)?;
    keys_of(alloc, &rows)
}
