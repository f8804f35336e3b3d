// The rows of several lists, in the order of their keys. Each row that is read of a list is a step.
ghost use Rattle.std.specs.Prelude.{◌≡◌, ◌≤◌, ◌+◌, length, IfOk, OnOk};
ghost use Rattle.std.specs.List.{filter, list_any};
ghost use Rattle.rv_rows.specs.Held.{AreRows};
ghost use Rattle.rv_rows.specs.Sharing.{belongs};
ghost use Rattle.rv_sharing.specs.Gathered.{rows_at, merged, of_list, rows_in_lists};

use rv_base::{Id, Memory, Steps};
use rv_rows::{Row, Tables};
use std::alloc::Global;
use std::cmp::Ordering;
use std::sync::ledger::Ledger;

/// The rows of these lists, with their versions, in the order of their keys. A list's own rows stand in that order; those of
/// several are merged, half by half, so each row is compared as often as the number of lists can be halved.
pub(crate) fn rows_of<'t, L: Ledger>(
    alloc: Global,
    tables: &'t Tables,
    lists: &[Id],
    steps: &mut Steps<L>,
) -> Result<Vec<(&'t Row, u32)>, Memory>
    requires { AreRows tables.now.rows }
    ensures rows { IfOk result (λ rows. rows_at rows.items ≡ filter (λ s. list_any (λ list. belongs list s.0) lists.now) tables.now.rows) }
    ensures read { OnOk result (steps.new ≡ steps.old + rows_in_lists lists.now tables.now.rows) }
    ensures most { steps.new ≤ steps.old + rows_in_lists lists.now tables.now.rows }
{
    match lists {
        [] => Ok(Vec::new(alloc)),
        [list] => rows_of_one(alloc, tables, list, steps),
        _ => {
            let (front, back) = lists.split_at(lists.len() / 2);
            let left = rows_of(alloc, tables, front, steps)?;
            let right = rows_of(alloc, tables, back, steps)?;
            merged(alloc, &left, &right)
        }
    }
}

// The rows of a list, with their versions, in the order of their keys.
fn rows_of_one<'t, L: Ledger>(
    alloc: Global,
    tables: &'t Tables,
    list: &Id,
    steps: &mut Steps<L>,
) -> Result<Vec<(&'t Row, u32)>, Memory>
    ensures rows { IfOk result (λ rows. rows_at rows.items ≡ of_list list.now tables.now.rows) }
    ensures read { OnOk result (steps.new ≡ steps.old + length (of_list list.now tables.now.rows)) }
    ensures most { steps.new ≤ steps.old + length (of_list list.now tables.now.rows) }
{
    let mut rows = Vec::new(alloc);
    for item in tables.of_list(list) {
        steps.tick();
        rows.push(item)?;
    }
    Ok(rows)
}

// Two lists of rows in the order of their keys as one. Of two rows with one key that of the left stands in it.
pub(crate) fn merged<'t>(
    alloc: Global,
    left: &[(&'t Row, u32)],
    right: &[(&'t Row, u32)],
) -> Result<Vec<(&'t Row, u32)>, Memory>
    requires left { AreRows (rows_at left.now) }
    requires right { AreRows (rows_at right.now) }
    ensures { IfOk result (λ rows. rows_at rows.items ≡ merged (rows_at left.now) (rows_at right.now)) }
{
    let mut rows = Vec::new(alloc);
    let mut i = 0;
    let mut j = 0;
    while i < left.len() && j < right.len() {
        let one = left[i];
        let other = right[j];
        match one.0.compare_key(other.0.kind(), other.0.id()) {
            Ordering::Less => {
                rows.push(one)?;
                i += 1;
            }
            Ordering::Equal => {
                rows.push(one)?;
                i += 1;
                j += 1;
            }
            Ordering::Greater => {
                rows.push(other)?;
                j += 1;
            }
        }
    }
    rows.extend_from_slice(&left[i..])?;
    rows.extend_from_slice(&right[j..])?;
    Ok(rows)
}
