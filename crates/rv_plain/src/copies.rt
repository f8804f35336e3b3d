//! Copies of what books are of, in memory of their own.
ghost use Rattle.std.specs.Prelude.{◌≡◌, IfOk};
ghost use Rattle.rv_rows.specs.Held.{rows_in};

use rv_base::{Id, Memory, Num, Sequence, User};
use rv_book::Entry;
use rv_rows::Row;
use std::alloc::Global;

/// The same entries.
pub(crate) fn copy_entries(alloc: Global, entries: &[Entry]) -> Result<Vec<Entry>, Memory>
    ensures { IfOk result (λ v. v.items ≡ entries.now) }
{
    let mut copies = Vec::new(alloc);
    for entry in entries {
        copies.push(entry.copy(alloc)?)?;
    }
    Ok(copies)
}

/// The same rows.
pub(crate) fn copy_rows(alloc: Global, rows: &[Row]) -> Result<Vec<Row>, Memory>
    ensures { IfOk result (λ v. v.items ≡ rows.now) }
{
    let mut copies = Vec::new(alloc);
    for row in rows {
        copies.push(row.copy(alloc)?)?;
    }
    Ok(copies)
}

/// The same rows, without their versions.
pub(crate) fn rows_in(alloc: Global, stored: &[(Row, u32)]) -> Result<Vec<Row>, Memory>
    ensures { IfOk result (λ v. v.items ≡ rows_in stored.now) }
{
    let mut rows = Vec::new(alloc);
    for row in stored {
        rows.push(row.0.copy(alloc)?)?;
    }
    Ok(rows)
}

/// The same rows with their versions.
pub(crate) fn copy_stored(alloc: Global, stored: &[(Row, u32)]) -> Result<Vec<(Row, u32)>, Memory>
    ensures { IfOk result (λ v. v.items ≡ stored.now) }
{
    let mut copies = Vec::new(alloc);
    for row in stored {
        copies.push((row.0.copy(alloc)?, row.1))?;
    }
    Ok(copies)
}

/// The same clients.
pub(crate) fn copy_clients(
    alloc: Global,
    clients: &[(Id, Id, Num)],
) -> Result<Sequence<(Id, Id, Num)>, Memory>
    ensures { IfOk result (λ v. v ≡ clients.now) }
{
    let mut copies = Sequence::new(alloc);
    for client in clients {
        let name = client.0.copy(alloc)?;
        copies.push((name, client.1.copy(alloc)?, client.2))?;
    }
    Ok(copies)
}

/// The same groups.
pub(crate) fn copy_groups(
    alloc: Global,
    groups: &[(Id, User, Num, bool)],
) -> Result<Sequence<(Id, User, Num, bool)>, Memory>
    ensures { IfOk result (λ v. v ≡ groups.now) }
{
    let mut copies = Sequence::new(alloc);
    for group in groups {
        let name = group.0.copy(alloc)?;
        copies.push((name, group.1.copy(alloc)?, group.2, group.3))?;
    }
    Ok(copies)
}
