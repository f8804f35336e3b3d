// What a call writes and removes, and the users who see rows that are written.
ghost use Rattle.std.specs.Prelude.{◌≡◌, ◌≤◌, length, fold, vec_len, [], ◌∷◌, IfOk};
ghost use Rattle.rv_rows.specs.Keys.{key_text};
ghost use Rattle.rv_rows.specs.Held.{put, remove, rows_in};
ghost use Rattle.rv_sharing.specs.Texts.{AreInOrder};
ghost use Rattle.rv_mutators.specs.Staging.{with_staged, IsStagedOn};
ghost use Rattle.rv_mutators.specs.Touched.{AreTouched, AddsReaders, AddsReadersOf};

use rv_base::Memory;
use rv_rows::{At, Key, Keys, Row, Rows, Tables, Users};
use rv_sharing::{add_if_synced, add_sharers, add_user, add_viewers, affected, has_list};
use std::alloc::Global;
use std::marker::Model;

/// The rows that a call writes, in the order of their keys, and where it found that they go.
///
/// A contract sees the list of the rows.
#[derive(Debug, Drop)]
pub struct StagedRows {
    rows: Rows,
    // where a row goes that no other has the key of, where that was looked for
    gap: Option<At>,
}

impl Model for StagedRows {
    ghost use Rattle.std.specs.Prelude.{List};
    ghost use Rattle.rv_rows.specs.declared.row.Row.{Row};

    ghost Value = { List Row };

    ghost view = { λ s. s.rows };
}

impl StagedRows {
    // No row.
    pub(crate) fn none(alloc: Global) -> StagedRows
        ensures { result ≡ [] }
    {
        StagedRows {
            rows: Rows::new(alloc),
            gap: None,
        }
    }

    // One row, and where it goes, where that was looked for.
    fn one(alloc: Global, row: Row, gap: Option<At>) -> Result<StagedRows, Memory>
        ensures { IfOk result (λ rows. rows ≡ row ∷ []) }
    {
        let mut rows = Rows::new(alloc);
        rows.push(row)?;
        Ok(StagedRows { rows, gap })
    }

    /// How many rows there are.
    pub fn len(&self) -> usize
        ensures { result ≡ length self.now }
    {
        self.rows.len()
    }

    /// The rows, in the order of their keys.
    pub fn as_slice(&self) -> &[Row]
        ensures { result.now ≡ self.now }
    {
        self.rows.as_slice()
    }

    // Writes the rows with the version, in space that there is.
    fn put(self, tables: &mut Tables, version: u32)
        requires { length self ≤ tables.old.spare }
        ensures { tables.new.rows ≡ fold (λ t row. put (row, version) t) tables.old.rows self }
    {
        let StagedRows { rows, gap } = self;
        put_rows(tables, rows.into_vec(), version, gap);
    }
}

/// What a call writes and removes, of the tables that it was staged on.
#[derive(Debug, Drop)]
pub struct Staged {
    /// The rows that it writes, in the order of their keys.
    pub rows: StagedRows,
    /// The keys that it removes, in order.
    pub keys: Keys,
}

impl Staged {
    // Nothing is written or removed.
    pub(crate) fn nothing(alloc: Global) -> Staged
        ensures { result ≡ record { rows = []; keys = [] } }
    {
        Staged {
            rows: StagedRows::none(alloc),
            keys: Keys::new(alloc),
        }
    }

    // One row is written.
    pub(crate) fn writes(alloc: Global, row: Row) -> Result<Staged, Memory>
        ensures { IfOk result (λ s. s ≡ record { rows = row ∷ []; keys = [] }) }
    {
        Ok(Staged {
            rows: StagedRows::one(alloc, row, None)?,
            keys: Keys::new(alloc),
        })
    }

    // One row is written that no other has the key of, and goes there.
    pub(crate) fn adds(alloc: Global, row: Row, gap: At) -> Result<Staged, Memory>
        ensures { IfOk result (λ s. s ≡ record { rows = row ∷ []; keys = [] }) }
    {
        Ok(Staged {
            rows: StagedRows::one(alloc, row, Some(gap))?,
            keys: Keys::new(alloc),
        })
    }

    // One key is removed.
    pub(crate) fn removes(alloc: Global, key: Key) -> Result<Staged, Memory>
        ensures { IfOk result (λ s. s ≡ record { rows = []; keys = key ∷ [] }) }
    {
        let mut keys = Keys::new(alloc);
        keys.push(key)?;
        Ok(Staged {
            rows: StagedRows::none(alloc),
            keys,
        })
    }

    /// Removes the keys, and writes the rows with this version, the place of the act. It can't fail, and takes no memory;
    /// the tables have space for the rows where they are those that it was staged on.
    pub fn apply(self, tables: &mut Tables, version: u32)
        requires { length self.rows ≤ tables.old.spare }
        ensures { tables.new.rows ≡ with_staged version self tables.old.rows }
    {
        let Staged { rows, keys } = self;
        remove_keys(tables, keys.as_slice());
        rows.put(tables, version);
    }

    /// The users who see a key that it writes or removes, before or after [`Staged::apply`], in the order of their bytes,
    /// each once. The tables are those that it was staged on.
    pub fn affected(&self, alloc: Global, tables: &Tables) -> Result<Users, Memory>
        requires { IsStagedOn tables.now.rows self.now }
        ensures { IfOk result (AreTouched tables.now.rows self.now) }
    {
        tables.fits();
        let users = affected(alloc, tables, self.keys.as_slice())?;
        add_readers(alloc, users, tables, self.rows.as_slice())
    }
}

// Removes the rows of the keys.
fn remove_keys(tables: &mut Tables, keys: &[Key])
    ensures rows { tables.new.rows ≡ fold (λ t key. remove (key_text key) t) tables.old.rows keys.now }
    ensures spare { tables.old.spare ≤ tables.new.spare }
{
    for key in keys {
        tables.remove(key);
    }
}

// Writes the rows with the version, in space that there is. A place, where one is given, is looked at before all others are searched.
fn put_rows(tables: &mut Tables, rows: Vec<Row>, version: u32, gap: Option<At>)
    requires { vec_len rows ≤ tables.old.spare }
    ensures { tables.new.rows ≡ fold (λ t row. put (row, version) t) tables.old.rows rows.items }
{
    for row in rows {
        tables.put_near(row, version, gap);
    }
}

// The users and those who see one of the rows, where it stands beside those of the tables.
fn add_readers(alloc: Global, users: Users, tables: &Tables, rows: &[Row]) -> Result<Users, Memory>
    requires { AreInOrder users }
    ensures { IfOk result (AddsReaders (rows_in tables.now.rows) rows.now users) }
{
    let mut readers = users;
    for row in rows {
        readers = add_readers_of(alloc, readers, tables, row)?;
    }
    Ok(readers)
}

// The users and those who see the row, where it stands beside those of the tables.
fn add_readers_of(alloc: Global, users: Users, tables: &Tables, row: &Row) -> Result<Users, Memory>
    requires { AreInOrder users }
    ensures { IfOk result (AddsReadersOf (rows_in tables.now.rows) row.now users) }
{
    match row {
        Row::Extent(extent) => add_user(alloc, users, &extent.user),
        Row::List(list) => {
            let viewers = add_viewers(alloc, users, tables, &list.id)?;
            let owned = add_if_synced(alloc, viewers, tables, &list.owner, &list.id)?;
            add_sharers(alloc, owned, tables, &list.id)
        }
        Row::Share(share) => {
            let viewers = add_viewers(alloc, users, tables, &share.list)?;
            if has_list(tables, &share.list) {
                add_if_synced(alloc, viewers, tables, &share.user, &share.list)
            } else {
                Ok(viewers)
            }
        }
        Row::Todo(todo) => add_viewers(alloc, users, tables, &todo.list),
    }
}
