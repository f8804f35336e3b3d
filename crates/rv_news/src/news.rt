// What a pull is told: the operations and the last mutation ids that are news since its base.
ghost use Rattle.std.specs.Prelude.{◌≡◌, ◌≤◌, ◌+◌, ◌++◌, ◌∷◌, [], ◌↔◌, length, IsTrue, IfOk, OnOk, map, option_map, Some, None};
ghost use Rattle.std.specs.List.{filter_map};
ghost use Rattle.std.specs.Option.{option_map_or};
ghost use Rattle.rv_base.specs.Sorted.{InOrder};
ghost use Rattle.rv_turns.specs.declared.op.Op.TheVariants.{Clear, Del, Put};
ghost use Rattle.rv_sharing.specs.Gathered.{keys_at, rows_at, Stand};
ghost use Rattle.rv_sharing.specs.Visible.{visible};
ghost use Rattle.rv_book.specs.Book.{ids};
ghost use Rattle.rv_views.specs.Difference.{difference};
ghost use Rattle.rv_views.specs.Viewed.{view_size};
ghost use Rattle.rv_news.specs.Shows.{put_of, clears, ops_of};

use rv_base::{Id, Memory, Sequence, Steps, User};
use rv_book::Book;
use rv_rows::{Clients, Key, Keys, Row, Tables};
use rv_sharing::visible;
use rv_turns::{Op, Ops};
use rv_views::{Diff, ViewRecord, difference, record_now};
use std::alloc::Global;
use std::sync::ledger::Ledger;

// What a pull is told, with the place of its base and what its user and its group see now.
#[derive(Debug, Drop)]
pub struct News {
    pub base: Option<u32>,
    pub view: ViewRecord,
    pub ops: Ops,
    pub ids: Clients,
}

impl News {
    /// Whether there is nothing to tell.
    pub fn is_empty(&self) -> bool
        ensures { IsTrue result ↔ ((self.now.ops ≡ []) × (self.now.ids ≡ [])) }
    {
        self.ops.as_slice().is_empty() && self.ids.as_slice().is_empty()
    }
}

/// The clients of a group, with their last mutation ids, in order. Each that is read is a step.
pub(crate) fn clients_read<L: Ledger>(
    alloc: Global,
    book: &Book,
    group: &Id,
    steps: &mut Steps<L>,
) -> Result<Clients, Memory>
    ensures clients { IfOk result (λ clients. clients ≡ ids group.now book.now.book) }
    ensures order { IfOk result (λ clients. InOrder (λ pair. pair.0) clients) }
    ensures read { OnOk result (steps.new ≡ steps.old + length (ids group.now book.now.book)) }
    ensures most { steps.new ≤ steps.old + length (ids group.now book.now.book) }
{
    let mut clients = Sequence::new(alloc);
    for (client, last) in book.clients_of(group) {
        steps.tick();
        clients.push((client.copy(alloc)?, last))?;
    }
    Ok(clients)
}

/// What a user and a group see now.
pub fn view_now(
    alloc: Global,
    book: &Book,
    tables: &Tables,
    user: &User,
    group: &Id,
) -> Result<ViewRecord, Memory>
    ensures rows { IfOk result (λ view. view.rows ≡ visible user.now tables.now.rows) }
    ensures clients { IfOk result (λ view. view.clients ≡ ids group.now book.now.book) }
{
    let clients = book.clients(group)?;
    record_now(visible(alloc, tables, user)?, clients)
}

/// What is news in a view of these rows since the record of a base, or without one. It takes at most as many steps as the record has
/// rows and clients.
pub(crate) fn news_since<L: Ledger>(
    alloc: Global,
    tables: &Tables,
    base: Option<u32>,
    found: Option<&ViewRecord>,
    rows: &[(&Row, u32)],
    view: ViewRecord,
    steps: &mut Steps<L>,
) -> Result<News, Memory>
    requires keys { view.rows ≡ keys_at rows.now }
    requires stand { Stand tables.now.rows (rows_at rows.now) }
    ensures base { IfOk result (λ news. news.base ≡ base) }
    ensures view { IfOk result (λ news. news.view ≡ view) }
    ensures ops { IfOk result (λ news. news.ops ≡ ops_of tables.now.rows (difference (option_map (λ r. r.now) found.entry) view)) }
    ensures ids { IfOk result (λ news. news.ids ≡ (difference (option_map (λ r. r.now) found.entry) view).ids) }
    ensures order { IfOk result (λ news. InOrder (λ pair. pair.0) news.ids) }
    ensures most { steps.new ≤ steps.old + option_map_or (λ r. view_size r.now) found.entry 0 }
{
    match found {
        Some(found) => news_of(alloc, tables, base, found, view, steps),
        None => news_anew(alloc, base, rows, view),
    }
}

// What is news in a view since the record of a base.
fn news_of<L: Ledger>(
    alloc: Global,
    tables: &Tables,
    base: Option<u32>,
    found: &ViewRecord,
    view: ViewRecord,
    steps: &mut Steps<L>,
) -> Result<News, Memory>
    ensures base { IfOk result (λ news. news.base ≡ base) }
    ensures view { IfOk result (λ news. news.view ≡ view) }
    ensures ops { IfOk result (λ news. news.ops ≡ ops_of tables.now.rows (difference (Some found.now) view)) }
    ensures ids { IfOk result (λ news. news.ids ≡ (difference (Some found.now) view).ids) }
    ensures order { IfOk result (λ news. InOrder (λ pair. pair.0) news.ids) }
    ensures most { steps.new ≤ steps.old + view_size found.now }
{
    let Diff {
        clear,
        dels,
        puts,
        ids,
    } = difference(alloc, Some(found), &view, steps)?;
    let ops = operations(alloc, tables, clear, dels, puts.as_slice())?;
    Ok(News {
        base,
        view,
        ops,
        ids,
    })
}

// What is news in a view of these rows without a base: everything goes, and each row is put.
fn news_anew(
    alloc: Global,
    base: Option<u32>,
    rows: &[(&Row, u32)],
    view: ViewRecord,
) -> Result<News, Memory>
    ensures base { IfOk result (λ news. news.base ≡ base) }
    ensures view { IfOk result (λ news. news.view ≡ view) }
    ensures ops { IfOk result (λ news. news.ops ≡ Clear ∷ map (λ row. Put row.0.now) rows.now) }
    ensures ids { IfOk result (λ news. news.ids ≡ (difference None view).ids) }
    ensures order { IfOk result (λ news. InOrder (λ pair. pair.0) news.ids) }
{
    let mut ops = Sequence::new(alloc);
    ops.push(Op::Clear)?;
    put_all(alloc, &mut ops, rows)?;
    let ids = view.copy_clients(alloc)?;
    Ok(News {
        base,
        view,
        ops,
        ids,
    })
}

// Adds the put of each row.
fn put_all(alloc: Global, ops: &mut Ops, rows: &[(&Row, u32)]) -> Result<(), Memory>
    ensures { OnOk result (ops.new ≡ ops.old ++ map (λ row. Put row.0.now) rows.now) }
{
    for (row, _version) in rows {
        ops.push(Op::Put(row.copy(alloc)?))?;
    }
    Ok(())
}

// Everything goes, where it does; then each key that is gone, and then the row of each key that is put.
fn operations(
    alloc: Global,
    tables: &Tables,
    clear: bool,
    dels: Keys,
    puts: &[Key],
) -> Result<Ops, Memory>
    ensures { IfOk result (λ ops. ops ≡ clears clear ++ (map (λ key. Del key) dels ++ filter_map (put_of tables.now.rows) puts.now)) }
{
    let mut ops = Sequence::new(alloc);
    if clear {
        ops.push(Op::Clear)?;
    }
    add_dels(&mut ops, dels)?;
    add_puts(alloc, &mut ops, tables, puts)?;
    Ok(ops)
}

// Adds the del of each key.
fn add_dels(ops: &mut Ops, keys: Keys) -> Result<(), Memory>
    ensures { OnOk result (ops.new ≡ ops.old ++ map (λ key. Del key) keys) }
{
    for key in keys.into_vec() {
        ops.push(Op::Del(key))?;
    }
    Ok(())
}

// Adds the put of each key's row.
fn add_puts(alloc: Global, ops: &mut Ops, tables: &Tables, keys: &[Key]) -> Result<(), Memory>
    ensures { OnOk result (ops.new ≡ ops.old ++ filter_map (put_of tables.now.rows) keys.now) }
{
    for key in keys {
        if let Some((row, _)) = tables.get(key) {
            ops.push(Op::Put(row.copy(alloc)?))?;
        }
    }
    Ok(())
}
