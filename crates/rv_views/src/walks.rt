// What changes between two views, by walks along both in the order of their keys. Each row and each client of the base that is
// passed is a step.
ghost use Rattle.std.specs.Prelude.{◌≡◌, ◌≤◌, ◌+◌, ◌==◌, ◌&&◌, if◌then◌else◌, [], ◌∷◌, ◌++◌, length, IfOk, OnOk, map, drop, take_while, option_map};
ghost use Rattle.std.specs.Option.{option_map_or};
ghost use Rattle.std.specs.Cmp.Lexicographic.{slice_cmp};
ghost use Rattle.std.specs.Ordering.{nat_cmp, is_lt};
ghost use Rattle.std.specs.Str.{bytes_eq};
ghost use Rattle.rv_rows.specs.Keys.{key_text};
ghost use Rattle.rv_views.specs.Viewed.{AreSeen, AreClients, seen_key, client_of_pair, view_size};
ghost use Rattle.rv_views.specs.Difference.{Arranged, lost_keys, touched_keys, changed_ids, difference};
ghost use Rattle.rv_views.specs.Walks.{rest_from, begins_with};

use crate::diff::Diff;
use crate::record::ViewRecord;
use rv_base::{Id, Memory, Num, Sequence, Steps};
use rv_rows::{Clients, Key, Keys};
use std::alloc::Global;
use std::sync::ledger::Ledger;

/// What has changed since a base, each list in order. Without a base everything goes, and all that is seen now is put. It takes at
/// most as many steps as the base has rows and clients, and none without a base.
pub fn difference<L: Ledger>(
    alloc: Global,
    base: Option<&ViewRecord>,
    now: &ViewRecord,
    steps: &mut Steps<L>,
) -> Result<Diff, Memory>
    ensures difference { IfOk result (λ d. d ≡ difference (option_map (λ r. r.now) base.entry) now.now) }
    ensures arranged { IfOk result (λ d. Arranged d) }
    ensures most { steps.new ≤ steps.old + option_map_or (λ r. view_size r.now) base.entry 0 }
{
    match base {
        Some(base) => {
            let RowChanges { dels, puts } = rows_changed(alloc, base.rows(), now.rows(), steps)?;
            Ok(Diff {
                clear: false,
                dels,
                puts,
                ids: changed(alloc, base.clients(), now.clients(), steps)?,
            })
        }
        None => Ok(Diff {
            clear: true,
            dels: Sequence::new(alloc),
            puts: keys_of(alloc, now.rows())?,
            ids: copy_of(alloc, now.clients())?,
        }),
    }
}

impl ViewRecord {
    /// The group's clients; their names share their texts.
    pub fn copy_clients(&self, alloc: Global) -> Result<Clients, Memory>
        ensures { IfOk result (λ copy. copy ≡ self.now.clients) }
    {
        copy_of(alloc, self.clients())
    }
}

// The keys of the rows that have changed.
#[derive(Drop)]
struct RowChanges {
    // The keys that were seen and are not seen now.
    dels: Keys,
    // The keys that are seen now and were not, or had another version.
    puts: Keys,
}

// What has changed of the rows, by one walk along both.
fn rows_changed<L: Ledger>(
    alloc: Global,
    base: &[(Key, u32)],
    now: &[(Key, u32)],
    steps: &mut Steps<L>,
) -> Result<RowChanges, Memory>
    requires base { AreSeen base.now }
    requires now { AreSeen now.now }
    ensures dels { IfOk result (λ c. c.dels ≡ lost_keys base.now now.now) }
    ensures puts { IfOk result (λ c. c.puts ≡ touched_keys base.now now.now) }
    ensures read { OnOk result (steps.new ≡ steps.old + length base.now) }
    ensures most { steps.new ≤ steps.old + length base.now }
{
    let mut dels = Sequence::new(alloc);
    let mut puts = Sequence::new(alloc);
    let mut rest = base;
    for row in now {
        let (from, has_key) = add_below(alloc, &mut dels, rest, &row.0, steps)?;
        add_touched(alloc, &mut puts, from, has_key, row)?;
        rest = after_key(from, has_key, steps);
    }
    add_rest(alloc, &mut dels, rest, steps)?;
    Ok(RowChanges { dels, puts })
}

// Adds the keys of the rows before the first whose key is not below this one, and gives the rows from there on, and whether the first
// of them has this key.
#[tactic(auto, using(crate::proofs::Merges::same_text))]
fn add_below<'r, L: Ledger>(
    alloc: Global,
    keys: &mut Keys,
    rows: &'r [(Key, u32)],
    key: &Key,
    steps: &mut Steps<L>,
) -> Result<(&'r [(Key, u32)], bool), Memory>
    ensures rest { IfOk result (λ found. found.0.now ≡ rest_from seen_key (key_text key.now) rows.now) }
    ensures key { IfOk result (λ found. found.1 ≡ begins_with (λ other. bytes_eq (seen_key other) (key_text key.now)) found.0.now) }
    ensures keys { IfOk result (λ found. keys.new ≡ keys.old ++ map (λ pair. pair.0) (take_while (λ other. is_lt (slice_cmp nat_cmp (seen_key other) (key_text key.now))) rows.now)) }
    ensures read { IfOk result (λ found. steps.new + length found.0.now ≡ steps.old + length rows.now) }
    ensures most { steps.new ≤ steps.old + length rows.now }
{
    let mut rest = rows;
    while let Some((first, others)) = rest.split_first() {
        let order = first.0.compare(key);
        if !order.is_lt() {
            return Ok((rest, order.is_eq()));
        }
        steps.tick();
        keys.push(first.0.copy(alloc)?)?;
        rest = others;
    }
    Ok((rest, false))
}

// Adds the key of the row, unless the first of the others has this key, as is told, and this version.
fn add_touched(
    alloc: Global,
    keys: &mut Keys,
    others: &[(Key, u32)],
    has_key: bool,
    row: &(Key, u32),
) -> Result<(), Memory>
    requires key { has_key ≡ begins_with (λ other. bytes_eq (seen_key other) (seen_key row.now)) others.now }
    ensures { IfOk result (λ _. keys.new ≡ keys.old ++ (if begins_with (λ other. bytes_eq (seen_key other) (seen_key row.now) && (other.1 == row.now.1)) others.now then [] else row.now.0 ∷ [])) }
{
    if !(has_key && begins_with_version(others, row.1)) {
        keys.push(row.0.copy(alloc)?)?;
    }
    Ok(())
}

// The rows without the first, where that has the key.
fn after_key<'r, L: Ledger>(
    rows: &'r [(Key, u32)],
    has_key: bool,
    steps: &mut Steps<L>,
) -> &'r [(Key, u32)]
    ensures rest { result.now ≡ (if has_key then drop 1 rows.now else rows.now) }
    ensures read { steps.new + length result.now ≡ steps.old + length rows.now }
{
    match rows.split_first() {
        Some((_first, others)) => {
            if has_key {
                steps.tick();
                others
            } else {
                rows
            }
        }
        None => rows,
    }
}

// Whether the first row has this version.
fn begins_with_version(rows: &[(Key, u32)], version: u32) -> bool
    ensures { result ≡ begins_with (λ other. other.1 == version) rows.now }
{
    match rows.first() {
        Some(first) => first.1 == version,
        None => false,
    }
}

// The clients that are there now and were not, or had another last mutation id.
fn changed<L: Ledger>(
    alloc: Global,
    base: &[(Id, Num)],
    now: &[(Id, Num)],
    steps: &mut Steps<L>,
) -> Result<Clients, Memory>
    requires base { AreClients base.now }
    requires now { AreClients now.now }
    ensures ids { IfOk result (λ ids. ids ≡ changed_ids base.now now.now) }
    ensures most { steps.new ≤ steps.old + length base.now }
{
    let mut ids = Sequence::new(alloc);
    let mut rest = base;
    for client in now {
        rest = clients_from(rest, &client.0, steps);
        if !begins_with_client(rest, client) {
            ids.push((client.0.copy(alloc)?, client.1))?;
        }
    }
    Ok(ids)
}

// The clients from the first on whose id is not below this one.
fn clients_from<'c, L: Ledger>(
    clients: &'c [(Id, Num)],
    id: &Id,
    steps: &mut Steps<L>,
) -> &'c [(Id, Num)]
    ensures rest { result.now ≡ rest_from client_of_pair id.now clients.now }
    ensures read { steps.new + length result.now ≡ steps.old + length clients.now }
{
    let mut rest = clients;
    while let Some((first, others)) = rest.split_first() {
        if !first.0.cmp(id).is_lt() {
            return rest;
        }
        steps.tick();
        rest = others;
    }
    rest
}

// Whether the first client is this one, with its last mutation id.
fn begins_with_client(clients: &[(Id, Num)], client: &(Id, Num)) -> bool
    ensures { result ≡ begins_with (λ other. bytes_eq other.0 client.now.0 && (other.1 == client.now.1)) clients.now }
{
    match clients.first() {
        Some(first) => first.0 == client.0 && first.1 == client.1,
        None => false,
    }
}

// The keys of rows.
#[tactic(auto, using(std::proofs::lemmas::List::map_more))]
fn keys_of(alloc: Global, rows: &[(Key, u32)]) -> Result<Keys, Memory>
    ensures { IfOk result (λ keys. keys ≡ map (λ pair. pair.0) rows.now) }
{
    let mut keys = Sequence::new(alloc);
    for row in rows {
        keys.push(row.0.copy(alloc)?)?;
    }
    Ok(keys)
}

// Adds the keys of the rows that are left.
#[tactic(auto, using(std::proofs::lemmas::List::map_more))]
fn add_rest<L: Ledger>(
    alloc: Global,
    keys: &mut Keys,
    rows: &[(Key, u32)],
    steps: &mut Steps<L>,
) -> Result<(), Memory>
    ensures keys { IfOk result (λ _. keys.new ≡ keys.old ++ map (λ pair. pair.0) rows.now) }
    ensures read { OnOk result (steps.new ≡ steps.old + length rows.now) }
    ensures most { steps.new ≤ steps.old + length rows.now }
{
    for row in rows {
        steps.tick();
        keys.push(row.0.copy(alloc)?)?;
    }
    Ok(())
}

// The same clients; their names share their texts.
fn copy_of(alloc: Global, clients: &[(Id, Num)]) -> Result<Clients, Memory>
    ensures { IfOk result (λ copy. copy ≡ clients.now) }
{
    let mut copy = Sequence::new(alloc);
    for client in clients {
        copy.push((client.0.copy(alloc)?, client.1))?;
    }
    Ok(copy)
}
