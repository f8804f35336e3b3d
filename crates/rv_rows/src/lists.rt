ghost use Rattle.std.specs.Prelude.{◌≡◌, ◌≤◌, IfOk, OnOk, length};
ghost use Rattle.std.specs.List.{AllByRecursion, list_any};
ghost use Rattle.std.specs.Str.{IsUtf8, bytes_eq};
ghost use Rattle.rv_base.specs.Texts.{IsWithin};
ghost use Rattle.rv_base.specs.Sorted.{InOrder, IsPositionOf, put_by, sorted_by, is_in_order};
ghost use Rattle.rv_rows.specs.Extents.{AreLists, lists_of, exact_lists, same_lists};

use crate::sequences::Ids;
use rv_base::{Id, Memory};
use std::alloc::Global;
use std::cmp::Ordering;
use std::marker::Model;

/// At most 64 ids of lists, each once, in the order of their bytes: the lists that an extent names.
///
/// A contract sees the list of the ids.
#[derive(Debug, Drop)]
pub struct Lists {
    ids: Vec<Id>,
}

impl Model for Lists {
    ghost use Rattle.std.specs.Prelude.{List, ℕ};
    ghost use Rattle.rv_rows.specs.Extents.{AreLists};

    ghost Value = { List (List ℕ) };

    ghost view = { λ l. l.ids.items };

    ghost invariant = { λ l. AreLists l.ids.items };
}

// Where an id stands, or where it would go.
fn position(ids: &[Id], id: &Id) -> Result<usize, usize>
    requires { InOrder (λ i. i) ids.now }
    ensures { IsPositionOf (λ i. i) id.now ids.now result }
{
    ids.binary_search_by(|other| other.cmp(id))
}

// Puts an id at its position among ids that stand in order, over the same one where it is there.
fn put(ids: &mut Vec<Id>, id: Id) -> Result<(), Memory>
    requires { InOrder (λ i. i) ids.old.items }
    ensures ids { OnOk result (ids.new.items ≡ put_by (λ i. i) id ids.old.items) }
    ensures order { OnOk result (InOrder (λ i. i) ids.new.items) }
{
    match position(ids, &id) {
        Ok(at) => {
            ids[at] = id;
            Ok(())
        }
        Err(at) => {
            ids.insert(at, id)?;
            Ok(())
        }
    }
}

// The ids in the order of their bytes, each once.
fn in_order(alloc: Global, ids: &[Id]) -> Result<Vec<Id>, Memory>
    ensures ids { IfOk result (λ v. v.items ≡ sorted_by (λ i. i) ids.now) }
    ensures order { IfOk result (λ v. InOrder (λ i. i) v.items) }
    ensures count { IfOk result (λ v. length v.items ≤ length ids.now) }
{
    let mut sorted = Vec::new(alloc);
    for id in ids {
        put(&mut sorted, id.copy(alloc)?)?;
    }
    Ok(sorted)
}

// Whether each id is below the next.
fn are_in_order(ids: &[Id]) -> bool
    ensures { result ≡ is_in_order (λ i. i) ids.now }
{
    for i in 1..ids.len() {
        match ids[i - 1].cmp(&ids[i]) {
            Ordering::Less => {}
            Ordering::Equal => return false,
            Ordering::Greater => return false,
        }
    }
    true
}

// The same ids, which share their texts.
fn copies(alloc: Global, ids: &[Id]) -> Result<Vec<Id>, Memory>
    ensures { IfOk result (λ v. v.items ≡ ids.now) }
{
    let mut copies = Vec::new(alloc);
    for id in ids {
        copies.push(id.copy(alloc)?)?;
    }
    Ok(copies)
}

// An id is within its bounds, and UTF-8: its type has it so.
fn id_fits(id: &Id)
    ensures within { IsWithin 1 128 id.now }
    ensures valid { IsUtf8 id.now }
{
    id.fits();
}

fn ids_fit(ids: &[Id])
    ensures within { AllByRecursion (IsWithin 1 128) ids.now }
    ensures valid { AllByRecursion IsUtf8 ids.now }
{
    for id in ids {
        id_fits(id);
    }
}

impl Lists {
    /// The greatest number of ids.
    pub const MOST: usize = 64;

    /// Just these ids, where they are at most 64. Their order and repeats are lost.
    pub fn new(alloc: Global, ids: Ids) -> Result<Option<Lists>, Memory>
        ensures { IfOk result (λ o. o ≡ lists_of ids) }
    {
        if ids.len() > Lists::MOST {
            return Ok(None);
        }
        let ids = in_order(alloc, ids.as_slice())?;
        Ok(Some(Lists { ids }))
    }

    /// The ids, where they are at most 64 and each is below the next.
    pub fn exact(ids: Ids) -> Option<Lists>
        ensures { result ≡ exact_lists ids }
    {
        if ids.len() > Lists::MOST || !are_in_order(ids.as_slice()) {
            return None;
        }
        Some(Lists {
            ids: ids.into_vec(),
        })
    }

    /// The ids, in the order of their bytes.
    pub fn as_slice(&self) -> &[Id]
        ensures { result.now ≡ self.now }
    {
        &self.ids
    }

    /// The ids are those of an extent's lists, each of 1 to 128 bytes of UTF-8: their types have it so.
    pub fn ids_fit(&self)
        ensures within { AllByRecursion (IsWithin 1 128) self.now }
        ensures valid { AllByRecursion IsUtf8 self.now }
        ensures lists { AreLists self.now }
    {
        ids_fit(&self.ids);
    }

    /// Whether the id is one of them.
    pub fn has(&self, id: &Id) -> bool
        ensures { result ≡ list_any (bytes_eq id.now) self.now }
    {
        match position(&self.ids, id) {
            Ok(_) => true,
            Err(_) => false,
        }
    }

    /// The same ids, which share their texts.
    pub fn copy(&self, alloc: Global) -> Result<Lists, Memory>
        ensures { IfOk result (λ copy. copy ≡ self.now) }
    {
        let ids = copies(alloc, &self.ids)?;
        Ok(Lists { ids })
    }

    /// Whether the ids are the same.
    pub fn is_same(&self, other: &Lists) -> bool
        ensures { result ≡ same_lists self.now other.now }
    {
        self.ids == other.ids
    }
}
