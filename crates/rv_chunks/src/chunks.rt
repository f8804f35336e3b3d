ghost use Rattle.std.specs.Prelude.{◌≡◌, ◌≤◌, ◌+◌, ◌++◌, [], length, option_map, slice_get, slice_index_or, slice_set, IsOk, OnOk, MatchResult};
ghost use Rattle.std.specs.Ordering.{is_eq};
ghost use Rattle.std.specs.List.{filter, insert, remove as removed};
ghost use Rattle.std.specs.List.Sorted.{IsSearchInRange, IsBinarySearchResult};
ghost use Rattle.std.specs.Iterator.{YieldsFirstBy, item_count};
ghost use Rattle.rv_chunks.specs.Chunking.{items, index_of, index_found, IsItem, IsGap, Rises};
ghost use Rattle.rv_chunks.specs.Vectors.{lists, HaveItems};

use crate::at::At;
use crate::edits::{begin, fill, put_at, put_in_full, take_out, write_at};
use crate::search::{Compare, first_tie_in, position_in, position_near, ties_in};
use rv_base::Memory;
use std::alloc::Global;
use std::marker::Model;

/// Items in an order of one's own, in chunks of at most so many as they were made for.
///
/// A contract sees the list of the chunks, each the list of its items, and a lower bound of how many more can be
/// inserted without memory, `spare`.
#[derive(Debug, Drop)]
pub struct Chunks<T> {
    // none of them is empty, and each has space for as many items as a chunk may have
    chunks: Vec<Vec<T>>,
    // empty ones that stand by, one for each item that can be inserted; among the chunks there is space for all of them
    fresh: Vec<Vec<T>>,
    // how many items a chunk has at most
    most: usize,
    alloc: Global,
}

impl<T> Model for Chunks<T> {
    ghost use Rattle.std.specs.Prelude.{◌+◌, ◌≤◌, vec_len, vec_capacity};
    ghost use Rattle.rv_chunks.specs.Chunking.{Chunked};
    ghost use Rattle.rv_chunks.specs.Vectors.{lists, AreChunks, AreFresh};

    ghost Value = { Chunked T };

    ghost view = { λ p. record { chunks = lists p.chunks.items; spare = vec_len p.fresh } };

    ghost invariant = { λ p. AreChunks p.most p.chunks.items × AreFresh p.most p.fresh.items × (vec_len p.chunks + vec_len p.fresh ≤ vec_capacity p.chunks) × (2 ≤ p.most) };
}

impl<T: Drop> Chunks<T> {
    /// No item, in chunks that are to have at most so many, and two at least.
    pub fn new(alloc: Global, most: usize) -> Self
        ensures chunks { result.chunks ≡ [] }
        ensures items { items result.chunks ≡ [] }
    {
        Chunks {
            chunks: Vec::new(alloc),
            fresh: Vec::new(alloc),
            most: most.max(2),
            alloc,
        }
    }

    /// Makes space for so many more items.
    pub fn reserve(&mut self, more: usize) -> Result<(), Memory>
        ensures chunks { self.new.chunks ≡ self.old.chunks }
        ensures ok { OnOk result (more ≤ self.new.spare) }
        ensures spare { self.old.spare ≤ self.new.spare }
        ensures succeeds { more ≤ self.old.spare → IsOk result }
    {
        let standing_by = self.fresh.len();
        if more <= standing_by {
            return Ok(());
        }
        self.chunks.reserve(more)?;
        self.fresh.reserve(more - standing_by)?;
        fill(&mut self.fresh, self.alloc, self.most, more)
    }

    /// Where an item that ties with what is looked for stands, or where one would go. Takes no memory.
    pub fn position<C: Compare<T>>(&self, sought: &C) -> Result<At, At>
        ensures bound { IsSearchInRange (index_found self.now.chunks result) (length (items self.now.chunks)) }
        ensures position { IsBinarySearchResult (C.order sought.now) (items self.now.chunks) (index_found self.now.chunks result) }
        ensures at { MatchResult result (IsItem self.now.chunks) (IsGap self.now.chunks) }
    {
        position_in(&self.chunks, sought)
    }

    /// The same. A place is looked at before all others are searched: where an earlier search found a gap, it mostly is there still.
    pub fn position_near<C: Compare<T>>(&self, sought: &C, near: At) -> Result<At, At>
        ensures bound { IsSearchInRange (index_found self.now.chunks result) (length (items self.now.chunks)) }
        ensures position { IsBinarySearchResult (C.order sought.now) (items self.now.chunks) (index_found self.now.chunks result) }
        ensures at { MatchResult result (IsItem self.now.chunks) (IsGap self.now.chunks) }
    {
        position_near(&self.chunks, sought, near)
    }

    /// The item that stands there.
    pub fn get(&self, at: At) -> &T
        requires { IsItem self.now.chunks at }
        ensures { (d : T) → result.now ≡ slice_index_or (items self.now.chunks) (index_of self.now.chunks at) d }
    {
        &self.chunks[at.chunk][at.offset]
    }

    /// Writes an item over the one that stands there. Each item stands where it stood.
    pub fn set(&mut self, at: At, item: T)
        requires { IsItem self.old.chunks at }
        ensures items { items self.new.chunks ≡ slice_set (items self.old.chunks) (index_of self.old.chunks at) item }
        ensures spare { self.new.spare ≡ self.old.spare }
        ensures index { (other : At) → index_of self.new.chunks other ≡ index_of self.old.chunks other }
        ensures stays { (other : At) → IsItem self.old.chunks other → IsItem self.new.chunks other }
        ensures gap_stays { (other : At) → IsGap self.old.chunks other → IsGap self.new.chunks other }
    {
        write_at(&mut self.chunks, at, item);
    }

    /// Puts an item there, before the one that stands there. It can't fail, and takes no memory.
    pub fn insert(&mut self, at: At, item: T)
        requires gap { IsGap self.old.chunks at }
        requires spare { 1 ≤ self.old.spare }
        ensures items { items self.new.chunks ≡ insert (items self.old.chunks) (index_of self.old.chunks at) item }
        ensures spare { self.old.spare ≤ self.new.spare + 1 }
    {
        if self.chunks.is_empty() {
            let chunk = self.fresh.take_last();
            begin(&mut self.chunks, chunk, item);
        } else if self.chunks[at.chunk].len() < self.most {
            put_at(&mut self.chunks, self.most, at, item);
        } else {
            let chunk = self.fresh.take_last();
            put_in_full(&mut self.chunks, self.most, at, chunk, item);
        }
    }

    /// Takes the item out that stands there.
    pub fn remove(&mut self, at: At)
        requires { IsItem self.old.chunks at }
        ensures items { items self.new.chunks ≡ removed (items self.old.chunks) (index_of self.old.chunks at) }
        ensures spare { self.old.spare ≤ self.new.spare }
    {
        take_out(&mut self.chunks, at);
    }

    /// All items, in their order.
    pub fn iter(&self) -> Walk<'_, T>
        ensures { result ≡ items self.now.chunks }
    {
        Walk::new(&[], &self.chunks, &[])
    }

    /// The items that tie with what is looked for, which stand together. Takes no memory.
    pub fn ties<C: Compare<T>>(&self, sought: &C) -> Walk<'_, T>
        requires { Rises (C.order sought.now) (items self.now.chunks) }
        ensures { result ≡ filter (λ item. is_eq (C.order sought.now item)) (items self.now.chunks) }
    {
        ties_in(&self.chunks, sought)
    }

    /// The first of the items that tie with what is looked for. Takes no memory.
    pub fn first_tie<C: Compare<T>>(&self, sought: &C) -> Option<&T>
        requires { Rises (C.order sought.now) (items self.now.chunks) }
        ensures { option_map (λ item. item.now) result ≡ slice_get (filter (λ item. is_eq (C.order sought.now item)) (items self.now.chunks)) 0 }
    {
        first_tie_in(&self.chunks, sought)
    }
}

/// The items of [`Chunks`](crate::Chunks) that are still to come, in their order.
///
/// A contract sees the list of those that are left.
#[derive(Drop)]
pub struct Walk<'a, T> {
    // what is left of one chunk, then chunks, then a part of another chunk
    first: &'a [T],
    middle: &'a [Vec<T>],
    last: &'a [T],
}

impl<'a, T> Model for Walk<'a, T> {
    ghost use Rattle.std.specs.Prelude.{List, ◌++◌};
    ghost use Rattle.rv_chunks.specs.Chunking.{items};
    ghost use Rattle.rv_chunks.specs.Vectors.{lists, HaveItems};

    ghost Value = { List T };

    ghost view = { λ left. left.first.now ++ (items (lists left.middle.now) ++ left.last.now) };

    ghost invariant = { λ left. HaveItems (lists left.middle.now) };
}

impl<'a, T> Walk<'a, T> {
    // Over the items of a part, of chunks and of another part.
    pub(crate) fn new(first: &'a [T], middle: &'a [Vec<T>], last: &'a [T]) -> Self
        requires { HaveItems (lists middle.now) }
        ensures { result ≡ first.now ++ (items (lists middle.now) ++ last.now) }
    {
        Walk {
            first,
            middle,
            last,
        }
    }
}

impl<'a, T> Iterator for Walk<'a, T> {
    type Item = &'a T;

    ghost next_gives = { YieldsFirstBy (λ item. item.now) (λ left. left) };

    ghost remaining = { item_count (λ left. left) };

    fn next(&mut self) -> Option<&'a T> {
        if let Some((item, others)) = self.first.split_first() {
            self.first = others;
            return Some(item);
        }
        if let Some((chunk, others)) = self.middle.split_first() {
            self.first = &chunk[1..];
            self.middle = others;
            return Some(&chunk[0]);
        }
        let (item, others) = self.last.split_first()?;
        self.last = others;
        Some(item)
    }
}
