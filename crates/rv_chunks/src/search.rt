// Searches among chunks.
ghost use Rattle.std.specs.Prelude.{◌≡◌, ◌≤◌, ◌<◌, [], length, option_map, slice_get, IsTrue, MatchResult};
ghost use Rattle.std.specs.declared.cmp.Ordering.{Ordering};
ghost use Rattle.std.specs.Ordering.{is_lt, is_le, is_eq};
ghost use Rattle.std.specs.List.{filter};
ghost use Rattle.std.specs.List.Sorted.{IsSearchInRange, IsBinarySearchResult};
ghost use Rattle.rv_chunks.specs.Chunking.{items, chunk_at, index_of, index_found, GoesBetween, IsItem, IsGap, Rises};
ghost use Rattle.rv_chunks.specs.Vectors.{lists, HaveItems, ends, PartsChunks};

use crate::at::At;
use crate::chunks::Walk;
use std::cmp::Ordering;

/// How each item stands to what is looked for.
pub trait Compare<T> {
    ghost order: { Self → T → Ordering };

    /// Whether the item stands before what is looked for, ties with it or stands after it.
    fn compare(&self, item: &T) -> Ordering
        ensures { result ≡ order self.now item.now };
}

// Whether the chunk ends with an item below what is looked for.
fn ends_below<T, C: Compare<T>>(chunk: &[T], sought: &C) -> bool
    ensures { result ≡ ends (λ i. is_lt (C.order sought.now i)) chunk.now }
{
    match chunk.last() {
        Some(item) => sought.compare(item).is_lt(),
        None => false,
    }
}

// Whether the chunk ends with an item that is not above what is looked for.
fn ends_not_above<T, C: Compare<T>>(chunk: &[T], sought: &C) -> bool
    ensures { result ≡ ends (λ i. is_le (C.order sought.now i)) chunk.now }
{
    match chunk.last() {
        Some(item) => sought.compare(item).is_le(),
        None => false,
    }
}

// How many chunks end below what is looked for.
fn chunks_below<T, C: Compare<T>>(chunks: &[Vec<T>], sought: &C) -> usize
    ensures bound { result ≤ length chunks.now }
    ensures parted { PartsChunks (λ i. is_lt (C.order sought.now i)) (lists chunks.now) result }
{
    chunks.partition_point(|chunk| ends_below(chunk, sought))
}

// How many chunks end with an item that is not above what is looked for, by a search among all.
fn part_not_above<T, C: Compare<T>>(chunks: &[Vec<T>], sought: &C) -> usize
    ensures bound { result ≤ length chunks.now }
    ensures parted { PartsChunks (λ i. is_le (C.order sought.now i)) (lists chunks.now) result }
{
    chunks.partition_point(|chunk| ends_not_above(chunk, sought))
}

// The same. What ties mostly stands in a chunk or two, so the first is looked at before a search among all.
fn chunks_not_above<T, C: Compare<T>>(chunks: &[Vec<T>], sought: &C) -> usize
    ensures bound { result ≤ length chunks.now }
    ensures parted { PartsChunks (λ i. is_le (C.order sought.now i)) (lists chunks.now) result }
{
    match chunks.first() {
        Some(chunk) => {
            if ends_not_above(chunk, sought) {
                part_not_above(chunks, sought)
            } else {
                0
            }
        }
        None => 0,
    }
}

// Where an item goes after all others.
fn end<T>(chunks: &[Vec<T>]) -> At
    ensures gap { IsGap (lists chunks.now) result }
    ensures last { index_of (lists chunks.now) result ≡ length (items (lists chunks.now)) }
{
    match chunks.last() {
        Some(chunk) => At {
            chunk: chunks.len() - 1,
            offset: chunk.len(),
        },
        None => At {
            chunk: 0,
            offset: 0,
        },
    }
}

// Where the item that is looked for stands in a chunk, or where it would go.
fn position_in_chunk<T, C: Compare<T>>(chunk: &[T], sought: &C) -> Result<usize, usize>
    ensures bound { IsSearchInRange result (length chunk.now) }
    ensures position { IsBinarySearchResult (C.order sought.now) chunk.now result }
{
    chunk.binary_search_by(|item| sought.compare(item))
}

// Where the item that is looked for stands, or where it would go.
pub(crate) fn position_in<T, C: Compare<T>>(chunks: &[Vec<T>], sought: &C) -> Result<At, At>
    requires { HaveItems (lists chunks.now) }
    ensures bound { IsSearchInRange (index_found (lists chunks.now) result) (length (items (lists chunks.now))) }
    ensures position { IsBinarySearchResult (C.order sought.now) (items (lists chunks.now)) (index_found (lists chunks.now) result) }
    ensures at { MatchResult result (IsItem (lists chunks.now)) (IsGap (lists chunks.now)) }
{
    let chunk = chunks_below(chunks, sought);
    if chunk == chunks.len() {
        return Err(end(chunks));
    }
    match position_in_chunk(&chunks[chunk], sought) {
        Ok(offset) => Ok(At { chunk, offset }),
        Err(offset) => Err(At { chunk, offset }),
    }
}

// Whether what is looked for goes between the items of a chunk before the offset and at it.
fn goes_between<T, C: Compare<T>>(chunk: &[T], offset: usize, sought: &C) -> bool
    ensures { IsTrue result → GoesBetween (C.order sought.now) chunk.now offset }
{
    if offset == 0 || offset >= chunk.len() {
        return false;
    }
    sought.compare(&chunk[offset - 1]).is_lt() && sought.compare(&chunk[offset]).is_gt()
}

// Whether what is looked for goes there, between two items of one chunk.
fn goes_at<T, C: Compare<T>>(chunks: &[Vec<T>], sought: &C, at: At) -> bool
    ensures chunk { IsTrue result → at.chunk < length chunks.now }
    ensures between { IsTrue result → GoesBetween (C.order sought.now) (chunk_at (lists chunks.now) at.chunk) at.offset }
{
    if at.chunk >= chunks.len() {
        return false;
    }
    goes_between(&chunks[at.chunk], at.offset, sought)
}

// The same as `position_in`. A place is looked at before a search: that of an earlier one is mostly right.
pub(crate) fn position_near<T, C: Compare<T>>(
    chunks: &[Vec<T>],
    sought: &C,
    near: At,
) -> Result<At, At>
    requires { HaveItems (lists chunks.now) }
    ensures bound { IsSearchInRange (index_found (lists chunks.now) result) (length (items (lists chunks.now))) }
    ensures position { IsBinarySearchResult (C.order sought.now) (items (lists chunks.now)) (index_found (lists chunks.now) result) }
    ensures at { MatchResult result (IsItem (lists chunks.now)) (IsGap (lists chunks.now)) }
{
    if goes_at(chunks, sought, near) {
        Err(near)
    } else {
        position_in(chunks, sought)
    }
}

// The items of a chunk that tie with what is looked for, which stand together.
fn ties_in_chunk<'a, T, C: Compare<T>>(chunk: &'a [T], sought: &C) -> &'a [T]
    ensures { Rises (C.order sought.now) chunk.now → result.now ≡ filter (λ i. is_eq (C.order sought.now i)) chunk.now }
{
    let below = chunk.partition_point(|item| sought.compare(item).is_lt());
    let rest = &chunk[below..];
    let own = rest.partition_point(|item| sought.compare(item).is_le());
    &rest[..own]
}

// Whether the chunk begins with an item above what is looked for, so that none of its items ties with that.
fn begins_above<T, C: Compare<T>>(chunk: &[T], sought: &C) -> bool
    ensures { IsTrue result → Rises (C.order sought.now) chunk.now → filter (λ i. is_eq (C.order sought.now i)) chunk.now ≡ [] }
{
    match chunk.first() {
        Some(item) => sought.compare(item).is_gt(),
        None => true,
    }
}

// The same in the first of the chunks, if there is one.
fn ties_in_first<'a, T, C: Compare<T>>(chunks: &'a [Vec<T>], sought: &C) -> &'a [T]
    ensures { Rises (C.order sought.now) (chunk_at (lists chunks.now) 0) → result.now ≡ filter (λ i. is_eq (C.order sought.now i)) (chunk_at (lists chunks.now) 0) }
{
    match chunks.first() {
        Some(chunk) => {
            if begins_above(chunk, sought) {
                &[]
            } else {
                ties_in_chunk(chunk, sought)
            }
        }
        None => &[],
    }
}

// The items that tie with what is looked for.
pub(crate) fn ties_in<'a, T, C: Compare<T>>(chunks: &'a [Vec<T>], sought: &C) -> Walk<'a, T>
    requires { HaveItems (lists chunks.now) }
    ensures { Rises (C.order sought.now) (items (lists chunks.now)) → result ≡ filter (λ i. is_eq (C.order sought.now i)) (items (lists chunks.now)) }
{
    let start = chunks_below(chunks, sought);
    match chunks[start..].split_first() {
        Some((chunk, others)) => {
            let (middle, after) = others.split_at(chunks_not_above(others, sought));
            Walk::new(
                ties_in_chunk(chunk, sought),
                middle,
                ties_in_first(after, sought),
            )
        }
        None => Walk::new(&[], &[], &[]),
    }
}

// The first of the items of a chunk that tie with what is looked for.
fn first_tie_in_chunk<'a, T, C: Compare<T>>(chunk: &'a [T], sought: &C) -> Option<&'a T>
    ensures { Rises (C.order sought.now) chunk.now → option_map (λ item. item.now) result ≡ slice_get (filter (λ i. is_eq (C.order sought.now i)) chunk.now) 0 }
{
    let below = chunk.partition_point(|item| sought.compare(item).is_lt());
    match chunk[below..].first() {
        Some(item) => {
            if sought.compare(item).is_eq() {
                Some(item)
            } else {
                None
            }
        }
        None => None,
    }
}

// The first of the items that tie with what is looked for. It stands in the first chunk that does not end below, or nowhere.
pub(crate) fn first_tie_in<'a, T, C: Compare<T>>(chunks: &'a [Vec<T>], sought: &C) -> Option<&'a T>
    requires { HaveItems (lists chunks.now) }
    ensures { Rises (C.order sought.now) (items (lists chunks.now)) → option_map (λ item. item.now) result ≡ slice_get (filter (λ i. is_eq (C.order sought.now i)) (items (lists chunks.now))) 0 }
{
    let start = chunks_below(chunks, sought);
    match chunks[start..].first() {
        Some(chunk) => first_tie_in_chunk(chunk, sought),
        None => None,
    }
}
