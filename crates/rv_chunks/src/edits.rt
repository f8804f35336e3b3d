// Items that come and go in chunks.
ghost use Rattle.std.specs.Prelude.{◌≡◌, ℕ, ◌≤◌, ◌<◌, ◌+◌, ◌∷◌, ◌++◌, [], length, reverse, IfOk, OnOk, slice_set, vec_len, vec_capacity};
ghost use Rattle.std.specs.List.{insert, remove as removed};
ghost use Rattle.rv_chunks.specs.Chunking.{items, chunk_at, index_of, IsItem, IsGap};
ghost use Rattle.rv_chunks.specs.Vectors.{lists, IsChunk, IsFresh, AreChunks, AreFresh};

use crate::at::At;
use rv_base::Memory;
use std::alloc::Global;

// A chunk with no item, and with space for as many as a chunk has.
fn fresh_chunk<T: Drop>(alloc: Global, most: usize) -> Result<Vec<T>, Memory>
    ensures { IfOk result (IsFresh most) }
{
    Ok(Vec::with_capacity(alloc, most)?)
}

// Makes fresh chunks until there are so many.
pub(crate) fn fill<T: Drop>(
    fresh: &mut Vec<Vec<T>>,
    alloc: Global,
    most: usize,
    count: usize,
) -> Result<(), Memory>
    requires fresh { AreFresh most fresh.old.items }
    requires space { count ≤ vec_capacity fresh.old }
    requires fewer { vec_len fresh.old ≤ count }
    ensures fresh { AreFresh most fresh.new.items }
    ensures ok { OnOk result (vec_len fresh.new ≡ count) }
    ensures more { vec_len fresh.old ≤ vec_len fresh.new }
    ensures most { vec_len fresh.new ≤ count }
{
    for _ in fresh.len()..count {
        let chunk = fresh_chunk(alloc, most)?;
        fresh.push_reserved(chunk);
    }
    Ok(())
}

// Puts an item into a chunk that has space for it.
fn put<T: Drop>(chunk: &mut Vec<T>, offset: usize, item: T)
    requires offset { offset ≤ vec_len chunk.old }
    requires space { vec_len chunk.old < vec_capacity chunk.old }
    ensures items { chunk.new.items ≡ insert chunk.old.items offset item }
    ensures len { vec_len chunk.new ≡ vec_len chunk.old + 1 }
    ensures capacity { vec_capacity chunk.old ≤ vec_capacity chunk.new }
{
    match chunk.insert(offset, item) {
        Ok(()) => {}
        Err(_) => unreachable!(),
    }
}

// Puts a chunk among others, which have space for it.
fn put_chunk<T: Drop>(chunks: &mut Vec<Vec<T>>, at: usize, chunk: Vec<T>)
    requires at { at ≤ vec_len chunks.old }
    requires space { vec_len chunks.old < vec_capacity chunks.old }
    ensures chunks { chunks.new.items ≡ insert chunks.old.items at chunk }
    ensures len { vec_len chunks.new ≡ vec_len chunks.old + 1 }
    ensures capacity { vec_capacity chunks.old ≤ vec_capacity chunks.new }
{
    match chunks.insert(at, chunk) {
        Ok(()) => {}
        Err(_) => unreachable!(),
    }
}

// Puts an item into the one of two halves where it belongs.
fn put_in_half<T: Drop>(chunk: &mut Vec<T>, after: &mut Vec<T>, offset: usize, item: T)
    requires chunk { (1 ≤ vec_len chunk.old) × (vec_len chunk.old < vec_capacity chunk.old) }
    requires after { (1 ≤ vec_len after.old) × (vec_len after.old < vec_capacity after.old) }
    requires offset { offset ≤ vec_len chunk.old + vec_len after.old }
    ensures items { chunk.new.items ++ after.new.items ≡ insert (chunk.old.items ++ after.old.items) offset item }
    ensures chunk { (most : ℕ) → vec_len chunk.old < most → most ≤ vec_capacity chunk.old → IsChunk most chunk.new }
    ensures after { (most : ℕ) → vec_len after.old < most → most ≤ vec_capacity after.old → IsChunk most after.new }
{
    let half = chunk.len();
    if offset <= half {
        put(chunk, offset, item);
    } else {
        put(after, offset - half, item);
    }
}

// Moves the upper half of a full chunk to a fresh one.
fn halve<T: Drop>(chunk: &mut Vec<T>, fresh: &mut Vec<T>, most: usize)
    requires some { 2 ≤ most }
    requires full { vec_len chunk.old ≡ most }
    requires fresh { IsFresh most fresh.old }
    ensures items { chunk.new.items ++ fresh.new.items ≡ chunk.old.items }
    ensures all { vec_len chunk.new + vec_len fresh.new ≡ most }
    ensures chunk { (1 ≤ vec_len chunk.new) × (vec_len chunk.new < most) }
    ensures chunk_space { vec_capacity chunk.old ≤ vec_capacity chunk.new }
    ensures fresh { (1 ≤ vec_len fresh.new) × (vec_len fresh.new < most) }
    ensures fresh_space { vec_capacity fresh.old ≤ vec_capacity fresh.new }
{
    for _ in 0..most / 2 {
        fresh.push_reserved(chunk.take_last());
    }
    fresh.reverse();
}

// Puts an item into a full chunk, part of which goes on in a fresh one: the upper half, or the item alone where it goes
// after all others.
fn spill<T: Drop>(chunk: &mut Vec<T>, fresh: &mut Vec<T>, most: usize, offset: usize, item: T)
    requires some { 2 ≤ most }
    requires full { vec_len chunk.old ≡ most }
    requires chunk_space { most ≤ vec_capacity chunk.old }
    requires fresh { IsFresh most fresh.old }
    requires offset { offset ≤ most }
    ensures items { chunk.new.items ++ fresh.new.items ≡ insert chunk.old.items offset item }
    ensures chunk { IsChunk most chunk.new }
    ensures fresh { IsChunk most fresh.new }
{
    if offset == most {
        fresh.push_reserved(item);
    } else {
        halve(chunk, fresh, most);
        put_in_half(chunk, fresh, offset, item);
    }
}

// Puts an item into a chunk that is not full.
pub(crate) fn put_at<T: Drop>(chunks: &mut Vec<Vec<T>>, most: usize, at: At, item: T)
    requires chunks { AreChunks most chunks.old.items }
    requires chunk { at.chunk < vec_len chunks.old }
    requires gap { IsGap (lists chunks.old.items) at }
    requires space { length (chunk_at (lists chunks.old.items) at.chunk) < most }
    ensures chunks { AreChunks most chunks.new.items }
    ensures items { items (lists chunks.new.items) ≡ insert (items (lists chunks.old.items)) (index_of (lists chunks.old.items) at) item }
    ensures len { vec_len chunks.new ≡ vec_len chunks.old }
    ensures capacity { vec_capacity chunks.new ≡ vec_capacity chunks.old }
{
    put(&mut chunks[at.chunk], at.offset, item);
}

// Puts an item into a full chunk, which goes on in a fresh one after it.
pub(crate) fn put_in_full<T: Drop>(
    chunks: &mut Vec<Vec<T>>,
    most: usize,
    at: At,
    fresh: Vec<T>,
    item: T,
)
    requires some { 2 ≤ most }
    requires chunks { AreChunks most chunks.old.items }
    requires chunk { at.chunk < vec_len chunks.old }
    requires gap { IsGap (lists chunks.old.items) at }
    requires full { length (chunk_at (lists chunks.old.items) at.chunk) ≡ most }
    requires fresh { IsFresh most fresh }
    requires space { vec_len chunks.old < vec_capacity chunks.old }
    ensures chunks { AreChunks most chunks.new.items }
    ensures items { items (lists chunks.new.items) ≡ insert (items (lists chunks.old.items)) (index_of (lists chunks.old.items) at) item }
    ensures len { vec_len chunks.new ≡ vec_len chunks.old + 1 }
    ensures capacity { vec_capacity chunks.old ≤ vec_capacity chunks.new }
{
    let mut after = fresh;
    spill(&mut chunks[at.chunk], &mut after, most, at.offset, item);
    put_chunk(chunks, at.chunk + 1, after);
}

// The first chunk, with one item.
pub(crate) fn begin<T: Drop>(chunks: &mut Vec<Vec<T>>, fresh: Vec<T>, item: T)
    requires none { vec_len chunks.old ≡ 0 }
    requires fresh { (fresh.items ≡ []) × (1 ≤ vec_capacity fresh) }
    requires space { vec_len chunks.old < vec_capacity chunks.old }
    ensures chunks { (most : ℕ) → 1 ≤ most → most ≤ vec_capacity fresh → AreChunks most chunks.new.items }
    ensures items { lists chunks.new.items ≡ (item ∷ []) ∷ [] }
    ensures len { vec_len chunks.new ≡ 1 }
    ensures capacity { vec_capacity chunks.old ≤ vec_capacity chunks.new }
{
    let mut chunk = fresh;
    chunk.push_reserved(item);
    chunks.push_reserved(chunk);
}

// Writes an item in place of another.
pub(crate) fn write_at<T: Drop>(chunks: &mut Vec<Vec<T>>, at: At, item: T)
    requires item { IsItem (lists chunks.old.items) at }
    ensures chunks { (most : ℕ) → AreChunks most chunks.old.items → AreChunks most chunks.new.items }
    ensures items { lists chunks.new.items ≡ slice_set (lists chunks.old.items) at.chunk (slice_set (chunk_at (lists chunks.old.items) at.chunk) at.offset item) }
    ensures len { vec_len chunks.new ≡ vec_len chunks.old }
    ensures capacity { vec_capacity chunks.new ≡ vec_capacity chunks.old }
{
    let chunk = &mut chunks[at.chunk];
    chunk[at.offset] = item;
}

// Takes an item out of its chunk, and the chunk with it if it was the only one.
pub(crate) fn take_out<T: Drop>(chunks: &mut Vec<Vec<T>>, at: At)
    requires item { IsItem (lists chunks.old.items) at }
    ensures chunks { (most : ℕ) → AreChunks most chunks.old.items → AreChunks most chunks.new.items }
    ensures items { items (lists chunks.new.items) ≡ removed (items (lists chunks.old.items)) (index_of (lists chunks.old.items) at) }
    ensures len { vec_len chunks.new ≤ vec_len chunks.old }
    ensures capacity { vec_capacity chunks.new ≡ vec_capacity chunks.old }
{
    if chunks[at.chunk].len() == 1 {
        chunks.remove(at.chunk);
    } else {
        take_from(&mut chunks[at.chunk], at.offset);
    }
}

// Takes an item out of a chunk.
fn take_from<T: Drop>(chunk: &mut Vec<T>, offset: usize)
    requires { offset < vec_len chunk.old }
    ensures items { chunk.new.items ≡ removed chunk.old.items offset }
    ensures len { vec_len chunk.new + 1 ≡ vec_len chunk.old }
    ensures capacity { vec_capacity chunk.new ≡ vec_capacity chunk.old }
{
    chunk.remove(offset);
}
