ghost use Rattle.std.specs.Prelude.{◌≡◌, ◌∷◌, IfOk};
ghost use Rattle.std.specs.Cmp.Lexicographic.{slice_cmp};
ghost use Rattle.std.specs.Ordering.{nat_cmp};

use rv_base::{Bytes, Memory};
use std::alloc::Global;
use std::cmp::Ordering;

/// What is kept at one place: the body that stands under a key on a shelf.
#[derive(Debug, Drop)]
pub struct Cell {
    /// The shelf, from 1 to 255.
    pub shelf: u8,
    /// The key among those of the shelf.
    pub key: Bytes,
    /// What is kept.
    pub body: Bytes,
}

/// The same bytes, in memory of their own.
pub fn copy_bytes(alloc: Global, bytes: &Bytes) -> Result<Bytes, Memory>
    ensures { IfOk result (λ copy. copy ≡ bytes.now) }
{
    let items = bytes.as_slice().to_vec(alloc)?;
    Ok(Bytes::from_vec(items))
}

impl Cell {
    /// How the cell stands to a place: by the shelves, and on one shelf by the bytes of the keys.
    pub fn compare(&self, shelf: u8, key: &Bytes) -> Ordering
        ensures { result ≡ slice_cmp nat_cmp (self.now.shelf ∷ self.now.key) (shelf ∷ key.now) }
    {
        match self.shelf.cmp(&shelf) {
            Ordering::Less => Ordering::Less,
            Ordering::Equal => self.key.as_slice().cmp(key.as_slice()),
            Ordering::Greater => Ordering::Greater,
        }
    }

    /// The same cell, in memory of its own.
    pub fn copy(&self, alloc: Global) -> Result<Cell, Memory>
        ensures { IfOk result (λ copy. copy ≡ self.now) }
    {
        Ok(Cell {
            shelf: self.shelf,
            key: copy_bytes(alloc, &self.key)?,
            body: copy_bytes(alloc, &self.body)?,
        })
    }
}
