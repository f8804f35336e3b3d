ghost use Rattle.std.specs.Prelude.{◌≡◌, IfOk, OnOk, string_bytes};
ghost use Rattle.std.specs.Cmp.Lexicographic.{slice_cmp};
ghost use Rattle.std.specs.Ordering.{nat_cmp};
ghost use Rattle.rv_rows.specs.Keys.{prefix, key_text};

use rv_base::{Id, Memory};
use std::alloc::Global;
use std::cmp::Ordering;

/// The kind of a row.
#[derive(Clone, Copy, Debug, PartialEq, Eq)]
pub enum Kind {
    /// An extent of a user.
    Extent,
    /// A list.
    List,
    /// A share of a list with a user.
    Share,
    /// A todo of a list.
    Todo,
}

/// What names a row. Its text is `extent/USER`, `list/ID`, `share/ID` or `todo/ID`, and keys are ordered by the bytes of their
/// texts.
#[derive(Debug, Drop)]
pub struct Key {
    /// The kind of the row.
    pub kind: Kind,
    /// The row's name among those of its kind: of an extent its user.
    pub id: Id,
}

impl Kind {
    /// The front of the kind's key texts, with its slash.
    pub fn prefix(self) -> &'static str
        ensures { result.now ≡ prefix self }
    {
        match self {
            Kind::Extent => "extent/",
            Kind::List => "list/",
            Kind::Share => "share/",
            Kind::Todo => "todo/",
        }
    }

    /// The text of the key of this kind and this id.
    pub fn key_text(self, alloc: Global, id: &str) -> Result<String, Memory>
        ensures { IfOk result (λ text. string_bytes text ≡ key_text (record { kind = self; id = id.now })) }
    {
        let mut text = String::from_str(alloc, self.prefix())?;
        text.push_str(id)?;
        Ok(text)
    }

    /// Makes the buffer hold the text of the key of this kind and this id, and nothing else.
    pub fn put_key_text(self, out: &mut String, id: &str) -> Result<(), Memory>
        ensures { OnOk result (string_bytes out.new ≡ key_text (record { kind = self; id = id.now })) }
    {
        out.clear();
        out.push_str(self.prefix())?;
        out.push_str(id)?;
        Ok(())
    }
}

// How the key of this kind and id stands to another, by the bytes of their texts.
pub(crate) fn compare_keys(kind: Kind, id: &str, other_kind: Kind, other_id: &str) -> Ordering
    ensures { result ≡ slice_cmp nat_cmp (key_text (record { kind = kind; id = id.now })) (key_text (record { kind = other_kind; id = other_id.now })) }
{
    match (kind, other_kind) {
        (Kind::Extent, Kind::Extent) => id.cmp(other_id),
        (Kind::Extent, Kind::List) => Ordering::Less,
        (Kind::Extent, Kind::Share) => Ordering::Less,
        (Kind::Extent, Kind::Todo) => Ordering::Less,
        (Kind::List, Kind::Extent) => Ordering::Greater,
        (Kind::List, Kind::List) => id.cmp(other_id),
        (Kind::List, Kind::Share) => Ordering::Less,
        (Kind::List, Kind::Todo) => Ordering::Less,
        (Kind::Share, Kind::Extent) => Ordering::Greater,
        (Kind::Share, Kind::List) => Ordering::Greater,
        (Kind::Share, Kind::Share) => id.cmp(other_id),
        (Kind::Share, Kind::Todo) => Ordering::Less,
        (Kind::Todo, Kind::Extent) => Ordering::Greater,
        (Kind::Todo, Kind::List) => Ordering::Greater,
        (Kind::Todo, Kind::Share) => Ordering::Greater,
        (Kind::Todo, Kind::Todo) => id.cmp(other_id),
    }
}

impl Key {
    /// How the key stands to another, by the bytes of their texts.
    pub fn compare(&self, other: &Key) -> Ordering
        ensures { result ≡ slice_cmp nat_cmp (key_text self.now) (key_text other.now) }
    {
        compare_keys(self.kind, self.id.as_str(), other.kind, other.id.as_str())
    }

    /// The same key, which shares its text.
    pub fn copy(&self, alloc: Global) -> Result<Key, Memory>
        ensures { IfOk result (λ copy. copy ≡ self.now) }
    {
        Ok(Key {
            kind: self.kind,
            id: self.id.copy(alloc)?,
        })
    }
}
