ghost use Rattle.std.specs.Prelude.{◌≡◌, ℕ, ◌≤◌, length, IfOk};
ghost use Rattle.std.specs.Cmp.Lexicographic.{slice_cmp};
ghost use Rattle.std.specs.Str.{IsUtf8, bytes_eq};
ghost use Rattle.std.specs.Ordering.{nat_cmp, as_partial_cmp};
ghost use Rattle.std.specs.Cmp.{partial_order_from_own_ties};
ghost use Rattle.std.specs.Cmp.Rules.{comparing};
ghost use Rattle.std.proofs.Common.{rules};
ghost use Rattle.rv_base.specs.Texts.{IsTextAnswer};

use crate::memory::Memory;
use std::alloc::Global;
use std::cmp::Ordering;
use std::marker::Model;
use std::sync::ArcStr;
use thiserror::Error;

/// A text of at least `MIN` and at most `MAX` bytes. Texts are compared by their bytes.
#[derive(Debug, Drop)]
pub struct Bounded<const MIN: usize, const MAX: usize> {
    text: ArcStr,
}

/// The name of a row, a client or a client group: 1 to 128 bytes.
pub type Id = Bounded<1, 128>;

/// The name of a user: 1 to 64 bytes.
pub type User = Bounded<1, 64>;

/// The name of a list or the text of a todo: at most 16,384 bytes.
pub type Text = Bounded<0, 16384>;

impl<const MIN: usize, const MAX: usize> Model for Bounded<MIN, MAX> {
    ghost use Rattle.std.specs.Prelude.{List, ℕ, ◌≤◌, length};
    ghost use Rattle.std.specs.Arc.{arc_str_bytes};

    ghost Value = { List ℕ };

    ghost view = { λ a. arc_str_bytes a.text };

    ghost invariant = { λ a. (MIN ≤ length (arc_str_bytes a.text)) × (length (arc_str_bytes a.text) ≤ MAX) };
}

/// Why a text was not taken.
#[derive(Clone, Copy, Debug, PartialEq, Eq, Error)]
pub enum TextRefusal {
    /// It has fewer bytes than its kind asks: an empty `Id` or `User`.
    #[error("the text is too short")]
    TooShort,
    /// It has more bytes than its kind may have, this many.
    #[error("the text is too long: {0} bytes")]
    TooLong(usize),
    /// Memory was refused.
    #[error("out of memory")]
    Memory,
}

impl<const MIN: usize, const MAX: usize> Bounded<MIN, MAX> {
    /// Copies a text that is within the bounds.
    pub fn new(alloc: Global, text: &str) -> Result<Self, TextRefusal>
        ensures { IsTextAnswer MIN MAX text.now result }
    {
        if text.len() < MIN {
            return Err(TextRefusal::TooShort);
        }
        if text.len() > MAX {
            return Err(TextRefusal::TooLong(text.len()));
        }
        match ArcStr::from_str(alloc, text) {
            Ok(text) => Ok(Bounded { text }),
            Err(_) => Err(TextRefusal::Memory),
        }
    }

    /// The text itself.
    pub fn as_str(&self) -> &str
        ensures value { result.now ≡ self.now }
        ensures low { MIN ≤ length self.now }
        ensures high { length self.now ≤ MAX }
    {
        self.text.as_str()
    }

    /// The text has from `MIN` to `MAX` bytes, and is UTF-8: its type has it so. It does nothing.
    pub fn fits(&self)
        ensures low { MIN ≤ length self.now }
        ensures high { length self.now ≤ MAX }
        ensures valid { IsUtf8 self.now }
    {
        let _bytes = self.as_str().as_bytes();
    }

    /// The same text, which both share. It takes no memory: the allocator is that of its signature, and what may be refused is one
    /// more owner of a text that has 2^63 already.
    pub fn copy(&self, _alloc: Global) -> Result<Self, Memory>
        ensures { IfOk result (λ copy. copy ≡ self.now) }
    {
        let text = self.text.clone()?;
        Ok(Bounded { text })
    }

    /// The text, which shares what a known one has where both have the same bytes. Takes no memory.
    pub fn shared_with(self, alloc: Global, known: &Self) -> Self
        ensures { result ≡ self.entry }
    {
        if self != *known {
            return self;
        }
        match known.copy(alloc) {
            Ok(shared) => shared,
            Err(Memory) => self,
        }
    }
}

impl User {
    /// The user's name as an id, which shares its text. It takes no memory: what may be refused is one more owner of a text that
    /// has 2^63 already.
    pub fn to_id(&self, _alloc: Global) -> Result<Id, Memory>
        ensures { IfOk result (λ id. id ≡ self.now) }
    {
        let text = self.text.clone()?;
        Ok(Bounded { text })
    }
}

impl<const MIN: usize, const MAX: usize> PartialEq for Bounded<MIN, MAX> {
    ghost eq = { bytes_eq };

    ghost laws = { Prim.search (comparing, rules) };

    fn eq(&self, other: &Self) -> bool {
        self.text == other.text
    }
}

impl<const MIN: usize, const MAX: usize> Eq for Bounded<MIN, MAX> {
    ghost laws = { Prim.search (comparing, rules) };
}

impl<const MIN: usize, const MAX: usize> PartialOrd for Bounded<MIN, MAX> {
    ghost partial_cmp = { as_partial_cmp (slice_cmp nat_cmp) };

    ghost laws = { partial_order_from_own_ties (Prim.search (comparing, rules)) (Prim.search (comparing, rules)) };

    fn partial_cmp(&self, other: &Self) -> Option<Ordering> {
        Some(self.cmp(other))
    }
}

impl<const MIN: usize, const MAX: usize> Ord for Bounded<MIN, MAX> {
    ghost cmp = { slice_cmp nat_cmp };

    ghost total = { Prim.search (comparing, rules) };

    ghost matches_partial_cmp = { Prim.search (comparing, rules) };

    ghost matches_eq = { Prim.search (comparing, rules) };

    fn cmp(&self, other: &Self) -> Ordering {
        self.text.cmp(&other.text)
    }
}
