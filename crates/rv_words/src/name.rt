ghost use Rattle.std.specs.Prelude.{◌≡◌, IfOk};

use rv_base::Memory;
use std::alloc::Global;
use std::marker::Model;

/// A name that the words give: of a store, or of a file. It is any text, the empty one too. A contract sees the list of its bytes.
#[derive(Debug, Drop)]
pub struct Name {
    name: String,
}

impl Model for Name {
    ghost use Rattle.std.specs.Prelude.{List, ℕ, string_bytes};

    ghost Value = { List ℕ };

    ghost view = { λ a. string_bytes a.name };
}

impl Name {
    /// Copies a name.
    pub fn new(alloc: Global, name: &str) -> Result<Self, Memory>
        ensures { IfOk result (λ copy. copy ≡ name.now) }
    {
        let name = String::from_str(alloc, name)?;
        Ok(Name { name })
    }

    /// The name as text.
    pub fn as_str(&self) -> &str
        ensures { result.now ≡ self.now }
    {
        self.name.as_str()
    }
}
