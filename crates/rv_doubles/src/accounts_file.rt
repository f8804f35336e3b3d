// The accounts files of a place in memory.
ghost use Rattle.std.specs.Prelude.{◌≡◌, ◌++◌, ◌∷◌, [], IfOk, OnOk, OnErr};
ghost use Rattle.std.specs.List.{position_from};
ghost use Rattle.std.specs.Str.{bytes_eq};
ghost use Rattle.rv_doubles.specs.MemoryStores.{accounts_file, with_file};

use rv_base::{Bytes, Memory};
use rv_keeper::copy_bytes;
use std::alloc::Global;

/// An accounts file of a place in memory.
#[derive(Debug, Drop)]
pub struct AccountsFile {
    /// Its name.
    pub name: Bytes,
    /// Its bytes, of any content.
    pub bytes: Bytes,
}

impl AccountsFile {
    /// Whether the file has this name.
    pub(crate) fn is_named(&self, name: &str) -> bool
        ensures { result ≡ bytes_eq name.now self.now.name }
    {
        name.as_bytes() == self.name.as_slice()
    }

    /// The file's bytes, in memory of their own.
    pub(crate) fn read(&self, alloc: Global) -> Result<Bytes, Memory>
        ensures { IfOk result (λ bytes. bytes ≡ self.now.bytes) }
    {
        copy_bytes(alloc, &self.bytes)
    }
}

// The index of the first file of a name.
fn find(files: &[AccountsFile], name: &str) -> Option<usize>
    ensures { result ≡ position_from (λ file. bytes_eq name.now file.name) 0 files.now }
{
    files.iter().position(|file| file.is_named(name))
}

// Adds a file at the end.
fn push(
    alloc: Global,
    files: &mut Vec<AccountsFile>,
    name: &str,
    bytes: Bytes,
) -> Result<(), Memory>
    ensures ok { OnOk result (files.new.items ≡ files.old.items ++ accounts_file name.now bytes ∷ []) }
    ensures err { OnErr result (files.new.items ≡ files.old.items) }
{
    let name = Bytes::from_vec(name.as_bytes().to_vec(alloc)?);
    files.push(AccountsFile { name, bytes })?;
    Ok(())
}

/// Writes a file, in the place of one of its name or at the end. `Err` is want of memory, and nothing is changed.
pub(crate) fn write(
    alloc: Global,
    files: &mut Vec<AccountsFile>,
    name: &str,
    bytes: Bytes,
) -> Result<(), Memory>
    ensures ok { OnOk result (files.new.items ≡ with_file (accounts_file name.now bytes) files.old.items) }
    ensures err { OnErr result (files.new.items ≡ files.old.items) }
{
    match find(files, name) {
        Some(at) => {
            files[at].bytes = bytes;
            Ok(())
        }
        None => push(alloc, files, name, bytes),
    }
}
