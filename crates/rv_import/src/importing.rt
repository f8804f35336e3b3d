// The names of an import.
ghost use Rattle.std.specs.Prelude.{◌≡◌, IfOk, OnOk, string_bytes};
ghost use Rattle.rv_base.specs.Texts.{IsWithin};
ghost use Rattle.rv_import.specs.Imports.{group_id, client_id, todo_id};

use itoa::Buffer;
use rv_base::{Bounded, Id, Memory, TextRefusal, User};
use std::alloc::Global;

/// The name of an import: 1 to 48 bytes.
pub type ImportName = Bounded<1, 48>;

// The text as an id.
fn id_of(alloc: Global, text: &str) -> Result<Id, Memory>
    requires { IsWithin 1 128 text.now }
    ensures { IfOk result (λ id. id ≡ text.now) }
{
    match Bounded::new(alloc, text) {
        Ok(id) => Ok(id),
        Err(TextRefusal::Memory) => Err(Memory),
        Err(TextRefusal::TooShort) => unreachable!(),
        Err(TextRefusal::TooLong(_)) => unreachable!(),
    }
}

// The text of the client group of a user's imports.
fn group_text(alloc: Global, user: &User) -> Result<String, Memory>
    ensures text { IfOk result (λ text. string_bytes text ≡ group_id user.now) }
    ensures fits { OnOk result (IsWithin 1 68 (group_id user.now)) }
{
    let mut text = String::from_str(alloc, "csv/")?;
    text.push_str(user.as_str())?;
    Ok(text)
}

// The text of the client of an import.
fn client_text(alloc: Global, user: &User, name: &ImportName) -> Result<String, Memory>
    ensures text { IfOk result (λ text. string_bytes text ≡ client_id user.now name.now) }
    ensures fits { OnOk result (IsWithin 1 117 (client_id user.now name.now)) }
{
    let mut text = group_text(alloc, user)?;
    text.push_str("/")?;
    text.push_str(name.as_str())?;
    Ok(text)
}

/// The client group of a user's imports, `csv/USER`.
pub fn import_group(alloc: Global, user: &User) -> Result<Id, Memory>
    ensures { IfOk result (λ id. id ≡ group_id user.now) }
{
    let text = group_text(alloc, user)?;
    id_of(alloc, text.as_str())
}

/// The client of an import, `csv/USER/NAME`.
pub fn import_client(alloc: Global, user: &User, name: &ImportName) -> Result<Id, Memory>
    ensures { IfOk result (λ id. id ≡ client_id user.now name.now) }
{
    let text = client_text(alloc, user, name)?;
    id_of(alloc, text.as_str())
}

// The text of the todo of a record of an import.
fn todo_text(alloc: Global, user: &User, name: &ImportName, number: u32) -> Result<String, Memory>
    ensures text { IfOk result (λ text. string_bytes text ≡ todo_id user.now name.now number) }
    ensures fits { OnOk result (IsWithin 1 128 (todo_id user.now name.now number)) }
{
    let mut digits = Buffer::new();
    let mut text = client_text(alloc, user, name)?;
    text.push_str("/")?;
    text.push_str(digits.format(number))?;
    Ok(text)
}

/// The todo of a record of an import, `csv/USER/NAME/N`. With any number of 32 bits it is an id.
pub fn import_todo(alloc: Global, user: &User, name: &ImportName, number: u32) -> Result<Id, Memory>
    ensures { IfOk result (λ id. id ≡ todo_id user.now name.now number) }
{
    let text = todo_text(alloc, user, name, number)?;
    id_of(alloc, text.as_str())
}
