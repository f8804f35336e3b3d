ghost use Rattle.std.specs.Prelude.{◌≡◌, ◌<◌, ◌^◌, length, map, option_map, string_bytes, IfOk};
ghost use Rattle.toml.specs.View.{view};
ghost use Rattle.rv_base.specs.Schemas.{first_schemas};
ghost use Rattle.rv_base.specs.Sorted.{InOrder};
ghost use Rattle.rv_accounts.specs.File.{ReadsFile, account_key, accounts_in, ordered_accounts, schemas_in, file_in, are_tables};

use crate::account::Account;
use crate::accounts::{Accounts, position_of};
use crate::document::{account_of, array_of, document_of, texts_of};
use crate::fault::AccountsFault;
use rv_base::{Memory, Schemas, Sequence};
use std::alloc::Global;
use toml::Value;

// The schema versions that are served where none are named.
fn first_schemas(alloc: Global) -> Result<Schemas, Memory>
    ensures { IfOk result (λ schemas. map string_bytes schemas ≡ first_schemas) }
{
    let mut schemas = Sequence::new(alloc);
    schemas.push(String::new(alloc))?;
    schemas.push(String::from_str(alloc, "1")?)?;
    schemas.push(String::from_str(alloc, "2")?)?;
    Ok(schemas)
}

// The schema versions that are served, by the array that names them, if there is one.
fn schemas_of(alloc: Global, named: Option<&[Value]>) -> Result<Schemas, AccountsFault>
    ensures { ReadsFile (map string_bytes) result (schemas_in (option_map (λ values. map view values.now) named.entry)) }
{
    match named {
        Some(values) => texts_of(alloc, values),
        None => Ok(first_schemas(alloc)?),
    }
}

fn are_all_tables(values: &[Value]) -> bool
    ensures { result ≡ are_tables (map view values.now) }
{
    for value in values {
        if !value.is_table() {
            return false;
        }
    }
    true
}

// The accounts of some tables, in the order of their keys.
fn accounts_of(alloc: Global, tables: &[Value]) -> Result<Vec<Account>, AccountsFault>
    requires { length tables.now < 2 ^ 32 }
    ensures order { IfOk result (λ accounts. InOrder account_key accounts.items) }
    ensures accounts { ReadsFile (λ accounts. accounts.items) result (ordered_accounts (map view tables.now)) }
{
    let mut accounts: Vec<Account> = Vec::new(alloc);
    let mut number = 0u32;
    for table in tables {
        number += 1;
        let Some(account) = account_of(alloc, table)? else {
            return Err(AccountsFault::BadFile(number));
        };
        let Err(position) = position_of(&accounts, account.key.as_str().as_bytes()) else {
            return Err(AccountsFault::Twice(number));
        };
        let Ok(()) = accounts.insert(position, account) else {
            return Err(AccountsFault::Memory);
        };
    }
    Ok(accounts)
}

// The accounts of the array that has them, if there is one.
fn accounts_at(alloc: Global, array: Option<&[Value]>) -> Result<Vec<Account>, AccountsFault>
    ensures order { IfOk result (λ accounts. InOrder account_key accounts.items) }
    ensures accounts { ReadsFile (λ accounts. accounts.items) result (accounts_in (option_map (λ values. map view values.now) array.entry)) }
{
    let Some(values) = array else {
        return Ok(Vec::new(alloc));
    };
    if !are_all_tables(values) || values.len() > 4_294_967_295 {
        return Err(AccountsFault::BadFile(0));
    }
    accounts_of(alloc, values)
}

/// Reads an accounts file: a TOML document with an array `schemas` of texts (where it is absent, the empty text, `1` and
/// `2`), and an array `account` of tables (where it is absent, of none), each with a `key` of 1 to 256 bytes and a
/// `user` of 1 to 64.
///
/// `BadFile` and `Twice` name the first thing that is wrong: the document, then `schemas`, then `account` as a whole,
/// and then the accounts one after another, of each its form before its key. `Memory` may come at any file.
#[tactic(auto, unfolding(crate::specs::File::file_in))]
pub fn read_accounts(alloc: Global, bytes: &[u8]) -> Result<Accounts, AccountsFault>
    ensures { ReadsFile (λ accounts. accounts) result (file_in bytes.now) }
{
    let table = document_of(alloc, bytes)?;
    let schemas = schemas_of(alloc, array_of(&table, "schemas")?)?;
    let accounts = accounts_at(alloc, array_of(&table, "account")?)?;
    Ok(Accounts::new(schemas, accounts))
}
