// The words of a command line are read by the table.
ghost use Rattle.std.specs.Int.{IsInRange};
ghost use Rattle.std.specs.Prelude.{◌≡◌, IfOk, IfSome, codes, map, option_and_then, option_map, string_bytes};
ghost use Rattle.clap.specs.Words.{first_of, found_of, rows_of, subcommand_rows_of};
ghost use Rattle.rv_words.specs.Numbers.{number_in};
ghost use Rattle.rv_words.specs.Words.{as_import_name, as_user, command_in, command_named, export_in, export_of, follow_in, import_in, import_of, make_in, make_of, on_store, on_store_in, options_with, retire_in, retire_group_in, serve_in, Parses};

use crate::command::{Command, ImportName};
use crate::name::Name;
use crate::number::number_of;
use crate::serve_options::ServeOptions;
use crate::table::rv;
use clap::ArgMatches;
use clap::error::ErrorKind;
use rv_base::{Id, Memory, TextRefusal, User};
use std::alloc::Global;

// What `clap` finds in the words, where it takes them.
fn matches_of<'a>(alloc: Global, words: &'a [String]) -> Result<Option<ArgMatches<'a>>, Memory>
    ensures { IfOk result (Parses (map string_bytes words.now)) }
{
    match rv(alloc)?.try_get_matches_from(words) {
        Ok(matches) => Ok(Some(matches)),
        Err(error) => match error.kind() {
            ErrorKind::OutOfMemory => Err(Memory),
            _ => Ok(None),
        },
    }
}

// The value of this name, if it was given.
fn value<'a>(matches: &ArgMatches<'a>, name: &str) -> Option<&'a str>
    ensures { option_map (λ text. text.now) result ≡ first_of name.now (rows_of (found_of matches.now)) }
{
    matches.get_str(name)
}

// The value of this name, copied.
fn name_of(alloc: Global, matches: &ArgMatches<'_>, name: &str) -> Result<Option<Name>, Memory>
    ensures { IfOk result (λ copy. copy ≡ first_of name.now (rows_of (found_of matches.now))) }
{
    match value(matches, name) {
        Some(text) => Ok(Some(Name::new(alloc, text)?)),
        None => Ok(None),
    }
}

// The store that is named, if one is.
fn store_of(alloc: Global, matches: &ArgMatches<'_>) -> Result<Option<Name>, Memory>
    ensures { IfOk result (λ store. store ≡ first_of (codes "STORE") (rows_of (found_of matches.now))) }
{
    name_of(alloc, matches, "STORE")
}

// What the command of this name asks for with one store.
fn on_store(verb: &str, store: Name) -> Option<Command>
    ensures { result ≡ on_store verb.now store }
{
    match verb {
        "feed" => Some(Command::Feed { store }),
        "lists" => Some(Command::Lists { store }),
        "activity" => Some(Command::Activity { store }),
        "check" => Some(Command::Check { store }),
        "close-book" => Some(Command::CloseBook { store }),
        "ship" => Some(Command::Ship { store }),
        _ => None,
    }
}

// What it asks for with what was found for it.
fn on_found_store(
    alloc: Global,
    verb: &str,
    matches: &ArgMatches<'_>,
) -> Result<Option<Command>, Memory>
    ensures { IfOk result (λ command. command ≡ on_store_in verb.now (rows_of (found_of matches.now))) }
{
    match store_of(alloc, matches)? {
        Some(store) => Ok(on_store(verb, store)),
        None => Ok(None),
    }
}

// A group of this name is retired.
fn retire_group(alloc: Global, store: Name, group: &str) -> Result<Option<Command>, Memory>
    ensures { IfOk result (λ command. command ≡ retire_group_in store group.now) }
{
    match Id::new(alloc, group) {
        Ok(group) => Ok(Some(Command::Retire { store, group })),
        Err(TextRefusal::TooShort) => Ok(None),
        Err(TextRefusal::TooLong(_)) => Ok(None),
        Err(TextRefusal::Memory) => Err(Memory),
    }
}

fn retire(alloc: Global, matches: &ArgMatches<'_>) -> Result<Option<Command>, Memory>
    ensures { IfOk result (λ command. command ≡ retire_in (rows_of (found_of matches.now))) }
{
    let Some(store) = store_of(alloc, matches)? else {
        return Ok(None);
    };
    let Some(group) = value(matches, "GROUP") else {
        return Ok(None);
    };
    retire_group(alloc, store, group)
}

// What is asked for with a seed and a number of requests, where both are numbers within their bounds.
fn make_of(seed: &str, requests: &str) -> Option<Command>
    ensures { result ≡ make_of seed.now requests.now }
{
    let seed = number_of(seed, 0, 2_147_483_647)?;
    let requests = number_of(requests, 0, 1_000_000)?;
    Some(Command::Make { seed, requests })
}

fn make(matches: &ArgMatches<'_>) -> Option<Command>
    ensures { result ≡ make_in (rows_of (found_of matches.now)) }
{
    let seed = value(matches, "SEED")?;
    let requests = value(matches, "N")?;
    make_of(seed, requests)
}

// The text, where it is a user.
fn user_of(alloc: Global, text: &str) -> Result<Option<User>, Memory>
    ensures { IfOk result (λ user. user ≡ as_user text.now) }
{
    match User::new(alloc, text) {
        Ok(user) => Ok(Some(user)),
        Err(TextRefusal::TooShort) => Ok(None),
        Err(TextRefusal::TooLong(_)) => Ok(None),
        Err(TextRefusal::Memory) => Err(Memory),
    }
}

// The text, where it may name an import.
fn import_name_of(alloc: Global, text: &str) -> Result<Option<ImportName>, Memory>
    ensures { IfOk result (λ name. name ≡ as_import_name text.now) }
{
    if text.as_bytes().contains(&b'/') {
        return Ok(None);
    }
    match ImportName::new(alloc, text) {
        Ok(name) => Ok(Some(name)),
        Err(TextRefusal::TooShort) => Ok(None),
        Err(TextRefusal::TooLong(_)) => Ok(None),
        Err(TextRefusal::Memory) => Err(Memory),
    }
}

// An import of this name is asked for, for a user.
fn import_of(alloc: Global, store: Name, user: &str, name: &str) -> Result<Option<Command>, Memory>
    ensures { IfOk result (λ command. command ≡ import_of store user.now name.now) }
{
    let Some(user) = user_of(alloc, user)? else {
        return Ok(None);
    };
    let Some(name) = import_name_of(alloc, name)? else {
        return Ok(None);
    };
    Ok(Some(Command::Import { store, user, name }))
}

fn import(alloc: Global, matches: &ArgMatches<'_>) -> Result<Option<Command>, Memory>
    ensures { IfOk result (λ command. command ≡ import_in (rows_of (found_of matches.now))) }
{
    let Some(store) = store_of(alloc, matches)? else {
        return Ok(None);
    };
    let Some(user) = value(matches, "USER") else {
        return Ok(None);
    };
    let Some(name) = value(matches, "NAME") else {
        return Ok(None);
    };
    import_of(alloc, store, user, name)
}

// An export is asked for, for a user.
fn export_of(alloc: Global, store: Name, user: &str) -> Result<Option<Command>, Memory>
    ensures { IfOk result (λ command. command ≡ export_of store user.now) }
{
    match user_of(alloc, user)? {
        Some(user) => Ok(Some(Command::Export { store, user })),
        None => Ok(None),
    }
}

fn export(alloc: Global, matches: &ArgMatches<'_>) -> Result<Option<Command>, Memory>
    ensures { IfOk result (λ command. command ≡ export_in (rows_of (found_of matches.now))) }
{
    let Some(store) = store_of(alloc, matches)? else {
        return Ok(None);
    };
    let Some(user) = value(matches, "USER") else {
        return Ok(None);
    };
    export_of(alloc, store, user)
}

// The number of this name, if one between these bounds was given.
fn number_at(matches: &ArgMatches<'_>, name: &str, least: u32, most: u32) -> Option<u32>
    ensures number { result ≡ option_and_then (number_in least most) (first_of name.now (rows_of (found_of matches.now))) }
    ensures bounds { IfSome result (λ number. IsInRange least most number) }
{
    number_of(value(matches, name)?, least, most)
}

// How requests are served, with this accounts file.
#[tactic(auto, unfolding(crate::specs::Words::options_with))]
fn options_with(matches: &ArgMatches<'_>, accounts: Name) -> Option<ServeOptions>
    ensures { result ≡ options_with (λ name. first_of name (rows_of (found_of matches.now))) accounts }
{
    let port = number_at(matches, "port", 1, 65_535)?;
    let workers = number_at(matches, "workers", 1, 16)?;
    let connections = number_at(matches, "connections", 1, 1_000_000)?;
    let poke_port = number_at(matches, "poke-port", 1, 65_535)?;
    let pokes = number_at(matches, "pokes", 0, 16)?;
    Some(ServeOptions {
        accounts,
        port: port as u16,
        workers,
        connections,
        poke_port: poke_port as u16,
        pokes,
    })
}

// How requests are served, where each option has a value of the form.
fn options_of(alloc: Global, matches: &ArgMatches<'_>) -> Result<Option<ServeOptions>, Memory>
    ensures { IfOk result (λ options. options ≡ option_and_then (options_with (λ name. first_of name (rows_of (found_of matches.now)))) (first_of (codes "accounts") (rows_of (found_of matches.now)))) }
{
    let Some(accounts) = name_of(alloc, matches, "accounts")? else {
        return Ok(None);
    };
    Ok(options_with(matches, accounts))
}

fn serve(alloc: Global, matches: &ArgMatches<'_>) -> Result<Option<Command>, Memory>
    ensures { IfOk result (λ command. command ≡ serve_in (rows_of (found_of matches.now))) }
{
    let Some(store) = store_of(alloc, matches)? else {
        return Ok(None);
    };
    let Some(options) = options_of(alloc, matches)? else {
        return Ok(None);
    };
    Ok(Some(Command::Serve { store, options }))
}

fn follow(matches: &ArgMatches<'_>) -> Option<Command>
    ensures { result ≡ follow_in (rows_of (found_of matches.now)) }
{
    let port = number_at(matches, "port", 1, 65_535)?;
    Some(Command::Follow { port: port as u16 })
}

// What the command of this name asks for, with what was found for it.
fn named(alloc: Global, name: &str, matches: &ArgMatches<'_>) -> Result<Option<Command>, Memory>
    ensures { IfOk result (λ command. command ≡ command_named (name.now, rows_of (found_of matches.now))) }
{
    match name {
        "retire" => retire(alloc, matches),
        "make" => Ok(make(matches)),
        "import" => import(alloc, matches),
        "export" => export(alloc, matches),
        "serve" => serve(alloc, matches),
        "follow" => Ok(follow(matches)),
        verb => on_found_store(alloc, verb, matches),
    }
}

// The command that was named, and what was found for it.
fn entered<'a, 'm>(matches: &'m ArgMatches<'a>) -> Option<(&'a str, &'m ArgMatches<'a>)>
    ensures { option_map (λ p. (p.0.now, rows_of (found_of p.1.now))) result ≡ subcommand_rows_of matches.now }
{
    matches.subcommand()
}

// What was found asks for.
fn found(alloc: Global, matches: &ArgMatches<'_>) -> Result<Option<Command>, Memory>
    ensures { IfOk result (λ command. command ≡ option_and_then command_named (subcommand_rows_of matches.now)) }
{
    match entered(matches) {
        Some((name, inner)) => named(alloc, name, inner),
        None => Ok(None),
    }
}

/// What the words ask for: nothing, where they are no line of the command set.
#[tactic(auto, unfolding(crate::specs::Words::command_in))]
pub fn command_of(alloc: Global, words: &[String]) -> Result<Option<Command>, Memory>
    ensures { IfOk result (λ command. command ≡ command_in (map string_bytes words.now)) }
{
    match matches_of(alloc, words)? {
        Some(matches) => found(alloc, &matches),
        None => Ok(None),
    }
}
