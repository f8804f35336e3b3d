// The commands that there are, as `clap` is told of them.
ghost use Rattle.std.specs.Prelude.{◌≡◌, IfOk, false};
ghost use Rattle.clap.specs.Words.{app_of, with_rule};
ghost use Rattle.clap.specs.declared.builder.command.Command.TheViews.{out-Command};
ghost use Rattle.rv_words.specs.Table.{bare_app, export_app, follow_app, import_app, option_with_default, required_option, required_value, make_app, retire_app, rv_app, serve_app, store_app};

use clap::{Arg, Command};
use std::alloc::{AllocError, Global};

// The command with one more word, which must be given.
fn with_required<'a>(
    alloc: Global,
    command: Command<'a>,
    name: &'a str,
) -> Result<Command<'a>, AllocError>
    ensures app { IfOk result (λ r. app_of r ≡ with_rule (app_of command.entry) (required_value name.entry.now)) }
    ensures local { IfOk result (λ r. (out-Command command.entry).has_globals ≡ false → (out-Command r).has_globals ≡ false) }
{
    command.arg(Arg::new(alloc, name).required(true))
}

// The command with one more option, which must be given.
fn with_option<'a>(
    alloc: Global,
    command: Command<'a>,
    name: &'a str,
) -> Result<Command<'a>, AllocError>
    ensures app { IfOk result (λ r. app_of r ≡ with_rule (app_of command.entry) (required_option name.entry.now)) }
    ensures local { IfOk result (λ r. (out-Command command.entry).has_globals ≡ false → (out-Command r).has_globals ≡ false) }
{
    command.arg(Arg::new(alloc, name).long(name).required(true))
}

// The command with one more option, which may be left out and then has this value.
fn with_default<'a>(
    alloc: Global,
    command: Command<'a>,
    name: &'a str,
    value: &'a str,
) -> Result<Command<'a>, AllocError>
    ensures app { IfOk result (λ r. app_of r ≡ with_rule (app_of command.entry) (option_with_default name.entry.now value.entry.now)) }
    ensures local { IfOk result (λ r. (out-Command command.entry).has_globals ≡ false → (out-Command r).has_globals ≡ false) }
{
    command.arg(Arg::new(alloc, name).long(name).default_value(value))
}

// The command of this name, of one STORE.
fn of_store<'a>(alloc: Global, name: &'a str) -> Result<Command<'a>, AllocError>
    ensures app { IfOk result (λ r. app_of r ≡ store_app name.entry.now) }
    ensures local { IfOk result (λ r. (out-Command r).has_globals ≡ false) }
{
    with_required(alloc, Command::new(alloc, name), "STORE")
}

fn retire<'a>(alloc: Global) -> Result<Command<'a>, AllocError>
    ensures app { IfOk result (λ r. app_of r ≡ retire_app) }
    ensures local { IfOk result (λ r. (out-Command r).has_globals ≡ false) }
{
    with_required(alloc, of_store(alloc, "retire")?, "GROUP")
}

fn make<'a>(alloc: Global) -> Result<Command<'a>, AllocError>
    ensures app { IfOk result (λ r. app_of r ≡ make_app) }
    ensures local { IfOk result (λ r. (out-Command r).has_globals ≡ false) }
{
    let command = with_required(alloc, Command::new(alloc, "make"), "SEED")?;
    with_required(alloc, command, "N")
}

fn import<'a>(alloc: Global) -> Result<Command<'a>, AllocError>
    ensures app { IfOk result (λ r. app_of r ≡ import_app) }
    ensures local { IfOk result (λ r. (out-Command r).has_globals ≡ false) }
{
    let command = with_required(alloc, of_store(alloc, "import")?, "USER")?;
    with_required(alloc, command, "NAME")
}

fn export<'a>(alloc: Global) -> Result<Command<'a>, AllocError>
    ensures app { IfOk result (λ r. app_of r ≡ export_app) }
    ensures local { IfOk result (λ r. (out-Command r).has_globals ≡ false) }
{
    with_required(alloc, of_store(alloc, "export")?, "USER")
}

fn serve<'a>(alloc: Global) -> Result<Command<'a>, AllocError>
    ensures app { IfOk result (λ r. app_of r ≡ serve_app) }
    ensures local { IfOk result (λ r. (out-Command r).has_globals ≡ false) }
{
    let command = of_store(alloc, "serve")?;
    let command = with_option(alloc, command, "accounts")?;
    let command = with_option(alloc, command, "port")?;
    let command = with_option(alloc, command, "workers")?;
    let command = with_option(alloc, command, "connections")?;
    let command = with_default(alloc, command, "poke-port", "8091")?;
    with_default(alloc, command, "pokes", "0")
}

fn follow<'a>(alloc: Global) -> Result<Command<'a>, AllocError>
    ensures app { IfOk result (λ r. app_of r ≡ follow_app) }
    ensures local { IfOk result (λ r. (out-Command r).has_globals ≡ false) }
{
    with_option(alloc, Command::new(alloc, "follow"), "port")
}

// No command yet, and no call for help.
fn bare<'a>(alloc: Global) -> Command<'a>
    ensures app { app_of result ≡ bare_app }
    ensures local { (out-Command result).has_globals ≡ false }
{
    Command::new(alloc, "rv")
        .subcommand_required(true)
        .disable_help_flag(true)
        .disable_help_subcommand(true)
        .disable_version_flag(true)
}

/// All commands.
pub fn rv<'a>(alloc: Global) -> Result<Command<'a>, AllocError>
    ensures { IfOk result (λ r. app_of r ≡ rv_app) }
{
    bare(alloc)
        .subcommand(of_store(alloc, "feed")?)?
        .subcommand(of_store(alloc, "lists")?)?
        .subcommand(of_store(alloc, "activity")?)?
        .subcommand(of_store(alloc, "check")?)?
        .subcommand(retire(alloc)?)?
        .subcommand(make(alloc)?)?
        .subcommand(import(alloc)?)?
        .subcommand(export(alloc)?)?
        .subcommand(serve(alloc)?)?
        .subcommand(of_store(alloc, "close-book")?)?
        .subcommand(of_store(alloc, "ship")?)?
        .subcommand(follow(alloc)?)
}
