//! What follows of what the words ask for, as contracts of functions that do nothing: a check of the crate proves them.
ghost use Rattle.rv_words.specs.FollowProperties.{FollowIsAsked, OnlyAPortIsFollowed, PortsAreInBounds};
ghost use Rattle.rv_words.specs.ServeProperties.{EachOptionStandsOnce, NoOtherFlagStands, NumbersAreInBounds, PokesAreAsked, PokesHaveDefaults, ServeIsAsked};
ghost use Rattle.rv_words.specs.Properties.{
  AskForNothing,
  EachGroupIsAsked,
  EachStoreIsAsked,
  ExportIsAsked,
  GroupsAreIds,
  ImportIsAsked,
  LinesArePlain,
  MakeIsAsked,
  OthersAskForNothing,
  RetireIsAsked,
  SeedsAreInBounds,
  StoresAreAsked,
  UsersAreUsers,
};

/// What `clap` makes of any words is what they ask for said without `clap`: the program's name, the command's, and its
/// values, among which a first `--` is none and no other word before it begins with `-` and goes on, but for the options
/// of `serve` and of `follow`.
pub fn lines_are_plain()
    ensures { LinesArePlain }
{}

/// After any name of the program the words `feed STORE`, `lists STORE`, `activity STORE`, `check STORE`,
/// `close-book STORE` and `ship STORE` each ask for their command of that store, for each text that doesn't begin with `-`.
pub fn stores_are_asked()
    ensures { StoresAreAsked }
{}

/// The words `retire STORE GROUP` ask for that, for each text and each `Id` that don't begin with `-`.
pub fn retire_is_asked()
    ensures { RetireIsAsked }
{}

/// After `--` any text is taken as a store.
pub fn each_store_is_asked()
    ensures { EachStoreIsAsked }
{}

/// After `--` any `Id` is taken as a group.
pub fn each_group_is_asked()
    ensures { EachGroupIsAsked }
{}

/// A group that is to be retired is named by an `Id`.
pub fn groups_are_ids()
    ensures { GroupsAreIds }
{}

/// The words `make SEED N` ask for that, for each seed from 0 to 2,147,483,647 and each number of requests from 0 to 1,000,000
/// in decimal, and with `--` before them too.
pub fn make_is_asked()
    ensures { MakeIsAsked }
{}

/// Words that ask for `make` ask for it with numbers within these bounds.
pub fn seeds_are_in_bounds()
    ensures { SeedsAreInBounds }
{}

/// The words `import STORE USER NAME` ask for that, for each text as STORE, each `User`, and each NAME of 1 to 48 bytes
/// without `/`, that don't begin with `-`. With `--` before one of them, or at the end, it and those after it may.
pub fn import_is_asked()
    ensures { ImportIsAsked }
{}

/// The words `export STORE USER` ask for that, for each text as STORE and each `User`, that don't begin with `-`. With `--`
/// before one of them, or at the end, it and those after it may.
pub fn export_is_asked()
    ensures { ExportIsAsked }
{}

/// Words that ask for `import` or `export` ask for it for a user of 1 to 64 bytes, and an import has a name of 1 to 48 bytes
/// without `/`.
pub fn users_are_users()
    ensures { UsersAreUsers }
{}

/// Lines that end too early ask for nothing.
pub fn short_lines_ask_for_nothing()
    ensures { AskForNothing }
{}

/// Lines that name another command ask for nothing.
pub fn others_ask_for_nothing()
    ensures { OthersAskForNothing }
{}

/// The words `serve STORE` and the four options that must be given, in this order, with the store last, or with
/// `--NAME=VALUE` for each, ask to serve the store with these, with 8091 as the port for pokes, and with no poke job: for
/// each text that doesn't begin with `-`, and each port, number of workers and number of connections in bounds. After `=`
/// any accounts file is taken, and after `--` any store.
pub fn serve_is_asked()
    ensures { ServeIsAsked }
{}

/// Words that ask to serve and don't give it take `--poke-port` with a number from 1 to 65,535, and `--pokes` with one from
/// 0 to 16, at any place before a first `--` where no option waits for its value, as `--NAME=VALUE` too. They set the port
/// for pokes and the number of poke jobs, and nothing else.
pub fn pokes_are_asked()
    ensures { PokesAreAsked }
{}

/// A line that asks to serve without `--poke-port` asks for 8091, and one without `--pokes` for 0.
pub fn pokes_have_defaults()
    ensures { PokesHaveDefaults }
{}

/// A line of `serve` where an option has a value that is no number within its bounds asks for nothing: 1 to 65,535 of
/// `--port` and `--poke-port`, 1 to 16 of `--workers`, 1 to 1,000,000 of `--connections`, and 0 to 16 of `--pokes`.
pub fn numbers_are_in_bounds()
    ensures { NumbersAreInBounds }
{}

/// A line of `serve` where one of the four options that must be given is missing, or where any option is doubled, asks
/// for nothing.
pub fn each_option_stands_once()
    ensures { EachOptionStandsOnce }
{}

/// A line of `serve` with a flag before a first `--` that is none of its options asks for nothing.
pub fn no_other_flag_stands()
    ensures { NoOtherFlagStands }
{}

/// The words `follow --port PORT` and `follow --port=PORT` ask for that, for each port from 1 to 65,535 in decimal, and with
/// `--` after the first too.
pub fn follow_is_asked()
    ensures { FollowIsAsked }
{}

/// Words that ask to follow name a port from 1 to 65,535.
pub fn ports_are_in_bounds()
    ensures { PortsAreInBounds }
{}

/// A line of `follow` that gives anything but one port asks for nothing: no port, two, a store, another option.
pub fn only_a_port_is_followed()
    ensures { OnlyAPortIsFollowed }
{}
