// The command `serve`: the accounts are read, the store is opened, and its desk serves the connections and the links of a net.
ghost use Rattle.std.specs.Prelude.{◌≡◌, ◌≢◌, ◌<◌, ◌≤◌, ◌^◌, ◌⊎◌, [], Err, None, Some, IfErr, IfOk, IsErrOf, MatchResult, length};
ghost use Rattle.std.specs.List.{AllByRecursion};
ghost use Rattle.rv_base.specs.Causes.{Counts, Rose};
ghost use Rattle.rv_base.specs.declared.fault.Fault.TheVariants as Fault;
ghost use Rattle.rv_keeper.specs.Stores.{OthersStay};
ghost use Rattle.rv_net.specs.Giving.{TakesBack};
ghost use Rattle.rv_cli.specs.Headline.{WritesOnly};
ghost use Rattle.rv_cli.specs.Serving.{Unserved, listeners_wanted};
ghost use Rattle.rv_cli.specs.Running.{network};
ghost use Rattle.rv_cli.specs.ServePromise.{NetIsSteady, WasServed, WasUnserved, WasWanted, serve_statuses};
ghost use Rattle.rv_cli.specs.StorePromise.{KeepsStore};
ghost use Rattle.rv_cli.specs.ServingSteps.{AccountsRead, HasGiven, MayWantPokes, ServesNet, WantsPokes, WritesCount, ReadsAccounts, WritesServed, count_text};
ghost use Rattle.rv_cli.specs.Commands.{HasFile};
ghost use Rattle.rv_cli.specs.Steadiness.{AccountsAreSteady, ServeIsSteady};
ghost use Rattle.rv_cli.specs.Texts.{serve_status, serve_text};

use crate::ending::Ending;
use crate::serve_ending::ServeEnding;
use crate::store::open_desk;
use crate::texts::{write_count, write_serve_ending};
use rv_accounts::{Accounts, AccountsFault, read_accounts};
use rv_base::{Bytes, Failed, Fault, Memory, Sink};
use rv_desk::Desk;
use rv_keeper::{Keeper, Place};
use rv_net::{Listen, Listeners, Net, PokeListen};
use rv_poke::PokeLink;
use rv_words::ServeOptions;
use rv_workers::{Crew, Returned, serve_listeners};
use std::alloc::Global;
use std::sync::Wait;

// What the bytes of an accounts file say.
fn accounts_in(alloc: Global, bytes: &Bytes) -> Result<Accounts, ServeEnding>
    ensures { ReadsAccounts bytes.now result }
{
    match read_accounts(alloc, bytes.as_slice()) {
        Ok(accounts) => Ok(accounts),
        Err(AccountsFault::BadFile(number)) => Err(ServeEnding::BadAccounts(number)),
        Err(AccountsFault::Twice(number)) => Err(ServeEnding::TwiceAccounts(number)),
        Err(AccountsFault::Memory) => Err(ServeEnding::NotOpened(Ending::Memory)),
    }
}

// The accounts of the file of this name; or why there are none.
fn accounts_of<P: Place>(alloc: Global, place: &mut P, name: &str) -> Result<Accounts, ServeEnding>
    ensures read { AccountsRead P.Place name.now place.old result place.new }
    ensures steady { P.fails_no_more place.old → HasFile (P.accounts place.old) name.now → P.fails_no_more place.new × AccountsAreSteady result }
{
    match place.read_accounts(name) {
        Ok(bytes) => accounts_in(alloc, &bytes),
        Err(Fault::Failed) => Err(ServeEnding::NotOpened(Ending::Keeper)),
        Err(Fault::Memory) => Err(ServeEnding::NotOpened(Ending::Memory)),
    }
}

// The listeners of connections, as many as there are workers.
fn listeners_of<N: Net>(options: &ServeOptions, net: &mut N) -> Result<Vec<N::Listen>, Fault>
    ensures count { IfOk result (λ given. length given.items ≡ options.now.workers) }
    ensures few { IfOk result (λ given. length given.items < 2 ^ 32) }
    ensures tells { N.tells net.new → N.tells net.old }
    ensures given { N.tells net.new → MatchResult result (λ given. HasGiven (N.listeners net.old) (N.listeners net.new) given.items) (λ fault. HasGiven (N.listeners net.old) (N.listeners net.new) []) }
    ensures asked { N.tells net.new → (N.listeners net.new).wanted ≡ Some (listeners_wanted options.now) }
    ensures others { N.tells net.new → N.pokes net.new ≡ N.pokes net.old }
    ensures faults { Counts (N.faults net.old) (N.faults net.new) result }
    ensures failed { IsErrOf result Fault.Failed → Rose (N.faults net.old) (N.faults net.new) }
    ensures steady { N.fails_no_more net.old → N.fails_no_more net.new × (options.now.workers ≤ length (N.listeners net.old).to_give → ¬ IsErrOf result Fault.Failed) }
{
    match net.listen(options.port, options.workers, options.connections) {
        Ok(listeners) => Ok(listeners.into_vec()),
        Err(fault) => Err(fault),
    }
}

// The listeners of links, as many as there are poke jobs. Where there is none, the net is not asked.
fn pokes_of<N: Net>(
    alloc: Global,
    options: &ServeOptions,
    net: &mut N,
) -> Result<Vec<N::Pokes>, Fault>
    ensures count { IfOk result (λ given. length given.items ≡ options.now.pokes) }
    ensures few { IfOk result (λ given. length given.items < 2 ^ 32) }
    ensures tells { N.tells net.new → N.tells net.old }
    ensures given { N.tells net.new → MatchResult result (λ given. HasGiven (N.pokes net.old) (N.pokes net.new) given.items) (λ fault. HasGiven (N.pokes net.old) (N.pokes net.new) []) }
    ensures asked { N.tells net.new → WantsPokes options.now (N.pokes net.old).wanted (N.pokes net.new).wanted }
    ensures others { N.tells net.new → N.listeners net.new ≡ N.listeners net.old }
    ensures faults { Counts (N.faults net.old) (N.faults net.new) result }
    ensures failed { IsErrOf result Fault.Failed → Rose (N.faults net.old) (N.faults net.new) }
    ensures steady { N.fails_no_more net.old → N.fails_no_more net.new × (options.now.pokes ≤ length (N.pokes net.old).to_give → ¬ IsErrOf result Fault.Failed) }
{
    if options.pokes == 0 {
        return Ok(Vec::new(alloc));
    }
    match net.listen_pokes(options.poke_port, options.pokes, options.connections) {
        Ok(listeners) => Ok(listeners.into_vec()),
        Err(fault) => Err(fault),
    }
}

// All listeners, those of connections first. Where those of links can't be had, the others go back.
fn listen_all<N: Net>(
    alloc: Global,
    options: &ServeOptions,
    net: &mut N,
) -> Result<(Vec<N::Listen>, Vec<N::Pokes>), Fault>
    ensures counts { IfOk result (λ given. (length given.0.items ≡ options.now.workers) × (length given.1.items ≡ options.now.pokes)) }
    ensures few { IfOk result (λ given. (length given.0.items < 2 ^ 32) × (length given.1.items < 2 ^ 32)) }
    ensures tells { N.tells net.new → N.tells net.old }
    ensures given { IfOk result (λ given. N.tells net.new → HasGiven (N.listeners net.old) (N.listeners net.new) given.0.items × HasGiven (N.pokes net.old) (N.pokes net.new) given.1.items) }
    ensures unserved { IfErr result (λ fault. N.tells net.new → Unserved (N.listeners net.old) (N.listeners net.new) × Unserved (N.pokes net.old) (N.pokes net.new)) }
    ensures asked { N.tells net.new → (N.listeners net.new).wanted ≡ Some (listeners_wanted options.now) }
    ensures asked_pokes { N.tells net.new → MayWantPokes options.now (N.pokes net.old).wanted (N.pokes net.new).wanted }
    ensures asked_both { IfOk result (λ given. N.tells net.new → WantsPokes options.now (N.pokes net.old).wanted (N.pokes net.new).wanted) }
    ensures faults { Counts (N.faults net.old) (N.faults net.new) result }
    ensures failed { IsErrOf result Fault.Failed → Rose (N.faults net.old) (N.faults net.new) }
    ensures steady { N.fails_no_more net.old → options.now.workers ≤ length (N.listeners net.old).to_give → options.now.pokes ≤ length (N.pokes net.old).to_give → ¬ IsErrOf result Fault.Failed }
{
    let listeners = listeners_of(options, net)?;
    match pokes_of(alloc, options, net) {
        Ok(pokes) => Ok((listeners, pokes)),
        Err(fault) => {
            net.done(Listeners::from_vec(listeners));
            Err(fault)
        }
    }
}

// Gives all listeners back.
fn give_back<N: Net>(net: &mut N, listeners: Vec<N::Listen>, pokes: Vec<N::Pokes>)
    requires listeners { N.tells net.old → length listeners.items ≤ (N.listeners net.old).out }
    requires pokes { N.tells net.old → length pokes.items ≤ (N.pokes net.old).out }
    ensures tells { N.tells net.new → N.tells net.old × AllByRecursion N.Listen.tells listeners.items × AllByRecursion N.Pokes.tells pokes.items }
    ensures back { N.tells net.new → TakesBack (N.listeners net.old) (N.listeners net.new) listeners.items × TakesBack (N.pokes net.old) (N.pokes net.new) pokes.items }
    ensures faults { N.faults net.new ≡ N.faults net.old }
{
    net.done(Listeners::from_vec(listeners));
    net.done_pokes(Listeners::from_vec(pokes));
}

// Serves the connections of as many listeners as there are workers, and the links of as many as there are poke jobs, side by side at a
// desk, and gives the desk back.
fn serve_net<R: Wait + Sync, K: Keeper + Send, N: Net, C: Crew>(
    alloc: Global,
    runtime: &R,
    crew: &mut C,
    accounts: &Accounts,
    desk: Desk<K>,
    options: &ServeOptions,
    net: &mut N,
) -> (Result<(), Fault>, Desk<K>)
where
    <N::Listen as Listen>::In: Send,
    <N::Listen as Listen>::Out: Send,
    <N::Pokes as PokeListen>::Link: PokeLink + Send,
    requires { desk.doubt ≡ None }
    ensures serves { ServesNet K.Keeper N.Net N.Listen.Listen N.Listen.In.Source N.Listen.Out.Sink N.Pokes.PokeListen N.Pokes.Link.PokeLink accounts.now options.now net.old net.new desk result.1 result.0 }
    ensures unserved { IfErr result.0 (λ fault. N.tells net.new → Unserved (N.listeners net.old) (N.listeners net.new) × Unserved (N.pokes net.old) (N.pokes net.new)) }
    ensures wanted { N.tells net.new → (N.listeners net.new).wanted ≡ Some (listeners_wanted options.now) }
    ensures wanted_pokes { N.tells net.new → MayWantPokes options.now (N.pokes net.old).wanted (N.pokes net.new).wanted }
    ensures steady { K.fails_no_more desk.keeper → K.fails_no_more result.1.keeper }
    ensures steady_net { N.fails_no_more net.old → options.now.workers ≤ length (N.listeners net.old).to_give → options.now.pokes ≤ length (N.pokes net.old).to_give → result.0 ≢ Err Fault.Failed }
{
    let (listeners, pokes) = match listen_all(alloc, options, net) {
        Ok(given) => given,
        Err(fault) => return (Err(fault), desk),
    };
    let Returned {
        served,
        desk,
        listeners,
        pokes,
    } = serve_listeners(alloc, runtime, crew, accounts, desk, listeners, pokes);
    give_back(net, listeners, pokes);
    match served {
        Ok(()) => (Ok(()), desk),
        Err(Memory) => (Err(Fault::Memory), desk),
    }
}

// Writes how long the book is that was served; or why nothing was served.
fn write_served<O: Sink>(out: &mut O, served: Result<(), Fault>, entries: u32) -> ServeEnding
    ensures writes { WritesServed served entries (O.state out.old) (O.state out.new) result }
    ensures steady { O.fails_no_more out.old → ServeIsSteady (O.fails_no_more out.new) (O.state out.old).refusals (O.state out.new).refusals result }
{
    match served {
        Ok(()) => write_entries(out, entries),
        Err(Fault::Failed) => tell(out, ServeEnding::Net),
        Err(Fault::Memory) => tell(out, ServeEnding::Memory),
    }
}

// Writes how long the book is: the number of its entries, and where it opens with a page the page's place besides.
fn write_entries<O: Sink>(out: &mut O, entries: u32) -> ServeEnding
    ensures writes { WritesCount (count_text entries) (O.state out.old) (O.state out.new) result }
    ensures steady { O.fails_no_more out.old → ServeIsSteady (O.fails_no_more out.new) (O.state out.old).refusals (O.state out.new).refusals result }
{
    match write_count(out, b"entries ", u64::from(entries)) {
        Ok(()) => ServeEnding::Done,
        Err(Failed) => ServeEnding::Write,
    }
}

// Writes the text of an ending.
pub(crate) fn tell<O: Sink>(out: &mut O, ending: ServeEnding) -> ServeEnding
    ensures ending { result ≡ ending }
    ensures text { WritesOnly (O.state out.old) (O.state out.new) (serve_text ending) }
    ensures steady { O.fails_no_more out.old → O.fails_no_more out.new }
{
    let _ = write_serve_ending(out, &ending);
    ending
}

// What `run_serve` does.
fn serve_all<R: Wait + Sync, P: Place, O: Sink, N: Net, C: Crew>(
    alloc: Global,
    runtime: &R,
    crew: &mut C,
    place: &mut P,
    store: &str,
    options: &ServeOptions,
    out: &mut O,
    net: &mut N,
) -> u8
where
    <N::Listen as Listen>::In: Send,
    <N::Listen as Listen>::Out: Send,
    <N::Pokes as PokeListen>::Link: PokeLink + Send,
    ensures serve { WasServed P.Place P.Kept.Keeper (network N.Net N.Listen.Listen N.Listen.In.Source N.Listen.Out.Sink N.Pokes.PokeListen N.Pokes.Link.PokeLink)
        O.Sink store.now options.now place.old place.new net.old net.new out.old out.new result }
    ensures unserved { WasUnserved N.Net net.old net.new result }
    ensures wanted { WasWanted N.Net net.old net.new options.now }
    ensures steady { O.fails_no_more out.old → O.fails_no_more out.new × (Rose (O.state out.old).refusals (O.state out.new).refusals ⊎ (result ≢ 7)) }
    ensures others { P.tells place.new → OthersStay P.holds P.may_leave P.is_out P.has P.accounts store.now place.old place.new }
    ensures steady_place { P.fails_no_more place.old → HasFile (P.accounts place.old) options.now.accounts → P.fails_no_more place.new × (result ≢ 4) }
    ensures steady_net { NetIsSteady N.Net net.old options.now result }
{
    let accounts = match accounts_of(alloc, place, options.accounts.as_str()) {
        Ok(accounts) => accounts,
        Err(ending) => return tell(out, ending).status(),
    };
    let desk = match open_desk(alloc, place, store) {
        Ok(desk) => desk,
        Err(ending) => return tell(out, ServeEnding::NotOpened(ending)).status(),
    };
    let (served, desk) = serve_net(alloc, runtime, crew, &accounts, desk, options, net);
    let entries = desk.book().len();
    place.close_keeper(store, desk.close());
    write_served(out, served, entries).status()
}

/// Answers the requests of connections, from the book that the store keeps: the command `serve STORE`. The accounts file is read
/// before the store is opened, and the net is listened to after that. As many workers as the options say serve connections side by
/// side, each those of a listener of its own, and beside them as many poke jobs serve links; the crew runs them. At the end the book's
/// length is written. The status is 0, 3, 4, 5, 7, 8 or 9.
pub fn run_serve<R: Wait + Sync, P: Place, O: Sink, N: Net, C: Crew>(
    alloc: Global,
    runtime: &R,
    crew: &mut C,
    place: &mut P,
    store: &str,
    options: &ServeOptions,
    out: &mut O,
    net: &mut N,
) -> u8
where
    <N::Listen as Listen>::In: Send,
    <N::Listen as Listen>::Out: Send,
    <N::Pokes as PokeListen>::Link: PokeLink + Send,
    // What is written are the answers to the requests of connections, over turns of seats at one book from the one that the store kept,
    // and the store keeps the book that they leave.
    ensures serve { WasServed P.Place P.Kept.Keeper (network N.Net N.Listen.Listen N.Listen.In.Source N.Listen.Out.Sink N.Pokes.PokeListen N.Pokes.Link.PokeLink)
        O.Sink store.now options.now place.old place.new net.old net.new out.old out.new result }

    // At other statuses than 0 and 7 nothing was served.
    ensures unserved { WasUnserved N.Net net.old net.new result }

    // What the net was asked for, if it was: at the port of the options as many listeners as workers, each for as many connections; and at
    // the port for pokes as many as poke jobs, where there are some.
    ensures wanted { WasWanted N.Net net.old net.new options.now }

    // The store is kept as by each command, over an accounts file that is there.
    ensures keeps { KeepsStore P.Place store.now serve_statuses (HasFile (P.accounts place.old) options.now.accounts) place.old place.new result }

    // A fault is told exactly where one rose, but for a write of a status's own text that failed.
    ensures keeper { result ≡ 4 → Rose (P.faults place.old) (P.faults place.new) }
    ensures net { result ≡ 9 → Rose (N.faults net.old) (N.faults net.new) }
    ensures write { result ≡ 7 → Rose (O.state out.old).faults (O.state out.new).faults }
    ensures write_told { result ≡ 7 ⊎ (O.state out.new).faults ≡ (O.state out.old).faults ⊎ ((result ≢ 0) × Rose (O.state out.old).faults (O.state out.new).faults) }

    // Over an output and a net that fail no more it is none of the faults, but for want of memory in the output.
    ensures steady { O.fails_no_more out.old → O.fails_no_more out.new × (Rose (O.state out.old).refusals (O.state out.new).refusals ⊎ (result ≢ 7)) }
    ensures steady_net { NetIsSteady N.Net net.old options.now result }
{
    serve_all(alloc, runtime, crew, place, store, options, out, net)
}
