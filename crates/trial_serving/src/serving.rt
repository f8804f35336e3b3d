// Listeners that are served at a desk over a new store in memory.
ghost use Rattle.std.specs.Prelude.{◌≡◌, ◌<◌, ◌^◌, None, vec_len};

use rv_accounts::{Accounts, read_accounts};
use rv_base::Memory;
use rv_desk::Desk;
use rv_doubles::{MemoryConn, MemoryListen, MemoryPokes, Serial};
use rv_keeper::MemoryKeeper;
use rv_workers::{Bells, Crew, Returned, Threaded, serve_listeners};
use std::alloc::Global;
use std::sync::Wait;
use std::thread::Threads;
use trial_stage::Part::{Number, Text};
use trial_stage::{Stage, joined};

/// The most entries of a book.
pub const LIMIT: u32 = u32::MAX;

// The most listeners of a kind.
const MOST: usize = 1000;

// The accounts of the trials.
const ACCOUNTS: &str =
    "schemas = [\"\", \"1\"]\n[[account]]\nkey = \"k-ann\"\nuser = \"ann\"\n[[account]]\nkey = \"k-bob\"\nuser = \"bob\"\n[[account]]\nkey = \"Bearer k bob\"\nuser = \"bob\"\n[[account]]\nkey = \"k-cat\"\nuser = \"cat\"\n";

/// Listeners of connections and of links.
#[derive(Drop)]
pub struct Listening {
    /// Those of connections.
    pub listeners: Vec<MemoryListen<MemoryConn>>,
    /// Those of links.
    pub pokes: Vec<MemoryPokes>,
}

/// What came of serving: the listeners, how many entries the book has, and the keeper.
#[derive(Drop)]
pub struct Served {
    /// The listeners.
    pub net: Listening,
    /// How many entries the book has.
    pub entries: u32,
    /// What keeps it.
    pub keeper: MemoryKeeper,
}

impl Served {
    /// How many entries the book has, in words.
    pub fn line(&self, alloc: Global) -> Result<String, Memory> {
        joined(alloc, &[Text("entries "), Number(u64::from(self.entries))])
    }
}

fn accounts(alloc: Global) -> Result<Accounts, Memory> {
    match read_accounts(alloc, ACCOUNTS.as_bytes()) {
        Ok(accounts) => Ok(accounts),
        Err(_) => Err(Memory),
    }
}

// Serves listeners at this desk.
fn serve_at<R: Wait + Sync, C: Crew>(
    alloc: Global,
    runtime: &R,
    crew: &mut C,
    desk: Desk<MemoryKeeper>,
    accounts: &Accounts,
    net: Listening,
) -> Result<Served, Memory>
    requires settled { desk.doubt ≡ None }
    requires few { vec_len net.listeners < 2 ^ 32 }
    requires few_pokes { vec_len net.pokes < 2 ^ 32 }
{
    let Listening { listeners, pokes } = net;
    let Returned {
        served,
        desk,
        listeners,
        pokes,
    } = serve_listeners(alloc, runtime, crew, accounts, desk, listeners, pokes);
    let entries = desk.book().len();
    let keeper = desk.close();
    served?;
    Ok(Served {
        net: Listening { listeners, pokes },
        entries,
        keeper,
    })
}

/// Serves listeners, of each kind at most 1000, at a desk of a new book.
pub fn serve<R: Wait + Sync, C: Crew>(
    alloc: Global,
    runtime: &R,
    crew: &mut C,
    net: Listening,
) -> Result<Served, Memory> {
    let keeper = MemoryKeeper::new(alloc, Vec::new(alloc));
    serve_over(alloc, runtime, crew, net, keeper)
}

/// The same at a desk of the book that this keeper keeps.
pub fn serve_over<R: Wait + Sync, C: Crew>(
    alloc: Global,
    runtime: &R,
    crew: &mut C,
    net: Listening,
    keeper: MemoryKeeper,
) -> Result<Served, Memory> {
    let accounts = accounts(alloc)?;
    if net.listeners.len() > MOST || net.pokes.len() > MOST {
        return Err(Memory);
    }
    match Desk::open(alloc, keeper, LIMIT) {
        Ok(desk) => serve_at(alloc, runtime, crew, desk, &accounts, net),
        Err(_) => Err(Memory),
    }
}

/// The same in threads.
pub fn serve_by_threads<R: Threads + Wait + Sync>(
    stage: &Stage<'_, R>,
    net: Listening,
) -> Result<Served, Memory> {
    let bells = Bells::new();
    let mut crew = Threaded::new(stage.threads, &bells);
    serve(stage.host.alloc(), stage.threads, &mut crew, net)
}

/// The same without threads.
pub fn serve_in_turn<R: Threads + Wait + Sync>(
    stage: &Stage<'_, R>,
    net: Listening,
) -> Result<Served, Memory> {
    let mut crew: Serial<R> = Serial::new();
    serve(stage.host.alloc(), stage.threads, &mut crew, net)
}
