// `serve` and `follow` over listeners of connections and of links in memory, in threads.
use crate::machine::run_here;
use crate::running::{Pieces, conn_of, failing};
use rv_base::{Bytes, Memory};
use rv_doubles::{MemoryConn, MemoryLink, MemoryListen, MemoryNet, MemoryStock};
use rv_net::Wanted;
use rv_place::Unknown;
use rv_poke::First;
use std::alloc::Global;
use std::fs;
use std::sync::Wait;
use std::thread::Threads;
use trial_stage::Part::{Number, Text};
use trial_stage::{Stage, append_parts, first_word, joined, number_in, words_at};

// The connection of each listener sends what this file has.
const REQUESTS: &str = "push-and-pull.in";

// The first message of the link of each listener of links.
const KEY: &str = "k-ann";

// How many listeners of connections and of links there are, and the call of the net that fails; 0 is none.
#[derive(Clone, Copy)]
struct Plan {
    listeners: u64,
    pokes: u64,
    fails: u64,
}

// The number that a text begins with, 0 where there is none and at most 100, and what stands after it.
fn next_number(words: &str) -> (u64, &str) {
    let (word, rest) = first_word(words);
    (number_in(word).unwrap_or(0).min(100), rest)
}

// The plan that a text begins with, and the words after it.
fn plan_of(text: &str) -> (Plan, &str) {
    let (listeners, text) = next_number(text);
    let (pokes, text) = next_number(text);
    let (fails, words) = next_number(text);
    (
        Plan {
            listeners,
            pokes,
            fails,
        },
        words,
    )
}

// A listener of one connection, which sends these bytes.
fn listener(alloc: Global, bytes: &[u8]) -> Result<MemoryListen<MemoryConn>, Memory> {
    let mut conns = Vec::new(alloc);
    conns.push(conn_of(alloc, bytes, Pieces::of(1000))?)?;
    MemoryListen::new(alloc, conns)
}

// A listener of one link.
fn link(alloc: Global) -> Result<MemoryListen<MemoryLink>, Memory> {
    let key = Bytes::from_vec(Vec::from_slice(alloc, KEY.as_bytes())?);
    let mut links = Vec::new(alloc);
    links.push(MemoryLink::new(alloc, Some(First::Text(key)), Vec::new(alloc)))?;
    MemoryListen::new(alloc, links)
}

// The net of a plan, whose connections send these bytes.
fn net_of(alloc: Global, plan: Plan, bytes: &[u8]) -> Result<MemoryNet, Memory> {
    let mut listeners = Vec::new(alloc);
    for _ in 0..plan.listeners {
        listeners.push(listener(alloc, bytes)?)?;
    }
    let mut pokes = Vec::new(alloc);
    for _ in 0..plan.pokes {
        pokes.push(link(alloc)?)?;
    }
    MemoryNet::new(alloc, listeners, pokes, failing(alloc, plan.fails)?)
}

// What was wanted of the net.
fn wanted_text(alloc: Global, wanted: Option<Wanted>) -> Result<String, Memory> {
    match wanted {
        Some(Wanted { port, count, most }) => joined(
            alloc,
            &[
                Text("port "),
                Number(u64::from(port)),
                Text(", "),
                Number(u64::from(count)),
                Text(" listeners of "),
                Number(u64::from(most)),
            ],
        ),
        None => joined(alloc, &[Text("not wanted")]),
    }
}

// How many connections or links came back to listeners.
fn served_by<C>(listeners: &[MemoryListen<C>]) -> u64 {
    let mut served: u64 = 0;
    for listener in listeners {
        served = served.saturating_add(listener.came_back.len() as u64);
    }
    served
}

// Adds what was wanted of the listeners of one kind, how many came back, are out and are left, and how many were served.
fn add_stock<C>(
    alloc: Global,
    text: &mut String,
    name: &str,
    stock: &MemoryStock<MemoryListen<C>>,
) -> Result<(), Memory> {
    let wanted = wanted_text(alloc, stock.wanted)?;
    append_parts(alloc, text, &[Text(name)])?;
    append_parts(
        alloc,
        text,
        &[
            Text(wanted.as_str()),
            Text("; "),
            Number(stock.came_back.len() as u64),
            Text(" back, "),
            Number(stock.out as u64),
            Text(" out, "),
            Number(stock.to_give.len() as u64),
            Text(" left; "),
            Number(served_by(&stock.came_back)),
            Text(" served\n"),
        ],
    )
}

// What is told of a net, and last this line.
fn told(alloc: Global, net: &MemoryNet, line: &str) -> Result<String, Memory> {
    let mut text = String::new(alloc);
    add_stock(alloc, &mut text, "connections: ", &net.listeners)?;
    add_stock(alloc, &mut text, "links: ", &net.pokes)?;
    append_parts(alloc, &mut text, &[Text(line), Text("\n")])?;
    Ok(text)
}

// The bytes of a file of the folder, none where it can't be read.
fn bytes_of(rt: &HostRuntime, path: &str) -> Vec<u8> {
    fs::read(rt, path).unwrap_or(Vec::new(rt.alloc()))
}

/// `LISTENERS LINKS CALL WORDS`: runs the words over a net of so many listeners of connections, to each of which one comes that pushes
/// and pulls, and so many of links, to each of which one comes, and of which this call fails. Prints of each kind what was wanted, how
/// many listeners came back, are out and are left, and how many connections or links were served; and what the program wrote, with its
/// status.
pub fn answer<R: Threads + Wait + Sync>(
    stage: &Stage<'_, R>,
    line: &str,
) -> Result<Option<String>, Memory> {
    let alloc = stage.host.alloc();
    let (plan, words) = plan_of(line);
    let words = words_at(alloc, ' ', words)?;
    let bytes = bytes_of(stage.host, REQUESTS);
    let mut net = net_of(alloc, plan, &bytes)?;
    let pieces = Pieces::of(1000);
    let finished = run_here(stage, &words, b"", pieces, &mut net, Unknown)?;
    let line = finished.line(alloc)?;
    Ok(Some(told(alloc, &net, line.as_str())?))
}
