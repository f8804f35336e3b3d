// Listeners in memory, served by workers side by side.
use crate::crew::{Counts, WatchingCrew};
use crate::nets::{conn, request};
use crate::serving::{Listening, serve};
use rv_base::Memory;
use rv_doubles::{MemoryConn, MemoryListen};
use rv_workers::Crew;
use std::alloc::Global;
use std::sync::Wait;
use std::sync::atomic::Ordering;
use std::thread::Threads;
use trial_stage::Part::{Number, Text};
use trial_stage::{Stage, first_word, joined, named, number_in};

// The answer to a push that was taken.
const GOOD: &str =
    "HTTP/1.1 200 OK\r\nContent-Type: application/json\r\nContent-Length: 2\r\n\r\n{}";

// Which crew there is: whether it has threads, and whether its first worker's gate holds.
static CREWS: [(&str, (bool, bool)); 4] = [
    ("threads", (true, false)),
    ("serial", (false, false)),
    ("held-threads", (true, true)),
    ("held-serial", (false, true)),
];

// How much is asked, and by whom.
#[derive(Clone, Copy)]
struct Plan {
    // How many listeners there are.
    listeners: u64,
    // How many connections each has.
    conns: u64,
    // How many mutations each connection sends.
    mutations: u64,
    // Whether each listener has a client of its own.
    own: bool,
}

// The plan of `LISTENERS CONNECTIONS MUTATIONS same` or `.. own`, with numbers up to 1000.
fn plan_of(words: &str) -> Plan {
    let (listeners, words) = first_word(words);
    let (conns, words) = first_word(words);
    let (mutations, whose) = first_word(words);
    Plan {
        listeners: number_in(listeners).unwrap_or(0).min(1000),
        conns: number_in(conns).unwrap_or(0).min(1000),
        mutations: number_in(mutations).unwrap_or(0).min(1000),
        own: whose == "own",
    }
}

// The push of a mutation.
fn push(alloc: Global, client: u64, id: u64) -> Result<String, Memory> {
    let body = joined(
        alloc,
        &[
            Text(
                "{\"pushVersion\":1,\"clientGroupID\":\"g1\",\"profileID\":\"p\",\"schemaVersion\":\"\",\"mutations\":[{\"clientID\":\"c",
            ),
            Number(client),
            Text("\",\"id\":"),
            Number(id),
            Text(",\"name\":\"paint\",\"args\":null}]}"),
        ],
    )?;
    request(alloc, "k-ann", "push", body.as_str())
}

// What a connection asks, by the numbers of its listener and of its own.
fn asked(alloc: Global, plan: Plan, listener: u64, conn: u64) -> Result<Vec<u8>, Memory> {
    let mut bytes = Vec::new(alloc);
    let (client, before) = if plan.own {
        (listener, conn.wrapping_mul(plan.mutations))
    } else {
        (0, 0)
    };
    for number in 0..plan.mutations {
        let text = push(alloc, client, before.wrapping_add(number).wrapping_add(1))?;
        bytes.extend_from_slice(text.as_bytes())?;
    }
    Ok(bytes)
}

// A listener with its connections.
fn listener(alloc: Global, plan: Plan, number: u64) -> Result<MemoryListen<MemoryConn>, Memory> {
    let mut conns = Vec::new(alloc);
    for of_listener in 0..plan.conns {
        let bytes = asked(alloc, plan, number, of_listener)?;
        conns.push(conn(alloc, bytes, 1000))?;
    }
    MemoryListen::new(alloc, conns)
}

// The listeners of a plan.
fn net_of(alloc: Global, plan: Plan) -> Result<Listening, Memory> {
    let mut listeners = Vec::new(alloc);
    for number in 0..plan.listeners {
        listeners.push(listener(alloc, plan, number)?)?;
    }
    Ok(Listening {
        listeners,
        pokes: Vec::new(alloc),
    })
}

// How many answers there are, if all are that of a push that was taken; else none.
fn good_answers(bytes: &[u8]) -> Option<u64> {
    let mut answers: u64 = 0;
    for answer in bytes.chunks(GOOD.len()) {
        if answer != GOOD.as_bytes() {
            return None;
        }
        answers = answers.saturating_add(1);
    }
    Some(answers)
}

// How many answers there are, and how many connections have another answer.
fn answers_in(net: &Listening) -> (u64, u64) {
    let mut good: u64 = 0;
    let mut bad: u64 = 0;
    for listener in &net.listeners {
        for conn in &listener.came_back {
            match good_answers(&conn.sink.bytes) {
                Some(answers) => good = good.saturating_add(answers),
                None => bad = bad.saturating_add(1),
            }
        }
    }
    (good, bad)
}

// Plays a plan.
fn played<R: Wait + Sync, C: Crew>(
    alloc: Global,
    runtime: &R,
    crew: &mut C,
    plan: Plan,
) -> Result<String, Memory> {
    let served = serve(alloc, runtime, crew, net_of(alloc, plan)?)?;
    let (good, bad) = answers_in(&served.net);
    joined(
        alloc,
        &[
            Number(good),
            Text(" answers, "),
            Number(bad),
            Text(" connections with others, "),
            Text(served.line(alloc)?.as_str()),
        ],
    )
}

// What was played, and what the gates counted where they held.
fn counted(alloc: Global, played: &str, holds: bool, counts: &Counts) -> Result<String, Memory> {
    if !holds {
        return joined(alloc, &[Text(played), Text("\n")]);
    }
    let given_up = counts.given_up.load(Ordering::SeqCst);
    let misheard = counts.misheard.load(Ordering::SeqCst);
    joined(
        alloc,
        &[
            Text(played),
            Text(", gave up "),
            Number(given_up),
            Text(" times, misheard "),
            Number(misheard),
            Text("\n"),
        ],
    )
}

// Plays a plan by a crew that has threads or none, and whose first worker's gate holds or does not.
fn played_by<R: Threads + Wait + Sync>(
    stage: &Stage<'_, R>,
    (has_threads, holds): (bool, bool),
    plan: Plan,
) -> Result<String, Memory> {
    let alloc = stage.host.alloc();
    let counts = Counts::new();
    let runtime = if has_threads {
        Some(stage.threads)
    } else {
        None
    };
    let mut crew = WatchingCrew::new(runtime, holds, &counts);
    let text = played(alloc, stage.threads, &mut crew, plan)?;
    counted(alloc, text.as_str(), holds, &counts)
}

/// What a line `CREW LISTENERS CONNECTIONS MUTATIONS WHOSE` prints. The crew is `threads` or `serial`; each connection sends so many
/// mutations, one a request; and they are `same`, where all are of one client, or `own`, where each listener has a client of its own
/// and each connection goes on from the one before. Printed are the answers of status 200, other answers, and how many entries the book
/// has. After `held-` the first worker's gate holds each request until the second worker has answered one, and gives up after 1,000,000
/// looks; printed is then also how often, and how often a gate heard what should not come then: a number that is neither 1 nor the next
/// one, a request before the last one's end, an end without one, that the worker leaves before the last one's end, or anything after
/// that.
pub fn answer<R: Threads + Wait + Sync>(
    stage: &Stage<'_, R>,
    line: &str,
) -> Result<Option<String>, Memory> {
    let (word, rest) = first_word(line);
    match named(&CREWS, word) {
        Some(crew) => Ok(Some(played_by(stage, crew, plan_of(rest))?)),
        None => Ok(None),
    }
}
