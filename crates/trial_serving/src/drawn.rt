// Connections, and the requests that each sends, drawn by a seed.
use rv_base::Memory;
use std::alloc::Global;
use trial_stage::Part::{Number, Text};
use trial_stage::calls::{self, USERS, name};
use trial_stage::{Draws, four_numbers, joined};

/// How many requests there are, and on how many connections.
#[derive(Clone, Copy)]
pub struct Plan {
    /// How many workers there are, each with a listener.
    pub workers: usize,
    /// How many connections each listener has.
    pub connections: usize,
    /// How many requests each connection has.
    pub requests: usize,
    /// What they are drawn by.
    pub seed: u64,
}

/// The plan of words, where they are one.
pub fn plan_of(words: &str) -> Option<Plan> {
    let [workers, connections, requests, seed] = four_numbers(words)?;
    Some(Plan {
        workers: workers as usize,
        connections: connections as usize,
        requests: requests as usize,
        seed,
    })
}

/// A request.
#[derive(Drop)]
pub struct Request {
    /// It makes an entry, since it is no push that was sent before.
    pub makes: bool,
    /// Its path, without the slash.
    pub word: &'static str,
    /// Its body.
    pub body: String,
}

/// A connection, with a client group and a client of its own.
#[derive(Drop)]
pub struct Connection {
    /// The name of its user.
    pub user: &'static str,
    /// The name of its group.
    pub group: String,
    /// What it asks, in order.
    pub requests: Vec<Request>,
}

// A push of the mutation of a connection that has this id.
fn push(
    alloc: Global,
    draws: &mut Draws,
    number: usize,
    group: &str,
    id: u64,
) -> Result<Request, Memory> {
    let mut mutation = String::new(alloc);
    calls::add_mutation(alloc, &mut mutation, draws, number % USERS, group, id)?;
    Ok(Request {
        makes: true,
        word: "push",
        body: calls::push(alloc, group, mutation.as_str())?,
    })
}

// A pull without a cookie.
fn pull(alloc: Global, group: &str) -> Result<Request, Memory> {
    Ok(Request {
        makes: true,
        word: "pull",
        body: calls::pull(alloc, group, "null")?,
    })
}

// A request like an earlier one; a pull where there is none.
fn again(
    alloc: Global,
    draws: &mut Draws,
    group: &str,
    requests: &[Request],
) -> Result<Request, Memory> {
    match requests.get(draws.below(requests.len())) {
        Some(request) => Ok(Request {
            makes: request.word == "pull",
            word: request.word,
            body: String::from_str(alloc, request.body.as_str())?,
        }),
        None => pull(alloc, group),
    }
}

// The next request of the connection of a number, after these, among which so many were sent that are new mutations.
fn next_request(
    alloc: Global,
    draws: &mut Draws,
    number: usize,
    group: &str,
    sent: &mut u64,
    requests: &[Request],
) -> Result<Request, Memory> {
    match draws.below(8) {
        0..5 => {
            *sent = sent.saturating_add(1);
            push(alloc, draws, number, group, *sent)
        }
        5..7 => pull(alloc, group),
        _ => again(alloc, draws, group, requests),
    }
}

// The requests of the connection of a number.
fn requests(
    alloc: Global,
    draws: &mut Draws,
    number: usize,
    group: &str,
    many: usize,
) -> Result<Vec<Request>, Memory> {
    let mut requests = Vec::new(alloc);
    let mut sent: u64 = 0;
    for _ in 0..many {
        let request = next_request(alloc, draws, number, group, &mut sent, &requests)?;
        requests.push(request)?;
    }
    Ok(requests)
}

// The connection of a number.
fn make_connection(
    alloc: Global,
    draws: &mut Draws,
    number: usize,
    many: usize,
) -> Result<Connection, Memory> {
    let group = joined(alloc, &[Text("g"), Number(number as u64)])?;
    let requests = requests(alloc, draws, number, group.as_str(), many)?;
    Ok(Connection {
        user: name(number % USERS),
        group,
        requests,
    })
}

/// The connections of a plan: those of the first listener, then those of the second, and so on.
pub fn connections_of(alloc: Global, plan: &Plan) -> Result<Vec<Connection>, Memory> {
    let mut draws = Draws::new(plan.seed);
    let mut connections = Vec::new(alloc);
    for number in 0..plan.workers.wrapping_mul(plan.connections) {
        connections.push(make_connection(alloc, &mut draws, number, plan.requests)?)?;
    }
    Ok(connections)
}
