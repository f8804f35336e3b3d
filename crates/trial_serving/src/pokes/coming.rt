// What comes to a net, by the lines of a case:
//
// - `listeners N`: so many more listeners of connections;
// - `push KEY|GROUP|MUTATIONS` and `pull KEY|GROUP|COOKIE`: one more connection at each listener of the last such line, which asks this
//   once. In it `#` stands for the number of the listener, from 1;
// - `pokes N`: so many more listeners of links;
// - `link KEY`: one more link at each listener of links of the last such line, whose first message is this text;
// - `failing-link CALL KEY`: the same, of which one call fails; `other-link`: one whose first message is no text; `silent-link`: one that
//   has no message.
use crate::nets::{conn, failing, request};
use crate::serving::Listening;
use rv_base::{Bytes, Memory};
use rv_doubles::{MemoryConn, MemoryLink, MemoryListen};
use rv_poke::First;
use std::alloc::Global;
use trial_stage::Part::{Number, Text};
use trial_stage::{first_word, joined, named, number_in};

// What a line says.
#[derive(Clone, Copy)]
enum Coming {
    Listeners,
    Push,
    Pull,
    Pokes,
    Link,
    FailingLink,
    OtherLink,
    SilentLink,
}

static COMINGS: [(&str, Coming); 8] = [
    ("listeners", Coming::Listeners),
    ("push", Coming::Push),
    ("pull", Coming::Pull),
    ("pokes", Coming::Pokes),
    ("link", Coming::Link),
    ("failing-link", Coming::FailingLink),
    ("other-link", Coming::OtherLink),
    ("silent-link", Coming::SilentLink),
];

/// Adds a line that says what comes.
pub fn add_line(lines: &mut String, line: &str) -> Result<(), Memory> {
    lines.push_str(line)?;
    lines.push_str("\n")?;
    Ok(())
}

// The most listeners of a line.
const MOST: u64 = 100;

// What comes to listeners of one kind, and how many of them there were before the last line that added some.
#[derive(Drop)]
struct Stock<C> {
    listeners: Vec<Vec<C>>,
    before: usize,
}

impl<C: Drop> Stock<C> {
    fn new(alloc: Global) -> Stock<C> {
        Stock {
            listeners: Vec::new(alloc),
            before: 0,
        }
    }

    // Adds listeners, as many as a text says.
    fn add(&mut self, alloc: Global, count: &str) -> Result<(), Memory> {
        self.before = self.listeners.len();
        for _ in 0..number_in(count).unwrap_or(0).min(MOST) {
            self.listeners.push(Vec::new(alloc))?;
        }
        Ok(())
    }

    // The listeners, each with what comes to it.
    fn into_listeners(self, alloc: Global) -> Result<Vec<MemoryListen<C>>, Memory> {
        let Stock {
            listeners: all,
            before: _before,
        } = self;
        let mut listeners = Vec::new(alloc);
        for to_come in all {
            listeners.push(MemoryListen::new(alloc, to_come)?)?;
        }
        Ok(listeners)
    }
}

// The first message of a link.
#[derive(Clone, Copy)]
enum Message<'l> {
    // This text.
    Text(&'l str),
    // A message that is no text.
    Other,
    // None.
    None,
}

// The message itself.
fn first_of(alloc: Global, message: Message<'_>) -> Result<Option<First>, Memory> {
    match message {
        Message::Text(text) => {
            let bytes = Vec::from_slice(alloc, text.as_bytes())?;
            Ok(Some(First::Text(Bytes::from_vec(bytes))))
        }
        Message::Other => Ok(Some(First::Other)),
        Message::None => Ok(None),
    }
}

// A text in which each `#` is this number.
fn numbered(alloc: Global, text: &str, number: u64) -> Result<String, Memory> {
    let digits = joined(alloc, &[Number(number)])?;
    Ok(text.replace(alloc, '#', digits.as_str())?)
}

// The body of a request of this kind in a group, with a member more.
fn body<'x>(
    alloc: Global,
    version: &'x str,
    group: &'x str,
    member: &'x str,
    value: &'x str,
) -> Result<String, Memory> {
    joined(
        alloc,
        &[
            Text("{\""),
            Text(version),
            Text("\":1,\"schemaVersion\":\"1\",\"profileID\":\"p\",\"clientGroupID\":\""),
            Text(group),
            Text("\",\""),
            Text(member),
            Text("\":"),
            Text(value),
            Text("}"),
        ],
    )
}

// The parts of `KEY|GROUP|REST`.
fn parts_of(words: &str) -> (&str, &str, &str) {
    let (key, words) = words.split_once('|').unwrap_or((words, ""));
    let (group, rest) = words.split_once('|').unwrap_or((words, ""));
    (key, group, rest)
}

// What comes.
#[derive(Drop)]
struct Plan {
    conns: Stock<MemoryConn>,
    links: Stock<MemoryLink>,
}

impl Plan {
    // One more connection at each of the last listeners, which asks this.
    fn ask(&mut self, alloc: Global, key: &str, path: &str, body: &str) -> Result<(), Memory> {
        let before = self.conns.before;
        for (at, conns) in self.conns.listeners.iter_mut().enumerate() {
            if at >= before {
                let body = numbered(alloc, body, (at as u64).wrapping_add(1))?;
                let text = request(alloc, key, path, body.as_str())?;
                conns.push(conn(alloc, text.into_bytes(), 1000))?;
            }
        }
        Ok(())
    }

    // A push of `KEY|GROUP|MUTATIONS`.
    fn push(&mut self, alloc: Global, words: &str) -> Result<(), Memory> {
        let (key, group, mutations) = parts_of(words);
        let body = body(alloc, "pushVersion", group, "mutations", mutations)?;
        self.ask(alloc, key, "push", body.as_str())
    }

    // A pull of `KEY|GROUP|COOKIE`.
    fn pull(&mut self, alloc: Global, words: &str) -> Result<(), Memory> {
        let (key, group, cookie) = parts_of(words);
        let body = body(alloc, "pullVersion", group, "cookie", cookie)?;
        self.ask(alloc, key, "pull", body.as_str())
    }

    // One more link at each of the last listeners of links. The call of it with this number fails; 0 is none.
    fn link(&mut self, alloc: Global, message: Message<'_>, fails: u64) -> Result<(), Memory> {
        let before = self.links.before;
        for (at, links) in self.links.listeners.iter_mut().enumerate() {
            if at >= before {
                let first = first_of(alloc, message)?;
                links.push(MemoryLink::new(alloc, first, failing(alloc, fails)?))?;
            }
        }
        Ok(())
    }

    // A link of `CALL KEY`.
    fn failing_link(&mut self, alloc: Global, words: &str) -> Result<(), Memory> {
        let (call, key) = first_word(words);
        let fails = number_in(call).unwrap_or(0);
        self.link(alloc, Message::Text(key), fails)
    }

    // Takes what a line says.
    fn take(&mut self, alloc: Global, coming: Coming, rest: &str) -> Result<(), Memory> {
        match coming {
            Coming::Listeners => self.conns.add(alloc, rest),
            Coming::Push => self.push(alloc, rest),
            Coming::Pull => self.pull(alloc, rest),
            Coming::Pokes => self.links.add(alloc, rest),
            Coming::Link => self.link(alloc, Message::Text(rest), 0),
            Coming::FailingLink => self.failing_link(alloc, rest),
            Coming::OtherLink => self.link(alloc, Message::Other, 0),
            Coming::SilentLink => self.link(alloc, Message::None, 0),
        }
    }
}

// What these lines say.
fn plan_of(alloc: Global, lines: &str) -> Result<Plan, Memory> {
    let mut plan = Plan {
        conns: Stock::new(alloc),
        links: Stock::new(alloc),
    };
    for line in lines.lines() {
        let (word, rest) = first_word(line);
        if let Some(coming) = named(&COMINGS, word) {
            plan.take(alloc, coming, rest)?;
        }
    }
    Ok(plan)
}

/// The listeners to which comes what these lines say.
pub fn net_of(alloc: Global, lines: &str) -> Result<Listening, Memory> {
    let Plan { conns, links } = plan_of(alloc, lines)?;
    Ok(Listening {
        listeners: conns.into_listeners(alloc)?,
        pokes: links.into_listeners(alloc)?,
    })
}
