// What is told of listeners in memory and of their links, once they were served.
use crate::serving::Served;
use rv_base::Memory;
use rv_doubles::{MemoryLink, MemoryListen, MemoryPokes};
use rv_poke::Sent;
use std::alloc::Global;
use trial_stage::Part::{Number, Text};
use trial_stage::{append_parts, joined};

// How many pokes were sent.
fn pokes_in(sent: &[Sent]) -> u64 {
    let mut pokes: u64 = 0;
    for one in sent {
        if *one == Sent::Poke {
            pokes = pokes.saturating_add(1);
        }
    }
    pokes
}

// Adds one that was sent.
fn add_one(alloc: Global, text: &mut String, one: Sent) -> Result<(), Memory> {
    match one {
        Sent::Poke => append_parts(alloc, text, &[Text("poke")]),
        Sent::Ping => append_parts(alloc, text, &[Text("ping")]),
        Sent::Close(code) => {
            append_parts(alloc, text, &[Text("close "), Number(u64::from(code))])
        }
    }
}

// All that was sent, in order.
fn listed(alloc: Global, sent: &[Sent]) -> Result<String, Memory> {
    let mut text = String::new(alloc);
    for one in sent {
        if !text.is_empty() {
            text.push_str(", ")?;
        }
        add_one(alloc, &mut text, *one)?;
    }
    Ok(text)
}

// What was sent. Where only pokes were, and not more than `most`, above 1, it is left open how many.
fn sent_text(alloc: Global, sent: &[Sent], most: u64) -> Result<String, Memory> {
    if sent.is_empty() {
        return joined(alloc, &[Text("nothing")]);
    }
    let pokes = pokes_in(sent);
    if most > 1 && pokes <= most && pokes == sent.len() as u64 {
        return joined(alloc, &[Text("1 to "), Number(most), Text(" pokes")]);
    }
    listed(alloc, sent)
}

// Adds which link of which listener it is.
fn add_name(
    alloc: Global,
    text: &mut String,
    listener: u64,
    number: u64,
    mark: &str,
) -> Result<(), Memory> {
    append_parts(
        alloc,
        text,
        &[
            Text("link "),
            Number(listener),
            Text("."),
            Number(number),
            Text(mark),
            Text(": "),
        ],
    )
}

// Adds what was sent to a link, and how many of its calls failed.
fn add_sent(alloc: Global, text: &mut String, sent: &str, faults: u64) -> Result<(), Memory> {
    append_parts(
        alloc,
        text,
        &[Text(sent), Text(", faults "), Number(faults), Text("\n")],
    )
}

// Adds a line for each of these links of a listener, from this number on. Gives the number after them.
fn add_links(
    alloc: Global,
    text: &mut String,
    links: &[MemoryLink],
    (listener, first): (u64, u64),
    mark: &str,
    most: u64,
) -> Result<u64, Memory> {
    let mut number = first;
    for link in links {
        let sent = sent_text(alloc, &link.sent, most)?;
        add_name(alloc, text, listener, number, mark)?;
        add_sent(alloc, text, sent.as_str(), link.faults)?;
        number = number.saturating_add(1);
    }
    Ok(number)
}

// Adds the lines of the links of these listeners, those that came back to each and then those still to come.
fn add_listeners(
    alloc: Global,
    text: &mut String,
    listeners: &[MemoryPokes],
    most: u64,
) -> Result<(), Memory> {
    let mut number: u64 = 1;
    for listener in listeners {
        let served = add_links(alloc, text, &listener.came_back, (number, 1), "", most)?;
        add_links(
            alloc,
            text,
            &listener.to_come,
            (number, served),
            " to come",
            most,
        )?;
        number = number.saturating_add(1);
    }
    Ok(())
}

// Adds how many connections or links of these listeners were served, how many are still to come, and how often the listeners told that
// none is.
fn add_counts<C>(
    alloc: Global,
    text: &mut String,
    name: &str,
    listeners: &[MemoryListen<C>],
) -> Result<(), Memory> {
    let mut served: u64 = 0;
    let mut to_come: u64 = 0;
    let mut ends: u64 = 0;
    for listener in listeners {
        served = served.saturating_add(listener.came_back.len() as u64);
        to_come = to_come.saturating_add(listener.to_come.len() as u64);
        ends = ends.saturating_add(listener.ends);
    }
    append_parts(
        alloc,
        text,
        &[
            Text(name),
            Number(served),
            Text(" served, "),
            Number(to_come),
            Text(" to come, "),
            Number(ends),
            Text(" ends\n"),
        ],
    )
}

/// What is told of what was served: for each link what was sent to it and how many of its calls failed; how many connections and links
/// were served and are still to come, and how often their listeners told that none is; and how many entries the book has. Where a link got
/// only pokes, and not more than `most`, above 1, it is left open how many.
pub fn told(alloc: Global, served: &Served, most: u64) -> Result<String, Memory> {
    let mut text = String::new(alloc);
    add_listeners(alloc, &mut text, &served.net.pokes, most)?;
    add_counts(alloc, &mut text, "connections: ", &served.net.listeners)?;
    add_counts(alloc, &mut text, "links: ", &served.net.pokes)?;
    text.push_str(served.line(alloc)?.as_str())?;
    text.push_str("\n")?;
    Ok(text)
}
