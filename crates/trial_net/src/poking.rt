// Poke sessions over links in memory.
use crate::script::{Script, accounts};
use rv_accounts::Accounts;
use rv_base::Bytes;
use rv_doubles::{MemoryBell, MemoryLink};
use rv_poke::{First, poke_session};
use std::alloc::Global;
use std::sync::Wait;

// The first message of a case.
#[derive(Clone, Copy)]
enum Comes {
    // This text.
    Text(&'static str),
    // A message that is no text.
    Other,
    // None.
    None,
}

// A session over a link in memory: what it is, its first message, the mark of each look, how often the bell is silent and then rung, and
// the call of the link that fails, if it isn't 0.
type Case = (&'static str, Comes, &'static [u32], u32, u32, u64);

static CASES: [Case; 21] = [
    (
        "a mark, nothing new, a higher mark",
        Comes::Text("Hello"),
        &[1, 1, 3],
        0,
        2,
        0,
    ),
    (
        "the first message can't be taken",
        Comes::Text("Hello"),
        &[1, 1, 3],
        0,
        2,
        1,
    ),
    (
        "the first poke can't be sent",
        Comes::Text("Hello"),
        &[1, 1, 3],
        0,
        2,
        2,
    ),
    (
        "the client has left where nothing is new",
        Comes::Text("Hello"),
        &[1, 1, 3],
        0,
        2,
        3,
    ),
    (
        "the second poke can't be sent",
        Comes::Text("Hello"),
        &[1, 1, 3],
        0,
        2,
        4,
    ),
    (
        "a later call would fail",
        Comes::Text("Hello"),
        &[1, 1, 3],
        0,
        2,
        5,
    ),
    ("no ring", Comes::Text("Hello"), &[1], 0, 0, 0),
    ("no mark yet", Comes::Text("Hello"), &[0, 0], 0, 1, 0),
    (
        "no mark yet, and the client has left",
        Comes::Text("Hello"),
        &[0, 0],
        0,
        1,
        2,
    ),
    (
        "no mark yet, and the client has left at the ring",
        Comes::Text("Hello"),
        &[0, 0],
        0,
        1,
        3,
    ),
    (
        "lower marks between",
        Comes::Text("Hello"),
        &[3, 1, 3, 4, 2],
        0,
        4,
        0,
    ),
    (
        "silent twice, and then a ring",
        Comes::Text("Hello"),
        &[1, 2],
        2,
        1,
        0,
    ),
    (
        "silent, and no mark yet",
        Comes::Text("Hello"),
        &[0],
        1,
        0,
        0,
    ),
    (
        "the second ping can't be sent",
        Comes::Text("Hello"),
        &[1, 2],
        2,
        1,
        4,
    ),
    ("another text", Comes::Text("zz"), &[1], 0, 1, 0),
    ("a front of the key", Comes::Text("Hell"), &[1], 0, 1, 0),
    ("the key and more", Comes::Text("Hello "), &[1], 0, 1, 0),
    ("an empty text", Comes::Text(""), &[1], 0, 1, 0),
    ("no text", Comes::Other, &[1], 0, 1, 0),
    ("the close fails", Comes::Text("zz"), &[1], 0, 1, 2),
    ("no message", Comes::None, &[1], 0, 1, 0),
];

// The first message of a case.
fn first_of(alloc: Global, comes: Comes) -> anyhow::Result<Option<First>> {
    match comes {
        Comes::Text(text) => {
            let bytes = Vec::from_slice(alloc, text.as_bytes())?;
            Ok(Some(First::Text(Bytes::from_vec(bytes))))
        }
        Comes::Other => Ok(Some(First::Other)),
        Comes::None => Ok(None),
    }
}

// Plays a case.
fn play<R: Wait>(
    rt: &HostRuntime,
    waiting: &R,
    accounts: &Accounts,
    case: &Case,
) -> anyhow::Result<()> {
    let alloc = rt.alloc();
    let (name, comes, marks, silences, rings, failing) = *case;
    println!(rt; "== {name}")?;
    let failing = Vec::from_slice(alloc, &[failing])?;
    let mut link = MemoryLink::new(alloc, first_of(alloc, comes)?, failing);
    let mut script = Script::new(marks);
    let mut bell = MemoryBell::new(silences, rings);
    let end = poke_session(waiting, alloc, &mut script, accounts, &mut link, &mut bell);
    println!(rt; "{end:?}, sent: {:?}", link.sent)?;
    let looks = script.looks;
    println!(rt;
        "looks: {looks}, found: {}, rungs: {}, quiets: {}, overs: {}, rings left: {}, faults: {}",
        link.found, bell.rungs, bell.quiets, bell.overs, bell.left, link.faults
    )?;
    Ok(())
}

/// Plays the cases.
pub fn play_all<R: Wait>(rt: &HostRuntime, waiting: &R) -> anyhow::Result<()> {
    let accounts = accounts(rt.alloc())?;
    println!(rt; "=== poke sessions")?;
    for case in &CASES {
        play(rt, waiting, &accounts, case)?;
    }
    Ok(())
}
