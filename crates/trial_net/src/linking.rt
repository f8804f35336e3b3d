// Poke sessions over WebSocket, on streams in memory. Each session looks twice, at the marks 1 and 2. What must come is written from
// RFC 6455: the handshake and the key of its section 1.3, the frames of its section 5.7.
use crate::pieces::Pieces;
use crate::script::{Script, accounts};
use rv_accounts::Accounts;
use rv_doubles::MemoryBell;
use rv_link::SocketLink;
use rv_poke::{PokeEnd, poke_session};
use std::alloc::Global;
use std::sync::Wait;

// A request for an upgrade.
const REQUEST: &[u8] =
    b"GET /poke HTTP/1.1\r\nHost: server.example.com\r\nUpgrade: websocket\r\nConnection: Upgrade\r\nSec-WebSocket-Key: dGhlIHNhbXBsZSBub25jZQ==\r\nSec-WebSocket-Version: 13\r\n\r\n";

// A text `Hello`, which is the key.
const KEY: &[u8] = b"\x81\x85\x37\xfa\x21\x3d\x7f\x9f\x4d\x51\x58";

// A session over pieces: what it is, what the stream gives, read by read, and the call of the stream that fails, if it isn't 0.
type Case = (&'static str, &'static [&'static [u8]], u64);

static CASES: [Case; 24] = [
    ("a key and two pokes", &[REQUEST, KEY], 0),
    (
        "a key in two frames",
        &[
            REQUEST,
            b"\x01\x83\x37\xfa\x21\x3d\x7f\x9f\x4d",
            b"\x80\x82\x37\xfa\x21\x3d\x5b\x95",
        ],
        0,
    ),
    (
        "a wrong key",
        &[REQUEST, b"\x81\x82\x00\x00\x00\x00\x7a\x7a"],
        0,
    ),
    (
        "a binary message",
        &[REQUEST, b"\x82\x85\x37\xfa\x21\x3d\x7f\x9f\x4d\x51\x58"],
        0,
    ),
    (
        "a ping first",
        &[
            REQUEST,
            b"\x89\x85\x37\xfa\x21\x3d\x7f\x9f\x4d\x51\x58",
            KEY,
        ],
        0,
    ),
    (
        "a pong first",
        &[
            REQUEST,
            b"\x8a\x85\x37\xfa\x21\x3d\x7f\x9f\x4d\x51\x58",
            KEY,
        ],
        0,
    ),
    (
        "a close first",
        &[REQUEST, b"\x88\x82\x00\x00\x00\x00\x03\xe8"],
        0,
    ),
    (
        "a message over the limit",
        &[REQUEST, b"\x81\xfe\x10\x01\x00\x00\x00\x00Hello"],
        0,
    ),
    (
        "broken UTF-8",
        &[REQUEST, b"\x81\x82\x00\x00\x00\x00\xc3\x28"],
        0,
    ),
    ("a frame without a mask", &[REQUEST, b"\x81\x05Hello"], 0),
    (
        "no upgrade",
        &[b"GET /poke HTTP/1.1\r\nHost: x\r\n\r\n", KEY],
        0,
    ),
    ("no head", &[b"\x00\x01\r\n\r\n", KEY], 0),
    (
        "the end in the head",
        &[b"GET /poke HTTP/1.1\r\nHost: x\r\n"],
        0,
    ),
    ("the end before the key", &[REQUEST], 0),
    (
        "the end in the key",
        &[REQUEST, b"\x81\x85\x37\xfa\x21\x3d\x7f"],
        0,
    ),
    (
        "bytes after the head",
        &[
            b"GET /poke HTTP/1.1\r\nHost: server.example.com\r\nUpgrade: websocket\r\nConnection: Upgrade\r\nSec-WebSocket-Key: dGhlIHNhbXBsZSBub25jZQ==\r\nSec-WebSocket-Version: 13\r\n\r\n\x81\x85\x37\xfa\x21\x3d\x7f\x9f\x4d\x51\x58",
        ],
        0,
    ),
    ("the head can't be read", &[REQUEST, KEY], 1),
    (
        "the answer to the head can't be written",
        &[REQUEST, KEY],
        2,
    ),
    (
        "the answer to the head can't be flushed",
        &[REQUEST, KEY],
        3,
    ),
    ("the key can't be read", &[REQUEST, KEY], 4),
    ("the first poke can't be written", &[REQUEST, KEY], 5),
    ("the first poke can't be flushed", &[REQUEST, KEY], 6),
    ("the second poke can't be written", &[REQUEST, KEY], 7),
    ("the second poke can't be flushed", &[REQUEST, KEY], 8),
];

// A session over a stream. How it ended, and the link's faults.
fn session<R: Wait>(
    waiting: &R,
    alloc: Global,
    accounts: &Accounts,
    stream: Pieces<'_>,
) -> (PokeEnd, u64) {
    let mut link = SocketLink::new(stream);
    let mut script = Script::new(&[1, 2]);
    let mut bell = MemoryBell::new(0, 1);
    let end = poke_session(waiting, alloc, &mut script, accounts, &mut link, &mut bell);
    (end, link.faults)
}

// Plays a case.
fn play<R: Wait>(
    rt: &HostRuntime,
    waiting: &R,
    accounts: &Accounts,
    case: &Case,
) -> anyhow::Result<()> {
    let (name, pieces, failing) = *case;
    println!(rt; "== {name}")?;
    let stream = Pieces {
        rt,
        pieces,
        given: 0,
        failing,
        calls: 0,
    };
    let (end, faults) = session(waiting, rt.alloc(), accounts, stream);
    println!(rt; "{end:?}, faults: {faults}")?;
    Ok(())
}

/// Plays the cases.
pub fn play_all<R: Wait>(rt: &HostRuntime, waiting: &R) -> anyhow::Result<()> {
    let accounts = accounts(rt.alloc())?;
    println!(rt; "=== poke sessions over WebSocket")?;
    for case in &CASES {
        play(rt, waiting, &accounts, case)?;
    }
    Ok(())
}
