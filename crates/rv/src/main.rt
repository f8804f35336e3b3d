//! The program `rv`: the words of the command line, the stores of the machine, standard input and standard output, the machine's
//! loopback address, and its threads, handed to `rv_cli::run`.
#![tactic(auto)]

use rv_base::{Reading, Writing, write_all};
use rv_cli::run;
use rv_net::{Listen, Net, PokeListen, TcpNet};
use rv_place::{FileOpener, RunPlace, Start, Unknown, end_run};
use rv_poke::PokeLink;
use rv_workers::{Bells, Threaded};
use std::alloc::Global;
use std::io::ErrorKind;
use std::process::ExitCode;
use std::sync::Wait;
use std::thread::Threads;
use std::{env, io};

// The words of the command line.
fn words(rt: &HostRuntime, alloc: Global) -> io::Result<Vec<String>> {
    let mut words = Vec::new(alloc);
    for word in env::args(rt)? {
        words.push(word)?;
    }
    Ok(words)
}

// Does what the words say over a net, with the machine's threads, stores and standard streams, whatever the file of the store holds.
fn run_over<R: Threads + Wait + Sync, N: Net, S: Start + Send>(
    rt: &HostRuntime,
    threads: &R,
    words: &[String],
    net: &mut N,
    start: S,
) -> u8
where
    <N::Listen as Listen>::In: Send,
    <N::Listen as Listen>::Out: Send,
    <N::Pokes as PokeListen>::Link: PokeLink + Send,
{
    let mut place = RunPlace::new(rt.alloc(), FileOpener::new(rt), start);
    let mut input = Reading::new(rt.reader());
    let mut output = Writing::new(io::writer(rt));
    let bells = Bells::new();
    let mut crew = Threaded::new(threads, &bells);
    let status = run(
        rt.alloc(),
        threads,
        words,
        &mut place,
        &mut input,
        &mut output,
        net,
        &mut crew,
    );
    end_run(place);
    status
}

// Memory was refused in reading the words.
fn give_up(rt: &HostRuntime) -> ExitCode {
    let _ = write_all(&mut Writing::new(io::writer(rt)), b"memory\n");
    ExitCode::from(8)
}

// Where the words can't be had as text there are none.
fn main(rt: HostRuntime) -> ExitCode {
    let words = match words(&rt, rt.alloc()) {
        Ok(words) => words,
        Err(error) if error.kind() == ErrorKind::OutOfMemory => return give_up(&rt),
        Err(_) => Vec::new(rt.alloc()),
    };
    let mut net = TcpNet::new(&rt);
    ExitCode::from(run_over(&rt, &rt, &words, &mut net, Unknown))
}
