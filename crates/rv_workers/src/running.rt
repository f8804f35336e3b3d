// Jobs are run.
ghost use Rattle.std.specs.Prelude.{◌<◌, All};
ghost use Rattle.rv_workers.specs.Jobs.{EachWorked, WorkedByPosition};

use crate::crew::Crew;
use crate::job::Job;
use std::thread;
use std::thread::Threads;

// The most threads of one list of jobs at a time.
const MOST: usize = 16;

// Runs jobs in threads, each of sixteen in one of its own. Where a thread can't be had, the job is done by who waits for it.
fn run_threads<J: Job + Send, R: Threads + Sync>(runtime: &R, jobs: &mut [J])
    requires { All J.needs jobs.old }
    ensures { WorkedByPosition J.worked jobs.old jobs.new }
{
    thread::for_each_mut(
        runtime,
        jobs,
        MOST,
        &|_, job: &mut J|
            requires { J.needs job.now }
            ensures { J.worked job.entry.now job.exit.now }
        { job.work() },
    );
}

// Runs jobs one after the other.
fn run_serial<J: Job>(jobs: &mut [J])
    requires { All J.needs jobs.old }
    ensures { WorkedByPosition J.worked jobs.old jobs.new }
{
    for job in jobs.iter_mut() {
        job.work();
    }
}

// Runs two lists of jobs in threads side by side. Where no thread can be had for the second, it is run last.
fn run_beside<J: Job + Send, W: Job + Send, R: Threads + Sync>(
    runtime: &R,
    jobs: &mut [J],
    waiting: &mut [W],
)
    requires jobs { All J.needs jobs.old }
    requires waiting { All W.needs waiting.old }
    ensures jobs { WorkedByPosition J.worked jobs.old jobs.new }
    ensures waiting { WorkedByPosition W.worked waiting.old waiting.new }
{
    let mut second = ||
        requires { All W.needs waiting.now }
        ensures { WorkedByPosition W.worked waiting.entry.now waiting.exit.now }
    { run_threads(runtime, waiting) };
    let mut first = ||
        requires { All J.needs jobs.now }
        ensures { WorkedByPosition J.worked jobs.entry.now jobs.exit.now }
    { run_threads(runtime, jobs) };
    thread::join_mut(runtime, &mut second, &mut first);
}

// Runs two lists of jobs as the crew does.
fn run_by<J: Job + Send, W: Job + Send, C: Crew>(crew: &C, jobs: &mut [J], waiting: &mut [W])
    requires jobs { All J.needs jobs.old }
    requires waiting { All W.needs waiting.old }
    ensures jobs { WorkedByPosition J.worked jobs.old jobs.new }
    ensures waiting { WorkedByPosition W.worked waiting.old waiting.new }
{
    match crew.runtime() {
        Some(runtime) => run_beside(runtime, jobs, waiting),
        None => {
            run_serial(jobs);
            run_serial(waiting);
        }
    }
}

/// Has every job of two lists worked on, once, and returns when all are done. Those of the second list may wait for those of the first:
/// with threads the lists run side by side, and else the second after the first. Where no thread can be had, none of the second begins
/// before those of the first are done or have threads.
pub fn run_all<J: Job + Send, W: Job + Send, C: Crew>(crew: &C, jobs: &mut [J], waiting: &mut [W])
    requires jobs { All J.needs jobs.old }
    requires waiting { All W.needs waiting.old }
    ensures jobs { EachWorked J.worked jobs.old jobs.new }
    ensures waiting { EachWorked W.worked waiting.old waiting.new }
{
    run_by(crew, jobs, waiting);
}
