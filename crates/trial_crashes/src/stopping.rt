// A script is stopped at each call of a disk, and what a crash may leave is opened again.
use crate::disks::{self, Contents, Disks, Which};
use crate::held::Held;
use crate::playing::{End, Told};
use crate::running::{self, Stopped, Whole};
use rv_base::Memory;
use std::alloc::Global;
use trial_stage::Part::{Number, Text};
use trial_stage::{append_parts, joined};

// More calls than any script makes.
const MOST_CALLS: u64 = 1_000_000;

// What a script comes to where nothing fails.
#[derive(Drop)]
struct Right {
    told: Told,
    held: Held,
    // What the store holds before the first line and after each.
    points: Vec<Held>,
}

impl Right {
    // Whether a store holds the book of one of the points, or a front of it that opens with the same page.
    fn comes_to(&self, found: &Held) -> bool {
        for point in &self.points {
            if point.page == found.page && point.entries.starts_with(&found.entries) {
                return true;
            }
        }
        false
    }
}

// Answers lines over empty disks that don't fail: what was told, and what the store holds then.
fn answered(alloc: Global, lines: &[String], pages: usize) -> Result<Option<(Told, Held)>, Memory> {
    let empty = Contents {
        log: &[],
        file: &[],
    };
    let disks = disks::lasting(alloc, empty)?;
    let Whole {
        found: _,
        told,
        left,
        is_closed,
    } = running::run_whole(alloc, disks, pages, 0, lines);
    match left {
        Some(held) if is_closed && told.end == End::Done => Ok(Some((told, held))),
        _ => Ok(None),
    }
}

// What the store holds before the first line of a script and after each.
fn points_of(alloc: Global, script: &[String], pages: usize) -> Result<Vec<Held>, Memory> {
    let mut points = Vec::new(alloc);
    for count in 0..script.len() + 1 {
        if let Some((_, held)) = answered(alloc, &script[..count], pages)? {
            points.push(held)?;
        }
    }
    Ok(points)
}

// What a script comes to, if each line is answered.
fn answered_rightly(
    alloc: Global,
    script: &[String],
    pages: usize,
) -> Result<Option<Right>, Memory> {
    match answered(alloc, script, pages)? {
        Some((told, held)) => {
            let points = points_of(alloc, script, pages)?;
            Ok(Some(Right { told, held, points }))
        }
        None => Ok(None),
    }
}

/// What a script comes to where nothing fails.
pub fn whole(alloc: Global, script: &[String]) -> Result<String, Memory> {
    match answered_rightly(alloc, script, 1000)? {
        Some(right) => joined(
            alloc,
            &[
                Number(right.told.statuses.len() as u64),
                Text(" answers, a book of length "),
                Number(right.held.length),
                Text(", "),
                Number(right.held.count),
                Text(" rows and clients\n"),
            ],
        ),
        None => joined(alloc, &[Text("not answered\n")]),
    }
}

// What has been tried with one disk.
#[derive(Drop)]
struct Tried {
    // How many calls the disk lets pass.
    calls: u64,
    // How often a run was stopped.
    stops: u64,
    // How many pairs of contents were opened.
    crashes: u64,
    // What went wrong, a line each.
    faults: String,
}

impl Tried {
    // Notes what went wrong at a stop.
    fn note(&mut self, alloc: Global, what: Option<&str>) -> Result<(), Memory> {
        if let Some(what) = what {
            append_parts(
                alloc,
                &mut self.faults,
                &[
                    Text("after "),
                    Number(self.calls),
                    Text(" calls, crash "),
                    Number(self.crashes),
                    Text(": "),
                    Text(what),
                    Text("\n"),
                ],
            )?;
        }
        Ok(())
    }
}

// The first thing that is wrong with a run up to its stop.
fn wrong_before(right: &Right, told: &Told) -> Option<&'static str> {
    if told.end == End::Wrong {
        return Some("the run went wrong");
    }
    if !right.told.statuses.starts_with(&told.statuses) {
        return Some("other statuses before the stop");
    }
    if !right.told.pulls.starts_with(&told.pulls) {
        return Some("other replies before the stop");
    }
    None
}

// How many entries or closings may have been kept beside those that were entered: one where a turn told a trouble.
fn in_doubt(end: End) -> u64 {
    match end {
        End::Trouble => 1,
        _ => 0,
    }
}

// The first thing that is wrong with what a crash left.
fn wrong_found(right: &Right, told: &Told, found: &Held) -> Option<&'static str> {
    if !right.comes_to(found) {
        return Some("another page or other entries");
    }
    if found.length < told.length {
        return Some("an entry or a closing is lost");
    }
    if found.length > told.length.saturating_add(in_doubt(told.end)) {
        return Some("an entry or a closing too much");
    }
    None
}

// The first thing that is wrong with what was answered after a crash.
fn wrong_after(right: &Right, told: &Told, again: &Told) -> Option<&'static str> {
    if again.end != End::Done {
        return Some("not all is answered after the crash");
    }
    match right.told.statuses.get(told.statuses.len()..) {
        Some(rest) if rest == again.statuses.as_slice() => None,
        _ => Some("other statuses after the crash"),
    }
}

// The first thing that is wrong with a run after a crash, which came where so much was told.
fn wrong_with(right: &Right, told: &Told, again: &Whole) -> Option<&'static str> {
    let (Some(found), Some(left)) = (&again.found, &again.left) else {
        return Some("not opened");
    };
    if let Some(what) = wrong_found(right, told, found) {
        return Some(what);
    }
    if let Some(what) = wrong_after(right, told, &again.told) {
        return Some(what);
    }
    if !again.is_closed {
        return Some("not closed");
    }
    if right.held.rows != left.rows {
        return Some("other rows at last");
    }
    None
}

// What is tried: a script, how many pages the log may have, and what comes where nothing fails.
#[derive(Clone, Copy)]
struct Trial<'t> {
    script: &'t [String],
    pages: usize,
    right: &'t Right,
}

impl Trial<'_> {
    // Opens what a crash left, after so much was told, and answers the rest of the script.
    fn go_on(
        &self,
        alloc: Global,
        told: &Told,
        contents: Contents<'_>,
        tried: &mut Tried,
    ) -> Result<(), Memory> {
        tried.crashes = tried.crashes.saturating_add(1);
        let disks = disks::lasting(alloc, contents)?;
        let rest = self.script.get(told.statuses.len()..).unwrap_or(&[]);
        let again = running::run_whole(alloc, disks, self.pages, tried.crashes, rest);
        tried.note(alloc, wrong_with(self.right, told, &again))
    }

    // Opens each pair of the contents that are tried.
    fn crash(
        &self,
        alloc: Global,
        told: &Told,
        disks: Disks,
        tried: &mut Tried,
    ) -> Result<(), Memory> {
        let Disks { log, db } = disks;
        let logs = disks::outcomes(alloc, log)?;
        let files = disks::outcomes(alloc, db)?;
        for log in &logs {
            for file in &files {
                self.go_on(alloc, told, Contents { log, file }, tried)?;
            }
        }
        Ok(())
    }

    // Stops the script once so many calls of a disk have passed. Whether a call may have failed.
    fn stop(&self, alloc: Global, which: Which, tried: &mut Tried) -> Result<bool, Memory> {
        let disks = disks::failing(alloc, which, tried.calls)?;
        let Stopped { told, mut disks } = running::run_to_stop(
            alloc,
            disks,
            self.pages,
            0,
            self.script,
        );
        if !disks::is_blown(&mut disks, which) {
            return Ok(false);
        }
        tried.note(alloc, wrong_before(self.right, &told))?;
        self.crash(alloc, &told, disks, tried)?;
        Ok(true)
    }
}

// What is told of all stops.
fn told_of<'x>(alloc: Global, name: &'x str, tried: &'x Tried) -> Result<String, Memory> {
    let end = if tried.faults.is_empty() {
        "; each opened with all that was answered and at most one entry or closing more, and went on to the same rows\n"
    } else {
        "\n"
    };
    joined(
        alloc,
        &[
            Text(tried.faults.as_str()),
            Text(name),
            Text(": "),
            Number(tried.stops),
            Text(" stops, "),
            Number(tried.crashes),
            Text(" crashes"),
            Text(end),
        ],
    )
}

// Stops the script after each call of a disk.
fn try_each(alloc: Global, trial: &Trial<'_>, which: Which) -> Result<Tried, Memory> {
    let mut tried = Tried {
        calls: 0,
        stops: 0,
        crashes: 0,
        faults: String::new(alloc),
    };
    for calls in 0..MOST_CALLS {
        tried.calls = calls;
        if !trial.stop(alloc, which, &mut tried)? {
            return Ok(tried);
        }
        tried.stops = tried.stops.saturating_add(1);
    }
    Ok(tried)
}

/// Stops a script after each call of a disk, and tells what came of it.
pub fn each(
    alloc: Global,
    script: &[String],
    line: &str,
    which: Which,
    pages: usize,
) -> Result<String, Memory> {
    match answered_rightly(alloc, script, pages)? {
        Some(right) => {
            let trial = Trial {
                script,
                pages,
                right: &right,
            };
            told_of(alloc, line, &try_each(alloc, &trial, which)?)
        }
        None => joined(alloc, &[Text("not answered\n")]),
    }
}
