// What came of closings, and of pulls whose cookies are from before one.
use rv_base::Memory;
use std::alloc::Global;
use trial_stage::Part::{Number, Text};
use trial_stage::{append_parts, number_in};

/// How many closings were answered, and how many met a trouble; how many pulls were answered that named a place up to the page's, and
/// how many of these answers were whole.
#[derive(Clone, Copy)]
pub struct Tally {
    closed: u64,
    failed: u64,
    earlier: u64,
    whole: u64,
}

// The place that a pull's cookie names, in a line.
fn place_named(line: &str) -> Option<u64> {
    let (_, rest) = line.split_once("\"cvrID\":\"")?;
    let (place, _) = rest.split_once("\"")?;
    number_in(place)
}

impl Tally {
    /// Nothing came yet.
    pub fn new() -> Tally {
        Tally {
            closed: 0,
            failed: 0,
            earlier: 0,
            whole: 0,
        }
    }

    // Notes what a closing was answered.
    fn note_closing(&mut self, answer: &str) {
        if answer.starts_with("200 {\"closed\":") {
            self.closed = self.closed.saturating_add(1);
        } else if answer.starts_with("503 {\"error\":\"keeper\"}") {
            self.failed = self.failed.saturating_add(1);
        }
    }

    // Notes what a pull was answered that named a place up to the page's.
    fn note_earlier(&mut self, answer: &str) {
        if !answer.starts_with("200 {\"cookie\":") {
            return;
        }
        self.earlier = self.earlier.saturating_add(1);
        if answer.contains("\"patch\":[{\"op\":\"clear\"}") {
            self.whole = self.whole.saturating_add(1);
        }
    }

    /// Notes what a line was answered by a book with a page at this place.
    pub fn note(&mut self, line: &str, answer: &str, page: u32) {
        if line == "{\"closeBook\":true}" {
            self.note_closing(answer);
        }
        match place_named(line) {
            Some(place) if place <= u64::from(page) => self.note_earlier(answer),
            _ => {}
        }
    }

    /// Tells it, where a closing was asked.
    pub fn add(&self, alloc: Global, text: &mut String) -> Result<(), Memory> {
        if self.closed == 0 && self.failed == 0 {
            return Ok(());
        }
        append_parts(
            alloc,
            text,
            &[
                Text("closed "),
                Number(self.closed),
                Text(", closings in trouble "),
                Number(self.failed),
                Text(", looks from before "),
                Number(self.earlier),
                Text(", whole answers to them "),
                Number(self.whole),
                Text(", "),
            ],
        )
    }
}
