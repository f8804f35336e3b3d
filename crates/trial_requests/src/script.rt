// What a client sends that sends again what was answered 503, and pulls with the cookie that it was answered last.
use crate::plain_answers::add_answer;
use crate::plain_server::PlainServer;
use rv_base::Memory;
use rv_keeper::Schedule;
use std::alloc::Global;
use trial_stage::Part::Text;
use trial_stage::{append_parts, joined};

// What stands in a script for the cookie that was answered last.
const ANSWERED: &str = "\"answered\"";

// How often a line is sent at most.
const TRIES: u64 = 3;

/// The lines that were sent, and what the plain server answered.
#[derive(Drop)]
pub struct Sent {
    /// The lines, stops among them.
    pub lines: String,
    /// The answers.
    pub answers: String,
    /// The server after them.
    pub plain: PlainServer,
    // The cookie that was answered last, and before the first null.
    cookie: String,
}

// The cookie of an answer to a pull, if it is one.
fn cookie_in(answer: &str) -> Option<&str> {
    let after = answer.strip_prefix("200 {\"cookie\":")?;
    let (cookie, _) = after.split_once(",\"lastMutationIDChanges\"")?;
    Some(cookie)
}

// A line, with this cookie where it asks for the one that was answered last.
fn filled<'x>(alloc: Global, cookie: &'x str, line: &'x str) -> Result<String, Memory> {
    match line.split_once(ANSWERED) {
        Some((front, back)) => joined(alloc, &[Text(front), Text(cookie), Text(back)]),
        None => joined(alloc, &[Text(line)]),
    }
}

impl Sent {
    fn new(alloc: Global, schedule: Schedule) -> Result<Sent, Memory> {
        Ok(Sent {
            lines: String::new(alloc),
            answers: String::new(alloc),
            plain: PlainServer::new(alloc, schedule),
            cookie: joined(alloc, &[Text("null")])?,
        })
    }

    // Sends a line. Tells whether it is to be sent again.
    fn send_once(&mut self, alloc: Global, line: &str) -> Result<bool, Memory> {
        append_parts(alloc, &mut self.lines, &[Text(line), Text("\n")])?;
        let mut answer = String::new(alloc);
        add_answer(alloc, &mut answer, &mut self.plain, line)?;
        self.answers.push_str(answer.as_str())?;
        if let Some(cookie) = cookie_in(answer.as_str()) {
            self.cookie = joined(alloc, &[Text(cookie)])?;
        }
        Ok(answer.as_str().starts_with("503 "))
    }

    // Sends a line of a script.
    fn send(&mut self, alloc: Global, line: &str) -> Result<(), Memory> {
        let line = filled(alloc, self.cookie.as_str(), line)?;
        for _ in 0..TRIES {
            if !self.send_once(alloc, line.as_str())? {
                break;
            }
        }
        Ok(())
    }

    // Sends a line, and after it a stop where the entry at this place was made for it.
    fn send_to_stop(&mut self, alloc: Global, line: &str, place: usize) -> Result<(), Memory> {
        let before = self.plain.kept().len() as usize;
        self.send(alloc, line)?;
        if before < place && place <= self.plain.kept().len() as usize {
            self.send_once(alloc, "{\"stop\":true}")?;
        }
        Ok(())
    }
}

/// Sends the lines of a script where nothing was kept before, over a keeper of this schedule, with a stop after the line for which the
/// entry at a place, from 1, was made.
pub fn send_all(
    alloc: Global,
    script: &str,
    schedule: Schedule,
    stop: usize,
) -> Result<Sent, Memory> {
    let mut sent = Sent::new(alloc, schedule)?;
    for line in script.lines() {
        sent.send_to_stop(alloc, line, stop)?;
    }
    Ok(sent)
}
