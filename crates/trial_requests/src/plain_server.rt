// A plain server over a plain keeper, written from the rules: what is kept is a book.
use crate::answering::LIMIT;
use crate::schedules::Troubles;
use rv_base::Memory;
use rv_keeper::{Fails, Schedule};
use rv_plain::{PlainBook, PlainDesk};
use rv_turns::{Asked, Outcome, Refusal, Trouble, Turns};
use std::alloc::Global;

// Why a turn is not answered as the plain desk answers it.
#[derive(Clone, Copy)]
enum Hindered {
    Keeper,
    Memory,
    Changed { kept: u64, found: u64 },
}

impl From<Memory> for Hindered {
    ghost from_gives = { λ _ _. Unit {0} };

    fn from(_error: Memory) -> Hindered {
        Hindered::Memory
    }
}

impl Hindered {
    // What such a turn is refused for.
    fn refusal(self) -> Refusal {
        match self {
            Hindered::Keeper => Refusal::Trouble(Trouble::Keeper),
            Hindered::Memory => Refusal::Memory,
            Hindered::Changed { kept, found } => {
                Refusal::Trouble(Trouble::Changed { kept, found })
            }
        }
    }
}

/// A plain desk, and beside it the book that is kept. The calls of the keeper that fail are listed.
#[derive(Drop)]
pub struct PlainServer {
    // Its book is that without what is in doubt.
    desk: PlainDesk,
    // The same book, or the one that what is in doubt makes of it: one with an entry more, or the closed one.
    kept: PlainBook,
    in_doubt: bool,
    troubles: Troubles,
    limit: u32,
    questions: u64,
    commits: u64,
    alloc: Global,
}

impl PlainServer {
    /// A server of which nothing is kept, over a keeper that fails at these calls.
    pub fn new(alloc: Global, schedule: Schedule) -> PlainServer {
        PlainServer::limited(alloc, LIMIT, Troubles::of(schedule))
    }

    /// The same with a limit of the book's length, and a generation that somebody else raises.
    pub fn limited(alloc: Global, limit: u32, troubles: Troubles) -> PlainServer {
        PlainServer {
            desk: PlainDesk::new(alloc, limit),
            kept: PlainBook::empty(alloc),
            in_doubt: false,
            troubles,
            limit,
            questions: 0,
            commits: 0,
            alloc,
        }
    }

    /// The book, without what is in doubt.
    pub fn book(&self) -> &PlainBook {
        self.desk.book()
    }

    /// The book that is kept.
    pub fn kept(&self) -> &PlainBook {
        &self.kept
    }

    fn fails(&self, call: Fails) -> bool {
        self.troubles.schedule.as_slice().contains(&call)
    }

    // A desk of the book that is kept.
    fn desk_of_kept(&self) -> Result<PlainDesk, Memory> {
        let book = self.kept.copy(self.alloc)?;
        let limit = self.limit.max(book.len());
        Ok(PlainDesk::with(self.alloc, book, limit))
    }

    /// Closes it and opens it again: nothing is in doubt, and the book is what is kept.
    pub fn stop(&mut self) -> Result<(), Memory> {
        self.in_doubt = false;
        self.desk = self.desk_of_kept()?;
        Ok(())
    }

    // What is kept is of neither length that it may have.
    fn changed(&self) -> Hindered {
        let found = u64::from(self.kept.len());
        Hindered::Changed {
            kept: u64::from(self.desk.book().len()),
            found: found.saturating_add(self.troubles.raised),
        }
    }

    // Asks what is kept, where something is in doubt. It is not in doubt any more where that is told: it is dropped where it was not
    // kept, and else taken up.
    fn settle(&mut self) -> Result<(), Hindered> {
        if !self.in_doubt {
            return Ok(());
        }
        self.questions = self.questions.saturating_add(1);
        if self.fails(Fails::Generation(self.questions)) {
            return Err(Hindered::Keeper);
        }
        if self.troubles.raised > 0 {
            return Err(self.changed());
        }
        self.in_doubt = false;
        self.desk = self.desk_of_kept()?;
        Ok(())
    }

    // Keeps what a turn has made of the book, where it has made something. Where that fails, it is in doubt, whether it is kept or not;
    // where memory is refused, the book is as before.
    fn keep(&mut self) -> Result<(), Hindered> {
        if self.desk.book().len() == self.kept.len() {
            return Ok(());
        }
        self.commits = self.commits.saturating_add(1);
        let commit = self.commits;
        if self.fails(Fails::Before(commit)) {
            self.doubt(false)?;
            return Err(Hindered::Keeper);
        }
        if self.fails(Fails::Memory(commit)) {
            self.desk = self.desk_of_kept()?;
            return Err(Hindered::Memory);
        }
        if self.fails(Fails::After(commit)) {
            self.doubt(true)?;
            return Err(Hindered::Keeper);
        }
        self.keep_book()?;
        Ok(())
    }

    fn keep_book(&mut self) -> Result<(), Memory> {
        self.kept = self.desk.book().copy(self.alloc)?;
        Ok(())
    }

    // What the last turn has made of the book is in doubt, and is kept or not.
    fn doubt(&mut self, is_kept: bool) -> Result<(), Memory> {
        let without = self.desk_of_kept()?;
        if is_kept {
            self.keep_book()?;
        }
        self.desk = without;
        self.in_doubt = true;
        Ok(())
    }

    fn try_take(&mut self, asked: Asked<'_>) -> Result<Outcome, Hindered> {
        self.settle()?;
        let outcome = self.desk.take(asked);
        self.keep()?;
        Ok(outcome)
    }
}

impl Turns for PlainServer {
    ghost takes = { λ old ask outcome new. Unit {0} };

    ghost closes = { Unit {0} };

    fn take(&mut self, asked: Asked<'_>) -> Outcome {
        match self.try_take(asked) {
            Ok(outcome) => outcome,
            Err(hindered) => Outcome::Refused(hindered.refusal()),
        }
    }
}
