// Who takes the lines of a book that is followed.
ghost use Rattle.std.specs.Prelude.{◌≡◌, ◌<◌, []};
ghost use Rattle.rv_book.specs.Book.{empty_book, size};
ghost use Rattle.rv_record.specs.PageCells.{on_page};
ghost use Rattle.rv_following.specs.declared.follow_line.FollowLine.{FollowLine};
ghost use Rattle.rv_following.specs.declared.follow_line.FollowLine.TheVariants as lines;
ghost use Rattle.rv_following.specs.FollowReads.{IsFollowLine};
ghost use Rattle.rv_following.specs.FollowSteps.{AnswersPull, Following, Follows, Gathers, TakesCell, TakesPageLine, TakesPull};

use crate::follow_line::{FollowLine, ParsedPull};
use json::Scratch;
use rv_answering::Answer;
use rv_base::{Steps, User};
use rv_keeper::{Cell, Shelf};
use rv_standby::{Standby, TakeFault};
use std::alloc::Global;
use std::marker::{Brand, Model};
use std::sync::ledger::{Blank, Ledger};

/// A standby, with the cells of a page that is not whole yet.
#[derive(Debug, Drop)]
pub struct Follower {
    standby: Standby,
    gathered: Vec<Cell>,
}

impl Model for Follower {
    ghost Value = { Following };

    ghost view = { λ f. record { book = f.standby.book; limit = f.standby.limit; gathered = f.gathered.items } };
}

// Whether a cell is one of a page: on the shelves 6 to 9.
fn is_on_page(cell: &Cell) -> bool
    ensures { result ≡ on_page cell.now }
{
    Shelf::Views.number() < cell.shelf && cell.shelf <= Shelf::PageGroups.number()
}

impl Follower {
    /// The follower of no line yet, whose book may grow to this length.
    pub fn new(alloc: Global, limit: u32) -> Follower
        ensures { result ≡ record { book = empty_book; limit = limit; gathered = [] } }
    {
        Follower {
            standby: Standby::new(alloc, limit),
            gathered: Vec::new(alloc),
        }
    }

    /// How long the book is: the place of its last entry, or of its page. Takes no memory.
    pub fn length(&self) -> u32
        ensures { result ≡ size self.now.book }
    {
        self.standby.length()
    }

    // Gathers a cell of a page.
    fn gather(&mut self, cell: Cell) -> Result<(), TakeFault>
        ensures { Gathers self.old cell result self.new }
    {
        if self.standby.length() != 0 {
            return Err(TakeFault::Refused);
        }
        match self.gathered.push(cell) {
            Ok(()) => Ok(()),
            Err(_) => Err(TakeFault::Memory),
        }
    }

    // Takes the cell of an entry.
    fn enter(&mut self, cell: &Cell, scratch: &mut Scratch) -> Result<(), TakeFault>
        ensures { TakesCell self.old cell.now result self.new }
    {
        if !self.gathered.is_empty() {
            return Err(TakeFault::Refused);
        }
        self.standby.take(cell, scratch)?;
        Ok(())
    }

    // Takes the page whose cells were gathered.
    fn open(&mut self) -> Result<(), TakeFault>
        ensures { TakesPageLine self.old result self.new }
    {
        self.standby.take_page(&self.gathered)?;
        self.gathered.clear();
        Ok(())
    }

    // Answers a pull.
    fn answer(&self, user: &User, pull: &ParsedPull) -> Answer
        ensures { AnswersPull self.now.book user.now pull.now result }
    {
        self.answer_from::<Brand>(user, pull, Blank::new(1))
    }

    // The same, with a count of its own.
    fn answer_from<L: Ledger>(&self, user: &User, pull: &ParsedPull, blank: Blank) -> Answer
        requires name { blank.name ≡ L.name }
        requires parts { (blank.parts ≡ L.parts) × (0 < L.parts) }
        ensures { AnswersPull self.now.book user.now pull.now result }
    {
        match pull {
            Ok(request) => {
                let mut steps = Steps::<L>::new(blank);
                Answer::of_outcome(self.standby.pull(user, request, &mut steps))
            }
            Err(fault) => Answer::Refused(fault.refusal()),
        }
    }

    // Takes a cell: one of a page is gathered, any other is that of an entry.
    fn take_cell(&mut self, cell: Cell, scratch: &mut Scratch) -> Result<Option<Answer>, TakeFault>
        ensures { Follows self.old (lines.Cell cell) result self.new }
    {
        if is_on_page(&cell) {
            self.gather(cell)?;
        } else {
            self.enter(&cell, scratch)?;
        }
        Ok(None)
    }

    // Answers a pull where no page is begun.
    fn take_pull(&self, user: &User, pull: &ParsedPull) -> Result<Option<Answer>, TakeFault>
        ensures { TakesPull self.now user.now pull.now result }
    {
        if !self.gathered.is_empty() {
            return Err(TakeFault::Refused);
        }
        Ok(Some(self.answer(user, pull)))
    }

    /// Takes what was read of a line, and gives the answer to a pull.
    ///
    /// `scratch` is room to read in, which is kept from one line to the next.
    ///
    /// # Errors
    ///
    /// `Refused` where the line may not come next: a cell of a page over a book that is not empty, the cell of an entry that may not come
    /// next, that a page is whole whose cells are those of no sound page, and anything else than these between the cells of a page. `Memory`
    /// where memory was refused. Then all is as it was.
    pub fn take(
        &mut self,
        line: FollowLine,
        scratch: &mut Scratch,
    ) -> Result<Option<Answer>, TakeFault>
        ensures { (asked : FollowLine) → IsFollowLine asked line → Follows self.old asked result self.new }
    {
        match line {
            FollowLine::Cell(cell) => self.take_cell(cell, scratch),
            FollowLine::Page => {
                self.open()?;
                Ok(None)
            }
            FollowLine::Pull { user, pull } => self.take_pull(&user, &pull),
        }
    }
}
