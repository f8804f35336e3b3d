ghost use Rattle.std.specs.Prelude.{◌≡◌};
ghost use Rattle.rv_book.specs.declared.entry.Entry.TheVariants.{Act};

use rv_base::{Id, Num, User};
use rv_book::{Book, Entry, Found};
use rv_mutators::Staged;
use rv_rows::{Call, Users};
use rv_views::ViewRecord;

/// An act that is ready to be entered.
#[derive(Debug, Drop)]
pub struct PreparedAct {
    /// Who sent the mutation.
    pub user: User,
    /// The client group.
    pub group: Id,
    /// The client.
    pub client: Id,
    /// The mutation's id.
    pub id: Num,
    /// What it asked for.
    pub call: Call,
    /// Where the book has the rows of its group and its client.
    pub found: Found,
    /// The rows that it writes and removes.
    pub staged: Staged,
    /// The users whom it concerns: who sent it, and those for whom what they see is another after it.
    pub concerned: Users,
}

impl PreparedAct {
    // The entry, the rows that it writes and removes, and the users whom it concerns.
    pub(crate) fn into_parts(self) -> (Entry, Staged, Users)
        ensures { result ≡ (Act self.user self.group self.client self.id self.call, self.staged, self.concerned) }
    {
        let PreparedAct {
            user,
            group,
            client,
            id,
            call,
            staged,
            concerned,
            ..
        } = self;
        let entry = Entry::Act {
            user,
            group,
            client,
            id,
            call,
        };
        (entry, staged, concerned)
    }
}

/// A look that is ready to be entered.
#[derive(Debug, Drop)]
pub struct PreparedLook {
    /// Who pulled.
    pub user: User,
    /// The client group.
    pub group: Id,
    /// The order of the answered cookie.
    pub order: Num,
    /// The place of the look that the patch was made from.
    pub base: Option<u32>,
    /// Its view record.
    pub view: ViewRecord,
    /// Where the book has the row of its group.
    pub found: Found,
    /// The place of the look that falls out with it.
    pub gone: Option<u32>,
}

/// What is ready to be entered, with all that this takes: an entry, or the book that closing leaves.
#[derive(Debug, Drop)]
pub enum Prepared {
    /// An act, which writes and removes rows.
    Act(PreparedAct),
    /// A look, which has a view record.
    Look(PreparedLook),
    /// The retirement of a client group.
    Retirement(Id),
    /// The closed book, which comes in the place of the book.
    Closing(Book),
}
