ghost use Rattle.std.specs.Prelude.{◌≡◌, ◌≤◌, ◌+◌, [], length, fold, vec_len, OnOk};
ghost use Rattle.rv_base.specs.Sorted.{IsPositionOf, InOrder};
ghost use Rattle.rv_state.specs.UserMarks.{mark_in, marked_user, with_mark};

use rv_base::{Memory, User};
use rv_rows::Users;
use std::alloc::Global;
use std::marker::Model;

/// The users who have a mark, each with it, in the order of their bytes.
///
/// A contract sees them as a list, and a lower bound of the space that is left, `spare`.
#[derive(Debug, Drop)]
pub(crate) struct UserMarks {
    marks: Vec<(User, u32)>,
}

impl Model for UserMarks {
    ghost use Rattle.std.specs.Prelude.{◌-◌, vec_len, vec_capacity};
    ghost use Rattle.rv_state.specs.UserMarks.{Marked};

    ghost Value = { Marked };

    ghost view = { λ m. record { marks = m.marks.items; spare = vec_capacity m.marks - vec_len m.marks } };
}

// Where the mark of a user stands, or where it would go.
fn position_of(marks: &[(User, u32)], user: &User) -> Result<usize, usize>
    requires { InOrder marked_user marks.now }
    ensures { IsPositionOf marked_user user.now marks.now result }
{
    marks.binary_search_by(|marked| marked.0.cmp(user))
}

impl UserMarks {
    /// Nobody has a mark.
    pub(crate) fn new(alloc: Global) -> UserMarks
        ensures { result.marks ≡ [] }
    {
        UserMarks {
            marks: Vec::new(alloc),
        }
    }

    /// The mark of a user, or this least one where it has none. Takes no memory.
    pub(crate) fn of(&self, user: &User, least: u32) -> u32
        requires { InOrder marked_user self.now.marks }
        ensures { result ≡ mark_in least user.now self.now.marks }
    {
        match position_of(&self.marks, user) {
            Ok(at) => self.marks[at].1,
            Err(_) => least,
        }
    }

    /// Makes space for the marks of so many more users.
    pub(crate) fn reserve(&mut self, count: usize) -> Result<(), Memory>
        ensures marks { self.new.marks ≡ self.old.marks }
        ensures ok { OnOk result (count ≤ self.new.spare) }
        ensures spare { self.old.spare ≤ self.new.spare }
    {
        self.marks.reserve(count)?;
        Ok(())
    }

    // Sets the mark of a user.
    fn set(&mut self, user: User, place: u32)
        requires order { InOrder marked_user self.old.marks }
        requires spare { 1 ≤ self.old.spare }
        ensures marks { self.new.marks ≡ with_mark place self.old.marks user }
        ensures order { InOrder marked_user self.new.marks }
        ensures spare { self.old.spare ≤ self.new.spare + 1 }
    {
        match position_of(&self.marks, &user) {
            Ok(at) => self.marks[at] = (user, place),
            Err(at) => match self.marks.insert(at, (user, place)) {
                Ok(()) => {}
                Err(_) => unreachable!(),
            },
        }
    }

    /// Sets the marks of these users to a place. It can't fail, and takes no memory.
    pub(crate) fn set_all(&mut self, users: Users, place: u32)
        requires order { InOrder marked_user self.old.marks }
        requires spare { length users ≤ self.old.spare }
        ensures { self.new.marks ≡ fold (with_mark place) self.old.marks users }
    {
        set_each(self, users.into_vec(), place);
    }
}

// Sets the marks of these users to a place, in space that there is.
fn set_each(marks: &mut UserMarks, users: Vec<User>, place: u32)
    requires order { InOrder marked_user marks.old.marks }
    requires spare { vec_len users ≤ marks.old.spare }
    ensures { marks.new.marks ≡ fold (with_mark place) marks.old.marks users.items }
{
    for user in users {
        marks.set(user, place);
    }
}
