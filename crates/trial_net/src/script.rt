// Who tells marks by a script.
use rv_accounts::{Accounts, read_accounts};
use rv_base::User;
use rv_turns::Marks;
use std::alloc::Global;

/// Tells the marks of a list, one at each look, whoever the user is.
#[derive(Drop)]
pub struct Script {
    /// The marks.
    pub marks: &'static [u32],
    /// How many looks there were.
    pub looks: usize,
}

impl Script {
    /// A script of these marks.
    pub fn new(marks: &'static [u32]) -> Script {
        Script { marks, looks: 0 }
    }
}

impl Marks for Script {
    ghost marks = { λ script user mark script'. Unit {0} };

    fn mark(&mut self, _user: &User) -> u32 {
        let mark = self.marks.get(self.looks).copied().unwrap_or(0);
        self.looks = self.looks.saturating_add(1);
        mark
    }
}

/// The accounts of the sessions: one, whose key is `Hello`.
pub fn accounts(alloc: Global) -> anyhow::Result<Accounts> {
    let file = "account = [{ key = 'Hello', user = 'ann' }]";
    Ok(read_accounts(alloc, file.as_bytes())?)
}
