ghost use Rattle.std.specs.Prelude.{◌≡◌};
ghost use Rattle.std.specs.Iterator.{YieldsFirstBy, item_count};
ghost use Rattle.std.specs.List.{filter_map};
ghost use Rattle.rv_book.specs.Logs.{logged};
ghost use Rattle.rv_book.specs.Members.{info_by};

use crate::clients::ClientRow;
use crate::log::Log;
use crate::members::info;
use rv_base::{Id, Num};
use std::marker::Model;

/// The clients of a group that are still to come, each with its last mutation id, in the order of the clients' bytes.
///
/// A contract sees the list of those that are left.
#[derive(Drop)]
pub struct GroupClients<'b> {
    log: Log<'b>,
    // the rows of those that are left
    rows: &'b [ClientRow],
}

impl<'b> Model for GroupClients<'b> {
    ghost use Rattle.std.specs.Prelude.{List, ℕ};
    ghost use Rattle.std.specs.List.{filter_map};
    ghost use Rattle.rv_book.specs.Logs.{logged};
    ghost use Rattle.rv_book.specs.Members.{info_by};

    ghost Value = { List (List ℕ × ℕ) };

    ghost view = { λ left. filter_map (info_by (logged left.log)) left.rows.now };
}

impl<'b> GroupClients<'b> {
    // The clients that rows name.
    pub(crate) fn new(log: Log<'b>, rows: &'b [ClientRow]) -> GroupClients<'b>
        ensures { result ≡ filter_map (info_by (logged log.entry)) rows.now }
    {
        GroupClients { log, rows }
    }
}

impl<'b> Iterator for GroupClients<'b> {
    type Item = (&'b Id, Num);

    ghost next_gives = { YieldsFirstBy (λ item. (item.0.now, item.1)) (λ left. left) };

    ghost remaining = { item_count (λ left. left) };

    fn next(&mut self) -> Option<(&'b Id, Num)> {
        while let Some((row, rest)) = self.rows.split_first() {
            self.rows = rest;
            if let Some(client) = info(self.log, row) {
                return Some(client);
            }
        }
        None
    }
}
