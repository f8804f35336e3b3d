// The room: the table in whose one slot the desk lies.
ghost use Rattle.std.specs.Prelude.{◌≡◌, ◌<◌};

use crate::boxed_desk::BoxedDesk;
use crate::rule::{About, OneHistory};
use crate::view::SeatView;
use atomic_table::{Shared, Table};
use rv_keeper::Keeper;
use std::alloc::Global;

/// The table of a room.
pub(crate) type RoomTable<K> = Table<
    Option<BoxedDesk<K>>,
    SeatView<K>,
    About<K>,
    OneHistory<K>,
    Global,
>;

/// The part of it that all seats share.
pub(crate) type SharedTable<K> = Shared<Option<BoxedDesk<K>>, SeatView<K>, About<K>, OneHistory<K>>;

/// A room where seats share a desk. It is not dropped but closed.
pub struct Room<K: Keeper> {
    pub(crate) table: RoomTable<K>,
    ghost sized: { (table.shared.table_id.words ≡ 21) × (table.shared.table_id.slots ≡ 1) },
    ghost some_seat: { 0 < table.shared.key.seats },
}
