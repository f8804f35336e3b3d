ghost use Rattle.std.specs.Prelude.{◌≡◌, []};
ghost use Rattle.rv_room.specs.Views.{IsIdle};

use crate::boxed_desk::BoxedDesk;
use crate::view::SeatView;
use rv_keeper::Keeper;

/// The token of a seat, which its steps at the table take.
pub type Token<K> = atomic_table::Seat<Option<BoxedDesk<K>>, SeatView<K>>;

/// A seat of a room, between two turns. It takes no bytes.
#[derive(Drop)]
pub struct Seat<K: Keeper> {
    pub(crate) token: Token<K>,
    ghost idle: { IsIdle token.me.0 },
    ghost one: { token.me.0.parts ≡ 1 },
    ghost bare: { token.me.1 ≡ [] },
}
