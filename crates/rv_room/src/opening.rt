// How a room is opened, and how it is closed.
ghost use Rattle.std.specs.Prelude.{◌≡◌, ℕ, ◌<◌, ◌≤◌, [], map, None, vec_len, vec_capacity, IfOk, IfErr};
ghost use Rattle.rv_room.specs.Closing.{Closes, gather};
ghost use Rattle.rv_room.specs.Seats.{id_of, opened_of, seats_of, view_of, AllOf, AllNew};
ghost use Rattle.rv_room.specs.Views.{newcomer, IsIdle};

use crate::boxed_desk::BoxedDesk;
use crate::room::{Room, RoomTable, SharedTable};
use crate::rule::{About, CutOne, JoinBoth};
use crate::seat::{Seat, Token};
use crate::seats::Seats;
use atomic_table::Refused;
use rv_base::Memory;
use rv_desk::Desk;
use rv_keeper::Keeper;
use std::alloc::Global;
use std::snapshot::Snapshot;

// A seat of this token.
fn seated<K: Keeper>(token: Token<K>) -> Seat<K>
    requires { IsIdle token.me.0 × (token.me.0.parts ≡ 1) × (token.me.1 ≡ []) }
    ensures { result.token ≡ token }
{
    Seat { token }
}

// Cuts the first token, which stands for all seats, into so many.
fn cut<K: Keeper>(shared: &SharedTable<K>, mut first: Token<K>, seats: u32, list: &mut Vec<Seat<K>>)
    requires table { (first.table_id ≡ shared.now.table_id) × (0 < shared.now.table_id.words) }
    requires first { first.me ≡ (newcomer seats shared.now.key.opened.value, []) }
    requires list { (list.old.items ≡ []) × (0 < seats) × (seats ≤ vec_capacity list.old) }
    ensures count { vec_len list.new ≡ seats }
    ensures new { AllNew shared.now.table_id shared.now.key.opened.value list.new.items }
{
    for number in 1..seats {
        let token = shared.split_seat::<CutOne>(&mut first);
        list.push_reserved(seated(token));
    }
    list.push_reserved(seated(first));
}

// One token for all seats.
fn join_all<K: Keeper>(
    shared: &SharedTable<K>,
    mut first: Token<K>,
    mut list: Vec<Seat<K>>,
) -> Token<K>
    requires table { (first.table_id ≡ shared.now.table_id) × (0 < shared.now.table_id.words) × AllOf shared.now.table_id list.items }
    requires first { IsIdle first.me.0 × (first.me.0.parts ≡ 1) × (first.me.1 ≡ []) }
    ensures table { result.table_id ≡ first.table_id }
    ensures all { result.me ≡ (gather first.me.0 (map view_of list.items), []) }
{
    while let Some(seat) = list.pop() {
        let Seat { token } = seat;
        shared.join_seat::<JoinBoth>(&mut first, token);
    }
    first
}

impl<K: Keeper> Room<K> {
    /// Opens a room with so many seats over a desk that has nothing in doubt. Where memory is refused, the desk is given back as it
    /// was.
    pub fn open(
        alloc: Global,
        desk: Desk<K>,
        seats: u32,
    ) -> Result<(Room<K>, Seats<K>), (Memory, Desk<K>)>
        requires { (0 < seats) × (desk.doubt ≡ None) }
        ensures about { IfOk result (λ opened. (seats_of opened.0 ≡ seats) × (opened_of opened.0 ≡ desk)) }
        ensures seats { IfOk result (λ opened. (vec_len opened.1.list ≡ seats) × AllNew (id_of opened.0) desk opened.1.list.items) }
        ensures err { IfErr result (λ refused. refused.1 ≡ desk) }
    {
        let Ok(mut list) = Vec::with_capacity(alloc, seats as usize) else {
            return Err((Memory, desk));
        };
        let about = About {
            seats,
            opened: Snapshot::of(&desk),
        };
        let length = u64::from(desk.book().len());
        let words = [
            0, 0, length, 0, 0, 0, 0, 0, 0, 0, 0, 0, 0, 0, 0, 0, 0, 0, 0, 0, 0,
        ];
        let desk = BoxedDesk::new(alloc, desk)?;
        let Ok(mut slots) = Vec::with_capacity(alloc, 1) else {
            return Err((Memory, desk.into_inner()));
        };
        slots.push_reserved(Some(desk));
        match RoomTable::<K>::new(alloc, &words, slots, &about) {
            Ok((table, first)) => {
                cut(&table.shared, first, seats, &mut list);
                Ok((Room { table }, Seats { list }))
            }
            Err(Refused { mut slots }) => {
                let Some(slot) = slots.pop() else {
                    unreachable!()
                };
                slots.destroy_empty();
                let Some(desk) = slot else { unreachable!() };
                Err((Memory, desk.into_inner()))
            }
        }
    }

    /// The desk, where all seats come back. Its book is the history of their turns. It can't fail, and takes no memory.
    pub fn close(self, seats: Seats<K>) -> Desk<K>
        requires all { vec_len seats.list ≡ seats_of self }
        requires table { AllOf (id_of self) seats.list.items }
        ensures { Closes K.Keeper (opened_of self) (map view_of seats.list.items) result }
    {
        let Room { table } = self;
        let Seats { mut list } = seats;
        let Some(last) = list.pop() else {
            unreachable!()
        };
        let Seat { token } = last;
        let token = join_all(&table.shared, token, list);
        let mut closed = table.close_with(token);
        let slot = closed.take(0);
        closed.free();
        let Some(desk) = slot else { unreachable!() };
        desk.into_inner()
    }
}
