// The rule of the table that a room is, and what its steps tell.
use crate::boxed_desk::BoxedDesk;
use crate::view::SeatView;
use atomic_table::{Join, Play, Split, TableRule};
use rv_desk::Desk;
use rv_keeper::Keeper;
use std::marker::PhantomData;
use std::snapshot::Snapshot;

/// What the table is told once: how many seats there are, and the desk as the room was opened.
#[derive(Drop)]
pub struct About<K: Keeper> {
    /// How many seats there are.
    pub seats: u32,
    /// The desk as the room was opened.
    pub opened: Snapshot<Desk<K>>,
}

/// The rule of a room: there is one history, and each seat's turns stand in it.
pub struct OneHistory<K> {
    keeper: PhantomData<K>,
}

impl<K: Keeper> TableRule<Option<BoxedDesk<K>>, SeatView<K>, About<K>> for OneHistory<K> {
    ghost use Rattle.rv_room.specs.Rule.{KeptIn};
    ghost use Rattle.rv_room.specs.Views.{newcomer};

    ghost holds = { λ about. KeptIn K.Keeper about.opened.value about.seats };

    ghost first = { λ about. newcomer about.seats about.opened.value };
}

// A ticket is taken.
pub(crate) struct TakeTicket;

impl<K: Keeper> Play<Option<BoxedDesk<K>>, SeatView<K>> for TakeTicket {
    ghost use Rattle.rv_room.specs.Plays.{TakesTicket};

    ghost then = { λ _. TakesTicket };
}

// A ticket is taken if it still is the next one.
pub(crate) struct TakeFreeTicket;

impl<K: Keeper> Play<Option<BoxedDesk<K>>, SeatView<K>> for TakeFreeTicket {
    ghost use Rattle.rv_room.specs.Plays.{TakesIfNext};

    ghost then = { λ step. TakesIfNext step.first };
}

// The number of turns that have ended is read. Where it is the seat's ticket, the seat has the turn, and the desk.
pub(crate) struct CheckTurn;

impl<K: Keeper> Play<Option<BoxedDesk<K>>, SeatView<K>> for CheckTurn {
    ghost use Rattle.rv_room.specs.Plays.{ChecksTurn};

    ghost then = { λ _. ChecksTurn K.Keeper };
}

// The entry that was in doubt is counted.
pub(crate) struct CountSettled;

impl<K: Keeper> Play<Option<BoxedDesk<K>>, SeatView<K>> for CountSettled {
    ghost use Rattle.rv_room.specs.Plays.{CountsSettled};

    ghost then = { λ _. CountsSettled };
}

// The entry that the step made is counted.
pub(crate) struct CountMade;

impl<K: Keeper> Play<Option<BoxedDesk<K>>, SeatView<K>> for CountMade {
    ghost use Rattle.rv_room.specs.Plays.{CountsMade};

    ghost then = { λ _. CountsMade };
}

// The desk is looked at after it has settled and stepped: what is in doubt now was left by this turn.
pub(crate) struct NoteSettled;

impl<K: Keeper> Play<Option<BoxedDesk<K>>, SeatView<K>> for NoteSettled {
    ghost use Rattle.rv_room.specs.Plays.{NotesSettled};

    ghost then = { λ _. NotesSettled };
}

// The desk is looked at after it could not settle: what was in doubt still is.
pub(crate) struct NoteKeeper;

impl<K: Keeper> Play<Option<BoxedDesk<K>>, SeatView<K>> for NoteKeeper {
    ghost use Rattle.rv_room.specs.Plays.{NotesKeeper};

    ghost then = { λ _. NotesKeeper };
}

// The turn is passed on.
pub(crate) struct PassTurn;

impl<K: Keeper> Play<Option<BoxedDesk<K>>, SeatView<K>> for PassTurn {
    ghost use Rattle.rv_room.specs.Plays.{Passes};

    ghost then = { λ _. Passes };
}

// A word changes that only wakes seats: a bell, or how many sleep.
pub(crate) struct Signal;

impl<K: Keeper> Play<Option<BoxedDesk<K>>, SeatView<K>> for Signal {
    ghost use Rattle.rv_room.specs.Plays.{Signals};

    ghost then = { λ _. Signals };
}

// A seat is cut off one that stands for several.
pub(crate) struct CutOne;

impl<K: Keeper> Split<SeatView<K>> for CutOne {
    ghost use Rattle.rv_room.specs.Views.{less_one, one_more};

    ghost left = { less_one };

    ghost right = { one_more };
}

// Two seats become one that stands for both.
pub(crate) struct JoinBoth;

impl<K: Keeper> Join<SeatView<K>> for JoinBoth {
    ghost use Rattle.rv_room.specs.Views.{both, spent};

    ghost both = { both };

    ghost spent = { spent };
}
