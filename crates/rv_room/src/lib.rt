//! A desk that several seats share: each turn of a seat is a turn of the desk, and all turns form one history.
//!
//! A [`Room`] has the desk in the one slot of a table, and three words: how many tickets were taken, how many turns have ended, and
//! how long the book is; and words that only wake seats that sleep. A [`Seat`] takes a ticket, waits until so many turns have
//! ended, and then has the desk for itself. It takes the ticket as a rule when its turn has come, so that nobody waits for a seat that
//! sleeps. What a seat knows is a [`SeatView`]. No seat closes the book that it shares, so the history only grows. [`Room::close`] gives the
//! desk back, whose book is the history of all turns.
#![tactic(auto)]

mod boxed_desk;
mod opening;
mod room;
mod rule;
mod seat;
mod seat_turns;
mod seats;
mod steps;
mod turned;
mod turning;
mod view;
mod waiting;

pub use boxed_desk::BoxedDesk;
pub use room::Room;
pub use rule::{About, OneHistory};
pub use seat::{Seat, Token};
pub use seat_turns::SeatTurns;
pub use seats::Seats;
pub use view::{History, InDoubt, SeatView};
