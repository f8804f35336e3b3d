//! Workers and poke jobs that serve listeners side by side at one desk.
//!
//! Each [`Worker`] has a listener of connections and a seat of the room where the desk is, and serves the connections one after the other,
//! by turns of its seat. Each [`PokeJob`] has a listener of links and a seat, and serves the links so, by looks of its seat.
//! [`serve_listeners`] opens the room, hires a worker or a poke job for each listener, has a crew run them, and closes the room. Worker 1,
//! which a serial crew runs first, has the last listener. Each request passes the gate that the crew has for its worker, and each poke
//! session waits for the bell that the crew has for its job.
//!
//! A [`Crew`] says how jobs are run: [`Threaded`] has a thread for each of sixteen workers and sixteen poke jobs, and its gates ring its
//! [`Bells`]. [`run_all`] has every [`Job`] worked on once.
#![tactic(auto)]

mod bells;
mod crew;
mod hiring;
mod job;
mod poke_job;
mod running;
mod serving;
mod threaded;
mod worker;

pub use bells::{Bells, RingingGate, WordBell};
pub use crew::Crew;
pub use job::Job;
pub use poke_job::PokeJob;
pub use running::run_all;
pub use serving::{Returned, serve_listeners};
pub use threaded::Threaded;
pub use worker::Worker;
