//! Doubles of what a server stands on: what tells all that it is given and gives, and fails where it is told to.
//!
//! A [`MemorySource`] and a [`MemorySink`] are over bytes in memory, a [`MemoryPlace`] has its stores and accounts files there, a
//! [`MemoryNet`] gives listeners whose connections ([`MemoryListen`]) and links ([`MemoryLink`]) are known, a [`MemoryBell`] rings as often as
//! it is told to, a [`MemoryGate`] keeps what it heard, and a [`Serial`] crew runs its jobs one after the other. The program uses none of
//! them: the programs of cases play it over them, and what a contract says of what is told is said of something. The keeper in memory
//! stands with the keepers, since the store `memory` is one.
#![tactic(auto)]

mod accounts_file;
mod in_memory;
mod memory_bell;
mod memory_gate;
mod memory_giving;
mod memory_link;
mod memory_listen;
mod memory_net;
mod memory_place;
mod memory_stock;
mod serial;
mod store;

pub use accounts_file::AccountsFile;
pub use in_memory::{MemorySink, MemorySource};
pub use memory_bell::MemoryBell;
pub use memory_gate::MemoryGate;
pub use memory_link::MemoryLink;
pub use memory_listen::{MemoryConn, MemoryListen};
pub use memory_net::{MemoryNet, MemoryPokes};
pub use memory_place::MemoryPlace;
pub use memory_stock::MemoryStock;
pub use serial::Serial;
pub use store::Store;
