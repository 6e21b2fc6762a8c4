//! The outside: what gives the bytes, what takes the bytes, and what holds contents by name. Every
//! layer above is generic over the three traits, so it runs over memory as over the process's
//! streams.
#![tactic(auto)]

mod memory;
mod pairs;
mod ports;
mod puts;
mod shelves;
mod standard;
mod streams;
mod strict;

pub use memory::MemPort;
pub use pairs::Pair;
pub use ports::{ByteOut, Failed, Port};
pub use puts::{put_all, put_parts};
pub use shelves::{FetchStop, NoShelf, Shelf};
pub use standard::StdPort;
pub use streams::StreamPort;
pub use strict::StrictPort;
