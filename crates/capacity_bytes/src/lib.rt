// The capacity controller where C lends record and tables as little-endian bytes: a call loads the words that it names, does with them what `capacity` does, and stores them.
#![tactic(auto)]

mod cache;
mod check;
mod lent;
mod record;
mod registers;
pub mod reset;

pub use cache::{evict, fill};
pub use registers::{read, write};
