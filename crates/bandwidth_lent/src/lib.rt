// What is lent to a bandwidth controller as little-endian bytes: its record loaded and stored, resets, and checks 1 to 3, the tables in parts.
#![tactic(auto)]

mod check;
mod lent;
mod record;
pub mod reset;
mod sums;
mod waiters;

pub use check::{Held, checked};
pub use record::store_record;
