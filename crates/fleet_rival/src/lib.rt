//! For tests: a store in memory that another party calls too, one that tells its place among several,
//! and the first records of a store.
#![tactic(auto)]

mod first;
mod placed_store;
mod rival;

pub use first::first_records;
pub use placed_store::Placed;
pub use rival::Rival;
