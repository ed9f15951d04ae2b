//! The index: patches and their distances to pivots, in a lent store.
#![tactic(auto)]

mod bytes;
mod checks;
pub mod counts;
pub mod inventory;
pub mod laws;
pub mod layout;
pub mod pivot_index;
mod steps;
mod works;
