//! An index for programs in C or Rust: one lent memory, commands in, answers out.
#![tactic(auto)]

mod answers;
pub mod bench_index;
pub mod distances;
mod memory;
mod session;
pub mod wide_index;
