//! The step engine: the step rule on slots, over any source of bounds and distances.
#![tactic(auto)]

mod bounds;
mod gaps;
mod passes;
pub mod records;
pub mod refinement;
pub mod source;
mod steps;
