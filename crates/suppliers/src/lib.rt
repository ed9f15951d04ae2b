//! Metrics as an outside supplier writes them, and tests of what the library has built in.
#![tactic(auto)]

pub mod audit;
#[cfg(test)]
mod command_tests;
#[cfg(test)]
mod metric_tests;
#[cfg(test)]
mod patch_tests;
pub mod recorder;
