//! The search executed on many cases: the rules' examples, drawn cases against a full scan, faults, records, and stores that others wrote.
#![tactic(auto)]

#[cfg(test)]
mod ask;
#[cfg(test)]
mod cases;
#[cfg(test)]
mod chance;
#[cfg(test)]
mod examples;
#[cfg(test)]
mod garbage;
#[cfg(test)]
mod records;
#[cfg(test)]
mod refusals;
#[cfg(test)]
mod scan;
#[cfg(test)]
mod sets;
#[cfg(test)]
mod supplier;
