//! A priority queue over a lent slice, for every record kind with a total order.
//!
//! A heap has its records in the first `len` of its slots. Calls refuse where there is no slot or no record.
//! They say what they keep of a heap for every slice, whoever wrote it:
//! where the first `len` were a heap they are one after, and the record taken was the least.
//!
//! A crate queues a record kind of its own by an `impl Ranked`; proofs/Orders has laws to cite for an order of several numbers.
#![tactic(auto)]

pub mod drain;
pub mod heap;
pub mod rank;
pub mod select;
