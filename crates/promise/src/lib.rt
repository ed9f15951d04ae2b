//! What a search promises, and why the step engine over the bytes of a store keeps it.
//!
//! The definitions stand in specs/: Held (what the bytes of a store give for a query) and Promise. The lemma that joins them,
//! `kept` in proofs/Kept, is cited by the search's contract.
#![tactic(auto)]
