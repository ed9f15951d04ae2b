//! An index over a lent store.
ghost use Rattle.std.specs.Prelude.{ℕ, ◌≤◌};
ghost use Rattle.index.specs.Limits.{pivots_in};

use crate::counts::Counts;
use metric::channels::ChannelSet;

mod checks;
mod making;
mod patches;
mod pivots;

/// An index of patches: its channels, and what it counts. The patches, the pivots and the distances to them lie in a
/// store of bytes that is lent to each call; whatever the bytes are, a call does by them what its rule says.
#[derive(Drop)]
pub struct PivotIndex<S: ChannelSet> {
    pub set: S,
    pub counts: Counts,
    ghost fits: { counts.held ≤ counts.capacity },
    ghost small: { counts.capacity ≤ 4096 },
    ghost eight: { (c : ℕ) → pivots_in counts c ≤ 8 },
}
