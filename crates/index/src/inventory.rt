//! What is held in a store, and where it lies.
ghost use Rattle.std.specs.Prelude.{◌≡◌, ℕ, ◌≤◌};
ghost use Rattle.index.specs.Layouts.{Sound};
ghost use Rattle.index.specs.Limits.{pivots_in};

use crate::counts::Counts;
use crate::layout::Layout;

/// What an index counts, and where the parts of its store lie: what the steps of a call work by.
// The set and the store are lent to each step beside it: in a struct, each step would have to say that the references stay.
#[derive(Clone, Copy)]
pub struct Inventory {
    pub layout: Layout,
    pub counts: Counts,
    ghost sound: { Sound layout },
    ghost slots: { layout.capacity ≡ counts.capacity },
    ghost fits: { counts.held ≤ counts.capacity },
    ghost eight: { (c : ℕ) → pivots_in counts c ≤ 8 },
}
