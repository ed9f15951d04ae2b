//! A new index.
ghost use Rattle.std.specs.Prelude.{◌≡◌, ℕ, List, [], Some, None, Ok, Err};
ghost use Rattle.index.specs.Calls.{new_refusal, new_bytes};
ghost use Rattle.index.specs.Limits.{no_counts};
ghost use Rattle.index.specs.History.{Holds};

use super::PivotIndex;
use crate::bytes::put_zeros;
use crate::counts::{ChannelRecord, Counts};
use crate::layout::layout_of;
use metric::channels::ChannelSet;
use refusal::Refusal;

impl<S: ChannelSet + Drop> PivotIndex<S> {
    /// An index of no patches over a store, whose stated size is zeroed. Refused, in this order: 13, 12.
    pub fn new(set: S, capacity: u16, store: &mut [u8]) -> Result<PivotIndex<S>, Refusal>
        ensures answer { elim result [ Ok x ↦ (new_refusal (S.models set) capacity store.old ≡ None) × (x.set ≡ set) × (x.counts ≡ no_counts capacity) | Err e ↦ new_refusal (S.models set) capacity store.old ≡ Some e ] }
        ensures bytes { store.new ≡ new_bytes (S.models set) capacity store.old }
        ensures history { elim result [ Ok x ↦ Holds (S.models x.set) x.counts store.new capacity store.old [] | Err e ↦ Unit {0} ] }
    {
        if set.channels() > 8 {
            return Err(Refusal::TooManyChannels);
        }
        if capacity > 4096 {
            return Err(Refusal::BadStore);
        }
        let l = layout_of(&set, capacity);
        if store.len() < l.size {
            return Err(Refusal::BadStore);
        }
        put_zeros(store, 0, l.size);
        let counts = Counts {
            capacity,
            held: 0,
            channels: [ChannelRecord { pivots: 0 }; 8],
        };
        Ok(PivotIndex { set, counts })
    }
}
