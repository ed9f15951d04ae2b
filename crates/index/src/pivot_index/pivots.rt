//! Adding and removing pivots.
ghost use Rattle.std.specs.Prelude.{◌≡◌, ℕ, false, List, ◌∷◌, is_ok};
ghost use Rattle.std.specs.Option.{unwrap_or};
ghost use Rattle.patch.specs.Patches.{few};
ghost use Rattle.refusal.specs.Refusals.{answered};
ghost use Rattle.index.specs.Asks.{AddsOnly, PivotAsks};
ghost use Rattle.index.specs.Calls.{first_slot, add_refusal, add_counts, add_bytes, free_refusal, free_counts, free_bytes};
ghost use Rattle.index.specs.History.{Call, Holds, add_pivot as adding, remove_pivot as freeing};

use super::PivotIndex;
use crate::steps::{grow, shrink};
use metric::channels::ChannelSet;
use refusal::Refusal;

impl<S: ChannelSet> PivotIndex<S> {
    /// Makes the row of a patch the next pivot of a channel, with its distance to every patch held. Refused, in this
    /// order: 12, 5, 4, 6.
    pub fn add_pivot(
        &mut self,
        store: &mut [u8],
        channel: u8,
        accession: u16,
    ) -> Result<(), Refusal>
        ensures answer { result ≡ answered (add_refusal (few (S.models self.old.set)) self.old.counts store.old channel accession) tt }
        ensures counts { self.new.counts ≡ add_counts (few (S.models self.old.set)) self.old.counts store.old channel accession }
        ensures bytes { store.new ≡ add_bytes (few (S.models self.old.set)) self.old.counts store.old channel accession }
        ensures same { S.models self.new.set ≡ S.models self.old.set }
        ensures refused { is_ok result ≡ false → self.new.set ≡ self.old.set }
        ensures asks { AddsOnly (S.asked self.old.set) (S.asked self.new.set) (PivotAsks (few (S.models self.old.set)) self.old.counts store.old channel (unwrap_or (first_slot self.old.counts store.old accession) 0)) }
        ensures history { (cap : ℕ) (b : List ℕ) (h : List Call) → Holds (S.models self.old.set) self.old.counts store.old cap b h → Holds (S.models self.new.set) self.new.counts store.new cap b (adding channel accession ∷ h) }
    {
        let inventory = self.inventory_in(store)?;
        let c = usize::from(channel);
        inventory.check_channel(c)?;
        let Some(slot) = inventory.first_slot(store, accession) else {
            return Err(Refusal::NotHeld);
        };
        inventory.check_room(c)?;
        inventory.store_pivot(&mut self.set, store, c, usize::from(slot));
        grow(&mut self.counts.channels[c]);
        Ok(())
    }

    /// Takes a pivot from a channel; the last pivot of the channel takes its number. Refused, in this order: 12, 5, 7.
    pub fn remove_pivot(&mut self, store: &mut [u8], channel: u8, pivot: u8) -> Result<(), Refusal>
        ensures answer { result ≡ answered (free_refusal (few (S.models self.old.set)) self.old.counts store.old channel pivot) tt }
        ensures counts { self.new.counts ≡ free_counts (few (S.models self.old.set)) self.old.counts store.old channel pivot }
        ensures bytes { store.new ≡ free_bytes (few (S.models self.old.set)) self.old.counts store.old channel pivot }
        ensures same { self.new.set ≡ self.old.set }
        ensures history { (cap : ℕ) (b : List ℕ) (h : List Call) → Holds (S.models self.old.set) self.old.counts store.old cap b h → Holds (S.models self.new.set) self.new.counts store.new cap b (freeing channel pivot ∷ h) }
    {
        let inventory = self.inventory_in(store)?;
        let c = usize::from(channel);
        let p = usize::from(pivot);
        inventory.check_channel(c)?;
        inventory.check_pivot(c, p)?;
        inventory.free_pivot(&self.set, store, c, p);
        shrink(&mut self.counts.channels[c]);
        Ok(())
    }
}
