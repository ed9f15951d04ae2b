//! Finding, inserting and removing patches.
ghost use Rattle.std.specs.Prelude.{◌≡◌, ℕ, false, List, ◌∷◌, is_ok};
ghost use Rattle.patch.specs.Patches.{few};
ghost use Rattle.refusal.specs.Refusals.{answered};
ghost use Rattle.index.specs.Asks.{AddsOnly, InsertAsks};
ghost use Rattle.index.specs.Calls.{find_slot, insert_refusal, insert_counts, insert_bytes, remove_refusal, remove_counts, remove_bytes};
ghost use Rattle.index.specs.History.{Call, Holds, held, place, insert as inserting, remove as removing};
ghost use Rattle.index.specs.Laws.{ShowsHistory};

use super::PivotIndex;
use metric::channels::ChannelSet;
use refusal::Refusal;

impl<S: ChannelSet> PivotIndex<S> {
    /// The slot of an accession number, the first where several have it; none where the store is too short.
    ///
    /// Where new and a history of calls have led to this index and this store, the store's bytes and the counts are exactly the image of
    /// what the history holds, and the slot is the patch's place among the patches held.
    pub fn find(&self, store: &[u8], accession: u16) -> Option<u16>
        ensures value { result ≡ find_slot (few (S.models self.now.set)) self.now.counts store.now accession }
        ensures shows { ShowsHistory (S.models self.now.set) self.now.counts store.now }
        ensures held { (cap : ℕ) (b : List ℕ) (h : List Call) → Holds (S.models self.now.set) self.now.counts store.now cap b h → result ≡ place accession (held (S.models self.now.set) cap h) }
    {
        self.slot_of(store, accession)
    }

    // The same, apart from what histories make of it: a bug in it is then refused at its own clause.
    fn slot_of(&self, store: &[u8], accession: u16) -> Option<u16>
        ensures { result ≡ find_slot (few (S.models self.now.set)) self.now.counts store.now accession }
    {
        let inventory = self.inventory_in(store).ok()?;
        inventory.first_slot(store, accession)
    }

    /// Stores a patch in the next slot: its accession number, its rows, and their distances to every pivot. Refused, in
    /// this order: 12, 1, 2, 3.
    pub fn insert(&mut self, store: &mut [u8], accession: u16, rows: &[u8]) -> Result<(), Refusal>
        ensures answer { result ≡ answered (insert_refusal (few (S.models self.old.set)) self.old.counts store.old accession rows.now) tt }
        ensures counts { self.new.counts ≡ insert_counts (few (S.models self.old.set)) self.old.counts store.old accession rows.now }
        ensures bytes { store.new ≡ insert_bytes (few (S.models self.old.set)) self.old.counts store.old accession rows.now }
        ensures same { S.models self.new.set ≡ S.models self.old.set }
        ensures refused { is_ok result ≡ false → self.new.set ≡ self.old.set }
        ensures asks { AddsOnly (S.asked self.old.set) (S.asked self.new.set) (InsertAsks (few (S.models self.old.set)) self.old.counts store.old rows.now) }
        ensures history { (cap : ℕ) (b : List ℕ) (h : List Call) → Holds (S.models self.old.set) self.old.counts store.old cap b h → Holds (S.models self.new.set) self.new.counts store.new cap b (inserting accession rows.now ∷ h) }
    {
        let inventory = self.inventory_in(store)?;
        if rows.len() != inventory.layout.row {
            return Err(Refusal::WrongRowsLength);
        }
        if inventory.first_slot(store, accession).is_some() {
            return Err(Refusal::AlreadyHeld);
        }
        if self.counts.held >= self.counts.capacity {
            return Err(Refusal::Full);
        }
        inventory.store_next(&mut self.set, store, accession, rows);
        self.counts.held += 1;
        Ok(())
    }

    /// Takes out the patch of an accession number; the patch of the last slot moves into its slot. Refused, in this order: 12, 4.
    pub fn remove(&mut self, store: &mut [u8], accession: u16) -> Result<(), Refusal>
        ensures answer { result ≡ answered (remove_refusal (few (S.models self.old.set)) self.old.counts store.old accession) tt }
        ensures counts { self.new.counts ≡ remove_counts (few (S.models self.old.set)) self.old.counts store.old accession }
        ensures bytes { store.new ≡ remove_bytes (few (S.models self.old.set)) self.old.counts store.old accession }
        ensures same { self.new.set ≡ self.old.set }
        ensures history { (cap : ℕ) (b : List ℕ) (h : List Call) → Holds (S.models self.old.set) self.old.counts store.old cap b h → Holds (S.models self.new.set) self.new.counts store.new cap b (removing accession ∷ h) }
    {
        let inventory = self.inventory_in(store)?;
        let Some(slot) = inventory.first_slot(store, accession) else {
            return Err(Refusal::NotHeld);
        };
        inventory.shift_slot(store, usize::from(slot));
        self.counts.held -= 1;
        Ok(())
    }
}
