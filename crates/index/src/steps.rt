//! The steps that the calls of an index are made of, over the store and the set.
ghost use Rattle.std.specs.Prelude.{◌≡◌, ◌+◌, ◌-◌, ◌*◌, ◌<◌, ◌≤◌, length, take, IfSome, ◌==◌};
ghost use Rattle.patch.specs.Patches.{few, patch_width};
ghost use Rattle.index.specs.Asks.{AddsOnly, InsertAsks};
ghost use Rattle.index.specs.Bytes.{get16};
ghost use Rattle.index.specs.Layouts.{number_at};
ghost use Rattle.index.specs.Steps.{each, first_from, store_channel, store_own, free_distance, shifted_slot};
ghost use Rattle.index.specs.Works.{Ready, OwnAsks};

use crate::bytes::{move_part, put_u16};
use crate::counts::ChannelRecord;
use crate::inventory::Inventory;
use crate::layout::{RowSpan, row_span};
use big_endian::get_u16;
use metric::channels::ChannelSet;

// One pivot more.
pub fn grow(r: &mut ChannelRecord)
    requires { r.old.pivots < 8 }
    ensures is { r.new ≡ record { pivots = r.old.pivots + 1 } }
    ensures small { r.new.pivots ≤ 8 }
{
    r.pivots += 1;
}

// One pivot fewer.
pub fn shrink(r: &mut ChannelRecord)
    requires { 0 < r.old.pivots }
    ensures { r.new ≡ record { pivots = r.old.pivots - 1 } }
{
    r.pivots -= 1;
}

impl Inventory {
    // The first slot held that has the accession number. Never inlined: within a larger call each turn would also carry that call's numbers.
    #[inline(never)]
    pub(crate) fn first_slot(&self, store: &[u8], accession: u16) -> Option<u16>
        requires { self.now.layout.size ≤ length store.now }
        ensures is { result ≡ first_from store.now accession self.now.counts.held 0 }
        ensures below { IfSome result (λ s. s < self.now.counts.held) }
    {
        (0..self.counts.held).find(|slot| get_u16(store, 2 * usize::from(*slot)) == accession)
    }

    // Stores the distances of a patch's row in channel c to every pivot there.
    fn store_channel<S: ChannelSet>(
        &self,
        set: &mut S,
        store: &mut [u8],
        slot: usize,
        rows: &[u8],
        c: usize,
    )
        requires ready { Ready (few (S.models set.old)) self.now.counts self.now.layout store.old }
        requires slot { slot < self.now.counts.capacity }
        requires rows { length rows.now ≡ patch_width (few (S.models set.old)) }
        requires channel { c < length (few (S.models set.old)) }
        ensures kept { S.models set.new ≡ S.models set.old }
        ensures bytes { store.new ≡ store_channel (few (S.models set.old)) self.now.layout self.now.counts slot rows.now c store.old }
        ensures below { take self.now.layout.distances store.new ≡ take self.now.layout.distances store.old }
        ensures asks { AddsOnly (S.asked set.old) (S.asked set.new) (InsertAsks (few (S.models set.old)) self.now.counts store.old rows.now) }
    {
        let RowSpan { start, width } = row_span(set, &self.layout, c);
        let row = &rows[start..start + width];
        for p in 0..self.counts.pivots_in(c) {
            let from = self.layout.pivot_at(start, width, p);
            let d = set.distance(c, row, &store[from..from + width]);
            let to = self.layout.distance_at(slot, c, p);
            put_u16(store, to, d);
        }
    }

    // Stores the distances of a patch's rows to every pivot.
    pub(crate) fn store_patch<S: ChannelSet>(
        &self,
        set: &mut S,
        store: &mut [u8],
        slot: usize,
        rows: &[u8],
    )
        requires ready { Ready (few (S.models set.old)) self.now.counts self.now.layout store.old }
        requires slot { slot < self.now.counts.capacity }
        requires rows { length rows.now ≡ patch_width (few (S.models set.old)) }
        ensures kept { S.models set.new ≡ S.models set.old }
        ensures bytes { store.new ≡ each (length (few (S.models set.old))) (store_channel (few (S.models set.old)) self.now.layout self.now.counts slot rows.now) store.old }
        ensures asks { AddsOnly (S.asked set.old) (S.asked set.new) (InsertAsks (few (S.models set.old)) self.now.counts store.old rows.now) }
    {
        for c in 0..self.layout.channels {
            self.store_channel(set, store, slot, rows, c);
        }
    }

    // Stores in every slot held the distance of its row in channel c to pivot p.
    pub(crate) fn store_owns<S: ChannelSet>(
        &self,
        set: &mut S,
        store: &mut [u8],
        c: usize,
        p: usize,
    )
        requires ready { Ready (few (S.models set.old)) self.now.counts self.now.layout store.old }
        requires channel { c < length (few (S.models set.old)) }
        requires pivot { p < 8 }
        ensures kept { S.models set.new ≡ S.models set.old }
        ensures bytes { store.new ≡ each self.now.counts.held (store_own (few (S.models set.old)) self.now.layout c p) store.old }
        ensures asks { AddsOnly (S.asked set.old) (S.asked set.new) (OwnAsks (few (S.models set.old)) self.now.layout self.now.counts.held store.old c p) }
    {
        let RowSpan { start, width } = row_span(set, &self.layout, c);
        let from = self.layout.pivot_at(start, width, p);
        for slot in 0..usize::from(self.counts.held) {
            let own = self.layout.row_at(slot) + start;
            let d = set.distance(c, &store[own..own + width], &store[from..from + width]);
            let to = self.layout.distance_at(slot, c, p);
            put_u16(store, to, d);
        }
    }

    // In every slot held, the distance to the last pivot of channel c takes the freed number.
    pub(crate) fn free_distances(&self, store: &mut [u8], c: usize, p: usize, last: usize)
        requires long { self.now.layout.size ≤ length store.old }
        requires channel { c < self.now.layout.channels }
        requires pivot { p < 8 }
        requires last { last < 8 }
        ensures { store.new ≡ each self.now.counts.held (free_distance self.now.layout c p last) store.old }
    {
        for slot in 0..usize::from(self.counts.held) {
            let from = self.layout.distance_at(slot, c, last);
            let to = self.layout.distance_at(slot, c, p);
            move_part(store, from, to, 2);
        }
    }

    // All that the last slot held has moves to `slot`, and leaves zeros.
    pub(crate) fn shift_slot(&self, store: &mut [u8], slot: usize)
        requires long { self.now.layout.size ≤ length store.old }
        requires slot { slot < self.now.counts.held }
        ensures { store.new ≡ shifted_slot self.now.layout (self.now.counts.held - 1) slot store.old }
    {
        let last = usize::from(self.counts.held) - 1;
        move_part(store, 2 * last, 2 * slot, 2);
        let from = self.layout.row_at(last);
        let to = self.layout.row_at(slot);
        move_part(store, from, to, self.layout.row);
        let from = self.layout.distances_at(last);
        let to = self.layout.distances_at(slot);
        move_part(store, from, to, 16 * self.layout.channels);
    }
}
