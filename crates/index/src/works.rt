//! What the calls of an index do once they are past their checks.
ghost use Rattle.std.specs.Prelude.{◌≡◌, ◌+◌, ◌*◌, ◌<◌, ◌≤◌, length};
ghost use Rattle.big_endian.specs.Numbers.{be16};
ghost use Rattle.metric.specs.Channels.{at};
ghost use Rattle.patch.specs.Patches.{few, offset, patch_width};
ghost use Rattle.index.specs.Asks.{AddsOnly, InsertAsks, PivotAsks};
ghost use Rattle.index.specs.Bytes.{put};
ghost use Rattle.index.specs.Calls.{inserted_bytes, added_bytes, freed_bytes};
ghost use Rattle.index.specs.Layouts.{number_at, row_at, pivot_at};
ghost use Rattle.index.specs.Limits.{pivots_in};
ghost use Rattle.index.specs.Steps.{moved, slot_row};
ghost use Rattle.index.specs.Works.{Ready};

use crate::bytes::{copy_part, move_part, put_bytes, put_u16};
use crate::inventory::Inventory;
use crate::layout::{RowSpan, row_span};
use metric::channels::ChannelSet;

impl Inventory {
    // Writes the accession number and the rows of a slot.
    fn put_patch(&self, store: &mut [u8], slot: usize, accession: u16, rows: &[u8])
        requires long { self.now.layout.size ≤ length store.old }
        requires slot { slot < self.now.counts.capacity }
        requires rows { length rows.now ≡ self.now.layout.row }
        ensures { store.new ≡ put (row_at self.now.layout slot) rows.now (put (number_at slot) (be16 accession) store.old) }
    {
        put_u16(store, 2 * slot, accession);
        let at = self.layout.row_at(slot);
        put_bytes(store, at, rows);
    }

    // Stores a patch in the next slot, with its distances to every pivot.
    pub(crate) fn store_next<S: ChannelSet>(
        &self,
        set: &mut S,
        store: &mut [u8],
        accession: u16,
        rows: &[u8],
    )
        requires ready { Ready (few (S.models set.old)) self.now.counts self.now.layout store.old }
        requires free { self.now.counts.held < self.now.counts.capacity }
        requires rows { length rows.now ≡ patch_width (few (S.models set.old)) }
        ensures kept { S.models set.new ≡ S.models set.old }
        ensures bytes { store.new ≡ inserted_bytes (few (S.models set.old)) self.now.counts store.old accession rows.now }
        ensures asks { AddsOnly (S.asked set.old) (S.asked set.new) (InsertAsks (few (S.models set.old)) self.now.counts store.old rows.now) }
    {
        let slot = usize::from(self.counts.held);
        self.put_patch(store, slot, accession, rows);
        self.store_patch(set, store, slot, rows);
    }

    // The row of a slot in channel c becomes that of pivot p.
    fn put_pivot<S: ChannelSet>(&self, set: &S, store: &mut [u8], c: usize, slot: usize, p: usize)
        requires ready { Ready (few (S.models set.now)) self.now.counts self.now.layout store.old }
        requires channel { c < length (few (S.models set.now)) }
        requires slot { slot < self.now.counts.capacity }
        requires pivot { p < 8 }
        ensures { store.new ≡ put (pivot_at self.now.layout (offset (few (S.models set.now)) c) (at (few (S.models set.now)) c).width p) (slot_row (few (S.models set.now)) self.now.layout c slot store.old) store.old }
    {
        let RowSpan { start, width } = row_span(set, &self.layout, c);
        let from = self.layout.row_at(slot) + start;
        let to = self.layout.pivot_at(start, width, p);
        copy_part(store, from, to, width);
    }

    // Makes the row of a slot the next pivot of channel c, and stores its distance to every patch held.
    pub(crate) fn store_pivot<S: ChannelSet>(
        &self,
        set: &mut S,
        store: &mut [u8],
        c: usize,
        slot: usize,
    )
        requires ready { Ready (few (S.models set.old)) self.now.counts self.now.layout store.old }
        requires channel { c < length (few (S.models set.old)) }
        requires slot { slot < self.now.counts.held }
        requires room { pivots_in self.now.counts c < 8 }
        ensures kept { S.models set.new ≡ S.models set.old }
        ensures bytes { store.new ≡ added_bytes (few (S.models set.old)) self.now.counts c slot store.old }
        ensures asks { AddsOnly (S.asked set.old) (S.asked set.new) (PivotAsks (few (S.models set.old)) self.now.counts store.old c slot) }
    {
        let p = self.counts.pivots_in(c);
        self.put_pivot(set, store, c, slot, p);
        self.store_owns(set, store, c, p);
    }

    // The row of the last pivot of channel c takes the freed number.
    fn free_row<S: ChannelSet>(&self, set: &S, store: &mut [u8], c: usize, p: usize, last: usize)
        requires ready { Ready (few (S.models set.now)) self.now.counts self.now.layout store.old }
        requires channel { c < length (few (S.models set.now)) }
        requires pivot { p < 8 }
        requires last { last < 8 }
        ensures { store.new ≡ moved (pivot_at self.now.layout (offset (few (S.models set.now)) c) (at (few (S.models set.now)) c).width last) (pivot_at self.now.layout (offset (few (S.models set.now)) c) (at (few (S.models set.now)) c).width p) (at (few (S.models set.now)) c).width store.old }
    {
        let RowSpan { start, width } = row_span(set, &self.layout, c);
        let from = self.layout.pivot_at(start, width, last);
        let to = self.layout.pivot_at(start, width, p);
        move_part(store, from, to, width);
    }

    // The last pivot of channel c takes the number of pivot p, in every patch held too.
    pub(crate) fn free_pivot<S: ChannelSet>(&self, set: &S, store: &mut [u8], c: usize, p: usize)
        requires ready { Ready (few (S.models set.now)) self.now.counts self.now.layout store.old }
        requires channel { c < length (few (S.models set.now)) }
        requires pivot { p < pivots_in self.now.counts c }
        ensures { store.new ≡ freed_bytes (few (S.models set.now)) self.now.counts c p store.old }
    {
        let last = self.counts.pivots_in(c) - 1;
        self.free_row(set, store, c, p, last);
        self.free_distances(store, c, p, last);
    }
}
