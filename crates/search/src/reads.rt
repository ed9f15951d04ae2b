//! The rows of a query and of a store, channel by channel, and their distances.
ghost use Rattle.std.specs.Prelude.{◌≡◌, ◌<◌, length};
ghost use Rattle.metric.specs.Channels.{at, AddsAt};
ghost use Rattle.patch.specs.Patches.{few, row};
ghost use Rattle.index.specs.Steps.{slot_row as row_of_slot, pivot_row as row_of_pivot};
ghost use Rattle.search.specs.Sources.{Fits};

use index::counts::Counts;
use index::layout::{Layout, RowSpan, row_span};
use metric::channels::ChannelSet;

// What a search reads: the store and the query, where the parts of the store lie, and what it holds.
#[derive(Clone, Copy)]
pub(crate) struct View<'a> {
    pub(crate) store: &'a [u8],
    pub(crate) query: &'a [u8],
    pub(crate) layout: Layout,
    pub(crate) counts: Counts,
}

impl<'a> View<'a> {
    // The query's row in channel c.
    fn query_row<S: ChannelSet>(&self, set: &S, c: usize) -> &'a [u8]
        requires fits { Fits (few (S.models set.now)) self.now }
        requires channel { c < length (few (S.models set.now)) }
        ensures is { result.now ≡ row (few (S.models set.now)) c self.now.query.now }
        ensures wide { length result.now ≡ (at (S.models set.now) c).width }
    {
        let RowSpan { start, width } = row_span(set, &self.layout, c);
        &self.query[start..start + width]
    }

    // The rows of the query and of a slot in channel c. Where the channel lies is worked out once for both.
    fn both_rows<S: ChannelSet>(&self, set: &S, slot: usize, c: usize) -> (&'a [u8], &'a [u8])
        requires fits { Fits (few (S.models set.now)) self.now }
        requires channel { c < length (few (S.models set.now)) }
        requires slot { slot < self.now.counts.capacity }
        ensures asked { result.0.now ≡ row (few (S.models set.now)) c self.now.query.now }
        ensures patch { result.1.now ≡ row_of_slot (few (S.models set.now)) self.now.layout c slot self.now.store.now }
        ensures wide { (length result.0.now ≡ (at (S.models set.now) c).width) × (length result.1.now ≡ (at (S.models set.now) c).width) }
    {
        let RowSpan { start, width } = row_span(set, &self.layout, c);
        let at = self.layout.row_at(slot) + start;
        (
            &self.query[start..start + width],
            &self.store[at..at + width],
        )
    }

    // The row of pivot p of channel c.
    fn pivot_row<S: ChannelSet>(&self, set: &S, c: usize, p: usize) -> &'a [u8]
        requires fits { Fits (few (S.models set.now)) self.now }
        requires channel { c < length (few (S.models set.now)) }
        requires pivot { p < 8 }
        ensures is { result.now ≡ row_of_pivot (few (S.models set.now)) self.now.layout c p self.now.store.now }
        ensures wide { length result.now ≡ (at (S.models set.now) c).width }
    {
        let RowSpan { start, width } = row_span(set, &self.layout, c);
        let at = self.layout.pivot_at(start, width, p);
        &self.store[at..at + width]
    }

    // Asks for the distance of the query to pivot p of channel c.
    pub(crate) fn pivot_distance<S: ChannelSet>(&self, set: &mut S, c: usize, p: usize) -> u16
        requires fits { Fits (few (S.models set.old)) self.now }
        requires channel { c < length (few (S.models set.old)) }
        requires pivot { p < 8 }
        ensures value { result ≡ (at (few (S.models set.old)) c).dist (row (few (S.models set.old)) c self.now.query.now) (row_of_pivot (few (S.models set.old)) self.now.layout c p self.now.store.now) }
        ensures kept { S.models set.new ≡ S.models set.old }
        ensures adds { AddsAt (S.asked set.old) (S.asked set.new) c (row (few (S.models set.old)) c self.now.query.now) (row_of_pivot (few (S.models set.old)) self.now.layout c p self.now.store.now) }
    {
        let asked = self.query_row(set, c);
        let pivot = self.pivot_row(set, c, p);
        set.distance(c, asked, pivot)
    }

    // Asks for the distance of the query to the patch of a slot in channel c.
    pub(crate) fn slot_distance<S: ChannelSet>(&self, set: &mut S, slot: usize, c: usize) -> u16
        requires fits { Fits (few (S.models set.old)) self.now }
        requires channel { c < length (few (S.models set.old)) }
        requires slot { slot < self.now.counts.capacity }
        ensures value { result ≡ (at (few (S.models set.old)) c).dist (row (few (S.models set.old)) c self.now.query.now) (row_of_slot (few (S.models set.old)) self.now.layout c slot self.now.store.now) }
        ensures kept { S.models set.new ≡ S.models set.old }
        ensures adds { AddsAt (S.asked set.old) (S.asked set.new) c (row (few (S.models set.old)) c self.now.query.now) (row_of_slot (few (S.models set.old)) self.now.layout c slot self.now.store.now) }
    {
        let (asked, patch) = self.both_rows(set, slot, c);
        set.distance(c, asked, patch)
    }
}
