//! What a search takes its numbers from: an index, its store, and the query.
ghost use Rattle.std.specs.Prelude.{◌≡◌, ◌+◌, ◌*◌, ◌<◌, ◌≤◌, length};
ghost use Rattle.patch.specs.Patches.{few};
ghost use Rattle.index.specs.Bytes.{part};
ghost use Rattle.index.specs.Layouts.{Sound, distance_at};
ghost use Rattle.promise.specs.Held.{held_tables};
ghost use Rattle.search.specs.Sources.{Prepared};

use crate::reads::View;
use crate::walk::bounds;
use big_endian::get_u16;
use engine::source::Source;
use index::layout::Layout;
use metric::channels::ChannelSet;

// What a search reads, with what it asks of a channel for every slot: the distances from the query to the pivots, and the greatest
// distance.
#[derive(Clone, Copy)]
pub(crate) struct Held<'a> {
    pub(crate) view: View<'a>,
    pub(crate) near: [[u16; 8]; 8],
    pub(crate) tops: [u16; 8],
}

// The sixteen bytes of a slot's distances to the pivots of channel c.
fn distances_of<'a>(store: &'a [u8], l: &Layout, slot: usize, c: usize) -> &'a [u8]
    requires sound { Sound l.now }
    requires long { l.now.size ≤ length store.now }
    requires slot { slot < l.now.capacity }
    requires channel { c < l.now.channels }
    ensures is { result.now ≡ part (distance_at l.now slot c 0) 16 store.now }
    ensures long { length result.now ≡ 16 }
{
    let at = l.distance_at(slot, c, 0);
    &store[at..at + 16]
}

impl<'a, S: ChannelSet> Source<S> for Held<'a> {
    ghost tables = { λ h s. held_tables (few (S.ChannelSet.models s)) h.view.counts h.view.store.now h.view.query.now };

    ghost asked = { λ _ s. S.ChannelSet.asked s };

    ghost ready = { λ h s. Prepared (few (S.ChannelSet.models s)) h };

    ghost metrics = { λ _ s. S.ChannelSet.models s };

    fn slots(&self, _meter: &S) -> usize {
        usize::from(self.view.counts.held)
    }

    fn number(&self, _meter: &S, slot: usize) -> u16 {
        get_u16(self.view.store, 2 * slot)
    }

    fn bounds(&self, _meter: &S, slot: usize, c: usize) -> (u16, u16) {
        let pivots = self.view.counts.pivots_in(c);
        let near = self.near[c];
        let far = distances_of(self.view.store, &self.view.layout, slot, c);
        bounds(self.tops[c], &near, far, pivots)
    }

    fn distance(&self, meter: &mut S, slot: usize, c: usize) -> u16 {
        self.view.slot_distance(meter, slot, c)
    }
}
