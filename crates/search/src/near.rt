//! The distances from a query to the pivots, each asked once.
ghost use Rattle.std.specs.Prelude.{◌≡◌, ◌<◌, length};
ghost use Rattle.patch.specs.Patches.{few};
ghost use Rattle.index.specs.Asks.{AddsOnly};
ghost use Rattle.promise.specs.Held.{NearAsks};
ghost use Rattle.search.specs.Sources.{Fits};
ghost use Rattle.search.specs.Walks.{NearIn, NearTable};

use crate::reads::View;
use metric::channels::ChannelSet;

// Those to the pivots of channel c.
fn ask_channel<S: ChannelSet>(set: &mut S, view: &View, c: usize) -> [u16; 8]
    requires fits { Fits (few (S.models set.old)) view.now }
    requires channel { c < length (few (S.models set.old)) }
    ensures near { NearIn (few (S.models set.old)) view.now.counts view.now.store.now view.now.query.now c result }
    ensures kept { S.models set.new ≡ S.models set.old }
    ensures asks { AddsOnly (S.asked set.old) (S.asked set.new) (NearAsks (few (S.models set.old)) view.now.counts view.now.store.now view.now.query.now) }
{
    // Loops, since a closure that asks would change the set, and `from_fn` would say nothing of what it gave.
    let mut near = [0u16; 8];
    for p in 0..view.counts.pivots_in(c) {
        near[p] = view.pivot_distance(set, c, p);
    }
    near
}

// Those to the pivots of every channel, by channel.
pub(crate) fn ask_pivots<S: ChannelSet>(set: &mut S, view: &View) -> [[u16; 8]; 8]
    requires { Fits (few (S.models set.old)) view.now }
    ensures near { NearTable (few (S.models set.old)) view.now.counts view.now.store.now view.now.query.now result }
    ensures kept { S.models set.new ≡ S.models set.old }
    ensures asks { AddsOnly (S.asked set.old) (S.asked set.new) (NearAsks (few (S.models set.old)) view.now.counts view.now.store.now view.now.query.now) }
{
    let mut table = [[0u16; 8]; 8];
    // A loop, for the same reason.
    for c in 0..view.layout.channels {
        table[c] = ask_channel(set, view, c);
    }
    table
}
