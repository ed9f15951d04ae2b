//! Where the parts of the store lie.
ghost use Rattle.std.specs.Prelude.{◌≡◌, ◌+◌, ◌*◌, ◌<◌, ◌≤◌, length};
ghost use Rattle.patch.specs.Patches.{few, patch_width};
ghost use Rattle.index.specs.Works.{InUse};
ghost use Rattle.index.specs.Layouts.{Sound, layout_of, row_at, pivot_at, distance_at};

use metric::channels::ChannelSet;
use patch::{patch_bytes, row_offset, used_channels};

/// The parts of a store: where rows, pivot rows and distances begin, and how many bytes it has.
#[derive(Clone, Copy, PartialEq, Eq, Debug)]
pub struct Layout {
    pub channels: usize,
    pub capacity: usize,
    pub row: usize,
    pub rows: usize,
    pub pivots: usize,
    pub distances: usize,
    pub size: usize,
}

/// The layout of a store for a set of channels and a capacity.
pub fn layout_of<S: ChannelSet>(set: &S, capacity: u16) -> Layout
    requires { capacity ≤ 4096 }
    ensures sound { Sound result }
    ensures value { result ≡ layout_of (few (S.models set.now)) capacity }
    ensures slots { result.capacity ≡ capacity }
    ensures row { result.row ≡ patch_width (few (S.models set.now)) }
    ensures channels { result.channels ≡ length (few (S.models set.now)) }
{
    let channels = used_channels(set);
    let row = patch_bytes(set);
    let capacity = usize::from(capacity);
    let rows = 2 * capacity;
    let pivots = rows + capacity * row;
    let distances = pivots + 8 * row;
    let size = distances + capacity * channels * 16;
    Layout {
        channels,
        capacity,
        row,
        rows,
        pivots,
        distances,
        size,
    }
}

/// Where the row of a channel lies in a patch.
#[derive(Clone, Copy, PartialEq, Eq, Debug)]
pub struct RowSpan {
    pub start: usize,
    pub width: usize,
}

/// Where the row of channel c lies.
pub fn row_span<S: ChannelSet>(set: &S, l: &Layout, c: usize) -> RowSpan
    requires channel { c < length (few (S.models set.now)) }
    requires channels { l.now.channels ≡ length (few (S.models set.now)) }
    requires row { l.now.row ≡ patch_width (few (S.models set.now)) }
    ensures { InUse (S.models set.now) l.now c result.start result.width }
{
    RowSpan {
        start: row_offset(set, c),
        width: set.width(c),
    }
}

// That a layout is sound is asked for, and no ghost field: the definitions make layouts of any capacity.
impl Layout {
    /// Where the rows of a slot begin.
    pub fn row_at(&self, slot: usize) -> usize
        requires sound { Sound self.now }
        requires slot { slot < self.now.capacity }
        ensures at { result ≡ row_at self.now slot }
        ensures begins { self.now.rows ≤ result }
        ensures ends { result + self.now.row ≤ self.now.pivots }
    {
        self.rows + slot * self.row
    }

    /// Where the row of a pivot begins, in a channel whose rows begin at `before` in a patch.
    pub fn pivot_at(&self, before: usize, width: usize, pivot: usize) -> usize
        requires sound { Sound self.now }
        requires inside { before + width ≤ self.now.row }
        requires pivot { pivot < 8 }
        ensures at { result ≡ pivot_at self.now before width pivot }
        ensures begins { self.now.pivots ≤ result }
        ensures ends { result + width ≤ self.now.distances }
    {
        self.pivots + 8 * before + pivot * width
    }

    /// Where the distance of a slot's row in a channel to a pivot stands.
    pub fn distance_at(&self, slot: usize, channel: usize, pivot: usize) -> usize
        requires sound { Sound self.now }
        requires slot { slot < self.now.capacity }
        requires channel { channel < self.now.channels }
        requires pivot { pivot < 8 }
        ensures at { result ≡ distance_at self.now slot channel pivot }
        ensures begins { self.now.distances ≤ result }
        ensures ends { result + 2 ≤ self.now.size }
    {
        self.distances + (slot * self.channels + channel) * 16 + 2 * pivot
    }

    /// Where the distances of a slot begin: eight in each channel.
    pub fn distances_at(&self, slot: usize) -> usize
        requires sound { Sound self.now }
        requires slot { slot < self.now.capacity }
        ensures at { result ≡ distance_at self.now slot 0 0 }
        ensures ends { result + 16 * self.now.channels ≤ self.now.size }
    {
        self.distance_at(slot, 0, 0)
    }
}
