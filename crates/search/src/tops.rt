//! The greatest distance of each channel, asked for once.
ghost use Rattle.std.specs.Prelude.{◌≡◌, ℕ, ◌<◌, ◌≤◌, length, slice_index};
ghost use Rattle.patch.specs.Patches.{few};
ghost use Rattle.metric.specs.Channels.{at};
ghost use Rattle.search.specs.Walks.{TopTable};

use metric::channels::ChannelSet;
use std::array;

// By channel, in the first of eight.
fn greatest<S: ChannelSet>(set: &S, channels: usize) -> [u16; 8]
    requires { channels ≤ length (S.models set.now) }
    ensures long { length result ≡ 8 }
    ensures tops { (c : ℕ) → c < 8 → c < channels → slice_index result c ≡ (at (S.models set.now) c).top }
{
    array::from_fn(|c| if c < channels { set.max_distance(c) } else { 0 })
}

// By channel.
pub(crate) fn ask_tops<S: ChannelSet>(set: &S, channels: usize) -> [u16; 8]
    requires { channels ≡ length (few (S.models set.now)) }
    ensures { TopTable (few (S.models set.now)) result }
{
    greatest(set, channels)
}
