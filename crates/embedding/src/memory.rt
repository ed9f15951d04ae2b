//! An index in a lent memory: what it counts in the first 16 bytes, then its store.
ghost use Rattle.std.specs.Prelude.{◌≡◌, ℕ, ◌+◌, ◌≤◌, length, IfSome, slice_index_or};
ghost use Rattle.index.specs.Limits.{no_record};
ghost use Rattle.embedding.specs.Answers.{Wrote};
ghost use Rattle.embedding.specs.Memories.{Sane};

use crate::answers::put;
use big_endian::get_u16;
use index::counts::{ChannelRecord, Counts};
use index::layout::layout_of;
use index::pivot_index::PivotIndex;
use metric::channels::ChannelSet;
use refusal::Refusal;

// The number of pivots of each channel; none where one has more than eight.
fn channels_in(memory: &[u8]) -> Option<[ChannelRecord; 8]>
    requires { 16 ≤ length memory.now }
    ensures { IfSome result (λ xs. (c : ℕ) → (slice_index_or xs c no_record).pivots ≤ 8) }
{
    let mut channels = [ChannelRecord { pivots: 0 }; 8];
    for (c, pivots) in memory[4..12].iter().enumerate() {
        if *pivots > 8 {
            return None;
        }
        channels[c] = ChannelRecord { pivots: *pivots };
    }
    Some(channels)
}

// What an index counts; none where the numbers are out of their limits.
fn counts_in(memory: &[u8]) -> Option<Counts>
    requires { 16 ≤ length memory.now }
    ensures { IfSome result Sane }
{
    let capacity = get_u16(memory, 0);
    let held = get_u16(memory, 2);
    if capacity > 4096 || held > capacity {
        return None;
    }
    let channels = channels_in(memory)?;
    Some(Counts {
        capacity,
        held,
        channels,
    })
}

// The index whose counts a memory begins with; none where they are out of their limits.
pub(crate) fn open<S: ChannelSet + Drop>(set: S, memory: &[u8]) -> Option<PivotIndex<S>>
    requires { 16 ≤ length memory.now }
    ensures { IfSome result (λ x. x.set ≡ set) }
{
    let counts = counts_in(memory)?;
    Some(PivotIndex { set, counts })
}

// Writes what an index counts.
pub(crate) fn save(memory: &mut [u8], counts: &Counts)
    requires { 16 ≤ length memory.old }
    ensures { Wrote 0 12 memory.old memory.new }
{
    let next = put(memory, 0, &counts.capacity.to_be_bytes());
    let next = put(memory, next, &counts.held.to_be_bytes());
    let _end = put(memory, next, &counts.channels.map(|record| record.pivots));
}

// How many bytes a memory for that many slots has; none where there are more than 4,096.
pub(crate) fn size<S: ChannelSet>(set: &S, capacity: u16) -> Option<usize> {
    if capacity > 4096 {
        return None;
    }
    Some(16 + layout_of(set, capacity).size)
}

// Begins an index of no patches. Refused: 12.
pub(crate) fn begin<S: ChannelSet + Drop>(
    set: S,
    memory: &mut [u8],
    capacity: u16,
) -> Result<(), Refusal> {
    if memory.len() < 16 {
        return Err(Refusal::BadStore);
    }
    let index = PivotIndex::new(set, capacity, &mut memory[16..])?;
    save(memory, &index.counts);
    Ok(())
}
