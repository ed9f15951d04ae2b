//! What a search checks before it begins.
ghost use Rattle.std.specs.Prelude.{◌≡◌, ℕ, ◌<◌, length, slice_index};
ghost use Rattle.patch.specs.Patches.{few};
ghost use Rattle.refusal.specs.Refusals.{answered};
ghost use Rattle.search.specs.Refusals.{handed, room_refusal, question_refusal, Opens};

use engine::records::{Candidate, Neighbor};
use index::layout::Layout;
use index::pivot_index::PivotIndex;
use metric::channels::ChannelSet;
use queue::rank::Upper;
use refusal::Refusal;

// How long the lists are that a search is handed.
#[derive(Clone, Copy)]
pub(crate) struct Sizes {
    pub(crate) rows: usize,
    pub(crate) weights: usize,
    pub(crate) hits: usize,
    pub(crate) candidates: usize,
    pub(crate) uppers: usize,
}

// These lengths. That rows and weights are bytes is said here, since a caller that has them in a struct does not know it.
pub(crate) fn sizes_of(
    rows: &[u8],
    weights: &[u8],
    hits: &[Neighbor],
    candidates: &[Candidate],
    uppers: &[Upper],
) -> Sizes
    ensures lengths { result ≡ handed (length rows.now) (length weights.now) (length hits.now) (length candidates.now) (length uppers.now) }
    ensures rows { (n : ℕ) → slice_index rows.now n < 256 }
    ensures weights { (n : ℕ) → slice_index weights.now n < 256 }
{
    Sizes {
        rows: rows.len(),
        weights: weights.len(),
        hits: hits.len(),
        candidates: candidates.len(),
        uppers: uppers.len(),
    }
}

// Whether there is room for the hits and the scratch of a search of `held` patches.
fn check_room(held: u16, k: u16, sizes: Sizes) -> Result<(), Refusal>
    ensures { result ≡ answered (room_refusal held k sizes) tt }
{
    if sizes.hits < usize::from(k.min(held)) {
        return Err(Refusal::HitsTooShort);
    }
    if sizes.candidates < usize::from(held) || sizes.uppers < usize::from(held) {
        return Err(Refusal::ScratchTooShort);
    }
    Ok(())
}

// Whether a question fits the store.
fn check_question(l: &Layout, held: u16, k: u16, sizes: Sizes) -> Result<(), Refusal>
    ensures { result ≡ answered (question_refusal l.now.row l.now.channels held k sizes) tt }
{
    if sizes.rows != l.row {
        return Err(Refusal::WrongRowsLength);
    }
    if sizes.weights != l.channels {
        return Err(Refusal::WrongWeightsLength);
    }
    if k == 0 {
        return Err(Refusal::NothingWanted);
    }
    check_room(held, k, sizes)
}

// The layout of the store that a search is to be served over.
pub(crate) fn open<S: ChannelSet>(
    index: &PivotIndex<S>,
    store: &[u8],
    k: u16,
    sizes: Sizes,
) -> Result<Layout, Refusal>
    ensures { Opens (few (S.models index.now.set)) index.now.counts store.now k sizes result }
{
    let l = index.layout_in(store)?;
    check_question(&l, index.counts.held, k, sizes)?;
    Ok(l)
}
