//! Patches: rows joined in channel order, and the distances between two of them.
#![tactic(auto)]

ghost use Rattle.std.specs.Prelude.{◌≡◌, ℕ, ◌<◌, ◌≤◌, true, false, length, is_ok};
ghost use Rattle.metric.specs.Channels.{AddsAt};
ghost use Rattle.patch.specs.Patches.{few, offset, patch_width, row, distance_in, weighted, all_weighted, AddsRows};
ghost use Rattle.patch.specs.Refused.{Comparable, AllComparable, channel_refusal, aggregate_refusal};
ghost use Rattle.refusal.specs.Refusals.{answered};

use aggregate::{Aggregate, Weighted};
use metric::channels::ChannelSet;
use refusal::Refusal;

/// How many channels are in use: those of the set, eight at most.
pub fn used_channels<S: ChannelSet>(set: &S) -> usize
    ensures value { result ≡ length (few (S.models set.now)) }
    ensures bound { result ≤ 8 }
{
    set.channels().min(8)
}

/// Where the row of channel c begins in a patch.
pub fn row_offset<S: ChannelSet>(set: &S, c: usize) -> usize
    ensures value { result ≡ offset (few (S.models set.now)) c }
    ensures past { 8 ≤ c → result ≡ patch_width (few (S.models set.now)) }
    ensures all { 8 ≤ c → length (S.models set.now) ≤ 8 → result ≡ patch_width (S.models set.now) }
    ensures bound { result ≤ 2048 }
{
    let mut start: usize = 0;
    for i in 0..c.min(used_channels(set)) {
        start += set.width(i);
    }
    start
}

/// How many bytes a patch has.
pub fn patch_bytes<S: ChannelSet>(set: &S) -> usize
    ensures value { result ≡ patch_width (few (S.models set.now)) }
    ensures all { length (S.models set.now) ≤ 8 → result ≡ patch_width (S.models set.now) }
    ensures bound { result ≤ 2048 }
{
    row_offset(set, 8)
}

// The distance of two patches in channel c.
fn distance_in<S: ChannelSet>(set: &mut S, c: usize, query: &[u8], patch: &[u8]) -> u16
    requires { Comparable (S.models set.old) c query.now patch.now }
    ensures value { result ≡ distance_in (S.models set.old) query.now patch.now c }
    ensures kept { S.models set.new ≡ S.models set.old }
    ensures adds { AddsAt (S.asked set.old) (S.asked set.new) c (row (S.models set.old) c query.now) (row (S.models set.old) c patch.now) }
{
    let start = row_offset(set, c);
    let end = start + set.width(c);
    set.distance(c, &query[start..end], &patch[start..end])
}

// Whether two patches can be compared in channel c.
fn check_channel<S: ChannelSet>(
    set: &S,
    c: usize,
    query: &[u8],
    patch: &[u8],
) -> Result<(), Refusal>
    ensures value { result ≡ answered (channel_refusal (S.models set.now) c query.now patch.now) tt }
    ensures passes { is_ok result ≡ true → Comparable (S.models set.now) c query.now patch.now }
{
    let bytes = patch_bytes(set);
    if set.channels() > 8 {
        return Err(Refusal::TooManyChannels);
    }
    if c >= set.channels() {
        return Err(Refusal::NoSuchChannel);
    }
    if query.len() != bytes || patch.len() != bytes {
        return Err(Refusal::WrongRowsLength);
    }
    Ok(())
}

/// The distance of two patches in channel c. Refused, in this order: 13, 5, 1.
pub fn channel_distance<S: ChannelSet>(
    set: &mut S,
    c: usize,
    query: &[u8],
    patch: &[u8],
) -> Result<u16, Refusal>
    ensures value { result ≡ answered (channel_refusal (S.models set.old) c query.now patch.now) (distance_in (S.models set.old) query.now patch.now c) }
    ensures refused { is_ok result ≡ false → set.new ≡ set.old }
    ensures kept { S.models set.new ≡ S.models set.old }
    ensures adds { AddsAt (S.asked set.old) (S.asked set.new) c (row (S.models set.old) c query.now) (row (S.models set.old) c patch.now) }
{
    check_channel(set, c, query, patch)?;
    Ok(distance_in(set, c, query, patch))
}

// The weighted distance of two patches in channel c.
fn weighted_in<S: ChannelSet>(
    set: &mut S,
    c: usize,
    weights: &[u8],
    query: &[u8],
    patch: &[u8],
) -> Weighted
    requires comparable { Comparable (S.models set.old) c query.now patch.now }
    requires weights { length weights.now ≡ length (S.models set.old) }
    ensures value { result ≡ weighted (S.models set.old) weights.now query.now patch.now c }
    ensures small { result ≤ 16711425 }
    ensures kept { S.models set.new ≡ S.models set.old }
    ensures adds { AddsAt (S.asked set.old) (S.asked set.new) c (row (S.models set.old) c query.now) (row (S.models set.old) c patch.now) }
{
    weights[c] as Weighted * distance_in(set, c, query, patch) as Weighted
}

// The aggregate of the weighted distances.
fn aggregate_all<S: ChannelSet, A: Aggregate>(
    set: &mut S,
    aggregate: &A,
    weights: &[u8],
    query: &[u8],
    patch: &[u8],
) -> Weighted
    requires { AllComparable (S.models set.old) weights.now query.now patch.now }
    ensures value { result ≡ A.Aggregate.meaning aggregate.now (all_weighted (S.models set.old) weights.now query.now patch.now) }
    ensures kept { S.models set.new ≡ S.models set.old }
    ensures adds { AddsRows (S.asked set.old) (S.asked set.new) (S.models set.old) (length (S.models set.old)) query.now patch.now }
{
    let channels = set.channels();
    let mut entries: [Weighted; 8] = [0; 8];
    for (c, entry) in entries[..channels].iter_mut().enumerate() {
        *entry = weighted_in(set, c, weights, query, patch);
    }
    aggregate.combine(&entries[..channels])
}

// Whether two patches can be compared in every channel.
fn check_all<S: ChannelSet>(
    set: &S,
    weights: &[u8],
    query: &[u8],
    patch: &[u8],
) -> Result<(), Refusal>
    ensures value { result ≡ answered (aggregate_refusal (S.models set.now) weights.now query.now patch.now) tt }
    ensures passes { is_ok result ≡ true → AllComparable (S.models set.now) weights.now query.now patch.now }
{
    let bytes = patch_bytes(set);
    if set.channels() > 8 {
        return Err(Refusal::TooManyChannels);
    }
    if query.len() != bytes || patch.len() != bytes {
        return Err(Refusal::WrongRowsLength);
    }
    if weights.len() != set.channels() {
        return Err(Refusal::WrongWeightsLength);
    }
    Ok(())
}

/// The aggregate of the weighted distances of two patches. Refused, in this order: 13, 1, 8.
pub fn aggregated_distance<S: ChannelSet, A: Aggregate>(
    set: &mut S,
    aggregate: &A,
    weights: &[u8],
    query: &[u8],
    patch: &[u8],
) -> Result<Weighted, Refusal>
    ensures value { result ≡ answered (aggregate_refusal (S.models set.old) weights.now query.now patch.now) (A.Aggregate.meaning aggregate.now (all_weighted (S.models set.old) weights.now query.now patch.now)) }
    ensures refused { is_ok result ≡ false → set.new ≡ set.old }
    ensures kept { S.models set.new ≡ S.models set.old }
    ensures adds { AddsRows (S.asked set.old) (S.asked set.new) (S.models set.old) (length (S.models set.old)) query.now patch.now }
{
    check_all(set, weights, query, patch)?;
    Ok(aggregate_all(set, aggregate, weights, query, patch))
}
