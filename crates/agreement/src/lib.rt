//! Two indexes asked the same question: that they agree is known before they are run.
#![tactic(auto)]

ghost use Rattle.search.specs.Promised.{question};
ghost use Rattle.agreement.specs.Agreements.{Agree, found};

use aggregate::Aggregate;
use engine::records::{Answer, Candidate, Neighbor};
use index::pivot_index::PivotIndex;
use metric::channels::ChannelSet;
use queue::rank::Upper;
use refusal::Refusal;
use search::{Query, nearest};

// The two searches, one after the other.
fn ask_in_turn<S: ChannelSet, T: ChannelSet, A: Aggregate>(
    one: &mut PivotIndex<S>,
    one_store: &[u8],
    one_budget: u32,
    one_hits: &mut [Neighbor],
    other: &mut PivotIndex<T>,
    other_store: &[u8],
    other_budget: u32,
    other_hits: &mut [Neighbor],
    query: &Query<A>,
    candidates: &mut [Candidate],
    uppers: &mut [Upper],
) -> (Result<Answer, Refusal>, Result<Answer, Refusal>)
    ensures { Agree (found (S.ChannelSet.models one.old.set) one.old.counts one_store.now) (found (T.ChannelSet.models other.old.set) other.old.counts other_store.now) (question query.now.rows.now query.now.weights.now (A.Aggregate.meaning query.now.aggregate) query.now.k query.now.radius) result.0 result.1 one_hits.new other_hits.new }
{
    let here = nearest(
        one, one_store, query, one_budget, one_hits, candidates, uppers,
    );
    let there = nearest(
        other,
        other_store,
        query,
        other_budget,
        other_hits,
        candidates,
        uppers,
    );
    (here, there)
}

/// Puts one question to two indexes, each over its own store and with its own budget and hits; the scratch serves both, one after the other.
///
/// Whatever histories have led to the two: if they measure alike and hold the same patches, the shorter list of hits begins the longer, and
/// two finished lists are the same. This follows from the contract of `nearest` alone.
pub fn ask_both<S: ChannelSet, T: ChannelSet, A: Aggregate>(
    first: &mut PivotIndex<S>,
    first_store: &[u8],
    first_budget: u32,
    first_hits: &mut [Neighbor],
    second: &mut PivotIndex<T>,
    second_store: &[u8],
    second_budget: u32,
    second_hits: &mut [Neighbor],
    query: &Query<A>,
    candidates: &mut [Candidate],
    uppers: &mut [Upper],
) -> (Result<Answer, Refusal>, Result<Answer, Refusal>)
    ensures { Agree (found (S.ChannelSet.models first.old.set) first.old.counts first_store.now) (found (T.ChannelSet.models second.old.set) second.old.counts second_store.now) (question query.now.rows.now query.now.weights.now (A.Aggregate.meaning query.now.aggregate) query.now.k query.now.radius) result.0 result.1 first_hits.new second_hits.new }
{
    ask_in_turn(
        first,
        first_store,
        first_budget,
        first_hits,
        second,
        second_store,
        second_budget,
        second_hits,
        query,
        candidates,
        uppers,
    )
}
