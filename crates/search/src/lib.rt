//! The search over an index, and what it promises. Hits and scratch are lent as they are: a struct of several `&mut` would need a clause at
//! each function that each is the same.
#![tactic(auto)]

ghost use Rattle.std.specs.Prelude.{◌≡◌, ℕ, ◌≤◌, List, ◌∷◌, length, replicate};
ghost use Rattle.patch.specs.Patches.{few};
ghost use Rattle.index.specs.History.{Call, Holds, nearest as searching};
ghost use Rattle.engine.specs.Kinds.{blank_candidate, blank_upper};
ghost use Rattle.search.specs.Refusals.{handed, search_refusal, refused as refused_by, Granted, Unserved};
ghost use Rattle.search.specs.Promised.{question, Searched, Promised};

use aggregate::Aggregate;
use checks::{open, sizes_of};
use engine::records::{Answer, Candidate, Neighbor, Question};
use index::pivot_index::PivotIndex;
use metric::channels::ChannelSet;
use queue::rank::Upper;
use reads::View;
use refusal::Refusal;
use serve::serve;

mod checks;
mod held;
mod near;
mod reads;
mod serve;
mod tops;
mod walk;

/// What is asked: the rows of the query, a weight for each channel, how the weighted distances are aggregated, how many neighbours are
/// wanted, and how far away at most.
#[derive(Drop)]
pub struct Query<'a, A> {
    pub rows: &'a [u8],
    pub weights: &'a [u8],
    pub aggregate: A,
    pub k: u16,
    pub radius: u32,
}

/// Names the k patches nearest to a query within its radius, as far as a budget of measured channels goes, and writes them to the front
/// of `hits`, the nearest first. `candidates` and `uppers` are scratch, left at zeros; hits beyond those named are untouched.
/// Refused, in this order: 12, 1, 8, 9, 10, 11; a refused call changes nothing.
///
/// Over any bytes, the answer comes of a run of the step rule over the tables that the bytes give. Where new and a history of calls have
/// led to this index and this store, `Promise` is kept: with the same patches every index gives a beginning of one list, the full scan's,
/// the lesser of the budget and the need is measured, and no plan that settles the list measures less.
pub fn nearest<S: ChannelSet, A: Aggregate>(
    index: &mut PivotIndex<S>,
    store: &[u8],
    query: &Query<A>,
    budget: u32,
    hits: &mut [Neighbor],
    candidates: &mut [Candidate],
    uppers: &mut [Upper],
) -> Result<Answer, Refusal>
    ensures answer { refused_by result ≡ search_refusal (few (S.models index.old.set)) index.old.counts store.now query.now.k (handed (length query.now.rows.now) (length query.now.weights.now) (length hits.old) (length candidates.old) (length uppers.old)) }
    ensures searched { Granted result (λ a. Searched (few (S.models index.old.set)) index.old.counts store.now (question query.now.rows.now query.now.weights.now (A.Aggregate.meaning query.now.aggregate) query.now.k query.now.radius) budget a hits.old hits.new (S.asked index.old.set) (S.asked index.new.set)) }
    ensures within { Granted result (λ a. (a.named ≤ query.now.k) × (a.measured ≤ budget)) }
    ensures promised { Promised (S.models index.old.set) index.old.counts store.now (question query.now.rows.now query.now.weights.now (A.Aggregate.meaning query.now.aggregate) query.now.k query.now.radius) budget result hits.new (S.asked index.old.set) (S.asked index.new.set) }
    ensures counts { index.new.counts ≡ index.old.counts }
    ensures same { S.models index.new.set ≡ S.models index.old.set }
    ensures scratch { Granted result (λ _. (candidates.new ≡ replicate (length candidates.old) blank_candidate) × (uppers.new ≡ replicate (length uppers.old) blank_upper)) }
    ensures refused { Unserved result ((index.new.set ≡ index.old.set) × (hits.new ≡ hits.old) × (candidates.new ≡ candidates.old) × (uppers.new ≡ uppers.old)) }
    ensures history { (cap : ℕ) (b : List ℕ) (h : List Call) → Holds (S.models index.old.set) index.old.counts store.now cap b h → Holds (S.models index.new.set) index.new.counts store.now cap b (searching ∷ h) }
{
    let sizes = sizes_of(query.rows, query.weights, hits, candidates, uppers);
    let layout = open(index, store, query.k, sizes)?;
    let view = View {
        store,
        query: query.rows,
        layout,
        counts: index.counts,
    };
    let question = Question {
        weights: query.weights,
        aggregate: &query.aggregate,
        k: usize::from(query.k),
        radius: query.radius,
        budget,
    };
    Ok(serve(&mut index.set, &view, &question, hits, candidates, uppers))
}
