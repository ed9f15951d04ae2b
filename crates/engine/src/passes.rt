//! The two passes over the slots: one for the threshold, one for the candidates.
ghost use Rattle.std.specs.Prelude.{◌≡◌, ◌+◌, ◌<◌, ◌≤◌, ◌⊎◌, map, length, MatchOption};
ghost use Rattle.std.specs.List.{range_with_len};
ghost use Rattle.queue.specs.Heaps.{Pushed};
ghost use Rattle.queue.specs.Selection.{KthLeast};
ghost use Rattle.refine.specs.Chains.{threshold};
ghost use Rattle.engine.specs.declared.records.Candidate.{Candidate};
ghost use Rattle.engine.specs.Outcomes.{posed, family_of};
ghost use Rattle.engine.specs.Kinds.{ByBound};
ghost use Rattle.engine.specs.Slots.{Weighable, Unmeasured};
ghost use Rattle.engine.specs.Passes.{plain, passes, bound_at, FirstBounds, Admits};

use crate::bounds::{extremes, unmeasured};
use crate::records::{Candidate, Question};
use crate::source::Source;
use aggregate::{Aggregate, Weighted};
use queue::heap::Heap;
use queue::rank::Upper;
use queue::select::KLeast;

// Writes the first bound of each slot to its candidate, and gives the k-th least upper bound, where k is how many slots `kept` has.
fn survey<M, S: Source<M>, A: Aggregate>(
    source: &S,
    meter: &M,
    question: &Question<A>,
    candidates: &mut [Candidate],
    kept: &mut [Upper],
) -> Option<Weighted>
    requires ready { S.ready source.now meter.now }
    requires weighable { Weighable (S.tables source.now meter.now) question.now.weights.now }
    requires room { (S.tables source.now meter.now).slots ≤ length candidates.old }
    ensures bounds { FirstBounds (family_of (S.tables source.now meter.now) (posed A.Aggregate.meaning question.now)) (S.tables source.now meter.now).slots candidates.new }
    ensures value { MatchOption result (((S.tables source.now meter.now).slots < length kept.old) ⊎ (length kept.old ≡ 0)) (λ v. KthLeast (length kept.old) v (map (family_of (S.tables source.now meter.now) (posed A.Aggregate.meaning question.now)).upper (range_with_len 0 (S.tables source.now meter.now).slots))) }
{
    let mut least = KLeast::new(kept);
    // By number: a slot is a place in the source and in the candidates.
    for slot in 0..source.slots(meter) {
        let (lower, upper) = extremes(source, meter, question, slot);
        candidates[slot].bound = lower;
        least.offer(upper);
    }
    least.threshold()
}

// The threshold: the k-th least upper bound, where there are k slots. Each candidate is left with the first bound of its slot.
pub(crate) fn limit<M, S: Source<M>, A: Aggregate>(
    source: &S,
    meter: &M,
    question: &Question<A>,
    candidates: &mut [Candidate],
    uppers: &mut [Upper],
) -> Option<Weighted>
    requires ready { S.ready source.now meter.now }
    requires weighable { Weighable (S.tables source.now meter.now) question.now.weights.now }
    requires wanted { 1 ≤ question.now.k }
    requires room { (S.tables source.now meter.now).slots ≤ length candidates.old }
    requires scratch { (S.tables source.now meter.now).slots ≤ length uppers.old }
    ensures bounds { FirstBounds (family_of (S.tables source.now meter.now) (posed A.Aggregate.meaning question.now)) (S.tables source.now meter.now).slots candidates.new }
    ensures value { plain result ≡ threshold (family_of (S.tables source.now meter.now) (posed A.Aggregate.meaning question.now)) question.now.k (range_with_len 0 (S.tables source.now meter.now).slots) }
{
    // Where there is no room for k, there are fewer slots than k, and none are kept.
    let room = if question.k <= uppers.len() {
        question.k
    } else {
        0
    };
    survey(source, meter, question, candidates, &mut uppers[..room])
}

// Whether a first bound is above neither the radius nor the threshold.
fn admissible(bound: Weighted, radius: Weighted, limit: Option<Weighted>) -> bool
    ensures { result ≡ passes radius (plain limit) bound }
{
    bound <= radius && limit.is_none_or(|most| bound <= most)
}

// Adds a slot's candidate to those that wait.
fn enter<M, S: Source<M>>(
    source: &S,
    meter: &M,
    weights: &[u8],
    slot: usize,
    bound: Weighted,
    candidates: &mut Heap<'_, Candidate>,
)
    requires ready { S.ready source.now meter.now }
    requires slot { slot < (S.tables source.now meter.now).slots }
    requires few { (S.tables source.now meter.now).slots ≤ 4096 }
    requires weighable { Weighable (S.tables source.now meter.now) weights.now }
    requires room { candidates.old.len < length candidates.old.slots.now }
    ensures same_reference { candidates.new.slots.ghost_name ≡ candidates.old.slots.ghost_name }
    ensures slots { length candidates.new.slots.now ≡ length candidates.old.slots.now }
    ensures len { candidates.new.len ≡ candidates.old.len + 1 }
    ensures entered { (x : Candidate) × Unmeasured (S.tables source.now meter.now) weights.now slot bound x × Pushed ByBound candidates.old.len x candidates.old.slots.now candidates.new.slots.now }
{
    let x = unmeasured(source, meter, weights, slot, bound);
    let _pushed = candidates.push(x);
}

// Makes the candidates of the admitted slots a heap in the slots of `candidates`, which hold the first bounds.
// They are no more than the slots passed, so a slot's bound is read before its record is written over.
pub(crate) fn admit<M, S: Source<M>>(
    source: &S,
    meter: &M,
    weights: &[u8],
    radius: Weighted,
    limit: Option<Weighted>,
    candidates: &mut Heap<'_, Candidate>,
)
    requires ready { S.ready source.now meter.now }
    requires few { (S.tables source.now meter.now).slots ≤ 4096 }
    requires weighable { Weighable (S.tables source.now meter.now) weights.now }
    requires room { (S.tables source.now meter.now).slots ≤ length candidates.old.slots.now }
    requires none { candidates.old.len ≡ 0 }
    ensures same_reference { candidates.new.slots.ghost_name ≡ candidates.old.slots.ghost_name }
    ensures slots { length candidates.new.slots.now ≡ length candidates.old.slots.now }
    ensures admitted { Admits (S.tables source.now meter.now) weights.now (λ i. passes radius (plain limit) (bound_at candidates.old.slots.now i)) (S.tables source.now meter.now).slots candidates.new.len candidates.old.slots.now candidates.new.slots.now }
{
    // By number: the heap grows at the front of the slots that are still to be read.
    for slot in 0..source.slots(meter) {
        let bound = candidates.slots()[slot].bound;
        if admissible(bound, radius, limit) {
            enter(source, meter, weights, slot, bound, candidates);
        }
    }
}
