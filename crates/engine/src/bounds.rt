//! The weighted bounds of a slot.
ghost use Rattle.std.specs.Prelude.{◌≡◌, ℕ, ◌-◌, ◌*◌, ◌<◌, ◌≤◌, length, slice_index};
ghost use Rattle.engine.specs.Outcomes.{posed, family_of};
ghost use Rattle.engine.specs.Slots.{weighted_lower, weighted_upper, Filled, Weighable, Unmeasured};

use crate::gaps::rank;
use crate::records::{Candidate, Question};
use crate::source::Source;
use aggregate::{Aggregate, Weighted};
use std::array;

// A number under a weight.
pub(crate) fn scale(weight: u8, x: u16) -> Weighted
    ensures value { result ≡ weight * x }
    ensures small { result ≤ 16711425 }
{
    Weighted::from(weight) * Weighted::from(x)
}

// Writes a slot's weighted bounds to the fronts of `lowers` and `uppers`, in channel order.
pub(crate) fn weigh<M, S: Source<M>>(
    source: &S,
    meter: &M,
    weights: &[u8],
    slot: usize,
    lowers: &mut [Weighted],
    uppers: &mut [Weighted],
)
    requires ready { S.ready source.now meter.now }
    requires slot { slot < (S.tables source.now meter.now).slots }
    requires weights { length weights.now ≡ (S.tables source.now meter.now).channels }
    requires lowers { length weights.now ≤ length lowers.old }
    requires uppers { length weights.now ≤ length uppers.old }
    ensures lowers { Filled (weighted_lower (S.tables source.now meter.now) weights.now slot) (length weights.now) lowers.new }
    ensures uppers { Filled (weighted_upper (S.tables source.now meter.now) weights.now slot) (length weights.now) uppers.new }
{
    for (c, weight) in weights.iter().enumerate() {
        let (lower, upper) = source.bounds(meter, slot, c);
        lowers[c] = scale(*weight, lower);
        uppers[c] = scale(*weight, upper);
    }
}

// The aggregates of a slot's weighted lower bounds and of its weighted upper bounds.
pub(crate) fn extremes<M, S: Source<M>, A: Aggregate>(
    source: &S,
    meter: &M,
    question: &Question<A>,
    slot: usize,
) -> (Weighted, Weighted)
    requires ready { S.ready source.now meter.now }
    requires slot { slot < (S.tables source.now meter.now).slots }
    requires weighable { Weighable (S.tables source.now meter.now) question.now.weights.now }
    ensures lower { result.0 ≡ (family_of (S.tables source.now meter.now) (posed A.Aggregate.meaning question.now)).bound slot 0 }
    ensures upper { result.1 ≡ (family_of (S.tables source.now meter.now) (posed A.Aggregate.meaning question.now)).upper slot }
{
    let mut lowers: [Weighted; 8] = [0; 8];
    let mut uppers: [Weighted; 8] = [0; 8];
    weigh(
        source,
        meter,
        question.weights,
        slot,
        &mut lowers,
        &mut uppers,
    );
    let channels = question.weights.len();
    (
        question.aggregate.combine(&lowers[..channels]),
        question.aggregate.combine(&uppers[..channels]),
    )
}

// What is unknown between lower and upper bounds; nothing where the lower is above.
fn gaps_between(lowers: &[Weighted; 8], uppers: &[Weighted; 8]) -> [Weighted; 8]
    ensures long { length result ≡ 8 }
    ensures gaps { (c : ℕ) → c < 8 → slice_index result c ≡ slice_index uppers.now c - slice_index lowers.now c }
{
    array::from_fn(|c| uppers[c].saturating_sub(lowers[c]))
}

// A candidate for a slot, of which nothing is measured.
pub(crate) fn unmeasured<M, S: Source<M>>(
    source: &S,
    meter: &M,
    weights: &[u8],
    slot: usize,
    bound: Weighted,
) -> Candidate
    requires ready { S.ready source.now meter.now }
    requires slot { slot < (S.tables source.now meter.now).slots }
    requires few { (S.tables source.now meter.now).slots ≤ 4096 }
    requires weighable { Weighable (S.tables source.now meter.now) weights.now }
    ensures { Unmeasured (S.tables source.now meter.now) weights.now slot bound result }
{
    let mut lowers: [Weighted; 8] = [0; 8];
    let mut uppers: [Weighted; 8] = [0; 8];
    weigh(source, meter, weights, slot, &mut lowers, &mut uppers);
    let gaps = gaps_between(&lowers, &uppers);
    let mut order: [u8; 8] = [0; 8];
    let channels = weights.len();
    rank(&gaps[..channels], &mut order);
    Candidate {
        bound,
        accession: source.number(meter, slot),
        slot: slot as u16,
        measured: 0,
        order,
        entries: lowers,
    }
}
