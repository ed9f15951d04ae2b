//! The step rule, on candidates in a queue.
ghost use Rattle.std.specs.Prelude.{◌≡◌, ℕ, ◌+◌, ◌-◌, ◌<◌, ◌≤◌, min, List, length, slice_index, slice_set};
ghost use Rattle.metric.specs.Channels.{AddsAt};
ghost use Rattle.queue.specs.Heaps.{Popped, Replaced};
ghost use Rattle.engine.specs.declared.records.Candidate.{Candidate};
ghost use Rattle.engine.specs.Kinds.{ByBound};
ghost use Rattle.engine.specs.Slots.{Weighable, Sound};
ghost use Rattle.refine.specs.Steps.{State};
ghost use Rattle.engine.specs.declared.records.Neighbor.{Neighbor};
ghost use Rattle.engine.specs.Outcomes.{posed};
ghost use Rattle.engine.specs.Turns.{is_finished, Turns, Advanced, Stands, Steps, Ends};

use crate::bounds::scale;
use crate::records::{Candidate, End, Neighbor, Progress, Question, Turn};
use crate::source::Source;
use aggregate::{Aggregate, Weighted};
use queue::heap::Heap;

// What is to be done with the least candidate: the first of these that applies.
fn turn(top: &Candidate, channels: usize, radius: Weighted, budget: u32, measured: u32) -> Turn
    ensures { Turns result top.now channels radius budget measured }
{
    if top.bound > radius {
        Turn::Finish
    } else if usize::from(top.measured) == channels {
        Turn::Name
    } else if measured >= budget {
        Turn::Stop
    } else {
        Turn::Measure
    }
}

// Writes the least candidate to the hits, and takes it out.
fn name(
    candidates: &mut Heap<'_, Candidate>,
    hits: &mut [Neighbor],
    at: Progress,
    top: Candidate,
) -> Progress
    requires some { 0 < candidates.old.len }
    requires room { at.named < length hits.old }
    ensures same_reference { candidates.new.slots.ghost_name ≡ candidates.old.slots.ghost_name }
    ensures len { candidates.new.len ≡ candidates.old.len - 1 }
    ensures popped { (x : Candidate) × Popped ByBound candidates.old.len x candidates.old.slots.now candidates.new.slots.now }
    ensures hits { hits.new ≡ slice_set hits.old at.named (record { accession = top.accession; distance = top.bound }) }
    ensures progress { result ≡ record { named = at.named + 1; measured = at.measured } }
{
    hits[at.named] = Neighbor {
        accession: top.accession,
        distance: top.bound,
    };
    let _named = candidates.pop();
    Progress {
        named: at.named + 1,
        ..at
    }
}

// The channel of a candidate that is measured next.
fn next_channel(x: &Candidate) -> usize
    requires { x.now.measured < length x.now.order }
    ensures { result ≡ slice_index x.now.order x.now.measured }
{
    usize::from(x.order[usize::from(x.measured)])
}

// Measures the next channel of a candidate.
fn advance<M, S: Source<M>, A: Aggregate>(
    source: &S,
    meter: &mut M,
    question: &Question<A>,
    top: Candidate,
) -> Candidate
    requires ready { S.ready source.now meter.old }
    requires weighable { Weighable (S.tables source.now meter.old) question.now.weights.now }
    requires sound { Sound (S.tables source.now meter.old) question.now.weights.now top }
    requires more { top.measured < (S.tables source.now meter.old).channels }
    ensures next { Advanced (S.tables source.now meter.old) question.now.weights.now (A.Aggregate.meaning question.now.aggregate.now) top result }
    ensures kept { S.tables source.now meter.new ≡ S.tables source.now meter.old }
    ensures same { S.metrics source.now meter.new ≡ S.metrics source.now meter.old }
    ensures ready { S.ready source.now meter.new }
    ensures adds { AddsAt (S.asked source.now meter.old) (S.asked source.now meter.new) (slice_index top.order top.measured) ((S.tables source.now meter.old).left top.slot (slice_index top.order top.measured)) ((S.tables source.now meter.old).right top.slot (slice_index top.order top.measured)) }
{
    let c = next_channel(&top);
    let distance = source.distance(meter, usize::from(top.slot), c);
    let mut next = top;
    next.entries[c] = scale(question.weights[c], distance);
    let channels = question.weights.len();
    next.bound = question.aggregate.combine(&next.entries[..channels]);
    next.measured += 1;
    next
}

// Measures the next channel of the least candidate, and puts it back.
fn measure<M, S: Source<M>, A: Aggregate>(
    source: &S,
    meter: &mut M,
    question: &Question<A>,
    candidates: &mut Heap<'_, Candidate>,
    at: Progress,
    top: Candidate,
) -> Progress
    requires ready { S.ready source.now meter.old }
    requires weighable { Weighable (S.tables source.now meter.old) question.now.weights.now }
    requires sound { Sound (S.tables source.now meter.old) question.now.weights.now top }
    requires more { top.measured < (S.tables source.now meter.old).channels }
    requires some { 0 < candidates.old.len }
    requires count { at.measured < 4294967295 }
    ensures same_reference { candidates.new.slots.ghost_name ≡ candidates.old.slots.ghost_name }
    ensures len { candidates.new.len ≡ candidates.old.len }
    ensures replaced { (x : Candidate) × (y : Candidate) × Advanced (S.tables source.now meter.old) question.now.weights.now (A.Aggregate.meaning question.now.aggregate.now) top x × Replaced ByBound candidates.old.len x y candidates.old.slots.now candidates.new.slots.now }
    ensures progress { result ≡ record { named = at.named; measured = at.measured + 1 } }
    ensures kept { S.tables source.now meter.new ≡ S.tables source.now meter.old }
    ensures same { S.metrics source.now meter.new ≡ S.metrics source.now meter.old }
    ensures ready { S.ready source.now meter.new }
    ensures adds { AddsAt (S.asked source.now meter.old) (S.asked source.now meter.new) (slice_index top.order top.measured) ((S.tables source.now meter.old).left top.slot (slice_index top.order top.measured)) ((S.tables source.now meter.old).right top.slot (slice_index top.order top.measured)) }
{
    let next = advance(source, meter, question, top);
    let _before = candidates.replace_top(next);
    Progress {
        measured: at.measured + 1,
        ..at
    }
}

// One step: the end, where it comes to one. A turn is a value, and not a closure, since its cases lend different things; and what is lent
// stays in parameters, since a struct of several `&mut` would need clauses that each is still the same.
pub(crate) fn step<M, S: Source<M>, A: Aggregate>(
    source: &S,
    meter: &mut M,
    question: &Question<A>,
    candidates: &mut Heap<'_, Candidate>,
    hits: &mut [Neighbor],
    progress: &mut Progress,
) -> Option<End>
    requires ready { S.ready source.now meter.old }
    requires weighable { Weighable (S.tables source.now meter.old) question.now.weights.now }
    requires room { min question.now.k (S.tables source.now meter.old).slots ≤ length hits.old }
    requires stands { (old : List Neighbor) × (s : State ℕ) × Stands (S.tables source.now meter.old) (posed A.Aggregate.meaning question.now) old candidates.old.len candidates.old.slots.now hits.old progress.old s }
    ensures same_reference { candidates.new.slots.ghost_name ≡ candidates.old.slots.ghost_name }
    ensures steps { (old : List Neighbor) (s : State ℕ) → Stands (S.tables source.now meter.old) (posed A.Aggregate.meaning question.now) old candidates.old.len candidates.old.slots.now hits.old progress.old s → Steps result (S.tables source.now meter.old) (posed A.Aggregate.meaning question.now) s old candidates.old.len candidates.new.len candidates.old.slots.now candidates.new.slots.now hits.old hits.new progress.old progress.new (S.asked source.now meter.old) (S.asked source.now meter.new) }
    ensures kept { S.tables source.now meter.new ≡ S.tables source.now meter.old }
    ensures same { S.metrics source.now meter.new ≡ S.metrics source.now meter.old }
    ensures ready { S.ready source.now meter.new }
{
    let at = *progress;
    if at.named >= question.k {
        return Some(End::Finished);
    }
    let Some(top) = candidates.peek() else {
        return Some(End::Finished);
    };
    match turn(
        &top,
        question.weights.len(),
        question.radius,
        question.budget,
        at.measured,
    ) {
        Turn::Finish => Some(End::Finished),
        Turn::Name => {
            *progress = name(candidates, hits, at, top);
            None
        }
        Turn::Stop => Some(End::Stopped),
        Turn::Measure => {
            *progress = measure(source, meter, question, candidates, at, top);
            None
        }
    }
}

// Step after step to the end.
pub(crate) fn run<M, S: Source<M>, A: Aggregate>(
    source: &S,
    meter: &mut M,
    question: &Question<A>,
    candidates: &mut Heap<'_, Candidate>,
    hits: &mut [Neighbor],
    progress: &mut Progress,
) -> End
    requires ready { S.ready source.now meter.old }
    requires weighable { Weighable (S.tables source.now meter.old) question.now.weights.now }
    requires room { min question.now.k (S.tables source.now meter.old).slots ≤ length hits.old }
    requires stands { (old : List Neighbor) × (s : State ℕ) × Stands (S.tables source.now meter.old) (posed A.Aggregate.meaning question.now) old candidates.old.len candidates.old.slots.now hits.old progress.old s }
    ensures same_reference { candidates.new.slots.ghost_name ≡ candidates.old.slots.ghost_name }
    ensures ends { (old : List Neighbor) (s : State ℕ) → Stands (S.tables source.now meter.old) (posed A.Aggregate.meaning question.now) old candidates.old.len candidates.old.slots.now hits.old progress.old s → Ends (S.tables source.now meter.old) (posed A.Aggregate.meaning question.now) s (is_finished result) old hits.new progress.new (S.asked source.now meter.old) (S.asked source.now meter.new) }
    ensures kept { S.tables source.now meter.new ≡ S.tables source.now meter.old }
    ensures same { S.metrics source.now meter.new ≡ S.metrics source.now meter.old }
    ensures ready { S.ready source.now meter.new }
{
    'steps: loop {
        if let Some(end) = step(source, meter, question, candidates, hits, progress) {
            return end;
        }
    }
}
