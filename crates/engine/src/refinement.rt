//! The step rule run over the slots of a source.
ghost use Rattle.std.specs.Prelude.{◌≡◌, ◌≤◌, length, replicate};
ghost use Rattle.engine.specs.Kinds.{blank_candidate, blank_upper};
ghost use Rattle.engine.specs.Outcomes.{posed, Ran, Ready};
ghost use Rattle.engine.specs.Turns.{is_finished};

use crate::passes::{admit, limit};
use crate::records::{Answer, Candidate, End, Neighbor, Progress, Question};
use crate::source::Source;
use crate::steps::run;
use aggregate::Aggregate;
use queue::heap::Heap;
use queue::rank::Upper;

// Leaves the scratch at zeros.
fn zero(candidates: &mut [Candidate], uppers: &mut [Upper])
    ensures candidates { candidates.new ≡ replicate (length candidates.old) blank_candidate }
    ensures uppers { uppers.new ≡ replicate (length uppers.old) blank_upper }
{
    candidates.fill(Candidate::BLANK);
    uppers.fill(Upper(0));
}

// The answer of a search that has ended so.
fn answer(end: End, progress: &Progress, admitted: usize) -> Answer
    requires named { progress.now.named ≤ 4096 }
    requires admitted { admitted ≤ 4096 }
    ensures { result ≡ record { complete = is_finished end; named = progress.now.named; measured = progress.now.measured; admitted = admitted } }
{
    Answer {
        complete: end == End::Finished,
        named: progress.named as u16,
        measured: progress.measured,
        admitted: admitted as u16,
    }
}

// The search, which leaves the scratch as it comes.
fn search<M, S: Source<M>, A: Aggregate>(
    source: &S,
    meter: &mut M,
    question: &Question<A>,
    hits: &mut [Neighbor],
    candidates: &mut [Candidate],
    uppers: &mut [Upper],
) -> Answer
    requires ready { S.ready source.now meter.old }
    requires fits { Ready (S.tables source.now meter.old) question.now.weights.now question.now.k (length hits.old) (length candidates.old) (length uppers.old) }
    ensures ran { Ran (S.tables source.now meter.old) (posed A.Aggregate.meaning question.now) result hits.old hits.new (S.asked source.now meter.old) (S.asked source.now meter.new) }
    ensures kept { S.tables source.now meter.new ≡ S.tables source.now meter.old }
    ensures same { S.metrics source.now meter.new ≡ S.metrics source.now meter.old }
    ensures ready { S.ready source.now meter.new }
    ensures hits { length hits.new ≡ length hits.old }
{
    let most = limit(source, meter, question, candidates, uppers);
    let mut waiting = Heap::new(candidates);
    admit(
        source,
        meter,
        question.weights,
        question.radius,
        most,
        &mut waiting,
    );
    let admitted = waiting.len();
    let mut progress = Progress {
        named: 0,
        measured: 0,
    };
    let end = run(source, meter, question, &mut waiting, hits, &mut progress);
    answer(end, &progress, admitted)
}

/// Names the k nearest slots within the radius, as far as a budget of measured channels goes, and writes them to the front of `hits`,
/// the nearest first. Leaves the scratch at zeros.
pub fn refine<M, S: Source<M>, A: Aggregate>(
    source: &S,
    meter: &mut M,
    question: &Question<A>,
    hits: &mut [Neighbor],
    candidates: &mut [Candidate],
    uppers: &mut [Upper],
) -> Answer
    requires ready { S.ready source.now meter.old }
    requires fits { Ready (S.tables source.now meter.old) question.now.weights.now question.now.k (length hits.old) (length candidates.old) (length uppers.old) }
    ensures ran { Ran (S.tables source.now meter.old) (posed A.Aggregate.meaning question.now) result hits.old hits.new (S.asked source.now meter.old) (S.asked source.now meter.new) }
    ensures kept { S.tables source.now meter.new ≡ S.tables source.now meter.old }
    ensures same { S.metrics source.now meter.new ≡ S.metrics source.now meter.old }
    ensures ready { S.ready source.now meter.new }
    ensures candidates { candidates.new ≡ replicate (length candidates.old) blank_candidate }
    ensures uppers { uppers.new ≡ replicate (length uppers.old) blank_upper }
    ensures hits { length hits.new ≡ length hits.old }
{
    let answer = search(source, meter, question, hits, candidates, uppers);
    zero(candidates, uppers);
    answer
}
