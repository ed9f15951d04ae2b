//! A search that has passed its checks.
ghost use Rattle.std.specs.Prelude.{◌≡◌, length, replicate, None};
ghost use Rattle.patch.specs.Patches.{few};
ghost use Rattle.engine.specs.Kinds.{blank_candidate, blank_upper};
ghost use Rattle.engine.specs.Outcomes.{posed, Ran};
ghost use Rattle.promise.specs.Held.{held_tables, NearAsks};
ghost use Rattle.search.specs.Refusals.{handed, search_refusal};
ghost use Rattle.search.specs.Promised.{either};
ghost use Rattle.search.specs.Sources.{Fits};

use crate::held::Held;
use crate::near::ask_pivots;
use crate::reads::View;
use crate::tops::ask_tops;
use aggregate::Aggregate;
use engine::records::{Answer, Candidate, Neighbor, Question};
use engine::refinement::refine;
use metric::channels::ChannelSet;
use queue::rank::Upper;

// Asks for the distances to the pivots, then runs the step rule.
pub(crate) fn serve<S: ChannelSet, A: Aggregate>(
    set: &mut S,
    view: &View,
    question: &Question<A>,
    hits: &mut [Neighbor],
    candidates: &mut [Candidate],
    uppers: &mut [Upper],
) -> Answer
    requires fits { Fits (few (S.models set.old)) view.now }
    requires granted { search_refusal (few (S.models set.old)) view.now.counts view.now.store.now question.now.k (handed (length view.now.query.now) (length question.now.weights.now) (length hits.old) (length candidates.old) (length uppers.old)) ≡ None }
    ensures ran { Ran (held_tables (few (S.models set.old)) view.now.counts view.now.store.now view.now.query.now) (posed A.Aggregate.meaning question.now) result hits.old hits.new (either (S.asked set.old) (NearAsks (few (S.models set.old)) view.now.counts view.now.store.now view.now.query.now)) (S.asked set.new) }
    ensures same { S.models set.new ≡ S.models set.old }
    ensures candidates { candidates.new ≡ replicate (length candidates.old) blank_candidate }
    ensures uppers { uppers.new ≡ replicate (length uppers.old) blank_upper }
{
    let near = ask_pivots(set, view);
    let tops = ask_tops(set, view.layout.channels);
    let held = Held {
        view: *view,
        near,
        tops,
    };
    refine(&held, set, question, hits, candidates, uppers)
}
