//! The theory of refinement: what a budgeted search by bounds finds, what it measures, and that no other way measures less.
//!
//! The definitions stand in specs/, to be read in this order: Orders; Chains (patches, threshold, admission); Scan (full scan,
//! finished list, need); Steps (the step rule and its runs); Plans; Theorems; Bounds (from pivots and channels to chains); Questions
//! (the tables of a question to an index); Searches (the theorems over these); Worked (examples). Each function below promises
//! theorems.
#![tactic(auto)]

ghost use Rattle.std.specs.Prelude.{◌≡◌, ℕ, length};
ghost use Rattle.patch.specs.Patches.{Patch};
ghost use Rattle.refine.specs.Searches.{BetweenBounds, OnePlace, OneEntry, ChannelsToChains, PosedRefinable, ScanIsOne, SearchesEnd, SearchesAgree};
ghost use Rattle.refine.specs.Steps.{enough_steps};
ghost use Rattle.refine.specs.Theorems.{FinishedNearest, RunsEnd, StepsEnd, NeedIsLeast, UnadmittedIdle, BoundsOnlyDelay, OrderIsFree, LiveOrderIsFree, KthByCounts, StandInsRun, MeasuredStays};
ghost use Rattle.refine.specs.Worked.{lines, Tabulated, PremisesMet};

fn line_count() -> u8
    ensures { result ≡ length lines }
{
    18
}

/// The worked examples hold; how many there are.
pub fn examples_hold() -> u8
    ensures count { result ≡ length lines }
    ensures table { Tabulated }
{
    line_count()
}

/// The premises of the theorems can be met.
pub fn premises_met()
    ensures { PremisesMet }
{}

/// The finished list is the k nearest within the radius, nearest first.
pub fn finished_nearest()
    ensures { FinishedNearest Patch ℕ }
{}

fn steps_enough(patches: u16, channels: u8) -> u32
    ensures { result ≡ enough_steps patches channels }
{
    u32::from(patches) * (u32::from(channels) + 1) + 1
}

/// Every run ends at a beginning of the finished list, having measured the lesser of the budget and the need; in how many steps at
/// most, over that many patches and channels.
pub fn runs_end(patches: u16, channels: u8) -> u32
    ensures steps { result ≡ enough_steps patches channels }
    ensures outcome { RunsEnd Patch ℕ }
    ensures ends { StepsEnd Patch ℕ }
{
    steps_enough(patches, channels)
}

/// Every plan that settles the finished list counts at least the need.
pub fn need_is_least()
    ensures { NeedIsLeast Patch ℕ }
{}

/// A patch that is not admitted is in neither the finished list nor the need.
pub fn unadmitted_idle()
    ensures { UnadmittedIdle Patch ℕ }
{}

/// Two families with the same identifiers and distances: the shorter list begins the longer.
pub fn bounds_only_delay()
    ensures { BoundsOnlyDelay Patch ℕ }
{}

/// Neither the order of the patches nor that of the candidates changes the answer.
pub fn order_is_free()
    ensures patches { OrderIsFree Patch ℕ }
    ensures candidates { LiveOrderIsFree Patch ℕ }
{}

/// The k-th least number is the one that counts single out.
pub fn kth_by_counts()
    ensures { KthByCounts }
{}

/// A distance lies between the bounds that pivots give.
pub fn between_bounds()
    ensures { BetweenBounds }
{}

/// Each place in a channel order belongs to exactly one channel, and to measure it changes one entry.
pub fn one_place()
    ensures place { OnePlace }
    ensures entry { OneEntry }
{}

/// Chains from channels rise to the aggregated distance, and the upper bound is above it.
pub fn channels_to_chains()
    ensures { ChannelsToChains Patch ℕ }
{}

/// The tables of a question to an index are lawful, and their finished list is the full scan.
pub fn posed_refinable()
    ensures { PosedRefinable }
{}

/// The full scan does not hang on the order of the patches, the pivots, or the metrics' greatest distances.
pub fn scan_is_one()
    ensures { ScanIsOne }
{}

/// Every search of an index ends at a beginning of the full scan.
pub fn searches_end()
    ensures { SearchesEnd }
{}

/// Of two searches for one question, the shorter answer begins the longer.
pub fn searches_agree()
    ensures { SearchesAgree }
{}

/// A run over stand-ins, such as slots, is a run over the patches.
pub fn stand_ins_run()
    ensures { StandInsRun ℕ Patch ℕ }
{}

/// What is measured stays measured.
pub fn measured_stays()
    ensures { MeasuredStays Patch ℕ }
{}
