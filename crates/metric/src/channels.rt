//! Sets of channels, each with a metric: one metric, or two sets side by side.
ghost use Rattle.std.specs.Prelude.{◌≡◌, ℕ, ◌<◌, ◌≤◌, List, [], ◌∷◌, ◌++◌, length};
ghost use Rattle.std.proofs.Common.{length-append, rules, arith};
ghost use Rattle.metric.specs.Model.{Model};
ghost use Rattle.metric.specs.Channels.{AllLawful, AddsAt, at, count, beside};
ghost use Rattle.metric.specs.Sides.{LiesAt};
ghost use Rattle.metric.specs.Beside.{lawful_append};

use crate::Metric;

/// Channels in order, each with a metric; numbered from 0.
///
/// `models` is the list of what its metrics mean, `asked` each channel's record of questions.
pub trait ChannelSet {
    ghost models: { Self → List Model };

    ghost asked: { Self → ℕ → List ℕ → List ℕ → Type 0 };

    /// How many channels there are.
    fn channels(&self) -> usize
        ensures { result ≡ count (models self.now) };

    /// The width of channel c's rows.
    fn width(&self, c: usize) -> usize
        requires { c < count (models self.now) }
        ensures { result ≡ (at (models self.now) c).width };

    /// A number that no distance of channel c exceeds.
    fn max_distance(&self, c: usize) -> u16
        requires { c < count (models self.now) }
        ensures { result ≡ (at (models self.now) c).top };

    /// The distance of two rows in channel c.
    fn distance(&mut self, c: usize, a: &[u8], b: &[u8]) -> u16
        requires channel { c < count (models self.old) }
        requires left { length a.now ≡ (at (models self.old) c).width }
        requires right { length b.now ≡ (at (models self.old) c).width }
        ensures value { result ≡ (at (models self.old) c).dist a.now b.now }
        ensures kept { models self.new ≡ models self.old }
        ensures adds { AddsAt (asked self.old) (asked self.new) c a.now b.now };

    ghost some: { (s : Self) → 1 ≤ length (models s) };

    ghost lawful: { (s : Self) → AllLawful (models s) };
}

/// One metric as a set of one channel.
#[derive(Clone, Copy, Debug, PartialEq, Eq, Drop)]
pub struct Single<M> {
    pub metric: M,
}

impl<M: Metric> ChannelSet for Single<M> {
    ghost models = { λ s. M.Metric.model s.metric ∷ [] };

    ghost asked = { λ s k x y. (k ≡ 0) × M.Metric.asked s.metric x y };

    ghost some = { Prim.search rules };

    ghost lawful = { Prim.search rules };

    fn channels(&self) -> usize {
        1
    }

    fn width(&self, _c: usize) -> usize {
        self.metric.width()
    }

    fn max_distance(&self, _c: usize) -> u16 {
        self.metric.max_distance()
    }

    fn distance(&mut self, _c: usize, a: &[u8], b: &[u8]) -> u16 {
        self.metric.distance(a, b)
    }
}

/// Two sets side by side, the first one's channels first.
#[derive(Clone, Copy, Debug, PartialEq, Eq, Drop)]
pub struct Pair<A, B> {
    pub first: A,
    pub second: B,
}

// The number of channel c in what comes behind a set, or none where it lies in the set.
fn behind<A: ChannelSet>(first: &A, c: usize) -> Option<usize>
    ensures { LiesAt (A.models first.now) c result }
{
    c.checked_sub(first.channels())
}

#[tactic(auto, using(crate::specs::Beside::at_first, crate::specs::Beside::at_second, crate::specs::Beside::in_second))]
impl<A: ChannelSet, B: ChannelSet> ChannelSet for Pair<A, B> {
    ghost models = { λ s. A.ChannelSet.models s.first ++ B.ChannelSet.models s.second };

    ghost asked = { λ s. beside (length (A.ChannelSet.models s.first)) (A.ChannelSet.asked s.first) (B.ChannelSet.asked s.second) };

    ghost some = { λ s. omega (arith, length-append (A.ChannelSet.models s.first) (B.ChannelSet.models s.second), A.ChannelSet.some s.first) };

    ghost lawful = { λ s. lawful_append _ _ (A.ChannelSet.lawful s.first) (B.ChannelSet.lawful s.second) };

    // saturating: a nest of sets has no bound, and what cannot be counted cannot be asked about
    fn channels(&self) -> usize {
        self.first.channels().saturating_add(self.second.channels())
    }

    // One method for each that the trait asks for: a closure over both sets would be no shorter than their two arms.
    fn width(&self, c: usize) -> usize {
        match behind(&self.first, c) {
            None => self.first.width(c),
            Some(j) => self.second.width(j),
        }
    }

    fn max_distance(&self, c: usize) -> u16 {
        match behind(&self.first, c) {
            None => self.first.max_distance(c),
            Some(j) => self.second.max_distance(j),
        }
    }

    fn distance(&mut self, c: usize, a: &[u8], b: &[u8]) -> u16 {
        match behind(&self.first, c) {
            None => self.first.distance(c, a, b),
            Some(j) => self.second.distance(j, a, b),
        }
    }
}
