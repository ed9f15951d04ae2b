//! Distances of two bytes.
ghost use Rattle.std.specs.Prelude.{◌≡◌, ℕ, ◌≤◌};
ghost use Rattle.std.proofs.Common.{arith};
ghost use Rattle.metric.specs.Distances.{difference, differing_bits, shorter_way};
ghost use Rattle.metric.specs.Gathered.{Gauge};
ghost use Rattle.metric.specs.Gauges.{difference_gauge, differing_bits_gauge, shorter_way_gauge};

/// A distance of two bytes: 0 to itself, the same both ways, no longer than by way of a third, and bounded.
pub trait ByteDistance {
    ghost between: { ℕ → ℕ → ℕ };

    ghost GREATEST: { ℕ };

    /// A number that no distance of two bytes exceeds.
    const GREATEST: u8;

    /// The distance.
    fn of(x: u8, y: u8) -> u8
        ensures { result ≡ between x y };

    ghost byte: { GREATEST ≤ 255 };

    ghost gauge: { Gauge between GREATEST };
}

/// By how much two bytes differ.
#[derive(Clone, Copy, Debug, PartialEq, Eq)]
pub struct Difference;

/// In how many bits two bytes differ.
#[derive(Clone, Copy, Debug, PartialEq, Eq)]
pub struct DifferingBits;

/// The shorter way round between two directions, 256 to the circle.
#[derive(Clone, Copy, Debug, PartialEq, Eq)]
pub struct ShorterWay;

impl ByteDistance for Difference {
    ghost between = { difference };

    ghost GREATEST = { 255 };

    ghost byte = { omega arith };

    ghost gauge = { difference_gauge };

    const GREATEST: u8 = 255;

    fn of(x: u8, y: u8) -> u8 {
        x.abs_diff(y)
    }
}

impl ByteDistance for DifferingBits {
    ghost between = { differing_bits };

    ghost GREATEST = { 8 };

    ghost byte = { omega arith };

    ghost gauge = { differing_bits_gauge };

    const GREATEST: u8 = 8;

    fn of(x: u8, y: u8) -> u8 {
        (x ^ y).count_ones() as u8
    }
}

impl ByteDistance for ShorterWay {
    ghost between = { shorter_way };

    ghost GREATEST = { 128 };

    ghost byte = { omega arith };

    ghost gauge = { shorter_way_gauge };

    const GREATEST: u8 = 128;

    fn of(x: u8, y: u8) -> u8 {
        let turn = x.wrapping_sub(y);
        turn.min(turn.wrapping_neg())
    }
}
