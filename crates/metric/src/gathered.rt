//! Metrics that gather a distance of bytes over two rows: its sum, or its largest.
ghost use Rattle.std.specs.Prelude.{◌≡◌, ℕ, ◌+◌, ◌*◌, ◌≤◌, max, length};
ghost use Rattle.metric.specs.Distances.{across};
ghost use Rattle.metric.specs.Gathered.{Gathering, Topped, by_sum, by_max, sum_topped, max_topped, gathered_lawful};

use crate::Metric;
use crate::bytes::ByteDistance;
use crate::width::Width;
use std::marker::PhantomData;

/// A way to gather distances of bytes over two rows.
pub trait Gather {
    ghost op: { ℕ → ℕ → ℕ };

    ghost top: { ℕ → ℕ → ℕ };

    /// A number that gathered distances of at most `greatest` do not exceed.
    fn top(greatest: u8, width: Width) -> u16
        ensures { result ≡ top greatest (width.last + 1) };

    /// The distances of two rows side by side, gathered.
    fn over<D: ByteDistance>(a: &[u8], b: &[u8]) -> u16
        requires few { length a.now ≤ 256 }
        requires alike { length a.now ≡ length b.now }
        ensures { result ≡ across op D.between a.now b.now };

    ghost gathers: { Gathering op };

    ghost topped: { Topped op top };
}

/// The sum.
#[derive(Clone, Copy, Debug, PartialEq, Eq)]
pub struct Sum;

/// The largest.
#[derive(Clone, Copy, Debug, PartialEq, Eq)]
pub struct Largest;

impl Gather for Sum {
    ghost op = { ◌+◌ };

    ghost top = { ◌*◌ };

    ghost gathers = { by_sum };

    ghost topped = { sum_topped };

    fn top(greatest: u8, width: Width) -> u16 {
        u16::from(greatest) * width.bytes()
    }

    fn over<D: ByteDistance>(a: &[u8], b: &[u8]) -> u16 {
        let mut sum: u16 = 0;
        for (i, x) in a.iter().enumerate() {
            sum += u16::from(D::of(*x, b[i]));
        }
        sum
    }
}

impl Gather for Largest {
    ghost op = { max };

    ghost top = { λ c _. c };

    ghost gathers = { by_max };

    ghost topped = { max_topped };

    fn top(greatest: u8, _width: Width) -> u16 {
        u16::from(greatest)
    }

    fn over<D: ByteDistance>(a: &[u8], b: &[u8]) -> u16 {
        // a loop: what a chain over zip gives, whose closure calls the bound's `of`, did not prove
        let mut most: u8 = 0;
        for (i, x) in a.iter().enumerate() {
            most = most.max(D::of(*x, b[i]));
        }
        u16::from(most)
    }
}

/// A distance of bytes, gathered.
#[derive(Clone, Copy, Debug, PartialEq, Eq)]
pub struct Gathered<G, D> {
    width: Width,
    of: PhantomData<(G, D)>,
}

impl<G, D> Gathered<G, D> {
    /// Made from the width less 1.
    pub fn new(last: u8) -> Self
        ensures { result.width.last ≡ last }
    {
        Gathered {
            width: Width::new(last),
            of: PhantomData,
        }
    }
}

impl<G: Gather, D: ByteDistance> Metric for Gathered<G, D> {
    ghost model = { λ m. record { width = m.width.last + 1; top = G.top D.GREATEST (m.width.last + 1); dist = across G.op D.between } };

    ghost asked = { λ _ _ _. ⊥ };

    ghost lawful = { λ m. gathered_lawful G.gathers G.topped D.gauge D.byte m.width.last m.width.byte };

    fn width(&self) -> usize {
        usize::from(self.width.bytes())
    }

    fn max_distance(&self) -> u16 {
        G::top(D::GREATEST, self.width)
    }

    fn distance(&mut self, a: &[u8], b: &[u8]) -> u16 {
        G::over::<D>(a, b)
    }
}
