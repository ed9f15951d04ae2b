//! A metric that records every question.
ghost use Rattle.std.specs.Prelude.{◌≡◌, ◌<◌, length, replicate, ◌==◌, slice_index};
ghost use Rattle.metric.specs.Model.{Adds};
ghost use Rattle.suppliers.specs.Records.{differs, discrete, Recorded, entry_of};
ghost use Rattle.std.proofs.Common.{rules};

use metric::Metric;

/// Tells whether two bytes differ, and records every pair that it is asked about.
#[derive(Drop)]
pub struct Recorder {
    book: [u8; 65536],
}

// Where the record has a pair of bytes.
fn entry_of(x: u8, y: u8) -> usize
    ensures value { result ≡ entry_of x y }
    ensures bound { result < 65536 }
{
    x as usize * 256 + y as usize
}

// Whether two bytes differ, as a distance.
fn differ(x: u8, y: u8) -> u16
    ensures { result ≡ differs x y }
{
    if x == y { 0 } else { 1 }
}

impl Recorder {
    /// A recorder that has not been asked anything.
    pub fn new() -> Self
        ensures { result.book ≡ replicate 65536 0 }
    {
        Recorder { book: [0; 65536] }
    }

    /// Whether it was asked about the two bytes.
    pub fn was_asked(&self, x: u8, y: u8) -> bool
        ensures { result ≡ (slice_index self.now.book (entry_of x y) == 1) }
    {
        self.book[entry_of(x, y)] == 1
    }
}

impl Metric for Recorder {
    ghost model = { λ _. discrete };

    ghost asked = { λ m. Recorded m.book };

    ghost lawful = { Prim.search rules };

    fn width(&self) -> usize {
        1
    }

    fn max_distance(&self) -> u16 {
        1
    }

    fn distance(&mut self, a: &[u8], b: &[u8]) -> u16
        requires left { length a.now ≡ 1 }
        requires right { length b.now ≡ 1 }
        ensures value { result ≡ discrete.dist a.now b.now }
        ensures kept { discrete ≡ discrete }
        ensures adds { Adds (Recorded self.old.book) (Recorded self.new.book) a.now b.now }
        ensures records { Recorded self.new.book a.now b.now }
    {
        self.book[entry_of(a[0], b[0])] = 1;
        differ(a[0], b[0])
    }
}
