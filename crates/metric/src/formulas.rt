//! What the four built metrics mean.
ghost use Rattle.std.specs.Prelude.{◌≡◌, ◌+◌};
ghost use Rattle.metric.specs.Distances.{city_block, hamming, circular, chebyshev};

use crate::Metric;
use crate::chebyshev::Chebyshev;
use crate::circular::Circular;
use crate::city_block::CityBlock;
use crate::hamming::Hamming;

/// Each built metric means what its formula says, whatever parts its name stands for.
pub fn by_formula(a: &CityBlock, b: &Hamming, c: &Circular, d: &Chebyshev)
    ensures city_block { ⟦<CityBlock as Metric>⟧.model a.now ≡ city_block (a.now.width.last + 1) }
    ensures hamming { ⟦<Hamming as Metric>⟧.model b.now ≡ hamming (b.now.width.last + 1) }
    ensures circular { ⟦<Circular as Metric>⟧.model c.now ≡ circular (c.now.width.last + 1) }
    ensures chebyshev { ⟦<Chebyshev as Metric>⟧.model d.now ≡ chebyshev (d.now.width.last + 1) }
{}
