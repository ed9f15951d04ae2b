//! The four channels of the bench: bands, ink, grain and depth.
#![tactic(auto)]

ghost use Rattle.std.specs.Prelude.{◌≡◌, ◌+◌, [], ◌∷◌};
ghost use Rattle.metric.specs.Distances.{city_block, hamming, circular, chebyshev};
ghost use Rattle.bench.specs.Bench.{channels};

use command::format::Format;
use metric::channels::{ChannelSet, Pair, Single};
use metric::chebyshev::Chebyshev;
use metric::circular::Circular;
use metric::city_block::CityBlock;
use metric::hamming::Hamming;

/// City block, Hamming, circular and Chebyshev.
pub type Four = Pair<
    Pair<Single<CityBlock>, Single<Hamming>>,
    Pair<Single<Circular>, Single<Chebyshev>>,
>;

/// City block on 4 bytes, Hamming on 4, circular on 2 and Chebyshev on 2: 12 bytes to a patch.
pub type Bench = Four;

/// The four channels, each made from its width less 1.
pub fn four(bands: u8, ink: u8, grain: u8, depth: u8) -> Four
    ensures bands { result.first.first.metric.width.last ≡ bands }
    ensures ink { result.first.second.metric.width.last ≡ ink }
    ensures grain { result.second.first.metric.width.last ≡ grain }
    ensures depth { result.second.second.metric.width.last ≡ depth }
    ensures means { ⟦<Four as ChannelSet>⟧.models result ≡ city_block (bands + 1) ∷ hamming (ink + 1) ∷ circular (grain + 1) ∷ chebyshev (depth + 1) ∷ [] }
{
    Pair {
        first: Pair {
            first: Single {
                metric: CityBlock::new(bands),
            },
            second: Single {
                metric: Hamming::new(ink),
            },
        },
        second: Pair {
            first: Single {
                metric: Circular::new(grain),
            },
            second: Single {
                metric: Chebyshev::new(depth),
            },
        },
    }
}

/// One weight for each of the bench's channels, and the 12 bytes of a patch.
pub const FORMAT: Format = Format {
    weights: 4,
    rows: 12,
};

/// The bench's channels.
pub fn bench() -> Bench
    ensures bands { result.first.first.metric.width.last ≡ 3 }
    ensures ink { result.first.second.metric.width.last ≡ 3 }
    ensures grain { result.second.first.metric.width.last ≡ 1 }
    ensures depth { result.second.second.metric.width.last ≡ 1 }
    ensures means { ⟦<Bench as ChannelSet>⟧.models result ≡ channels }
{
    four(3, 3, 1, 1)
}
