//! Sets of channels, each with its description for the full scan. They are made here, so that these tests stand apart from the bench.
use crate::scan::{Channel, Kind};
use metric::channels::{Pair, Single};
use metric::chebyshev::Chebyshev;
use metric::circular::Circular;
use metric::city_block::CityBlock;
use metric::hamming::Hamming;

/// A set of one channel.
pub type One = Single<CityBlock>;

/// A set of two channels.
pub type Two = Pair<Single<CityBlock>, Single<Hamming>>;

/// A set of four channels.
pub type Four = Pair<Two, Pair<Single<Circular>, Single<Chebyshev>>>;

/// A set of eight channels.
pub type Eight = Pair<Four, Four>;

/// Three bytes.
pub const ONE: [Channel; 1] = [Channel {
    kind: Kind::CityBlock,
    width: 3,
}];

/// One byte and one byte.
pub const TWO: [Channel; 2] = [
    Channel {
        kind: Kind::CityBlock,
        width: 1,
    },
    Channel {
        kind: Kind::Hamming,
        width: 1,
    },
];

/// The widths of `four(3, 1)`.
pub const FOUR: [Channel; 4] = [
    Channel {
        kind: Kind::CityBlock,
        width: 4,
    },
    Channel {
        kind: Kind::Hamming,
        width: 4,
    },
    Channel {
        kind: Kind::Circular,
        width: 2,
    },
    Channel {
        kind: Kind::Chebyshev,
        width: 2,
    },
];

/// The widths of `four(0, 2)` and then of `four(4, 0)`.
pub const EIGHT: [Channel; 8] = [
    Channel {
        kind: Kind::CityBlock,
        width: 1,
    },
    Channel {
        kind: Kind::Hamming,
        width: 1,
    },
    Channel {
        kind: Kind::Circular,
        width: 3,
    },
    Channel {
        kind: Kind::Chebyshev,
        width: 3,
    },
    Channel {
        kind: Kind::CityBlock,
        width: 5,
    },
    Channel {
        kind: Kind::Hamming,
        width: 5,
    },
    Channel {
        kind: Kind::Circular,
        width: 1,
    },
    Channel {
        kind: Kind::Chebyshev,
        width: 1,
    },
];

/// City block on 3 bytes.
pub fn one() -> One {
    Single {
        metric: CityBlock::new(2),
    }
}

/// City block and Hamming, both of the width whose predecessor is given.
pub fn two(last: u8) -> Two {
    Pair {
        first: Single {
            metric: CityBlock::new(last),
        },
        second: Single {
            metric: Hamming::new(last),
        },
    }
}

/// All four metrics, the first two and the last two of one width.
pub fn four(first: u8, second: u8) -> Four {
    Pair {
        first: two(first),
        second: Pair {
            first: Single {
                metric: Circular::new(second),
            },
            second: Single {
                metric: Chebyshev::new(second),
            },
        },
    }
}

/// All four metrics, and again in other widths.
pub fn eight() -> Eight {
    Pair {
        first: four(0, 2),
        second: four(4, 0),
    }
}
