//! Distances of whole patches, and why they are refused.
use aggregate::Choice;
use bench::bench;
use metric::channels::{ChannelSet, Pair, Single};
use metric::hamming::Hamming;
use patch::{aggregated_distance, channel_distance};
use refusal::Refusal;

const QUERY: [u8; 12] = [
    0x0c, 0x0a, 0x0a, 0x0a, 0x00, 0x00, 0x00, 0x01, 0x04, 0x00, 0x10, 0x11,
];

const PATCH: [u8; 12] = [
    0x0a, 0x0a, 0x0a, 0x0a, 0x00, 0x00, 0x00, 0x00, 0x00, 0x00, 0x10, 0x10,
];

#[test]
fn channels_in_order(rt: HostRuntime) {
    let mut set = bench();
    for (c, expected) in [2, 1, 4, 1].iter().enumerate() {
        assert_eq!(rt;
            channel_distance(&mut set, c, &QUERY, &PATCH),
            Ok(*expected)
        );
    }
    assert_eq!(rt; set.channels(), 4);
}

#[test]
fn aggregates_of_weighted_distances(rt: HostRuntime) {
    let mut set = bench();
    assert_eq!(rt;
        aggregated_distance(&mut set, &Choice::Sum, &[1, 1, 1, 1], &QUERY, &PATCH),
        Ok(8)
    );
    assert_eq!(rt;
        aggregated_distance(&mut set, &Choice::Max, &[1, 1, 1, 1], &QUERY, &PATCH),
        Ok(4)
    );
    assert_eq!(rt;
        aggregated_distance(&mut set, &Choice::Min, &[1, 1, 1, 1], &QUERY, &PATCH),
        Ok(1)
    );
    assert_eq!(rt;
        aggregated_distance(&mut set, &Choice::Sum, &[255, 0, 1, 10], &QUERY, &PATCH),
        Ok(524)
    );
}

#[test]
fn refusals_in_order(rt: HostRuntime) {
    let mut set = bench();
    assert_eq!(rt;
        channel_distance(&mut set, 4, &QUERY[0..11], &PATCH),
        Err(Refusal::NoSuchChannel)
    );
    assert_eq!(rt;
        channel_distance(&mut set, 3, &QUERY[0..11], &PATCH),
        Err(Refusal::WrongRowsLength)
    );
    assert_eq!(rt;
        aggregated_distance(&mut set, &Choice::Sum, &[1, 1, 1], &QUERY, &PATCH[0..11]),
        Err(Refusal::WrongRowsLength)
    );
    assert_eq!(rt;
        aggregated_distance(&mut set, &Choice::Sum, &[1, 1, 1], &QUERY, &PATCH),
        Err(Refusal::WrongWeightsLength)
    );
}

#[test]
fn nine_channels_are_too_many(rt: HostRuntime) {
    let one = Single {
        metric: Hamming::new(0),
    };
    let two = Pair {
        first: one,
        second: one,
    };
    let four = Pair {
        first: two,
        second: two,
    };
    let eight = Pair {
        first: four,
        second: four,
    };
    let mut nine = Pair {
        first: one,
        second: eight,
    };
    let mut eight = eight;
    assert_eq!(rt;
        channel_distance(&mut eight, 7, &[0; 8], &[0, 0, 0, 0, 0, 0, 0, 3]),
        Ok(2)
    );
    assert_eq!(rt;
        channel_distance(&mut nine, 0, &[0; 9], &[0; 9]),
        Err(Refusal::TooManyChannels)
    );
}
