//! The built metrics on rows that are worked by hand: the narrowest and the widest, all 0 and all 255.
use crate::recorder::Recorder;
use metric::Metric;
use metric::channels::{ChannelSet, Single};
use metric::chebyshev::Chebyshev;
use metric::circular::Circular;
use metric::city_block::CityBlock;
use metric::hamming::Hamming;
use patch::channel_distance;

#[test]
fn directions_go_the_shorter_way(rt: HostRuntime) {
    let mut one = Circular::new(0);
    assert_eq!(rt; one.distance(&[250], &[4]), 10);
    assert_eq!(rt; one.distance(&[4], &[250]), 10);
    assert_eq!(rt; one.distance(&[0], &[128]), 128);
    assert_eq!(rt; one.distance(&[0], &[129]), 127);
    assert_eq!(rt; one.distance(&[255], &[0]), 1);
}

#[test]
fn one_byte_rows(rt: HostRuntime) {
    assert_eq!(rt; CityBlock::new(0).distance(&[0], &[255]), 255);
    assert_eq!(rt; CityBlock::new(0).distance(&[7], &[7]), 0);
    assert_eq!(rt; Hamming::new(0).distance(&[0x0f], &[0xf0]), 8);
    assert_eq!(rt; Hamming::new(0).distance(&[0x0f], &[0x0e]), 1);
    assert_eq!(rt; Chebyshev::new(0).distance(&[255], &[0]), 255);
    assert_eq!(rt; Chebyshev::new(0).distance(&[9], &[12]), 3);
}

#[test]
fn widest_rows(rt: HostRuntime) {
    let low = [0u8; 256];
    let high = [255u8; 256];
    let half = [128u8; 256];
    assert_eq!(rt; CityBlock::new(255).distance(&low, &high), 65280);
    assert_eq!(rt; Hamming::new(255).distance(&high, &low), 2048);
    assert_eq!(rt; Circular::new(255).distance(&low, &half), 32768);
    assert_eq!(rt; Circular::new(255).distance(&low, &high), 256);
    assert_eq!(rt; Chebyshev::new(255).distance(&high, &low), 255);
    assert_eq!(rt; CityBlock::new(255).distance(&high, &high), 0);
}

#[test]
fn widths_and_greatest_distances(rt: HostRuntime) {
    assert_eq!(rt; CityBlock::new(255).width(), 256);
    assert_eq!(rt; CityBlock::new(255).max_distance(), 65280);
    assert_eq!(rt; Hamming::new(3).max_distance(), 32);
    assert_eq!(rt; Circular::new(1).max_distance(), 256);
    assert_eq!(rt; Chebyshev::new(1).max_distance(), 255);
    assert_eq!(rt; Chebyshev::new(0).width(), 1);
}

#[test]
fn questions_are_recorded(rt: HostRuntime) {
    let mut set = Single {
        metric: Recorder::new(),
    };
    assert_eq!(rt; channel_distance(&mut set, 0, &[1], &[2]).ok(), Some(1));
    assert!(rt; set.metric.was_asked(1, 2));
    assert!(rt; !set.metric.was_asked(2, 1));
}
