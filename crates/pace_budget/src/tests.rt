//! Levels whose values are worked by hand.

use super::*;

const SECOND: u64 = 1_000_000;

// 250 % of 300,000 bit/s.
const PACING: u64 = 750_000;

#[test]
fn after_an_idle_time_one_packet_goes_and_a_probe_at_any_level(rt: HostRuntime) {
    let mut bucket = Bucket::new();
    assert!(rt; !bucket.is_open());
    bucket.advance(PACING, 10 * SECOND, 5_000);
    assert_eq!(rt; bucket.level(), 3_750_000_000);
    assert!(rt; bucket.is_open());
    bucket.spend(1_200);
    assert_eq!(rt; bucket.level(), -5_850_000_000);
    assert!(rt; !bucket.is_open());
    bucket.spend_probe(1_200);
    assert_eq!(rt; bucket.level(), -15_450_000_000);
}

#[test]
fn a_lowered_rate_opens_one_microsecond_after_level_0(rt: HostRuntime) {
    let mut bucket = Bucket::new();
    bucket.advance(PACING, 1, 500_000);
    assert_eq!(rt; bucket.level(), 750_000);
    assert!(rt; bucket.is_open());
    bucket.spend(1_200);
    bucket.advance(PACING, 10_000, 500_000);
    assert_eq!(rt; bucket.level(), -2_099_250_000);
    bucket.advance(75_000, 27_990, 500_000);
    assert_eq!(rt; bucket.level(), 0);
    assert!(rt; !bucket.is_open());
    bucket.advance(75_000, 1, 500_000);
    assert!(rt; bucket.is_open());
}

#[test]
fn a_soft_spend_ends_at_the_floor(rt: HostRuntime) {
    let floor = -4_000_000_000;
    let mut bucket = Bucket::new();
    bucket.advance(800_000, 1, 5_000);
    bucket.spend_soft(20, floor);
    assert_eq!(rt; bucket.level(), -159_200_000);
    bucket.advance(800_000, 199, 5_000);
    assert_eq!(rt; bucket.level(), 0);
    bucket.spend_soft(1_200, floor);
    assert_eq!(rt; bucket.level(), floor);
    bucket.spend_soft(1_200, -1_000_000_000);
    assert_eq!(rt; bucket.level(), floor);
}
