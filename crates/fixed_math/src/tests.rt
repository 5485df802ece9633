use super::*;

#[test]
fn rounds_down(rt: HostRuntime) {
    for (a, b, want) in [
        (1, 1, 0),
        (-1, 1, -1),
        (-65_536, 98_304, -98_304),
        (-3, 32_768, -2),
    ] {
        assert_eq!(rt; product(a, b), want, "{a} times {b}");
    }
    for (a, b, want) in [
        (-1, 3, -21_846),
        (1, 3, 21_845),
        (-3, 65_536, -3),
        (0, 1, 0),
    ] {
        assert_eq!(rt; quotient(a, b), want, "{a} over {b}");
    }
}

#[test]
fn takes_roots_and_powers(rt: HostRuntime) {
    for (a, want) in [(0, 0), (24, 4), (25, 5), (u64::MAX, 4_294_967_295)] {
        assert_eq!(rt; isqrt(a), want, "the root of {a}");
    }
    for (n, want) in [
        (0, 1_073_741_824),
        (1, 1_073_418_129),
        (2, 1_073_094_531),
        (3, 1_072_771_031),
    ] {
        assert_eq!(rt; pow_q30(1_073_418_129, n), want, "the power {n}");
    }
    assert_eq!(rt;
        pow_q30(1_073_418_129, 5),
        1_072_124_323,
        "an odd exponent above 1"
    );
}

// The rows stay far below the limits of the two functions.
fn product(a: i32, b: i32) -> i64 {
    mul_q16(a as i64, b as i64)
}

fn quotient(a: i32, b: u32) -> i64 {
    div_q16(a as i64, if b == 0 { 1 } else { b as i64 })
}
