//! From the low bits that a report carries to the whole number.

ghost use Rattle.std.specs.Prelude.{◌≡◌, ℕ, ℤ, pos, neg_ℤ, ◌+◌, ◌%◌, ◌^◌, ◌<◌, ◌≤ℤ◌, ◌<ℤ◌, IfSome, IfNone};
ghost use Rattle.gcc_units.specs.Unwrapping.{named_number, IsGreatest, signed24, unwrapped, IsNearest};

/// The greatest number below `sent` whose low 16 bits are `low`; `None` exactly where there is
/// none (draft-holmer-rmcat-transport-wide-cc-extensions-01, section 3: the numbers wrap).
pub fn unwrap16(sent: u64, low: u16) -> Option<u64>
    ensures greatest { IfSome result (IsGreatest sent low) }
    ensures none { IfNone result ((n : ℕ) → n < sent → n % 65536 ≡ low → ⊥) }
    ensures value { result ≡ named_number sent low }
{
    if u64::from(low) < sent {
        Some(sent - 1 - (sent - 1 - u64::from(low)) % 65_536)
    } else {
        None
    }
}

/// The number nearest to `last` that equals `low` modulo 2^24: `last + s`, with `s` from -2^23 to
/// 2^23 - 1 (this project's own way to unwrap the reference time of a report).
pub fn unwrap24(last: i64, low: i32) -> i64
    requires last_low { neg_ℤ (pos (2 ^ 56)) ≤ℤ last }
    requires last_high { last ≤ℤ pos (2 ^ 56) }
    requires low_low { neg_ℤ (pos (2 ^ 24)) ≤ℤ low }
    requires low_high { low ≤ℤ pos (2 ^ 24) }
    ensures value { result ≡ unwrapped last low }
    ensures nearest { IsNearest last low result }
{
    last + signed24(i64::from(low) - last)
}

/// The number from -2^23 to 2^23 - 1 that equals `z` modulo 2^24.
fn signed24(z: i64) -> i64
    requires low { neg_ℤ (pos (2 ^ 57)) ≤ℤ z }
    requires high { z ≤ℤ pos (2 ^ 57) }
    ensures value { result ≡ signed24 z }
    ensures low { neg_ℤ (pos 8388608) ≤ℤ result }
    ensures high { result <ℤ pos 8388608 }
{
    (z + 8_388_608).rem_euclid(16_777_216) - 8_388_608
}
