//! Fixed-point arithmetic in whole numbers: Q16 means units of 1/65536, Q30 units of 1/2^30.
//!
//! Each quotient is rounded down, towards minus infinity.
//! The formats, the roundings and the order of the products in a power are this project's own rules.
//!
//! Those above use that each result is an exact floor, a root the greatest whole number whose square fits,
//! and a power that of halved exponents.
#![tactic(auto)]

ghost use Rattle.std.specs.Prelude.{◌≡◌, ℕ, pos, ◌*ℤ◌, ◌<ℤ◌, ◌*◌, ◌≤◌, FitsSigned};
ghost use Rattle.std.specs.Int.{w64};
ghost use Rattle.fixed_math.specs.Floor.{IsFloor, product_q16, quotient_q16};
ghost use Rattle.fixed_math.specs.Power.{power_q30, IsPowerByHalving};
ghost use Rattle.fixed_math.specs.Root.{root};

/// The number 1 in Q16.
pub const ONE_Q16: u32 = 65_536;

/// The number 1 in Q30.
pub const ONE_Q30: u64 = 1_073_741_824;

/// The product of two numbers in Q16, rounded down.
pub fn mul_q16(a: i64, b: i64) -> i64
    requires { FitsSigned w64 (product_q16 a b) }
    ensures value { result ≡ product_q16 a b }
    ensures floor { IsFloor (a *ℤ b) (pos ONE_Q16) result }
{
    let product = a as i128 * b as i128;
    product.div_euclid(ONE_Q16 as i128) as i64
}

/// The quotient of two numbers in Q16, rounded down. The divisor is above 0.
pub fn div_q16(a: i64, b: i64) -> i64
    requires above { pos 0 <ℤ b }
    requires fits { FitsSigned w64 (quotient_q16 a b) }
    ensures value { result ≡ quotient_q16 a b }
    ensures floor { IsFloor (pos ONE_Q16 *ℤ a) b result }
{
    let scaled = ONE_Q16 as i128 * a as i128;
    scaled.div_euclid(b as i128) as i64
}

/// The square root, rounded down: the greatest number whose square is at most `a`.
pub fn isqrt(a: u64) -> u64
    ensures value { result ≡ root a }
    ensures fits { result * result ≤ a }
    ensures greatest { (s : ℕ) → s * s ≤ a → s ≤ result }
{
    a.isqrt()
}

/// The `n`-th power of a factor in Q30 of at most 1, by halving the exponent.
///
/// The power 0 is 1. An odd power is the power before it times the factor, and an even one above 0 is the
/// square of the power of half its exponent; each product is rounded down.
pub fn pow_q30(factor: u64, n: u32) -> u64
    requires { factor ≤ ONE_Q30 }
    ensures value { result ≡ power_q30 factor n }
    ensures at_most_one { result ≤ ONE_Q30 }
{
    if n == 0 {
        ONE_Q30
    } else if n % 2 == 1 {
        pow_q30(factor, n - 1) * factor / ONE_Q30
    } else {
        let half = pow_q30(factor, n / 2);
        half * half / ONE_Q30
    }
}

/// The law of `pow_q30`: its rule of halving, as three equations.
pub fn power_by_halving()
    ensures { (factor : ℕ) → IsPowerByHalving factor (power_q30 factor) }
{}

#[cfg(test)]
mod tests;
