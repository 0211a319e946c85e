//! Common divisors, and the stride of the shuffled order.
ghost use Rattle.std.specs.Prelude.{◌<◌};
ghost use Rattle.order.specs.Divisors.{Gcd, Stride};

/// The greatest common divisor of two numbers.
#[tactic(auto, using(crate::specs::TheStride::gcd_step))]
pub fn gcd(a: u16, b: u16) -> u16
    ensures { Gcd a b result }
{
    if b == 0 { a } else { gcd(b, a % b) }
}

/// The largest number not above `h` that has no divisor in common with `n` but 1.
pub(crate) fn stride(n: u16, h: u16) -> u16
    requires { 0 < h }
    ensures { Stride n h result }
{
    // gcd(n, 1) is 1, so one is found.
    (1..=h).rev().find(|g| gcd(n, *g) == 1).unwrap_or(1)
}
