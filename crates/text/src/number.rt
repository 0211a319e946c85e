//! The value of digits.
ghost use Rattle.std.specs.Prelude.{◌≡◌, ◌+◌, ◌-◌, ◌*◌, min};
ghost use Rattle.text.specs.Classes.{digit};
ghost use Rattle.text.specs.Numbers.{digits_value};
ghost use Rattle.text.specs.Shapes.{begins};

use crate::class::Run;
use crate::lexer::is_run;

/// A number with one digit more, or the highest `u32` where that is more.
fn with_digit(n: u32, b: u8) -> u32
    ensures { result ≡ min (n * 10 + (b - 48)) 4294967295 }
{
    // In 64 bits, with one bound: two sums that stop at the bound are slower.
    let wide = u64::from(n) * 10 + u64::from(b.saturating_sub(48));
    // Proved to fit, so no `try_from`, which could fail.
    wide.min(u64::from(u32::MAX)) as u32
}

/// Whether bytes are one digit or more, and nothing else.
#[tactic(auto, using(crate::proofs::Shapes::begins_whole))]
pub fn is_digits(bytes: &[u8]) -> bool
    ensures { result ≡ begins digit digit bytes.now }
{
    !bytes.is_empty() && is_run(Run::Digits, bytes)
}

/// The number that digits write, of any length, or `cap` where it is more.
pub fn value_up_to(cap: u32, digits: &[u8]) -> u32
    ensures { result ≡ min (digits_value 0 digits.now) cap }
{
    digits
        .iter()
        .fold(0, |n: u32, b| with_digit(n, *b).min(cap))
}
