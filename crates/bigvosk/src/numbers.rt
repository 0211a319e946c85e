//! Numbers in a command.
ghost use Rattle.std.specs.Prelude.{◌≡◌};
ghost use Rattle.bigvosk.specs.Numbers.{number_up_to};

use std::str;
use text::number::is_digits;

/// The number that bytes write, if they are one digit or more and nothing else, and it is not above `most`.
pub fn number_up_to(most: u32, bytes: &[u8]) -> Option<u32>
    ensures { result ≡ number_up_to most bytes.now }
{
    // `parse` would take a sign too.
    if !is_digits(bytes) {
        return None;
    }
    let text = str::from_utf8(bytes).ok()?;
    let number = text.parse::<u32>().ok()?;
    (number <= most).then_some(number)
}
