//! Numbers of 32 bits with a sign as labels.
ghost use Rattle.std.specs.Prelude.{◌≡◌};
ghost use Rattle.std.specs.Option.{option_map};
ghost use Rattle.label.specs.Tokens.{held_value, negative, number_token, read_number, unsigned};
ghost use Rattle.label.specs.Written.{told};

use crate::form::Form;
use crate::spelled::Spelled;
use itoa::Buffer;
use text::number::{is_digits, value_up_to};

/// The value of digits, or the highest `u32` where it is more; nothing where they are no digits.
fn magnitude(digits: &[u8]) -> Option<u32>
    ensures { result ≡ held_value digits.now }
{
    is_digits(digits).then(|| value_up_to(u32::MAX, digits))
}

/// The number with this value after a minus sign, if it is in range.
fn below_zero(magnitude: Option<u32>) -> Option<i32>
    ensures { result ≡ negative magnitude }
{
    i32::try_from(-i64::from(magnitude?)).ok()
}

/// The number with this value and no sign, if it is in range.
fn above_zero(magnitude: Option<u32>) -> Option<i32>
    ensures { result ≡ unsigned magnitude }
{
    i32::try_from(magnitude?).ok()
}

/// The number that bytes write, if they are a number and it has 32 bits with its sign.
pub(crate) fn read_number(bytes: &[u8]) -> Option<i32>
    ensures { result ≡ read_number bytes.now }
{
    match bytes {
        [b'-', digits @ ..] => below_zero(magnitude(digits)),
        _ => above_zero(magnitude(bytes)),
    }
}

/// The token of a number.
pub(crate) fn spell_number(z: i32) -> Option<Spelled>
    ensures { option_map told result ≡ number_token z }
{
    let mut buffer = Buffer::new();
    Spelled::new(Form::Number, buffer.format(z).as_bytes())
}
