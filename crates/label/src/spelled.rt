//! How a label is written.
ghost use Rattle.std.specs.Prelude.{◌≡◌, if◌then◌else◌, length, Some, None, nat_le};
ghost use Rattle.std.specs.Option.{option_map};
ghost use Rattle.label.specs.Written.{token_limit, told};

use crate::form::Form;
use arrayvec::ArrayVec;

/// The most bytes of a label's token.
pub const TOKEN_LIMIT: usize = 11;

/// A label's token: its class and its bytes.
#[derive(Clone, PartialEq, Eq, Debug, Drop)]
pub struct Spelled {
    pub form: Form,
    pub bytes: ArrayVec<u8, TOKEN_LIMIT>,
}

impl Spelled {
    /// The token of a class with these bytes, if they are few enough.
    pub fn new(form: Form, bytes: &[u8]) -> Option<Spelled>
        ensures { option_map told result ≡ (if nat_le (length bytes.now) token_limit then Some (form, bytes.now) else None) }
    {
        let bytes = ArrayVec::try_from(bytes).ok()?;
        Some(Spelled { form, bytes })
    }
}
