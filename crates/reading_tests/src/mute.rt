//! A kind of label that takes no token. It keeps the laws of label kinds, but is no `impl Label`: the gate refuses a function that no call
//! can reach, and `plain` would be one, since there is no label to call it with. The other functions of a kind stand here by themselves.
ghost use Rattle.std.specs.Prelude.{◌≡◌};
ghost use Rattle.std.specs.Option.{option_map};
ghost use Rattle.label.specs.Kind.{Lawful, Sound, admitted, compared};
ghost use Rattle.label.specs.Written.{told};
ghost use Rattle.reading_tests.specs.Mute.{mute_kind, mute_raw};

use label::form::Form;
use label::spelled::Spelled;
use std::cmp::Ordering;

/// A value that is no label.
#[derive(Clone, Copy)]
pub struct Mute {
    pub held: u8,
}

/// No value at all.
#[derive(Clone, Copy)]
pub enum Never {}

impl Mute {
    /// The label that a token means: none.
    pub fn read(form: Form, bytes: &[u8]) -> Option<Mute>
        ensures { result ≡ mute_kind.read form bytes.now }
    {
        None
    }

    /// No value is lower than another.
    pub fn compare(self, other: Mute) -> Ordering
        ensures { result ≡ compared mute_kind.lower self other }
    {
        Ordering::Equal
    }

    /// No value has a token.
    pub fn token(self) -> Option<Spelled>
        ensures { option_map told result ≡ mute_kind.token self }
    {
        None
    }

    /// No value is a label.
    pub fn admit(self) -> Option<Never>
        ensures { option_map mute_raw result ≡ admitted mute_kind.mine self }
    {
        None
    }
}

/// A kind that takes no token keeps the laws.
pub fn mute_stands()
    ensures lawful { Lawful mute_kind }
    ensures sound { Sound mute_kind mute_raw }
{}
