//! A kind of label that takes one token alone.
ghost use Rattle.reading_tests.specs.Zeros.{zeros_kind, zeros_raw};
ghost use Rattle.reading_tests.specs.ZerosLaws.{zeros_lawful, zeros_sound};

use label::form::Form;
use label::kind::Label;
use label::spelled::Spelled;
use std::cmp::Ordering;

/// A value that is a label if it holds 0.
#[derive(Clone, Copy)]
pub struct Zeros {
    pub held: u8,
}

/// The one label.
#[derive(Clone, Copy)]
pub struct Zero;

impl Label for Zeros {
    type Sure = Zero;

    ghost kind = { zeros_kind };

    ghost raw = { zeros_raw };

    ghost lawful = { zeros_lawful };

    ghost sound = { zeros_sound };

    fn read(form: Form, bytes: &[u8]) -> Option<Zeros> {
        match form {
            Form::Word => None,
            Form::Number => match bytes {
                [b'0'] => Some(Zeros { held: 0 }),
                _ => None,
            },
        }
    }

    fn compare(self, other: Zeros) -> Ordering {
        Ordering::Equal
    }

    fn token(self) -> Option<Spelled> {
        if self.held == 0 {
            Spelled::new(Form::Number, b"0")
        } else {
            None
        }
    }

    fn admit(self) -> Option<Zero> {
        (self.held == 0).then_some(Zero)
    }

    fn plain(s: Zero) -> Zeros {
        Zeros { held: 0 }
    }
}
