//! What every kind of label can do.
ghost use Rattle.std.specs.Prelude.{◌≡◌};
ghost use Rattle.label.specs.Kind.{Kind, Lawful, Sound, admitted, compared};
ghost use Rattle.label.specs.Written.{told};
ghost use Rattle.std.specs.Option.{option_map};

use crate::form::Form;
use crate::spelled::Spelled;
use std::cmp::Ordering;

/// A kind of label. Some values of the type may be no label: `kind` says which are, and how labels are read, written and ordered.
/// `Sure` has labels only, and one value for each: `raw` is its label.
pub trait Label: Copy {
    type Sure: Copy;

    ghost kind: { Kind Self };

    ghost raw: { Self.Sure → Self };

    /// The label that a token means, if it means one.
    fn read(form: Form, bytes: &[u8]) -> Option<Self>
        ensures { result ≡ kind.read form bytes.now };

    /// Whether a label is lower than another, the same or higher.
    fn compare(self, other: Self) -> Ordering
        ensures { result ≡ compared kind.lower self other };

    /// The token of a label. What is no label has none.
    fn token(self) -> Option<Spelled>
        ensures { option_map told result ≡ kind.token self };

    /// The same value, known to be a label, if it is one.
    fn admit(self) -> Option<Self::Sure>
        ensures { option_map raw result ≡ admitted kind.mine self };

    /// The label that is known to be one.
    fn plain(s: Self::Sure) -> Self
        ensures { result ≡ raw s };

    ghost lawful: { Lawful kind };

    ghost sound: { Sound kind raw };
}
