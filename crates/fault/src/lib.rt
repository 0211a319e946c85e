//! Refusals: what went wrong, and at which place.
#![tactic(auto)]

ghost use Rattle.std.specs.Prelude.{◌≡◌, Some};
ghost use Rattle.fault.specs.Table.{number_of, layer_of};
ghost use Rattle.fault.specs.Words.{layer_name, message};

use std::error::Error;
use std::fmt;

/// What was refused. Two numbers, 8 and 11, stand for two refusals each, one of the grammar and one of the book.
#[derive(Clone, Copy, PartialEq, Eq, Debug)]
pub enum Refusal {
    /// A text has over 65,535 bytes.
    TextTooLong,
    /// A byte begins no token.
    NoToken,
    /// A word or a line name has over 8 characters.
    LongName,
    /// An atom's label is none of the label kind's.
    ForeignLabel,
    /// A token that the forms do not have here, or the text's end.
    Unexpected,
    /// A 17th nested brace.
    TooDeep,
    /// A ninth port.
    NinthPort,
    /// In a hang, a name's third standing, or a `_` name that stands once.
    HangName,
    /// In a hang, `@` on the outermost level, or a second one in a cell.
    MisplacedSet,
    /// More atoms, connectors, cells, rests, contexts or names than one text, side or rule may have.
    TooManyItems,
    /// A 65th rule.
    TooManyRules,
    /// A set that is not 1 to 15.
    SetNumber,
    /// In a rule, a name that does not stand twice.
    RuleName,
    /// A rule's left side has no atom and no cell.
    EmptyLeft,
    /// A connector on a rule's left side.
    LeftConnector,
    /// A rest or a context against the rules.
    RestOrContext,
    /// A draft row that no text gives, a 65th row, or a row past the table.
    DraftRow,
    /// A budget over 65,535.
    Budget,
    /// A tally whose length is not the number of rules.
    TallyLength,
    /// A mark page shorter than the atom rows that may be used.
    ShortPage,
    /// A plan that is not sound.
    UnsoundPlan,
    /// More atoms, cells, free links or labels than the tables take.
    FullTables,
    /// Fewer rule rows than the text has rules.
    FewRows,
    /// Fewer bytes than are to be shown.
    ShortBuffer,
}

/// Which layer refuses.
#[derive(Clone, Copy, PartialEq, Eq, Debug)]
pub enum Layer {
    Text,
    Grammar,
    Book,
    Plan,
    Run,
}

/// A refusal at its place: the offset of a byte for text and grammar, a rule for book, and 0 for all others.
#[derive(Clone, Copy, PartialEq, Eq, Debug)]
pub struct Fault {
    pub refusal: Refusal,
    pub place: usize,
}

impl Refusal {
    /// The refusal at a place.
    pub fn at(self, place: usize) -> Fault
        ensures { result ≡ record { refusal = self; place = place } }
    {
        Fault {
            refusal: self,
            place,
        }
    }
}

/// A refusal that has no place is at 0.
impl From<Refusal> for Fault {
    ghost from_gives = { λ refusal fault. fault ≡ record { refusal = refusal; place = 0 } };

    fn from(refusal: Refusal) -> Fault {
        refusal.at(0)
    }
}

impl Fault {
    /// The number of what was refused.
    pub fn number(&self) -> u8
        ensures { result ≡ number_of self.now.refusal }
    {
        match self.refusal {
            Refusal::TextTooLong => 1,
            Refusal::NoToken => 2,
            Refusal::LongName => 3,
            Refusal::ForeignLabel => 4,
            Refusal::Unexpected => 5,
            Refusal::TooDeep => 6,
            Refusal::NinthPort => 7,
            Refusal::HangName | Refusal::RuleName => 8,
            Refusal::EmptyLeft => 9,
            Refusal::LeftConnector => 10,
            Refusal::MisplacedSet | Refusal::RestOrContext => 11,
            Refusal::TooManyItems => 12,
            Refusal::TooManyRules => 13,
            Refusal::SetNumber => 14,
            Refusal::Budget => 15,
            Refusal::TallyLength => 16,
            Refusal::DraftRow => 17,
            Refusal::ShortPage => 18,
            Refusal::UnsoundPlan => 20,
            Refusal::FullTables => 21,
            Refusal::FewRows => 22,
            Refusal::ShortBuffer => 23,
        }
    }

    /// The layer that refused.
    pub fn layer(&self) -> Layer
        ensures { result ≡ layer_of self.now.refusal }
    {
        match self.refusal {
            Refusal::TextTooLong | Refusal::NoToken | Refusal::LongName | Refusal::ForeignLabel =>
                Layer::Text,
            Refusal::Unexpected
            | Refusal::TooDeep
            | Refusal::NinthPort
            | Refusal::HangName
            | Refusal::MisplacedSet
            | Refusal::TooManyItems
            | Refusal::TooManyRules
            | Refusal::SetNumber => Layer::Grammar,
            Refusal::RuleName
            | Refusal::EmptyLeft
            | Refusal::LeftConnector
            | Refusal::RestOrContext
            | Refusal::DraftRow => Layer::Book,
            Refusal::UnsoundPlan | Refusal::FullTables | Refusal::FewRows | Refusal::ShortBuffer =>
                Layer::Plan,
            Refusal::Budget | Refusal::TallyLength | Refusal::ShortPage => Layer::Run,
        }
    }
}

impl fmt::Display for Layer {
    ghost output = { λ layer. Some (layer_name layer) };

    fn fmt<W: fmt::Write>(&self, f: &mut fmt::Formatter<W>) -> fmt::Result {
        f.write_str(match self {
            Layer::Text => "text",
            Layer::Grammar => "grammar",
            Layer::Book => "book",
            Layer::Plan => "plan",
            Layer::Run => "run",
        })
    }
}

impl fmt::Display for Fault {
    ghost output = { λ fault. Some (message fault) };

    fn fmt<W: fmt::Write>(&self, f: &mut fmt::Formatter<W>) -> fmt::Result {
        let number = self.number();
        let layer = self.layer();
        let place = self.place;
        write!(f, "refused {number} {layer} at {place}")
    }
}

impl Error for Fault {}
