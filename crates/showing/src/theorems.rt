//! What is proved of the texts of events and of plans.
ghost use Rattle.showing.specs.Reading.{ReadsBack, ShownReadable};

use label::kind::Label;

/// The text of a hang's events is read to just these events, unless it is too long.
pub fn reading_stands<L: Label>()
    ensures { ReadsBack L.Label.kind }
{}

/// What a sound plan shows is a hang that is not too long, and is read to just the events that were shown.
pub fn showing_stands<L: Label>()
    ensures { ShownReadable L.Label.kind }
{}
