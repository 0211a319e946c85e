//! The events of a text that has been read once.
ghost use Rattle.hang.specs.Next.{Heads};

use grammar::event::Event;
use grammar::reader::Reader;
use label::kind::Label;

/// The next event, or none where the events end.
pub(crate) fn next_event<L: Label>(reader: &mut Reader<'_>) -> Option<Event<L>>
    ensures { Heads L.Label.kind reader.old result reader.new }
{
    reader.next::<L>().unwrap_or(None)
}
