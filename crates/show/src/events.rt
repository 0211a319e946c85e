//! Writing events: each with what goes before it.
ghost use Rattle.std.specs.Prelude.{◌≡◌};
ghost use Rattle.showing.specs.Text as text;
ghost use Rattle.show.specs.Page.{page_of, wrote, event_written, ended};

use crate::scribe::Scribe;
use grammar::event::Event;
use label::kind::Label;
use showing::last::Last;

/// What goes before an item.
fn before_item(last: Last) -> &'static [u8]
    ensures { result.now ≡ text.before_item last }
{
    match last {
        Last::Nothing => b"",
        Last::Port => b"),",
        Last::Label | Last::Item => b",",
    }
}

/// What goes before a port.
fn before_port(last: Last) -> &'static [u8]
    ensures { result.now ≡ text.before_port last }
{
    match last {
        Last::Port => b",",
        Last::Nothing | Last::Label | Last::Item => b"(",
    }
}

/// What goes at the end of a list.
fn at_end(last: Last) -> &'static [u8]
    ensures { result.now ≡ text.at_end last }
{
    match last {
        Last::Port => b")",
        Last::Nothing | Last::Label | Last::Item => b"",
    }
}

/// What goes before an event.
fn lead<L: Label>(last: Last, event: Event<L>) -> &'static [u8]
    ensures { result.now ≡ text.lead last event }
{
    match event {
        Event::Label(_) | Event::Enter | Event::Set(_) | Event::First(_) => before_item(last),
        Event::Port(_) => before_port(last),
        Event::Leave => at_end(last),
        Event::Second(_) => b"=",
    }
}

/// What an event leaves as the last.
fn past<L: Label>(event: Event<L>) -> Last
    ensures { result ≡ text.past event }
{
    match event {
        Event::Label(_) => Last::Label,
        Event::Port(_) => Last::Port,
        Event::Enter => Last::Nothing,
        Event::Leave | Event::Set(_) | Event::First(_) | Event::Second(_) => Last::Item,
    }
}

impl Scribe<'_> {
    /// Writes an event's own bytes.
    fn put_own<L: Label>(&mut self, event: Event<L>)
        ensures { page_of self.new ≡ wrote (text.own L.Label.kind event) (page_of self.old) }
    {
        match event {
            Event::Label(label) => self.put_label(label),
            Event::Port(name) | Event::First(name) | Event::Second(name) => self.put_name(name),
            Event::Enter => self.put_all(b"{"),
            Event::Leave => self.put_all(b"}"),
            Event::Set(set) => {
                self.put_all(b"@");
                self.put_set(set);
            }
        }
    }

    /// Writes an event.
    pub(crate) fn put_event<L: Label>(&mut self, event: Event<L>)
        ensures { page_of self.new ≡ event_written L.Label.kind (page_of self.old) event }
    {
        self.put_all(lead(self.last, event));
        self.put_own(event);
        self.last = past(event);
    }

    /// Ends the text.
    pub(crate) fn put_end(&mut self)
        ensures { page_of self.new ≡ ended (page_of self.old) }
    {
        self.put_all(at_end(self.last));
    }
}
