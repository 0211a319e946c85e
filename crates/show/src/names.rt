//! The names of links, and what is written of them.
ghost use Rattle.std.specs.Prelude.{◌≡◌, fold};
ghost use Rattle.showing.specs.Shown.{open_name};
ghost use Rattle.show.specs.Page.{page_of};
ghost use Rattle.show.specs.Steps.{named_on, named_as, number_in, port_written, ties_written, with_number};

use crate::scribe::Scribe;
use crate::tokens::number_name;
use grammar::event::Event;
use label::kind::Label;
use plan::tables::FreeLink;
use text::packed::Name;

/// The open name of a link, if it has one.
#[tactic(auto, unfolding(showing::specs::Shown::open_name))]
fn open_name(free: &[FreeLink], link: u16) -> Option<Name>
    ensures { result ≡ open_name link free.now }
{
    free.iter().find(|end| end.link == link).map(|end| end.name)
}

impl Scribe<'_> {
    /// The number of a link. The first call for a link gives it the next one; a link that no sound plan has gets none.
    #[tactic(auto, using(crate::proofs::Linking::next_given, crate::proofs::Linking::next_high))]
    fn number_of(&mut self, link: u16) -> Option<u16>
        ensures page { page_of self.new ≡ with_number (page_of self.old) link }
        ensures number { result ≡ number_in (page_of self.new) link }
    {
        let row = usize::from(link);
        if let Some(number) = *self.numbers.get(row)? {
            return Some(number);
        }
        let number = self.count;
        self.numbers[row] = Some(number);
        self.count = number.saturating_add(1);
        Some(number)
    }

    /// The name that a link is shown by: its open name, or else that of its number.
    fn name_of(&mut self, link: u16) -> Option<Name>
        ensures page { page_of self.new ≡ named_on (page_of self.old) link }
        ensures name { result ≡ named_as (page_of self.old) link }
    {
        // A `match`: `or_else` with a closure that changes the scribe was tried, and the proof did not close.
        match open_name(self.free, link) {
            Some(name) => Some(name),
            None => self.number_of(link).map(number_name),
        }
    }

    /// Writes a port, by its link.
    fn put_port<L: Label>(&mut self, link: u16)
        ensures { page_of self.new ≡ port_written L.Label.kind (page_of self.old) link }
    {
        if let Some(name) = self.name_of(link) {
            self.put_event::<L>(Event::Port(name));
        }
    }

    /// Writes ports, by their links.
    #[tactic(auto, using(std::proofs::lemmas::List::Sums::fold_more))]
    pub(crate) fn put_ports<L: Label>(&mut self, links: &[u16])
        ensures { page_of self.new ≡ fold (port_written L.Label.kind) (page_of self.old) links.now }
    {
        for link in links {
            self.put_port::<L>(*link);
        }
    }

    /// Writes the connectors between free links.
    pub(crate) fn put_ties<L: Label>(&mut self)
        ensures { page_of self.new ≡ ties_written L.Label.kind (page_of self.old) }
    {
        let free = self.free;
        for (row, end) in free.iter().enumerate() {
            if let Some(later) = open_name(&free[row + 1..], end.link) {
                self.put_event::<L>(Event::First(end.name));
                self.put_event::<L>(Event::Second(later));
            }
        }
    }
}
