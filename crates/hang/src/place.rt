//! Placing the events of a text on a plan.
ghost use Rattle.std.specs.Prelude.{◌≡◌};
ghost use Rattle.grammar.specs.Pull.{left};
ghost use Rattle.placing.specs.Placing.{place_all, place_one};
ghost use Rattle.hang.specs.Linked.{link_in};
ghost use Rattle.hang.specs.Hand.{Beside, Placeable, Ready, placing_of};

use crate::atoms::add_port;
use crate::cells::parent_of;
use crate::connect::join;
use crate::hand::Hand;
use crate::linked::Linked;
use crate::next::next_event;
use grammar::event::Event;
use grammar::reader::Reader;
use label::kind::Label;
use plan::tables::{Atom, Cell, Plan};
use register::add::add_label;

// The plan is the caller's, the hand the text's, the names the reader's: a struct of all three would serve these two functions alone.
/// Places one event.
fn place_event<L: Label>(
    plan: &mut Plan<'_, L>,
    hand: &mut Hand,
    linked: &Linked<'_>,
    event: Event<L>,
)
    requires { Ready L.Label.kind plan.old event }
    ensures is { placing_of plan.new hand.new ≡ place_one L.Label.kind (link_in linked.now) (placing_of plan.old hand.old) event }
    ensures beside { Beside plan.old plan.new }
{
    let atoms = plan.atom_count;
    let cells = plan.cell_count;
    let labels = plan.label_count;
    match event {
        Event::Label(label) => {
            plan.atoms[atoms] = Atom {
                label,
                cell: hand.inside,
                arity: 0,
                links: [0; 8],
            };
            plan.atom_count = atoms + 1;
            plan.label_count = add_label(plan.register, labels, label);
        }
        Event::Port(name) => add_port(&mut plan.atoms[atoms - 1], linked.link_of(name)),
        Event::Enter => {
            plan.cells[cells] = Cell {
                parent: Some(hand.inside),
                set: 0,
            };
            plan.cell_count = cells + 1;
            // Proved to fit, so no `try_from`, which could fail.
            hand.inside = cells as u8;
        }
        Event::Leave => hand.inside = parent_of(plan, hand.inside),
        Event::Set(set) => {
            let row = usize::from(hand.inside);
            if row < cells {
                plan.cells[row].set = set;
            }
        }
        Event::First(name) => hand.first = linked.link_of(name),
        Event::Second(name) => join(&mut hand.became, hand.first, linked.link_of(name)),
    }
}

/// Places what is left of a text.
pub(crate) fn place_rest<L: Label>(
    plan: &mut Plan<'_, L>,
    hand: &mut Hand,
    reader: &mut Reader<'_>,
    linked: &Linked<'_>,
)
    requires { Placeable L.Label.kind (link_in linked.now) plan.old hand.old (left L.Label.kind reader.old) }
    ensures is { placing_of plan.new hand.new ≡ place_all L.Label.kind (link_in linked.now) (placing_of plan.old hand.old) (left L.Label.kind reader.old) }
    ensures beside { Beside plan.old plan.new }
{
    while let Some(event) = next_event::<L>(reader) {
        place_event(plan, hand, linked, event);
    }
}
