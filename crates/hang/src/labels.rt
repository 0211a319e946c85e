//! The labels of a text that a register lacks.
ghost use Rattle.std.specs.Prelude.{◌≡◌, ◌+◌, ◌≤◌, true, [], map, length, None};
ghost use Rattle.std.specs.Option.{option_map};
ghost use Rattle.label.specs.Written.{told};
ghost use Rattle.grammar.specs.Laws.{fault_of};
ghost use Rattle.grammar.specs.Pull.{final, left, view};
ghost use Rattle.plan.specs.Model.{model_of};
ghost use Rattle.plan.specs.Places.{Filed};
ghost use Rattle.placing.specs.Counts.{labels_at, labels_in};
ghost use Rattle.hang.specs.Labels.{all_mine, is_mine, known, lacking, noted_label};

use crate::next::next_event;
use arrayvec::ArrayVec;
use grammar::event::Event;
use grammar::reader::Reader;
use label::kind::Label;
use label::spelled::Spelled;
use plan::limits::LABEL_LIMIT;
use plan::register::Register;
use plan::tables::Plan;

/// Whether a token is one of those listed.
fn is_known(token: &Option<Spelled>, tokens: &[Option<Spelled>]) -> bool
    ensures { result ≡ known (option_map told token.now) (map (option_map told) tokens.now) }
{
    tokens.contains(token)
}

/// Lists an event's label by its token, if it has one that neither the register nor the list has.
fn note_label<L: Label>(
    event: Event<L>,
    register: &Register<'_, L>,
    tokens: &mut ArrayVec<Option<Spelled>, LABEL_LIMIT>,
)
    requires mine { is_mine L.Label.kind event ≡ true }
    requires room { length tokens.old.items + labels_at event ≤ 1024 }
    ensures labels { map (option_map told) tokens.new.items ≡ noted_label L.Label.kind register.now.rows.now (map (option_map told) tokens.old.items) event }
    ensures few { length tokens.new.items ≤ length tokens.old.items + labels_at event }
{
    match event {
        Event::Label(label) if !register.has(label) => {
            let token = label.token();
            if !is_known(&token, tokens) {
                tokens.push(token);
            }
        }
        _ => {}
    }
}

/// Reads what is left of a text, and gives how many of its labels the plan lacks.
pub(crate) fn count_lacking<L: Label>(plan: &Plan<'_, L>, reader: &mut Reader<'_>) -> usize
    requires within { plan.now.label_count ≤ length plan.now.register.now }
    requires filed { Filed L.Label.kind (model_of plan.now).register }
    requires clean { fault_of (left L.Label.kind reader.old) ≡ None }
    requires mine { all_mine L.Label.kind (left L.Label.kind reader.old) ≡ true }
    requires few { labels_in (left L.Label.kind reader.old) ≤ 1024 }
    ensures is { result ≡ length (lacking L.Label.kind (model_of plan.now).register [] (left L.Label.kind reader.old)) }
    ensures whole { view reader.new ≡ final reader.old }
{
    let register = Register {
        rows: &plan.register[..plan.label_count],
    };
    let mut tokens = ArrayVec::new();
    while let Some(event) = next_event::<L>(reader) {
        note_label(event, &register, &mut tokens);
    }
    tokens.len()
}
