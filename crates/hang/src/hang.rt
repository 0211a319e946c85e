//! Hanging a text on a plan.
ghost use Rattle.std.specs.Prelude.{◌≡◌, ◌+◌, min, true, is_ok, MatchResult, nat_le};
ghost use Rattle.grammar.specs.Names.{names_of};
ghost use Rattle.grammar.specs.Sheets.{text_names};
ghost use Rattle.plan.specs.Model.{SameTables, model_of, tables_of};
ghost use Rattle.plan.specs.Sound.{Sound};
ghost use Rattle.placing.specs.Answer.{hang_answer, hung_text, takes};
ghost use Rattle.placing.specs.Counts.{SheetCounts};
ghost use Rattle.placing.specs.Laws.{HangLaws};
ghost use Rattle.hang.specs.Text.{Hangable, Hung, atoms_fit, cells_fit, free_fit, has_room, if_room, labels_fit};

use crate::free::list_free;
use crate::labels::count_lacking;
use crate::names::link_names;
use crate::whole::place_text;
use fault::{Fault, Refusal};
use grammar::read::read;
use grammar::reader::Reader;
use grammar::sheet::Sheet;
use grammar::table::Names;
use label::kind::Label;
use plan::check::{fits, is_sound};
use plan::limits::{ATOM_LIMIT, CELL_LIMIT, LABEL_LIMIT};
use plan::tables::Plan;

/// Whether the tables take the atoms and cells of a text.
fn has_room<L: Label>(plan: &Plan<'_, L>, sheet: Sheet) -> bool
    ensures { result ≡ has_room plan.now sheet.atoms sheet.cells }
{
    fits(plan.atom_count, sheet.atoms, plan.atoms.len(), ATOM_LIMIT)
        && fits(plan.cell_count, sheet.cells, plan.cells.len(), CELL_LIMIT)
}

/// Places a text whose atoms, cells and labels have room, unless its free links have none.
fn place_named<L: Label>(plan: &mut Plan<'_, L>, text: &[u8], names: &Names) -> Result<(), Refusal>
    requires hangable { Hangable L.Label.kind plan.old text.now }
    requires names { names_of names.now ≡ text_names text.now }
    requires atoms { atoms_fit L.Label.kind plan.old text.now ≡ true }
    requires cells { cells_fit L.Label.kind plan.old text.now ≡ true }
    requires labels { labels_fit L.Label.kind plan.old text.now ≡ true }
    ensures is { result ≡ if_room (free_fit L.Label.kind plan.old text.now) }
    ensures hung { Hung L.Label.kind plan.old text.now result plan.new }
{
    let linked = link_names(plan, names);
    let free = list_free(plan, &linked).map_err(|_| Refusal::FullTables)?;
    if free.len() > plan.free.len() {
        return Err(Refusal::FullTables);
    }
    let mut reader = Reader::new(text, 0);
    place_text(plan, &mut reader, &linked, &free);
    Ok(())
}

/// Hangs a text without fault on a sound plan, unless the tables do not take the plan after it.
fn hang_sound<L: Label>(plan: &mut Plan<'_, L>, text: &[u8], sheet: Sheet) -> Result<(), Refusal>
    requires hangable { Hangable L.Label.kind plan.old text.now }
    requires sheet { SheetCounts L.Label.kind text.now sheet }
    ensures is { result ≡ if_room (takes plan.old (hung_text L.Label.kind (model_of plan.old) text.now)) }
    ensures hung { Hung L.Label.kind plan.old text.now result plan.new }
{
    if !has_room(plan, sheet) {
        return Err(Refusal::FullTables);
    }
    let mut reader = Reader::new(text, 0);
    let lacking = count_lacking(plan, &mut reader);
    if !fits(plan.label_count, lacking, plan.register.len(), LABEL_LIMIT) {
        return Err(Refusal::FullTables);
    }
    place_named(plan, text, &reader.names)
}

/// Adds a text on the root of a plan. Refused by the fault of the text, then 20 where the plan is not sound, then 21 where the
/// tables do not take the plan after it; a refusal changes no row. The plan after it is sound.
pub fn hang<L: Label>(plan: &mut Plan<'_, L>, text: &[u8]) -> Result<(), Fault>
    ensures answer { result ≡ hang_answer L.Label.kind plan.old text.now }
    ensures after { MatchResult result (λ _. model_of plan.new ≡ hung_text L.Label.kind (model_of plan.old) text.now) (λ _. tables_of plan.new ≡ tables_of plan.old) }
    ensures tables { SameTables plan.old plan.new }
    ensures sound { is_ok result ≡ true → Sound L.Label.kind plan.new }
    ensures laws { is_ok result ≡ true → HangLaws L.Label.kind (model_of plan.old) text.now }
{
    let sheet = read::<L>(text)?;
    if !is_sound(plan) {
        return Err(Refusal::UnsoundPlan.into());
    }
    hang_sound(plan, text, sheet)?;
    Ok(())
}
