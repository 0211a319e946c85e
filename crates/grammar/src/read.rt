//! Reading a whole hang.
ghost use Rattle.std.specs.Prelude.{◌≡◌, ◌+◌, ◌^◌, ◌<◌};
ghost use Rattle.grammar.specs.Laws.{ReadingLaws, reading_fault};
ghost use Rattle.grammar.specs.Sheets.{tally, sheet_of, refusal_of};

use crate::event::Event;
use crate::pull::limit_length;
use crate::reader::Reader;
use crate::sheet::Sheet;
use fault::Fault;
use label::kind::Label;

/// One event more.
fn count<L: Label>(sheet: Sheet, event: Event<L>) -> Sheet
    requires { sheet.atoms + sheet.cells + sheet.connectors < 2 ^ 32 }
    ensures { result ≡ tally sheet event }
{
    match event {
        Event::Label(_) => Sheet {
            atoms: sheet.atoms + 1,
            ..sheet
        },
        Event::Enter => Sheet {
            cells: sheet.cells + 1,
            ..sheet
        },
        Event::First(_) => Sheet {
            connectors: sheet.connectors + 1,
            ..sheet
        },
        _ => sheet,
    }
}

/// Reads a hang and changes nothing: what it holds, or its fault.
pub fn read<L: Label>(text: &[u8]) -> Result<Sheet, Fault>
    ensures is { result ≡ sheet_of L.kind text.now }
    ensures fault { refusal_of result ≡ reading_fault L.kind text.now }
    ensures laws { ReadingLaws L.kind text.now }
{
    limit_length(text)?;
    let mut reader = Reader::new(text, 0);
    let mut sheet = Sheet::default();
    while let Some(event) = reader.next::<L>()? {
        sheet = count(sheet, event);
    }
    sheet.once = reader.names.once();
    Ok(sheet)
}
