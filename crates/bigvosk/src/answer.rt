//! The answers to commands.
ghost use Rattle.std.specs.Prelude.{◌≡◌, ◌++◌, OnOk};
ghost use Rattle.bigvosk.specs.Answers.{outcome_of, points, refused, sheet_line};

use crate::point::write_pointing;
use fault::{Fault, Layer};
use grammar::sheet::Sheet;
use std::io::{self, Write};

/// Whether lines that point at the place follow a refusal.
fn is_pointed(fault: Fault) -> bool
    ensures { result ≡ points fault.refusal }
{
    matches!(fault.number(), 2..=14) && matches!(fault.layer(), Layer::Text | Layer::Grammar)
}

/// Writes a refusal, and the lines that point at its place in the text.
#[tactic(auto, unfolding(crate::specs::Answers::refused))]
fn write_refusal(out: &mut Vec<u8>, fault: Fault, text: &[u8]) -> io::Result<()>
    ensures { OnOk result (out.new.items ≡ out.old.items ++ refused fault text.now) }
{
    writeln!(out, "{fault}")?;
    if is_pointed(fault) {
        write_pointing(out, text, fault.place)?;
    }
    Ok(())
}

/// Writes what was read, as a line.
fn write_sheet(out: &mut Vec<u8>, sheet: Sheet) -> io::Result<()>
    ensures { OnOk result (out.new.items ≡ out.old.items ++ sheet_line sheet) }
{
    let Sheet {
        atoms,
        cells,
        connectors,
        once,
    } = sheet;
    writeln!(
        out,
        "read {atoms} pieces, {cells} bays, {connectors} connectors, {once} names standing once"
    )
}

/// Writes what reading a text answered.
pub fn write_outcome(
    out: &mut Vec<u8>,
    outcome: Result<Sheet, Fault>,
    text: &[u8],
) -> io::Result<()>
    ensures { OnOk result (out.new.items ≡ out.old.items ++ outcome_of outcome text.now) }
{
    match outcome {
        Ok(sheet) => write_sheet(out, sheet),
        Err(fault) => write_refusal(out, fault, text),
    }
}
