//! What a line of a script says.
ghost use Rattle.std.specs.Prelude.{◌≡◌};
ghost use Rattle.bigvosk.specs.Commands.{command_of, kind_of, order_of, places_of, told};

use crate::cut::cut;
use crate::numbers::number_up_to;
use label::named::KindName;

/// The orders of trying that a script can name.
#[derive(Clone, Copy, PartialEq, Eq, Debug)]
pub enum OrderName {
    /// First things first.
    Written,
    /// The order that a seed gives.
    Shuffled(u32),
}

/// A line of a script.
#[derive(Clone, Copy)]
pub enum Command<'t> {
    /// An empty line or a comment: nothing to do.
    Pass,
    /// The kind of labels from here on.
    Kind(KindName),
    /// Reads a hang and changes nothing.
    Read(&'t [u8]),
    /// Lists the places of so many things in an order.
    Places(usize, OrderName),
    /// No command that the program has.
    Unknown,
}

/// The most things whose places can be listed.
const MOST_PLACES: u32 = 4096;

// Compared by `==`: patterns of bytes were tried, and the proof did not close.
/// The command `kind` with this text.
fn kind_command<'t>(text: &[u8]) -> Command<'t>
    ensures { told result ≡ kind_of text.now }
{
    if text == b"words".as_slice() {
        Command::Kind(KindName::Words)
    } else if text == b"numbers".as_slice() {
        Command::Kind(KindName::Numbers)
    } else {
        Command::Unknown
    }
}

// Compared by `==`, as in `kind_command`.
/// The order that a text names: `written`, or `shuffled` and a seed.
// No `TryFrom`: its error would say no more than `None`, that the command is unknown.
#[tactic(auto, unfolding(crate::specs::Commands::order_of))]
fn order_of(text: &[u8]) -> Option<OrderName>
    ensures { result ≡ order_of text.now }
{
    if text == b"written".as_slice() {
        return Some(OrderName::Written);
    }
    let (word, seed) = cut(b' ', text);
    if word != b"shuffled".as_slice() {
        return None;
    }
    number_up_to(u32::MAX, seed).map(OrderName::Shuffled)
}

/// The command `places` with this text.
#[tactic(auto, unfolding(crate::specs::Commands::places_of))]
fn places_command<'t>(text: &[u8]) -> Command<'t>
    ensures { told result ≡ places_of text.now }
{
    let (count, order) = cut(b' ', text);
    match (number_up_to(MOST_PLACES, count), order_of(order)) {
        // Proved to fit: there is no `From` of a `u32` for `usize`.
        (Some(n), Some(order)) if n > 0 => Command::Places(n as usize, order),
        _ => Command::Unknown,
    }
}

// Compared by `==`, as in `kind_command`.
/// The command of a line: the bytes before its first space, and those past it.
pub fn command_of(line: &[u8]) -> Command<'_>
    ensures { told result ≡ command_of line.now }
{
    if let [] | [b'#', ..] = line {
        return Command::Pass;
    }
    let (word, text) = cut(b' ', line);
    if word == b"kind".as_slice() {
        kind_command(text)
    } else if word == b"read".as_slice() {
        Command::Read(text)
    } else if word == b"places".as_slice() {
        places_command(text)
    } else {
        Command::Unknown
    }
}
