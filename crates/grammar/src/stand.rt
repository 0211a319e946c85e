//! Where the reading of a hang stands.
ghost use Rattle.std.specs.Prelude.{◌≤◌};

use crate::limits::DEPTHS;
use text::packed::Name;

/// What was read last, as far as it decides what may follow.
#[derive(Clone, Copy)]
pub enum Phase {
    /// A list begins: an item, or the list's end, is due.
    Start,
    /// A comma between items: an item is due.
    Item,
    /// A label.
    Label,
    /// The parenthesis or a comma of an atom's ports, with the ports so far: a name is due.
    Ports(u8),
    /// A port's name, with the ports so far.
    Port(u8),
    /// The first name of a connector.
    First,
    /// The `=` of a connector.
    Second,
    /// The `@` of a set.
    Set,
    /// The end of an item.
    After,
}

/// The state of a reading, but for the names that stood.
#[derive(Clone, Copy)]
pub struct Stand {
    pub phase: Phase,
    /// How many cells are open.
    pub depth: usize,
    /// Whether each open cell has its set, by its depth.
    // An array with a count, and no `ArrayVec`, which is not `Copy`: a stand can be copied.
    pub sets: [bool; DEPTHS],
    /// How many connectors were begun.
    pub connectors: usize,
    ghost shallow: { depth ≤ 16 },
    ghost few: { connectors ≤ 64 },
}

/// A name that stood.
#[derive(Clone, Copy, Default)]
pub struct Standing {
    pub name: Name,
    /// Whether it stood a second time.
    pub twice: bool,
    /// Where it stood first.
    pub place: usize,
}
