//! What a hang is read to.
use text::packed::Name;

/// One thing that stands in a hang, in the order of the text.
#[derive(Clone, Copy)]
pub enum Event<L> {
    /// An atom, by its label.
    Label(L),
    /// The next port of that atom, by the name of its link.
    Port(Name),
    /// A cell begins.
    Enter,
    /// The cell that was begun last, of those not ended yet, ends.
    Leave,
    /// The set of the cell around it.
    Set(u8),
    /// The first name of a connector.
    First(Name),
    /// Its second name.
    Second(Name),
}
