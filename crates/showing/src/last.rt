//! What was written last, as far as it decides what goes before the next.

#[derive(Clone, Copy)]
pub enum Last {
    /// Nothing yet in this list of items.
    Nothing,
    /// An atom's label.
    Label,
    /// A port of an atom, whose parenthesis is still open.
    Port,
    /// The end of an item.
    Item,
}
