//! What a text holds, in numbers.

/// How many atoms, cells and connectors a text has, and how many names stand in it once.
#[derive(Clone, Copy, PartialEq, Eq, Default, Debug)]
pub struct Sheet {
    pub atoms: usize,
    pub cells: usize,
    pub connectors: usize,
    pub once: usize,
}
