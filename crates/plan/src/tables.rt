//! The tables of a plan. They lie in memory that the caller lends, and a caller may write anything into them.
use text::packed::Name;

/// An atom: a label, the row of the cell around it, and the links at its ports, of which the first `arity` count.
#[derive(Clone, Copy)]
pub struct Atom<L> {
    pub label: L,
    pub cell: u8,
    pub arity: u8,
    // The caller's memory too, so the number of ports stands beside them.
    pub links: [u16; 8],
}

/// A cell: the row of the cell around it, and its set. The root alone has no parent.
#[derive(Clone, Copy)]
pub struct Cell {
    pub parent: Option<u8>,
    pub set: u8,
}

/// An open name, and the link that it is an end of.
#[derive(Clone, Copy, Default)]
pub struct FreeLink {
    pub name: Name,
    pub link: u16,
}

/// A row of the register: a label, and how many atoms have it.
#[derive(Clone, Copy)]
pub struct Census<L> {
    pub label: L,
    pub atoms: u16,
}

// The tables and their counts are the caller's memory, so they stand side by side in its own form, and no `Vec` holds them.
// No method gives the rows that count: a caller could call it too, and would have to show first that they fit.
/// A plan. Of each table the first rows count, as many as the number beside it says; the others are free.
#[derive(Drop)]
pub struct Plan<'a, L> {
    pub atoms: &'a mut [Atom<L>],
    pub atom_count: usize,
    pub cells: &'a mut [Cell],
    pub cell_count: usize,
    pub free: &'a mut [FreeLink],
    pub free_count: usize,
    pub register: &'a mut [Census<L>],
    pub label_count: usize,
}
