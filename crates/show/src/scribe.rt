//! What a text is written with.
use plan::links::LINKS;
use plan::tables::FreeLink;
use showing::last::Last;

/// A buffer, how far it is written, and the names and numbers of links.
// There is no heap: the buffer is the caller's memory, so how far it is written stands beside it.
#[derive(Drop)]
pub struct Scribe<'a> {
    /// The buffer.
    pub out: &'a mut [u8],
    /// How many bytes were written. Those past the buffer's end are counted only.
    pub len: usize,
    /// What was written last.
    pub last: Last,
    /// The open names.
    pub free: &'a [FreeLink],
    /// The number of each link that has one.
    // One place for each link that a plan may have; the count says the next number, and is no length.
    pub numbers: [Option<u16>; LINKS],
    /// How many have one.
    pub count: u16,
}
