//! Where the placing of a text stands.
use plan::links::LINKS;

/// The innermost cell that is open, the link of a connector's first name, and what each link has become by the connectors so far.
#[derive(Drop)]
pub struct Hand {
    pub inside: u8,
    pub first: u16,
    // One place for each link that a plan may have, and no length of its own.
    pub became: [u16; LINKS],
}
