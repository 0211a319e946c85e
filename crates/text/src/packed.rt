//! Words and line names of at most eight characters, packed into one number.
ghost use Rattle.std.specs.Prelude.{◌≡◌, ◌&&◌, ◌==◌, [], length, not};
ghost use Rattle.std.specs.List.{prefix_len};
ghost use Rattle.text.specs.Packed.{pack, padded, digits, spelling, heads, spells, underscored, Lossless, Ordered};

use crate::class::{Class, Run, class_of};
use crate::lexer::is_run;
use crate::token::NAME_LIMIT;
use arrayvec::ArrayVec;

/// A line name, packed.
#[derive(Clone, Copy, PartialEq, Eq, Default, Debug)]
pub struct Name {
    pub packed: u64,
}

impl Name {
    /// The name of some bytes.
    pub fn new(bytes: &[u8]) -> Name
        ensures { result ≡ record { packed = pack bytes.now } }
    {
        Name {
            packed: packed(bytes),
        }
    }

    /// Whether the name begins with `_`.
    pub fn is_underscored(self) -> bool
        ensures { result ≡ underscored self }
    {
        self.packed / (1 << 56) == u64::from(b'_')
    }

    /// The bytes of the name.
    pub fn spelling(self) -> ArrayVec<u8, NAME_LIMIT>
        ensures { result.items ≡ spelling self.packed }
    {
        spelling(self.packed)
    }
}

/// What is packed.
#[derive(Clone, Copy, PartialEq, Eq, Debug)]
pub enum Packing {
    Word,
    LineName,
}

/// The first eight bytes, with zeros after the last.
fn padded(bytes: &[u8]) -> [u8; 8]
    ensures { result ≡ padded 8 bytes.now }
{
    let mut padded = [0; 8];
    let count = bytes.len().min(8);
    padded[..count].copy_from_slice(&bytes[..count]);
    padded
}

/// The first eight bytes as one number, the first byte highest, with zeros after the last.
#[tactic(auto, using(crate::proofs::Packing::pack_be))]
pub fn packed(bytes: &[u8]) -> u64
    ensures { result ≡ pack bytes.now }
{
    u64::from_be_bytes(padded(bytes))
}

/// How many bytes stand before the first zero.
fn filled(bytes: &[u8]) -> usize
    ensures { result ≡ prefix_len (λ b. not (b == 0)) bytes.now }
{
    bytes.iter().take_while(|b| **b != 0).count()
}

// An array with a count, and no list: what it says of the bytes past the first zero is public.
/// The eight bytes of a packed name, and how many of them stand before the first zero.
#[tactic(auto, using(crate::proofs::Packing::bytes_spelled, crate::proofs::Packing::count_spelled))]
pub fn spelled(packed: u64) -> ([u8; 8], usize)
    ensures bytes { result.0 ≡ digits 8 packed [] }
    ensures count { result.1 ≡ length (spelling packed) }
{
    let bytes = packed.to_be_bytes();
    let count = filled(&bytes);
    (bytes, count)
}

/// The bytes that a number packs: those of its eight that stand before the first zero.
#[tactic(auto, using(crate::proofs::Packing::spelling_front, crate::proofs::Packing::spelling_short))]
pub fn spelling(packed: u64) -> ArrayVec<u8, NAME_LIMIT>
    ensures { result.items ≡ spelling packed }
{
    let (bytes, count) = spelled(packed);
    let mut name = ArrayVec::from(bytes);
    name.truncate(count);
    name
}

/// Whether a byte begins what is packed.
fn is_head(of: Packing, b: u8) -> bool
    ensures { result ≡ heads of b }
{
    match of {
        Packing::Word => class_of(b) == Class::Lower,
        Packing::LineName => class_of(b) == Class::Upper,
    }
}

/// Whether bytes are a word, or a line name.
#[tactic(auto, using(crate::proofs::Shapes::spells_shape))]
pub fn is_spelling(of: Packing, bytes: &[u8]) -> bool
    ensures { result ≡ spells of bytes.now }
{
    match bytes {
        [first, rest @ ..] => {
            is_head(of, *first) && is_run(Run::Tails, rest) && rest.len() < NAME_LIMIT
        }
        [] => false,
    }
}

/// Whether a number packs a word, or a line name.
#[tactic(auto, using(crate::proofs::Packing::spelling_front, crate::proofs::Packing::spelling_short))]
pub fn is_packed(of: Packing, number: u64) -> bool
    ensures { result ≡ (spells of (spelling number) && pack (spelling number) == number) }
{
    let (bytes, count) = spelled(number);
    let name = &bytes[..count];
    is_spelling(of, name) && packed(name) == number
}

/// Packing loses nothing of a word or a line name, and numeric order is byte order.
pub fn packing_stands()
    ensures lossless { Lossless }
    ensures ordered { Ordered }
{}
