//! The places that an order gives, as a line.
ghost use Rattle.std.specs.Prelude.{◌≡◌, ◌++◌, IfOk, OnOk};
ghost use Rattle.bigvosk.specs.Places.{PlacesOf, places_by, places_line, spaced};

use crate::line::OrderName;
use itoa::Buffer;
use order::shuffled::Shuffled;
use order::trying::places;
use order::written::Written;
use std::alloc::{AllocError, Global};

/// Writes a space and a number for each of `numbers`.
#[tactic(auto, using(crate::proofs::Listing::spaced_on, crate::proofs::Listing::spaced_end))]
fn write_spaced(out: &mut Vec<u8>, numbers: &[u16]) -> Result<(), AllocError>
    ensures { OnOk result (out.new.items ≡ out.old.items ++ spaced numbers.now) }
{
    // By `itoa`, as labels are: `write!` makes a formatter for each number.
    let mut digits = Buffer::new();
    for n in numbers {
        out.push(b' ')?;
        out.extend_from_slice(digits.format(*n).as_bytes())?;
    }
    Ok(())
}

// A `match` on the name, and no closure: the orders are two types.
/// The places of `n` things in an order.
#[tactic(auto, unfolding(crate::specs::Places::places_by))]
fn places_by(heap: Global, n: usize, order: OrderName) -> Result<Vec<u16>, AllocError>
    ensures { IfOk result (λ v. v.items ≡ places_by order n) }
{
    let mut found = vec![in heap; 0; n]?;
    match order {
        OrderName::Written => places(&Written, found.as_mut_slice()),
        OrderName::Shuffled(seed) => places(&Shuffled { seed }, found.as_mut_slice()),
    }
    Ok(found)
}

/// Writes the places of `n` things in an order, as a line.
#[tactic(auto, using(crate::proofs::Listing::places_are))]
pub fn write_places(out: &mut Vec<u8>, n: usize, order: OrderName) -> Result<(), AllocError>
    ensures print { OnOk result (out.new.items ≡ out.old.items ++ places_line (places_by order n)) }
    ensures places { PlacesOf order n (places_by order n) }
{
    let found = places_by(*out.allocator(), n, order)?;
    out.extend_from_slice(b"places")?;
    write_spaced(out, found.as_slice())?;
    out.push(b'\n')?;
    Ok(())
}
