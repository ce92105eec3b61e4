//! The place that a numeral writes.
ghost use Rattle.std.specs.Prelude.{◌≡◌, ◌<◌, ◌^◌, ℕ, Some, IfOk, decimal};
ghost use Rattle.cg_cert.specs.Reads.{IsPlace};

use std::alloc::{AllocError, Global};
use std::str::from_utf8;

/// The number that the digits write, where they write one in decimal.
fn number_of(digits: &[u8]) -> Option<usize>
    ensures { (n : ℕ) → n < 2 ^ 64 → decimal n ≡ digits.now → result ≡ Some n }
{
    match from_utf8(digits) {
        Ok(text) => text.parse::<usize>().ok(),
        Err(_) => None,
    }
}

/// The place below the count whose digits these are.
pub(crate) fn place_of(
    alloc: Global,
    digits: &[u8],
    count: usize,
) -> Result<Option<usize>, AllocError>
    ensures { IfOk result (λ r. IsPlace count digits.now r) }
{
    let Some(place) = number_of(digits) else {
        return Ok(None);
    };
    // A numeral with zeros in front is none: it isn't what is written of its number.
    if place < count && place.to_string(alloc)?.as_bytes() == digits {
        return Ok(Some(place));
    }
    Ok(None)
}
