//! The bit fields of a key.
ghost use Rattle.std.specs.Prelude.{◌≡◌, ℕ, ℤ, ◌+◌, ◌<◌, ◌^◌, Option};
ghost use Rattle.cg_cells.specs.Layout.{IsLink, id_field, num_field, NumFits};

use crate::Id;

/// Each constant is the power of two at which a field starts. This one is for the kind.
pub(crate) const KIND: u64 = 1 << 61;
/// The exponent of a number, above the 53 bits of its numerator.
pub(crate) const EXPONENT: u64 = 1 << 53;
/// The next chunk, above the 32 bits of a chunk's content.
pub(crate) const NEXT: u64 = 1 << 32;
/// A second id, above the 27 bits of the first.
pub(crate) const SECOND: u64 = 1 << 27;
/// The number of a board's game.
pub(crate) const GAME: u64 = 1 << 54;
/// The rows of a board.
pub(crate) const ROWS: u64 = 1 << 47;
/// The columns of a board.
pub(crate) const COLUMNS: u64 = 1 << 40;
/// The sign of a long number, above its first chunk and the 6 bits of its exponent.
pub(crate) const SIGN: u64 = 1 << 33;

/// The field of an id: the id plus 1, and 0 for none.
pub(crate) fn field_of(id: Option<Id>) -> u64
    ensures value { result ≡ id_field id }
    ensures link { IsLink id }
{
    match id {
        None => 0,
        Some(id) => id.number() as u64 + 1,
    }
}

pub(crate) fn link_in(field: u64) -> Option<Id>
    ensures { (o : Option ℕ) → IsLink o → id_field o ≡ field → result ≡ o }
{
    if field == 0 || field > 1 << 26 {
        None
    } else {
        Some(Id::new((field - 1) as u32))
    }
}

pub(crate) fn id_in(field: u64) -> Id
    ensures { (i : ℕ) → i < 2 ^ 26 → i + 1 ≡ field → result ≡ i }
{
    if field == 0 || field > 1 << 26 {
        Id::new(0)
    } else {
        Id::new((field - 1) as u32)
    }
}

/// The numerator in 53 bits of two's complement.
pub(crate) fn bits_of(num: i64) -> u64
    requires { NumFits num }
    ensures { result ≡ num_field num }
{
    if num < 0 {
        (num + (1 << 53)) as u64
    } else {
        num as u64
    }
}

/// The inverse of `bits_of`.
pub(crate) fn num_in(bits: u64) -> i64
    requires { bits < 2 ^ 53 }
    ensures { (num : ℤ) → NumFits num → num_field num ≡ bits → result ≡ num }
{
    if bits < 1 << 52 {
        bits as i64
    } else {
        bits as i64 - (1 << 53)
    }
}
