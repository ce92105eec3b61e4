//! Words of 64 bits, of which each cell of a board has one.
ghost use Rattle.std.specs.Prelude.{◌≡◌, ℕ, ◌+◌, ◌-◌, ◌*◌, ◌%◌, ◌<◌, ◌≤◌, ◌==◌, ◌&&◌, nat_lt, if◌then◌else◌};
ghost use Rattle.std.specs.Int.{bit_at};
ghost use Rattle.cg_moves.specs.Words.{IsWithBit, Marks};

/// The bit at this place, 0 or 1.
pub fn bit(word: u64, place: u8) -> u8
    requires { place < 64 }
    ensures value { result ≡ bit_at word place }
    ensures one { result ≤ 1 }
{
    (word >> place & 1) as u8
}

/// The word with this bit, 0 or 1, at the place.
pub fn with_bit(word: u64, place: u8, bit: u8) -> u64
    requires place { place < 64 }
    requires bit { bit ≤ 1 }
    ensures { IsWithBit word result place bit }
{
    if bit == 0 {
        word & !(1 << place)
    } else {
        word | 1 << place
    }
}

/// The word whose bit is 1 where the word has this bit, 0 or 1.
pub(crate) fn matching_bits(word: u64, bit: u8) -> u64
    requires { bit ≤ 1 }
    ensures { (i : ℕ) → i < 64 → bit_at result i ≡ (if bit_at word i == bit then 1 else 0) }
{
    if bit == 0 { !word } else { word }
}

/// The word of all cells of a board of this size, 1 to 64.
pub fn all_cells(size: u8) -> u64
    requires some { 1 ≤ size }
    requires few { size ≤ 64 }
    ensures { Marks result (λ i. nat_lt i size) }
{
    u64::MAX >> (64 - size)
}

/// The word of the cells of the first column. Twice as many rows are marked at each step.
pub fn first_column(rows: u8, columns: u8) -> u64
    requires some { 1 ≤ columns }
    requires few { rows * columns ≤ 64 }
    ensures { Marks result (λ i. nat_lt i (rows * columns) && (i % columns == 0)) }
{
    let size = rows * columns;
    if size == 0 {
        return 0;
    }
    let mut cells = 1;
    let mut height = columns;
    while height < size {
        cells |= moved_on(cells, height);
        height *= 2;
    }
    cells & all_cells(size)
}

/// The word with each bit so many places on. Bits past the last place are gone.
pub fn moved_on(word: u64, by: u8) -> u64
    ensures first { (i : ℕ) → i < by → bit_at result i ≡ 0 }
    ensures others { (i : ℕ) → by ≤ i → i < 64 → bit_at result i ≡ bit_at word (i - by) }
{
    if by < 64 { word << by } else { 0 }
}

/// The word with each bit so many places back. The first bits are gone.
pub fn moved_back(word: u64, by: u8) -> u64
    ensures { (i : ℕ) → bit_at result i ≡ bit_at word (i + by) }
{
    if by < 64 { word >> by } else { 0 }
}
