//! The contents in which the cells of a board are written.
ghost use Rattle.std.specs.Prelude.{◌≡◌, ◌+◌, ◌-◌, ◌/◌, ◌%◌, ◌^◌, ◌≤◌, ◌<◌, IfOk, length};
ghost use Rattle.cg_nodes.specs.Boards.{AreWritten, content_of};
ghost use Rattle.cg_values.specs.Contents.{apart, places_at};
ghost use Rattle.cg_values.specs.Notes.{places};

use cg_moves::{Board, Planes};
use smallvec::SmallVec;
use std::alloc::{AllocError, Global};

/// How many cells a content holds.
pub(crate) const CELLS: u8 = 16;

/// The word with bit i of these bits at place 2i.
fn spread(bits: u16) -> u32
    ensures { result ≡ apart 16 bits }
{
    let word = bits as u32;
    let word = (word | word << 8) & 0x00FF_00FF;
    let word = (word | word << 4) & 0x0F0F_0F0F;
    let word = (word | word << 2) & 0x3333_3333;
    (word | word << 1) & 0x5555_5555
}

/// So many bits of the word, from the place on.
fn bits_at(word: u64, start: u8, count: u8) -> u16
    requires start { start < 64 }
    requires few { count ≤ 16 }
    ensures { result ≡ word / 2 ^ start % 2 ^ count }
{
    let mask: u64 = (1 << count) - 1;
    (word >> start & mask) as u16
}

/// The content of the cells from the start on and before the end.
pub(crate) fn content_of(planes: Planes, start: u8, end: u8) -> u32
    requires start { start < end }
    requires few { end ≤ start + 16 }
    requires end { end ≤ 64 }
    ensures { result ≡ content_of (places_at planes start (end - start)) }
{
    let low = spread(bits_at(planes.a, start, end - start));
    let high = spread(bits_at(planes.b, start, end - start));
    low + 2 * high
}

/// The contents of so many cells.
pub(crate) fn contents_in(
    alloc: Global,
    planes: Planes,
    size: u8,
) -> Result<SmallVec<u32, 4>, AllocError>
    requires { size ≤ 64 }
    ensures written { IfOk result (λ all. AreWritten (places_at planes 0 size) all.items) }
    ensures few { IfOk result (λ all. length all.items ≤ 4) }
{
    let mut all = SmallVec::new(alloc);
    let mut start = 0;
    while start < size {
        let end = (start + CELLS).min(size);
        all.push(content_of(planes, start, end))?;
        start = end;
    }
    Ok(all)
}

/// The contents of the board, whose row has at most 4 symbols.
pub(crate) fn contents_of(alloc: Global, board: &Board) -> Result<SmallVec<u32, 4>, AllocError>
    requires { length board.now.symbols ≤ 4 }
    ensures written { IfOk result (λ all. AreWritten (places board.now.symbols board.now.cells) all.items) }
    ensures few { IfOk result (λ all. length all.items ≤ 4) }
{
    contents_in(alloc, board.planes(), board.size())
}
