//! What of a list of boards is prefetched before they are valued: the cells on which their values may be noted.
ghost use Rattle.std.specs.Prelude.{◌≤◌, length};
ghost use Rattle.cg_cells.specs.Store.{Spends};

use crate::cells::prefetch_board;
use crate::contents::{CELLS, content_of, contents_in};
use cg_cells::CellStore;
use cg_moves::Board;
use cg_nodes::{BoardForms, GameFacts};
use std::alloc::{AllocError, Global};

/// So many boards are prefetched at once.
const TOGETHER: usize = 32;

/// The boards from the place on that are to be prefetched when it is reached: none, or the next ones.
pub(crate) fn boards_ahead(boards: &[Board], place: usize) -> &[Board]
    requires { place ≤ length boards.now }
{
    if place % TOGETHER != 0 {
        return &[];
    }
    let end = boards.len().min(place.saturating_add(TOGETHER));
    &boards[place..end]
}

/// Puts the contents of the board behind the others. A single one is put in as it comes out.
fn add_contents(alloc: Global, board: &Board, all: &mut Vec<u32>) -> Result<(), AllocError> {
    let size = board.size();
    if 0 < size && size <= CELLS {
        all.push(content_of(board.planes(), 0, size))?;
        return Ok(());
    }
    let contents = contents_in(alloc, board.planes(), size)?;
    all.extend_from_slice(contents.as_slice())
}

/// The contents of the boards, one after another.
fn all_contents(alloc: Global, boards: &[Board]) -> Result<Vec<u32>, AllocError> {
    let mut all = Vec::with_capacity(alloc, boards.len())?;
    for board in boards {
        add_contents(alloc, board, &mut all)?;
    }
    Ok(all)
}

/// Tells the store on which cells the values of these boards of the game with this number may be noted; those of the
/// number 0 are noted nowhere. All contents are written before the first cell is prefetched, so that the store's loads
/// follow each other closely. Where there is no memory for them, nothing is prefetched.
pub(crate) fn prefetch_boards<B: BoardForms, S: CellStore<GameFacts<B>>>(
    alloc: Global,
    store: &mut S,
    number: u8,
    boards: &[Board],
)
    ensures { Spends 0 (S.state store.old) (S.state store.new) }
{
    if !(1..=15).contains(&number) {
        return;
    }
    let Ok(all) = all_contents(alloc, boards) else {
        return;
    };
    let mut contents = all.as_slice();
    for board in boards {
        let count = (board.size() as usize).div_ceil(CELLS as usize);
        let (own, others) = contents.split_at(count.min(contents.len()));
        prefetch_board(store, number, board, own);
        contents = others;
    }
}
