//! The cells on which values of boards are noted.
ghost use Rattle.std.specs.Prelude.{◌≡◌, ◌+◌, ◌*◌, ◌≤◌, ◌∷◌, ◌++◌, [], true, Some, length, reverse};
ghost use Rattle.cg_cells.specs.Store.{Spends, thing_at};
ghost use Rattle.cg_nodes.specs.Boards.{are_of_board};
ghost use Rattle.cg_nodes.specs.Meant.{board};
ghost use Rattle.cg_values.specs.Chunks.{ChunksAs, IsChunks, chunked};

use cg_cells::{CellStore, Id, Key};
use cg_moves::Board;
use cg_nodes::{BoardForms, GameFacts};

/// The cell of the content and the contents after it. It spends one claim.
fn chunk<B: BoardForms, S: CellStore<GameFacts<B>>>(
    store: &mut S,
    content: u32,
    next: Option<Id>,
) -> Id
    requires spare { 1 ≤ (S.state store.old).spare }
    requires next { IsChunks (S.state store.old) next }
    ensures chunks { ChunksAs (S.state store.new) (Some result) (content ∷ chunked (S.state store.old) next) }
    ensures spends { Spends 1 (S.state store.old) (S.state store.new) }
{
    let key = Key::chunk(content, next);
    store.claim(key)
}

/// The first chunk of the contents. It spends a claim for each.
fn chunks<B: BoardForms, S: CellStore<GameFacts<B>>>(store: &mut S, contents: &[u32]) -> Id
    requires some { 1 ≤ length contents.now }
    requires spare { length contents.now ≤ (S.state store.old).spare }
    ensures chunks { ChunksAs (S.state store.new) (Some result) contents.now }
    ensures spends { Spends (length contents.now) (S.state store.old) (S.state store.new) }
{
    let mut left = contents.len() - 1;
    let mut first = chunk(store, contents[left], None);
    while left > 0 {
        left -= 1;
        first = chunk(store, contents[left], Some(first));
    }
    first
}

/// The cell of the board of the game with this number, of so many rows and columns, by the contents of its cells. It
/// spends a claim more than there are contents.
pub(crate) fn board_cell<B: BoardForms, S: CellStore<GameFacts<B>>>(
    store: &mut S,
    number: u8,
    rows: u8,
    columns: u8,
    contents: &[u32],
) -> Id
    requires number { (1 ≤ number) × (number ≤ 15) }
    requires rows { (1 ≤ rows) × (rows ≤ 64) }
    requires columns { (1 ≤ columns) × (columns ≤ 64) }
    requires some { 1 ≤ length contents.now }
    requires written { are_of_board number rows columns contents.now ≡ true }
    requires spare { length contents.now + 1 ≤ (S.state store.old).spare }
    ensures stands { thing_at (S.state store.new) result ≡ Some (board number rows columns contents.now) }
    ensures spends { Spends (length contents.now + 1) (S.state store.old) (S.state store.new) }
{
    let first = chunks(store, contents);
    let key = Key::board(number, rows, columns, first);
    store.claim(key)
}

/// Tells the store that the chunks of the contents may be claimed soon, and answers the id that the first would most
/// likely have.
fn prefetch_chunks<B: BoardForms, S: CellStore<GameFacts<B>>>(
    store: &mut S,
    contents: &[u32],
) -> Option<Id>
    ensures { Spends 0 (S.state store.old) (S.state store.new) }
{
    let mut first = None;
    for content in contents.iter().rev() {
        first = Some(store.prefetch_claim(Key::chunk(*content, first)));
    }
    first
}

/// Tells the store that the cell of the board, by the contents of its cells, and the value that is noted on it may be
/// asked for soon.
pub(crate) fn prefetch_board<B: BoardForms, S: CellStore<GameFacts<B>>>(
    store: &mut S,
    number: u8,
    board: &Board,
    contents: &[u32],
)
    requires { (1 ≤ number) × (number ≤ 15) }
    ensures { Spends 0 (S.state store.old) (S.state store.new) }
{
    if let Some(first) = prefetch_chunks(store, contents) {
        let key = Key::board(number, board.rows(), board.columns(), first);
        let cell = store.prefetch_claim(key);
        store.prefetch_note(cell);
    }
}
