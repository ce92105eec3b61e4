//! Boards that were found, each with a number.
ghost use Rattle.std.specs.Prelude.{◌≡◌, ◌+◌, ◌<◌, ◌≤◌, ◌∷◌, ◌++◌, [], IfNone, IfOk, IfSome, IsTrue, ◌↔◌, length, Err};
ghost use Rattle.cg_moves.specs.Found.{SameSymbols, HasKeyAt};
ghost use Rattle.cg_moves.specs.Kept.{one_more};
ghost use Rattle.cg_moves.specs.Graph.{IsAt};
ghost use Rattle.cg_moves.specs.Grid.{IsGrid};
ghost use Rattle.cg_moves.specs.Keys.{key_number, key_of};
ghost use Rattle.cg_moves.specs.Rules.{In};

use crate::pushing::narrowed;
use crate::{Board, BoardKey, Boards};
use cg_hash_index::HashIndex;
use std::alloc::{AllocError, Global};
use std::marker::Model;

/// Whether the board with the number, if there is one, has this key.
fn has_key(boards: &[Board], number: usize, key: &BoardKey) -> bool
    ensures { IsTrue result ↔ HasKeyAt boards.now number key.now }
{
    match boards.get(number) {
        Some(board) => board.key() == *key,
        None => false,
    }
}

/// Boards in the order in which they were found, each once. A board's number is its place in this order, counted from
/// 0. Contracts see the list of boards.
#[derive(Drop)]
pub(crate) struct Found {
    boards: Vec<Board>,
    /// Where boards are looked for, by the numbers of their keys.
    by_number: HashIndex,
}

impl Model for Found {
    ghost use Rattle.std.specs.Prelude.{List};
    ghost use Rattle.std.specs.Coded.{coded_list};
    ghost use Rattle.cg_moves.specs.Found.{AreFew, AreNumbers};
    ghost use Rattle.cg_moves.specs.Grid.{Grid};
    ghost use Rattle.cg_moves.specs.GridCode.{grid_code};
    ghost use Rattle.cg_moves.specs.Keys.{AreGrids};

    ghost Value = { List Grid };

    ghost coded = { coded_list grid_code };

    ghost view = { λ s. s.boards.items };

    ghost invariant = { λ s. AreNumbers s.by_number s.boards.items × AreGrids s.boards.items × AreFew s.boards.items };
}

impl Found {
    /// No boards.
    pub(crate) fn new(alloc: Global) -> Found
        ensures { result ≡ [] }
    {
        Found {
            boards: Vec::new(alloc),
            by_number: HashIndex::new(alloc),
        }
    }

    /// How many there are.
    pub(crate) fn len(&self) -> usize
        ensures { result ≡ length self.now }
    {
        self.boards.len()
    }

    /// The board with the number.
    pub(crate) fn board(&self, number: usize) -> &Board
        requires { number < length self.now }
        ensures { IsAt self.now number result.now }
    {
        &self.boards[number]
    }

    /// The boards, in the order in which they were found, without what they are looked for by.
    pub(crate) fn into_boards(self) -> Boards
        ensures { result ≡ self }
    {
        let Found {
            boards,
            by_number: _,
        } = self;
        Boards::of(boards)
    }

    /// The number of the board whose key has this number, if it was found. All have the same symbols.
    #[inline(always)]
    fn known(&self, board: &Board, key_hash: u32) -> Option<u32>
        requires same_symbols { SameSymbols (self.now ++ (board.now ∷ [])) }
        requires hash { key_hash ≡ key_number (key_of board.now) }
        ensures number { IfSome result (λ number. IsAt self.now number board.now) }
        ensures new { IfNone result (¬ In board.now self.now) }
    {
        let key = board.key();
        let boards = self.boards.as_slice();
        let found = self
            .by_number
            .find(key_hash, |number| has_key(boards, number, &key));
        match found {
            Some(number) => Some(number as u32),
            None => None,
        }
    }

    /// The number of the board, if it was found. All have the same symbols.
    pub(crate) fn find(&self, board: &Board) -> Option<u32>
        requires { SameSymbols (self.now ++ (board.now ∷ [])) }
        ensures { IfSome result (λ number. IsAt self.now number board.now) }
    {
        self.known(board, board.key().number())
    }

    /// Puts a new board, whose key has this number, behind the others, and gives its number. All have the same symbols.
    #[inline(never)]
    fn put(&mut self, board: Board, key_hash: u32) -> Result<u32, AllocError>
        requires same_symbols { SameSymbols (self.old ++ (board ∷ [])) }
        requires grid { IsGrid board }
        requires hash { key_hash ≡ key_number (key_of board) }
        ensures boards { IfOk result (λ _. self.new ≡ self.old ++ (board ∷ [])) }
        ensures number { IfOk result (λ number. number ≡ length self.old) }
    {
        let number = narrowed(self.boards.len())?;
        self.boards.reserve(1)?;
        self.by_number.add(key_hash)?;
        self.boards.push(board)?;
        Ok(number)
    }

    /// The number of the board, which is put behind the others, unless it was found. All have the same symbols.
    #[inline(always)]
    pub(crate) fn number_of(&mut self, alloc: Global, board: &Board) -> Result<u32, AllocError>
        requires { SameSymbols (self.old ++ (board.now ∷ [])) }
        ensures boards { IfOk result (λ _. self.new ≡ one_more self.old board.now) }
        ensures number { IfOk result (λ number. IsAt self.new number board.now) }
    {
        let key_hash = board.key().number();
        match self.known(board, key_hash) {
            Some(number) => Ok(number),
            None => self.put(board.copy(alloc)?, key_hash),
        }
    }
}
