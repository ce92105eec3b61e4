//! Lists of boards and of cells.
ghost use Rattle.std.specs.Prelude.{◌≡◌, ◌↔◌, IsTrue, [], length};

use crate::Board;
use std::marker::Model;

/// Boards in their order. Contracts see a list of boards.
#[derive(Debug, Drop)]
pub struct Boards {
    items: Vec<Board>,
}

impl Model for Boards {
    ghost use Rattle.std.specs.Prelude.{List};
    ghost use Rattle.std.specs.Coded.{coded_list};
    ghost use Rattle.cg_moves.specs.Grid.{Grid};
    ghost use Rattle.cg_moves.specs.GridCode.{grid_code};

    ghost Value = { List Grid };

    ghost coded = { coded_list grid_code };

    ghost view = { λ s. s.items.items };
}

impl Boards {
    /// These boards.
    pub fn of(items: Vec<Board>) -> Boards
        ensures { result ≡ items.items }
    {
        Boards { items }
    }

    /// How many there are.
    pub fn len(&self) -> usize
        ensures { result ≡ length self.now }
    {
        self.items.len()
    }

    /// Whether there is none.
    pub fn is_empty(&self) -> bool
        ensures { IsTrue result ↔ (self.now ≡ []) }
    {
        self.items.is_empty()
    }

    /// The boards, in their order.
    pub fn as_slice(&self) -> &[Board]
        ensures { result.now ≡ self.now }
    {
        &self.items
    }

    /// The boards in a vector, in their order.
    pub fn into_vec(self) -> Vec<Board>
        ensures { result.items ≡ self }
    {
        let Boards { items } = self;
        items
    }
}

/// The cells of a board, row by row. Contracts see the list of their symbols.
#[derive(Debug, Drop)]
pub struct Cells {
    items: Vec<u8>,
}

impl Model for Cells {
    ghost use Rattle.std.specs.Prelude.{List, ℕ};

    ghost Value = { List ℕ };

    ghost view = { λ s. s.items.items };
}

impl Cells {
    /// These cells.
    pub fn of(items: Vec<u8>) -> Cells
        ensures { result ≡ items.items }
    {
        Cells { items }
    }

    /// How many there are.
    pub fn len(&self) -> usize
        ensures { result ≡ length self.now }
    {
        self.items.len()
    }

    /// Whether there is none.
    pub fn is_empty(&self) -> bool
        ensures { IsTrue result ↔ (self.now ≡ []) }
    {
        self.items.is_empty()
    }

    /// The cells, in their order.
    pub fn as_slice(&self) -> &[u8]
        ensures { result.now ≡ self.now }
    {
        &self.items
    }

    /// The cells in a vector, in their order.
    pub fn into_vec(self) -> Vec<u8>
        ensures { result.items ≡ self }
    {
        let Cells { items } = self;
        items
    }
}
