//! Laws of boards in pieces: each function does nothing, and its contract is the law.
ghost use Rattle.std.specs.Prelude.{◌≡◌, ◌↔◌, ℕ, List, ◌∷◌, ◌++◌, map, true};
ghost use Rattle.cg_moves.specs.Grid.{Grid};
ghost use Rattle.cg_moves.specs.CutByMoves.{IsCutByMoves};
ghost use Rattle.cg_moves.specs.Rules.{GameRules};
ghost use Rattle.cg_moves.specs.Reordered.{IsReordered};
ghost use Rattle.cg_pieces.specs.Cells.{CellGame, CutsByCells, IsCellGame, OneSet, pieces_of};
ghost use Rattle.cg_pieces.specs.Neighbours.{AreJoined, CutsNeighbours, IsNeighbours};
ghost use Rattle.cg_pieces.specs.Neighbours.{Neighbours, are_joined, cell_game};

/// After a move that touches cells of one set only, the pieces of the board are, in some order, the pieces of that
/// set's piece after the move and the other pieces.
pub fn one_set()
    ensures { (g : CellGame) (p : Grid) (before : List ℕ) (s : ℕ) (behind : List ℕ) (p_after piece_after : Grid)
        → IsCellGame g → g.firsts p ≡ before ++ (s ∷ behind) → OneSet g p s p_after piece_after
        → IsReordered (pieces_of g p_after)
        (map (g.piece p) before ++ (pieces_of g piece_after ++ map (g.piece p) behind)) }
{}

/// Where rules cut boards into the pieces of the sets of joined cells, each move is a move in one piece. So a board is
/// the sum of its pieces.
pub fn cut_by_cells()
    ensures { (g : CellGame) (r : GameRules) → IsCellGame g → CutsByCells g r → IsCutByMoves r }
{}

/// Two cells count as joined exactly where a row of cells that form pieces, each orthogonally adjacent to the next,
/// leads from the one to the other.
pub fn joined()
    ensures { (n : Neighbours) (p : Grid) (k l : ℕ) → IsNeighbours n → (are_joined n p k l ≡ true) ↔ AreJoined n p k l }
{}

/// In a game in which a move changes two orthogonally adjacent cells that form pieces, the pieces are those of the
/// joined sets of such cells in which some player has a move, by their first cells; and where rules cut boards into
/// them, each move is a move in one piece.
pub fn neighbours()
    ensures cells { (n : Neighbours) → IsNeighbours n → IsCellGame (cell_game n) }
    ensures cut { (n : Neighbours) (r : GameRules) → IsNeighbours n → CutsNeighbours n r → IsCutByMoves r }
{}
