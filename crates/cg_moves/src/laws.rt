//! Laws of the boards that play comes to: each function does nothing, and its contract is the law.
ghost use Rattle.std.specs.Prelude.{◌≡◌, ◌↔◌, ℕ, Bool, List, Err, Some, slice_get, true};
ghost use Rattle.cg_moves.specs.Grid.{Grid, IsGrid};
ghost use Rattle.cg_moves.specs.Raw.{IsSumOfPieces, IsTreeOfMoves};
ghost use Rattle.cg_moves.specs.PieceReach.{IsListOfPieceReached};
ghost use Rattle.cg_moves.specs.Reach.{IsListOfReached};
ghost use Rattle.cg_moves.specs.Rising.{IsRising, rising};
ghost use Rattle.cg_moves.specs.CutByMoves.{IsCutByMoves};
ghost use Rattle.cg_moves.specs.Lawful.{AreMoves, IsCut};
ghost use Rattle.cg_moves.specs.Rules.{GameRules, In, cuts};
ghost use Rattle.cg_moves.specs.Keys.{key_of};
ghost use Rattle.cg_moves.specs.Texts.{cell_places, read_of};

use crate::{Board, BoardFault, Rules};

/// The tree of all moves from a board of the game has as Left options the trees of the boards that Left's moves lead
/// to, and as Right options those of the boards that Right's moves lead to.
pub fn trees<R: Rules>(rules: &R)
    ensures { (p : Grid) → (R.game rules.now).has p ≡ true → IsTreeOfMoves (R.game rules.now) p }
{
    rules.lawful();
}

/// The boards that play can come to from a board of the game are those of the boards that Left's moves lead to, those
/// of the boards that Right's moves lead to, and the board itself.
pub fn reached<R: Rules>(rules: &R)
    ensures { (p : Grid) → (R.game rules.now).has p ≡ true → IsListOfReached (R.game rules.now) p }
{
    rules.lawful();
}

/// Lists of cells in rising order, each once: the order is strict, and the members are those that were given.
pub fn rising()
    ensures order { (xs : List (List ℕ)) → IsRising (rising xs) }
    ensures members { (xs : List (List ℕ)) (x : List ℕ) → In x (rising xs) ↔ In x xs }
{}

/// Where the rules cut, the board, which must be one of the game, is the sum of its pieces, up to equality of games.
pub fn l9<R: Rules>(rules: &R, board: &Board)
    requires cuts { cuts (R.game rules.now) ≡ true }
    requires has { (R.game rules.now).has board.now ≡ true }
    ensures { IsSumOfPieces (R.game rules.now) board.now }
{
    rules.lawful();
}

/// Rules cut lawfully where each move of a board is a move in one piece that leaves the other pieces as they are, and
/// each move in a piece is such a move of the board: then the board is the sum of its pieces.
pub fn cut_by_moves()
    ensures { (r : GameRules) → AreMoves r → IsCutByMoves r → IsCut r }
{}

/// Where the rules cut, the boards that play can come to from the pieces of a board of the game are, for each piece,
/// those of the boards that Left's moves on it lead to, those of the boards that Right's moves lead to, and the piece
/// itself.
pub fn reached_pieces<R: Rules>(rules: &R)
    ensures { (p : Grid) → cuts (R.game rules.now) ≡ true → (R.game rules.now).has p ≡ true
        → IsListOfPieceReached (R.game rules.now) p }
{
    rules.lawful();
}

/// Where a text is refused as too large, the place is that of its 65th cell.
pub fn large()
    ensures { (symbols : List ℕ) (one_row : Bool) (text : List ℕ) (place : ℕ)
        → read_of symbols one_row text ≡ Err (BoardFault.Large place) → slice_get (cell_places one_row 1 text) 64 ≡ Some place }
{}

/// Boards with the same symbols have the same key exactly if they are equal.
pub fn keys()
    ensures { (p q : Grid) → IsGrid p → IsGrid q → p.symbols ≡ q.symbols → (key_of p ≡ key_of q) ↔ (p ≡ q) }
{}
