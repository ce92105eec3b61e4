//! Worked pieces of Domineering: the function does nothing, and its contract is the row.
ghost use Rattle.std.specs.Prelude.{◌≡◌, ◌∷◌, [], codes};
ghost use Rattle.cg_moves.specs.Rules.{pieces};
ghost use Rattle.cg_domineering.specs.Moves.{domineering};
ghost use Rattle.cg_domineering.specs.Worked.{of_cells};

/// The pieces of `.#.|..#` are `.#|..` alone: no player has a move in the lone cell. Those of `..#..` are twice `..`.
pub fn worked()
    ensures bounded { pieces domineering (of_cells 2 3 (codes ".#...#")) ≡ of_cells 2 2 (codes ".#..") ∷ [] }
    ensures twice { pieces domineering (of_cells 1 5 (codes "..#..")) ≡ of_cells 1 2 (codes "..") ∷ (of_cells 1 2 (codes "..") ∷ []) }
{}
