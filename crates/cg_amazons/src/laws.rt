//! Laws of Amazons: each function does nothing, and its contract is the law.
ghost use Rattle.std.specs.Prelude.{ℕ, ◌≤◌, ◌↔◌, List};
ghost use Rattle.cg_moves.specs.declared.player.Player.{Player};
ghost use Rattle.cg_moves.specs.Grid.{Grid};
ghost use Rattle.cg_moves.specs.Rising.{IsRising};
ghost use Rattle.cg_moves.specs.Rules.{In};
ghost use Rattle.cg_amazons.specs.Amazons.{IsAmazonsMove, amazons_moves};

/// The moves of Amazons are exactly those of the game, in rising order of the bytes of the cells that they lead to,
/// each once.
pub fn amazons_moves()
    ensures moves { (player : Player) (p : Grid) (after : List ℕ) → 1 ≤ p.columns
        → In after (amazons_moves player p) ↔ IsAmazonsMove p.columns player p.cells after }
    ensures order { (player : Player) (p : Grid) → IsRising (amazons_moves player p) }
{}
