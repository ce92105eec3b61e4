//! Worked pieces of Clobber: the function does nothing, and its contract is the row.
ghost use Rattle.std.specs.Prelude.{◌≡◌, ◌∷◌, [], codes};
ghost use Rattle.cg_moves.specs.Grid.{Grid};
ghost use Rattle.cg_moves.specs.Rules.{pieces};
ghost use Rattle.cg_clobber.specs.Worked.{row};
ghost use Rattle.cg_clobber.specs.Moves.{clobber};

/// The pieces of `xx.xo` are `xo` alone: no player has a move in `xx`.
pub fn worked()
    ensures { pieces clobber (row (codes "xx.xo")) ≡ row (codes "xo") ∷ [] }
{}
