//! Laws of strip games: each function does nothing, and its contract is the law.
ghost use Rattle.std.specs.Prelude.{◌≡◌, ℕ, List};
ghost use Rattle.cg_moves.specs.declared.player.Player.{Player};
ghost use Rattle.cg_moves.specs.Rising.{IsRising};
ghost use Rattle.cg_strip.specs.Rulebook.{Rulebook};
ghost use Rattle.cg_strip.specs.RuleFaults.{IsReadAs};
ghost use Rattle.cg_strip.specs.Placing.{moves_by};
ghost use Rattle.cg_strip.specs.Toads.{toads_moves};
ghost use Rattle.cg_strip.specs.Laws.{ListedAreHops, ListedArePlacements, ToadsAreStrip, toads_book, toads_text};

/// No text reads as two games.
pub fn one_game()
    ensures { (text : List ℕ) (book other : Rulebook) → IsReadAs text book → IsReadAs text other
        → book ≡ other }
{}

/// The text `.=0,0,0;T=0,0,1;F=0,1,0;L:T.>.T;L:TF.>.FT;R:.F>F.;R:.TF>FT.` reads as a strip game, which has these
/// weights and rules; and on each row Toads and Frogs has the moves of the strip game that it reads as.
pub fn toads_are_strip()
    ensures reads { IsReadAs toads_text toads_book }
    ensures moves { ToadsAreStrip }
{}

/// The moves of a strip game are exactly the placements of the player's rules, in rising order of the bytes of the
/// cells that they lead to, each once.
pub fn strip_moves()
    ensures placements { ListedArePlacements }
    ensures order { (book : Rulebook) (player : Player) (row : List ℕ) → IsRising (moves_by book.rules player row) }
{}

/// The moves of Toads and Frogs are exactly those of the game, in the same order.
pub fn toads_moves()
    ensures hops { ListedAreHops }
    ensures order { (player : Player) (row : List ℕ) → IsRising (toads_moves player row) }
{}
