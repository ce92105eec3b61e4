//! How far the games of a list go among the numbers.
//!
//! Where the keys show that a game goes further than each of a list, none of the list is as good for the player, and
//! none of them has to be looked at.
ghost use Rattle.std.specs.Prelude.{[], ◌∷◌, Bool, List, IsTrue};
ghost use Rattle.cg_form.specs.Game.{Game};
ghost use Rattle.cg_form.specs.Known.{EachLess};
ghost use Rattle.cg_arena.specs.Keys.{HasKeys};
ghost use Rattle.cg_arena.specs.Reach.{AreBounds};

use crate::keys::Keys;

/// Above each key: 2^126 - 1.
const BEYOND: i128 = 85_070_591_730_234_615_865_843_651_857_942_052_863;

/// Between which keys those of the games of a list lie.
#[derive(Clone, Copy)]
pub(crate) struct Bounds {
    pub least: Keys,
    pub greatest: Keys,
}

impl Bounds {
    /// Of no games.
    pub fn none() -> Bounds
        ensures { AreBounds [] result }
    {
        Bounds {
            least: Keys {
                low: BEYOND,
                high: BEYOND,
            },
            greatest: Keys {
                low: -BEYOND,
                high: -BEYOND,
            },
        }
    }

    /// Of one game more.
    pub fn with(&self, game: &Keys) -> Bounds
        ensures { (gs : List Game) (g : Game) → AreBounds gs self.now → HasKeys g game.now → AreBounds (g ∷ gs) result }
    {
        Bounds {
            least: Keys {
                low: self.least.low.min(game.low),
                high: self.least.high.min(game.high),
            },
            greatest: Keys {
                low: self.greatest.low.max(game.low),
                high: self.greatest.high.max(game.high),
            },
        }
    }

    /// Whether the keys show that no game of the list is as good for the player as the game.
    pub fn are_passed(&self, left: bool, game: &Keys) -> bool
        ensures { (gs : List Game) (g : Game) → AreBounds gs self.now → HasKeys g game.now → IsTrue result → EachLess left g gs }
    {
        if left {
            if game.low > self.greatest.low {
                return true;
            }
            return game.high > self.greatest.high;
        }
        if game.low < self.least.low {
            return true;
        }
        game.high < self.least.high
    }
}
