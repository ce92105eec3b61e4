//! The greatest of the sides of some options.
ghost use Rattle.std.specs.Prelude.{◌≡◌, ◌<◌, ℕ, All, IfOk, List, length};
ghost use Rattle.cg_arena.specs.Arena.{game_of, games_of};
ghost use Rattle.cg_form.specs.Game.{Game};
ghost use Rattle.cg_form.specs.Simple.{Decides};
ghost use Rattle.cg_walls.specs.Rises.{IsWall, value_at};
ghost use Rattle.cg_thermo.specs.Progress.{AreWallPairs};
ghost use Rattle.cg_thermo.specs.HighestWalls.{IsHighestWall, side_value};

use crate::wall_pair::WallPair;
use cg_walls::{BOUND, Rise, higher};
use std::alloc::{AllocError, Global};

/// The right wall, or the negative of the left wall, of the game at the place.
fn side_of(wall_pairs: &[WallPair], place: usize, right: bool) -> &Rise
    requires wall_pairs { (games : List Game) × AreWallPairs games wall_pairs.now }
    requires place { place < length wall_pairs.now }
    ensures wall { IsWall result.now }
    ensures value { (games : List Game) → AreWallPairs games wall_pairs.now
        → (d : Decides) (t : ℕ) → value_at result.now t ≡ side_value d right t (game_of games place) }
{
    let wall_pair = &wall_pairs[place];
    if right {
        &wall_pair.right
    } else {
        &wall_pair.left
    }
}

/// The greatest of the right walls of the games at the places, or of the negatives of their left walls. The only error
/// is out of memory.
#[inline(always)]
pub(crate) fn highest_wall(
    alloc: Global,
    wall_pairs: &[WallPair],
    places: &[usize],
    right: bool,
) -> Result<Rise, AllocError>
    requires wall_pairs { (games : List Game) × AreWallPairs games wall_pairs.now }
    requires places { All (λ p. p < length wall_pairs.now) places.now }
    ensures wall { IfOk result IsWall }
    ensures highest_wall { (games : List Game) → AreWallPairs games wall_pairs.now → IfOk result (IsHighestWall right (games_of games places.now)) }
{
    let Some((first, others)) = places.split_first() else {
        return Ok(Rise::level(alloc, -BOUND));
    };
    let mut highest_wall = side_of(wall_pairs, *first, right).copy(alloc)?;
    for place in others {
        highest_wall = higher(alloc, &highest_wall, side_of(wall_pairs, *place, right))?;
    }
    Ok(highest_wall)
}
