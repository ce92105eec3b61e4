//! The pairs of walls of the positions of a game.
ghost use Rattle.std.specs.Prelude.{◌≡◌, ◌<◌, IfOk, Err, length};
ghost use Rattle.cg_dyadic.specs.Number.{InRange};
ghost use Rattle.cg_form.specs.Game.{number};
ghost use Rattle.cg_arena.specs.Arena.{game_of};
ghost use Rattle.cg_canon.specs.Walk.{IsWalk};
ghost use Rattle.cg_thermo.specs.Progress.{AreWallPairs, HasWallPair, Rough, SomeRough, walked};

use crate::fault::ThermoFault;
use crate::highest_walls::highest_wall;
use crate::joining::joined;
use crate::wall_pair::WallPair;
use cg_canon::{Read, Walk, Work};
use cg_cells::CellStore;
use cg_dyadic::{Dyadic, Wide};
use cg_nodes::{BoardForms, GameFacts};
use cg_walls::Rise;
use std::alloc::Global;

// The pair of walls of a number.
fn number_wall_pair(alloc: Global, x: Dyadic) -> WallPair
    requires { InRange x }
    ensures { HasWallPair (number x) result }
{
    let units = Wide::of(x).units();
    WallPair {
        left: Rise::level(alloc, -units),
        right: Rise::level(alloc, units),
        end: 0,
    }
}

// The pair of walls of the position at the place, where those of the positions before it were found.
fn wall_pair_at<B: BoardForms, S: CellStore<GameFacts<B>>>(
    alloc: Global,
    work: &Work<B, S>,
    walk: &Walk,
    place: usize,
    wall_pairs: &[WallPair],
) -> Result<WallPair, ThermoFault>
    requires walk { IsWalk work.now.arena walk.now (walked work.now.arena walk.now) }
    requires place { place < length (walked work.now.arena walk.now) }
    requires before { length wall_pairs.now ≡ place }
    requires wall_pairs { AreWallPairs (walked work.now.arena walk.now) wall_pairs.now }
    ensures wall_pair { IfOk result (HasWallPair (game_of (walked work.now.arena walk.now) place)) }
    ensures range { result ≡ Err ThermoFault.Range → Rough (game_of (walked work.now.arena walk.now) place) }
{
    let position = walk.positions[place];
    match work.arena().read(position.game) {
        Read::Number(x) => Ok(number_wall_pair(alloc, x)),
        Read::Options(_, _) => {
            let lefts = &walk.options[position.lefts..position.rights];
            let rights = &walk.options[position.rights..position.end];
            let low = highest_wall(alloc, wall_pairs, lefts, true)?;
            let high = highest_wall(alloc, wall_pairs, rights, false)?;
            joined(alloc, &low, &high)
        }
    }
}

/// The pairs of walls of the positions. `Range` comes exactly where the temperature of some position needs more than 60
/// binary places.
pub(crate) fn wall_pairs_of<B: BoardForms, S: CellStore<GameFacts<B>>>(
    alloc: Global,
    work: &Work<B, S>,
    walk: &Walk,
) -> Result<Vec<WallPair>, ThermoFault>
    requires { IsWalk work.now.arena walk.now (walked work.now.arena walk.now) }
    ensures count { IfOk result (λ wall_pairs. length wall_pairs.items ≡ length (walked work.now.arena walk.now)) }
    ensures wall_pairs { IfOk result (λ wall_pairs. AreWallPairs (walked work.now.arena walk.now) wall_pairs.items) }
    ensures range { result ≡ Err ThermoFault.Range → SomeRough (walked work.now.arena walk.now) }
{
    let mut wall_pairs = Vec::with_capacity(alloc, walk.positions.len())?;
    for place in 0..walk.positions.len() {
        let wall_pair = wall_pair_at(alloc, work, walk, place, &wall_pairs)?;
        wall_pairs.push(wall_pair)?;
    }
    Ok(wall_pairs)
}
