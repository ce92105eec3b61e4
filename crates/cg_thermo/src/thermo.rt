//! Thermographs.
ghost use Rattle.std.specs.Prelude.{◌≡◌, ◌<◌, pos, negsuc, IfOk, OnOk, Err};
ghost use Rattle.cg_canon.specs.Works.{work_state};
ghost use Rattle.cg_cells.specs.Store.{Spends};
ghost use Rattle.cg_dyadic.specs.Number.{Number, exp_of, ratio};
ghost use Rattle.cg_dyadic.specs.Wide.{places};
ghost use Rattle.cg_form.specs.Depth.{depth_of};
ghost use Rattle.cg_form.specs.Game.{number};
ghost use Rattle.cg_form.specs.Positions.{positions_of};
ghost use Rattle.cg_arena.specs.Arena.{IsIndex, game_of};
ghost use Rattle.cg_canon.specs.Walk.{IsWalk};
ghost use Rattle.cg_walls.specs.declared.TheConstants.{END};
ghost use Rattle.cg_walls.specs.Rises.{IsWall};
ghost use Rattle.cg_nodes.specs.Games.{IsGame, IsNode, game_at};
ghost use Rattle.cg_thermo.specs.Signed.{Pictured};
ghost use Rattle.cg_thermo.specs.Thermal.{NeedsMore};
ghost use Rattle.cg_thermo.specs.Thermographs.{DrawsWalls, IsThermograph};

use crate::corners::{Corners, corners_of};
use crate::fault::ThermoFault;
use crate::pairing_walls::wall_pairs_of;
use crate::wall_pair::WallPair;
use cg_canon::{Game, Read, Walk, Work};
use cg_cells::CellStore;
use cg_dyadic::{Dyadic, Wide};
use cg_nodes::{BoardForms, GameFacts, Handle, PositionsFault, known_game};
use cg_walls::{points, value};
use std::alloc::{AllocError, Global};

/// A thermograph: the mean and the temperature, and the corners of both walls.
#[derive(Debug, Drop)]
pub struct Walls {
    /// The mean.
    pub mean: Wide,
    /// The temperature.
    pub temp: Wide,
    /// The corners of the left wall.
    pub left: Corners,
    /// The corners of the right wall.
    pub right: Corners,
}

// -1/2^exp, for the exponent of a number.
fn number_temperature(x: Dyadic) -> Wide
    ensures { result ≡ ratio (negsuc 0) (exp_of x) }
{
    match Dyadic::make(-1, x.exp()) {
        Ok(temperature) => Wide::of(temperature),
        Err(_) => unreachable!(),
    }
}

// The temperature of the game: of a number that of the number, and of another game where its mast begins.
fn temperature<B: BoardForms, S: CellStore<GameFacts<B>>>(
    work: &Work<B, S>,
    game: Game,
    end: u128,
) -> Wide
    requires game { IsIndex work.now.arena game }
    requires end { end < END }
    ensures number { (x : Number) → game_of work.now.arena game ≡ number x → result ≡ ratio (negsuc 0) (exp_of x) }
    ensures other { IsNode (game_of work.now.arena game) → result ≡ ratio (pos end) places }
{
    match work.arena().read(game) {
        Read::Number(x) => number_temperature(x),
        Read::Options(_, _) => Wide::of_units(end as i128),
    }
}

// What is drawn of the pair of walls.
fn pictured(alloc: Global, wall_pair: &WallPair, temp: Wide) -> Result<Walls, AllocError>
    requires left { IsWall wall_pair.now.left }
    requires right { IsWall wall_pair.now.right }
    requires soon { wall_pair.now.end < END }
    ensures picture { IfOk result (Pictured wall_pair.now) }
    ensures temp { IfOk result (λ w. w.temp ≡ temp) }
{
    let mean = Wide::of_units(value(&wall_pair.right, wall_pair.end));
    let lefts = points(alloc, &wall_pair.left, wall_pair.end)?;
    let rights = points(alloc, &wall_pair.right, wall_pair.end)?;
    let left = corners_of(alloc, lefts.as_slice(), true)?;
    let right = corners_of(alloc, rights.as_slice(), false)?;
    Ok(Walls {
        mean,
        temp,
        left,
        right,
    })
}

// The positions of the game. The only error is out of memory.
fn each_position<B: BoardForms, S: CellStore<GameFacts<B>>>(
    alloc: Global,
    work: &mut Work<B, S>,
    game: Game,
) -> Result<Walk, AllocError>
    requires { IsIndex work.old.arena game }
    ensures walk { IfOk result (λ w. IsWalk work.old.arena w (positions_of (game_of work.old.arena game))) }
    ensures same { work.new ≡ work.old }
{
    match work.walk_within(alloc, game, u64::MAX) {
        Ok(walk) => Ok(walk),
        Err(PositionsFault::Positions) => unreachable!(),
        Err(PositionsFault::Memory) => Err(AllocError),
    }
}

/// The thermograph of the game (Siegel, Combinatorial Game Theory (2013), II.5). `Range` comes exactly where the mean
/// or the temperature of some position needs more than 60 binary places, and never for a game of a depth of at most 20.
/// The other error is out of memory.
pub fn thermograph<B: BoardForms, S: CellStore<GameFacts<B>>>(
    alloc: Global,
    work: &mut Work<B, S>,
    a: Handle,
) -> Result<Walls, ThermoFault>
    requires { IsGame (work_state S.state work.old) a }
    ensures walls { IfOk result (IsThermograph (game_at (work_state S.state work.old) a)) }
    ensures lines { IfOk result (DrawsWalls (game_at (work_state S.state work.old) a)) }
    ensures enough { OnOk result (¬ NeedsMore places (game_at (work_state S.state work.old) a)) }
    ensures range { result ≡ Err ThermoFault.Range → NeedsMore places (game_at (work_state S.state work.old) a) }
    ensures deep { result ≡ Err ThermoFault.Range → 20 < depth_of (game_at (work_state S.state work.old) a) }
    ensures spends { Spends 0 (work_state S.state work.old) (work_state S.state work.new) }
{
    known_game(work, a);
    let game = work.game(alloc, a)?;
    let walk = each_position(alloc, work, game)?;
    let wall_pairs = wall_pairs_of(alloc, work, &walk)?;
    let wall_pair = &wall_pairs[wall_pairs.len() - 1];
    let temp = temperature(work, game, wall_pair.end);
    Ok(pictured(alloc, wall_pair, temp)?)
}
