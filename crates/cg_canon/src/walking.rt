//! The walk over the positions of a game of an arena.
ghost use Rattle.std.specs.Prelude.{◌≡◌, ◌<◌, ◌≤◌, ◌^◌, OnOk, Err, length};
ghost use Rattle.cg_form.specs.Extended.{extended, positions_before};
ghost use Rattle.cg_form.specs.Game.{of_list};
ghost use Rattle.cg_form.specs.Positions.{all_positions, positions_in};
ghost use Rattle.cg_arena.specs.Arena.{AreIndexes, IsIndex, game_of, games_of};
ghost use Rattle.cg_canon.specs.Walking.{AreApart, WalkStands, found_in};

use crate::walk::Walk;
use cg_arena::{Arena, Game, Read};
use cg_nodes::PositionsFault;

/// Puts the positions of the game behind those that were found. A game that was found before has all of
/// its positions there.
#[cycle(walk)]
pub(crate) fn walk_game(
    arena: &Arena,
    marks: &mut [usize],
    walk: &mut Walk,
    game: Game,
    limit: u64,
) -> Result<(), PositionsFault>
    requires apart { AreApart arena.now }
    requires game { IsIndex arena.now game }
    requires stands { WalkStands arena.now marks.old walk.old.positions.items walk.old.options.items }
    requires within { length walk.old.positions.items ≤ limit }
    ensures room { length marks.new ≡ length marks.old }
    ensures stands { OnOk result (WalkStands arena.now marks.new walk.new.positions.items walk.new.options.items) }
    ensures all { OnOk result (found_in arena.now walk.new.positions.items ≡ extended (found_in arena.now walk.old.positions.items)
        (all_positions (game_of arena.now game))) }
    ensures within { OnOk result (length walk.new.positions.items ≤ limit) }
    ensures refused { result ≡ Err PositionsFault.Positions → (limit < length (extended (found_in arena.now walk.old.positions.items)
        (all_positions (game_of arena.now game)))) × (limit < 2 ^ 63) }
{
    if walk.has(marks, game) {
        return Ok(());
    }
    walk_options(arena, marks, walk, game, limit)?;
    let position = walk.position(arena, marks, game)?;
    walk.add(marks, position, limit)?;
    Ok(())
}

/// Puts the positions of the options behind those that were found. A number has no positions but itself.
#[cycle(walk)]
fn walk_options(
    arena: &Arena,
    marks: &mut [usize],
    walk: &mut Walk,
    game: Game,
    limit: u64,
) -> Result<(), PositionsFault>
    requires apart { AreApart arena.now }
    requires game { IsIndex arena.now game }
    requires stands { WalkStands arena.now marks.old walk.old.positions.items walk.old.options.items }
    requires within { length walk.old.positions.items ≤ limit }
    ensures room { length marks.new ≡ length marks.old }
    ensures stands { OnOk result (WalkStands arena.now marks.new walk.new.positions.items walk.new.options.items) }
    ensures all { OnOk result (found_in arena.now walk.new.positions.items ≡ extended (found_in arena.now walk.old.positions.items)
        (positions_before (game_of arena.now game))) }
    ensures within { OnOk result (length walk.new.positions.items ≤ limit) }
    ensures refused { result ≡ Err PositionsFault.Positions → (limit < length (extended (found_in arena.now walk.old.positions.items)
        (positions_before (game_of arena.now game)))) × (limit < 2 ^ 63) }
{
    match arena.read(game) {
        Read::Number(_) => Ok(()),
        Read::Options(lefts, rights) => {
            walk_games(arena, marks, walk, lefts, limit)?;
            walk_games(arena, marks, walk, rights, limit)
        }
    }
}

/// Puts the positions of the games behind those that were found.
#[cycle(walk)]
fn walk_games(
    arena: &Arena,
    marks: &mut [usize],
    walk: &mut Walk,
    games: &[Game],
    limit: u64,
) -> Result<(), PositionsFault>
    requires apart { AreApart arena.now }
    requires games { AreIndexes arena.now games.now }
    requires stands { WalkStands arena.now marks.old walk.old.positions.items walk.old.options.items }
    requires within { length walk.old.positions.items ≤ limit }
    ensures room { length marks.new ≡ length marks.old }
    ensures stands { OnOk result (WalkStands arena.now marks.new walk.new.positions.items walk.new.options.items) }
    ensures all { OnOk result (found_in arena.now walk.new.positions.items ≡ extended (found_in arena.now walk.old.positions.items)
        (positions_in (of_list (games_of arena.now games.now)))) }
    ensures within { OnOk result (length walk.new.positions.items ≤ limit) }
    ensures refused { result ≡ Err PositionsFault.Positions → (limit < length (extended (found_in arena.now walk.old.positions.items)
        (positions_in (of_list (games_of arena.now games.now))))) × (limit < 2 ^ 63) }
{
    for game in games {
        walk_game(arena, marks, walk, *game, limit)?;
    }
    Ok(())
}
