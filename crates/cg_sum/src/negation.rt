//! The negative of the game of a handle.
ghost use Rattle.std.specs.Prelude.{◌≡◌, ◌+◌, ◌*◌, ◌<◌, All, IfOk, List, [], length};
ghost use Rattle.cg_arena.specs.Arena.{game_of};
ghost use Rattle.cg_canon.specs.Made.{Gives};
ghost use Rattle.cg_canon.specs.Walk.{IsWalk};
ghost use Rattle.cg_canon.specs.Works.{work_state};
ghost use Rattle.cg_form.specs.Game as tree;
ghost use Rattle.cg_form.specs.Sum.{negative as minus};
ghost use Rattle.cg_nodes.specs.Can.{can};
ghost use Rattle.cg_nodes.specs.Games.{IsGame, game_at};
ghost use Rattle.cg_sum.specs.Lists.{minus_item, minus_items, negative_items};
ghost use Rattle.cg_sum.specs.Progress.{FormMade, FormsMade, HoldsForms, indexes, negative_at_place};

use crate::item::number_at;
use crate::sides::{gather, lefts, rights};
use crate::terms::walked;
use cg_canon::{FirstTerm, Game, ValueFault, Walk, Work};
use cg_cells::CellStore;
use cg_nodes::{BoardForms, GameFacts, Handle};
use smallvec::SmallVec;
use std::alloc::{AllocError, Global};

/// The handle of the canonical form of -a, where -G = {-B | -A} over the Right options B and the Left
/// options A of G (Siegel, Combinatorial Game Theory (2013), I.1).
///
/// It makes the items of -f for each position f of a. `Positions` comes exactly where there are more
/// positions than the limit, and nothing is made then. `Depth` and `Full` come exactly where the first item
/// that isn't made is refused so; what the items before it cost is spent. `Range` never comes, since the
/// negative of a number in range is in range.
pub fn negative<B: BoardForms, S: CellStore<GameFacts<B>>>(
    alloc: Global,
    work: &mut Work<B, S>,
    a: Handle,
) -> Result<Handle, ValueFault>
    requires { IsGame (work_state S.state work.old) a }
    ensures { let W = work_state S.state work.old in Gives W (work_state S.state work.new)
        (negative_items work.old.limit (game_at W a)) (can (minus (game_at W a))) result }
{
    let walk = walked(alloc, work, a)?;
    let mut table = Vec::with_capacity(alloc, walk.positions.len())?;
    add_negatives(alloc, work, &walk, &mut table)?;
    Ok(work.handle(table[table.len() - 1]))
}

// Makes the items of the negatives of the positions, and puts them in the table.
fn add_negatives<B: BoardForms, S: CellStore<GameFacts<B>>>(
    alloc: Global,
    work: &mut Work<B, S>,
    walk: &Walk,
    table: &mut Vec<Game>,
) -> Result<(), ValueFault>
    ghost games: { List tree.Game }
    requires walk { IsWalk work.old.arena walk.now games }
    requires none { table.old.items ≡ [] }
    ensures { let W = work_state S.state work.old in FormsMade W (work_state S.state work.new) work.old.arena
        work.new.arena W.spare (minus_items games) (negative_at_place games) (length games) table.new.items result }
{
    for place in 0..walk.positions.len() {
        let negative = negative_item(alloc, work, walk, place, table.as_slice())?;
        table.push(negative)?;
    }
    Ok(())
}

// Makes the item of the negative of the position at the place, where the table has the negatives before it. On each
// side, all options of a negative come from one term, since negatives turn the order.
fn negative_item<B: BoardForms, S: CellStore<GameFacts<B>>>(
    alloc: Global,
    work: &mut Work<B, S>,
    walk: &Walk,
    place: usize,
    table: &[Game],
) -> Result<Game, ValueFault>
    ghost games: { List tree.Game }
    requires walk { IsWalk work.old.arena walk.now games }
    requires place { place < length games }
    requires holds { HoldsForms work.old.arena (negative_at_place games) place table.now }
    ensures { let W = work_state S.state work.old in FormMade W (work_state S.state work.new) work.old.arena
        work.new.arena W.spare (minus_item (game_of games place)) (negative_at_place games place) result }
{
    let f = walk.positions[place];
    if f.is_number {
        let x = number_at(work, f.game);
        return work.make_number(Some(x.negate()), 0);
    }
    let own = rights(walk, &f);
    let others = lefts(walk, &f);
    let left = negatives_of(alloc, table, own)?;
    let right = negatives_of(alloc, table, others)?;
    let first_term = FirstTerm {
        lefts: own.len(),
        rights: others.len(),
    };
    work.make_of_terms(alloc, left.as_slice(), right.as_slice(), first_term, 0)
}

// The negatives of the positions at the places.
fn negatives_of(
    alloc: Global,
    table: &[Game],
    places: &[usize],
) -> Result<SmallVec<Game, 8>, AllocError>
    requires { All (λ p. p * 1 + 0 < length table.now) places.now }
    ensures { IfOk result (λ all. all.items ≡ indexes table.now 1 0 places.now) }
{
    let mut all = SmallVec::new(alloc);
    all.reserve(places.len())?;
    gather(table, places, 1, 0, &mut all);
    Ok(all)
}
