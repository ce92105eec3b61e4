//! The item of the sum of two positions.
ghost use Rattle.std.specs.Prelude.{◌≡◌, ◌+◌, ◌*◌, ◌≤◌, ◌<◌, ◌++◌, ◌⊎◌, All, IfOk, IfSome, IsTrue, List, length, true};
ghost use Rattle.cg_arena.specs.Arena.{IsIndex, game_of};
ghost use Rattle.cg_canon.specs.Arena.{IsAt};
ghost use Rattle.cg_canon.specs.Works.{work_state};
ghost use Rattle.cg_dyadic.specs.Number.{Number};
ghost use Rattle.cg_form.specs.Game as tree;
ghost use Rattle.cg_form.specs.Game.{number};
ghost use Rattle.cg_form.specs.Sum.{sum};
ghost use Rattle.cg_nodes.specs.Can.{can};
ghost use Rattle.cg_nodes.specs.Games.{IsNode};
ghost use Rattle.cg_sum.specs.Progress.{ArePlaced, IsReady, SumMade, indexes};

use crate::sides::{gather, lefts, rights};
use crate::terms::Terms;
use cg_canon::{FirstTerm, Game, Read, ValueFault, Work};
use cg_cells::CellStore;
use cg_dyadic::Dyadic;
use cg_nodes::{BoardForms, GameFacts};
use smallvec::SmallVec;
use std::alloc::{AllocError, Global};

/// Makes the item of the sum of the first game's position at the place `row` and the second's at `column`, where
/// the table has the sums before it. The sum of 0 and a game, or one that the work keeps, is charged as it is
/// known. Any other is kept.
pub(crate) fn sum_item<B: BoardForms, S: CellStore<GameFacts<B>>>(
    alloc: Global,
    work: &mut Work<B, S>,
    terms: &Terms,
    row: usize,
    column: usize,
    table: &[Game],
) -> Result<Game, ValueFault>
    ghost games: { List tree.Game × List tree.Game }
    requires ready { IsReady work.old.arena terms.now games row column table.now }
    requires spare { terms.now.start ≤ (work_state S.state work.old).spare }
    ensures { SumMade (work_state S.state work.old) (work_state S.state work.new) work.old.arena work.new.arena
        terms.now.start (game_of games.0 row) (game_of games.1 column) result }
{
    if let Some(sum) = kept(work, terms, row, column) {
        return work.make_again(sum, 1);
    }
    let sum = new_item(alloc, work, terms, row, column, table)?;
    let f = terms.firsts.positions[row];
    let k = terms.seconds.positions[column];
    work.keep_pair(f.game, k.game, sum);
    Ok(sum)
}

// The sum of the two, where one is the number 0, or it was made before and kept.
fn kept<B: BoardForms, S: CellStore<GameFacts<B>>>(
    work: &Work<B, S>,
    terms: &Terms,
    row: usize,
    column: usize,
) -> Option<Game>
    ghost games: { List tree.Game × List tree.Game }
    requires { ArePlaced work.now.arena terms.now games row column }
    ensures { IfSome result (λ i. IsAt work.now.arena i (can (sum (game_of games.0 row) (game_of games.1 column)))) }
{
    let f = terms.firsts.positions[row];
    let k = terms.seconds.positions[column];
    if f.is_zero {
        return Some(k.game);
    }
    if k.is_zero {
        return Some(f.game);
    }
    work.kept_sum(f.game, k.game)
}

// Makes the item of a sum that isn't kept. The sum of two numbers is a number, and that of two games that are known
// by their parts is looked for.
fn new_item<B: BoardForms, S: CellStore<GameFacts<B>>>(
    alloc: Global,
    work: &mut Work<B, S>,
    terms: &Terms,
    row: usize,
    column: usize,
    table: &[Game],
) -> Result<Game, ValueFault>
    ghost games: { List tree.Game × List tree.Game }
    requires ready { IsReady work.old.arena terms.now games row column table.now }
    requires spare { terms.now.start ≤ (work_state S.state work.old).spare }
    ensures { SumMade (work_state S.state work.old) (work_state S.state work.new) work.old.arena work.new.arena
        terms.now.start (game_of games.0 row) (game_of games.1 column) result }
{
    let f = terms.firsts.positions[row];
    let k = terms.seconds.positions[column];
    if f.is_number && k.is_number {
        let sum = number_at(work, f.game).add(number_at(work, k.game));
        return work.make_number(sum.ok(), 1);
    }
    match work.sum_by_parts(f.game, k.game) {
        Some(sum) => work.make_again(sum, 1),
        None => noted_item(alloc, work, terms, row, column, table),
    }
}

/// The number that the game is.
pub(crate) fn number_at<B: BoardForms, S: CellStore<GameFacts<B>>>(
    work: &Work<B, S>,
    game: Game,
) -> Dyadic
    requires game { IsIndex work.now.arena game }
    requires number { (x : Number) × (game_of work.now.arena game ≡ number x) }
    ensures { game_of work.now.arena game ≡ number result }
{
    match work.arena().read(game) {
        Read::Number(x) => x,
        Read::Options(_, _) => unreachable!(),
    }
}

// Makes the item of a sum from the sums of the options, or finds it on the cell of the pair and notes it there.
//
// The cell takes a claim before the item is charged that pays for it, so no note is asked for while the work has no
// more to spare than at the start: an earlier item has paid where it has more.
fn noted_item<B: BoardForms, S: CellStore<GameFacts<B>>>(
    alloc: Global,
    work: &mut Work<B, S>,
    terms: &Terms,
    row: usize,
    column: usize,
    table: &[Game],
) -> Result<Game, ValueFault>
    ghost games: { List tree.Game × List tree.Game }
    requires ready { IsReady work.old.arena terms.now games row column table.now }
    requires node { IsNode (game_of games.0 row) ⊎ IsNode (game_of games.1 column) }
    requires spare { terms.now.start ≤ (work_state S.state work.old).spare }
    ensures { SumMade (work_state S.state work.old) (work_state S.state work.new) work.old.arena work.new.arena
        terms.now.start (game_of games.0 row) (game_of games.1 column) result }
{
    if !terms.notes || work.spare() == terms.start {
        return made_item(alloc, work, terms, row, column, table);
    }
    let f = terms.firsts.positions[row];
    let k = terms.seconds.positions[column];
    let cell = work.pair_cell(f.game, k.game);
    if let Some(sum) = work.noted_sum(alloc, cell)? {
        return work.make_again(sum, 1);
    }
    let sum = made_item(alloc, work, terms, row, column, table)?;
    work.note_sum(cell, sum);
    Ok(sum)
}

// Makes the item of a sum from the sums of the options, where one of the two is no number. The work learns what the
// third of the two and their sum is known as, where it knows that of two.
fn made_item<B: BoardForms, S: CellStore<GameFacts<B>>>(
    alloc: Global,
    work: &mut Work<B, S>,
    terms: &Terms,
    row: usize,
    column: usize,
    table: &[Game],
) -> Result<Game, ValueFault>
    ghost games: { List tree.Game × List tree.Game }
    requires ready { IsReady work.old.arena terms.now games row column table.now }
    requires node { IsNode (game_of games.0 row) ⊎ IsNode (game_of games.1 column) }
    ensures { SumMade (work_state S.state work.old) (work_state S.state work.new) work.old.arena work.new.arena
        (work_state S.state work.old).spare (game_of games.0 row) (game_of games.1 column) result }
{
    let sum = summed_item(alloc, work, terms, row, column, table)?;
    let f = terms.firsts.positions[row];
    let k = terms.seconds.positions[column];
    work.learn_sum(f.game, k.game, sum);
    Ok(sum)
}

// Makes the item of a sum from the sums of the options, where one of the two is no number, so x + G is made of the
// sums of x and the options of G alone (Siegel, Combinatorial Game Theory (2013), II.3: the Number Translation
// Theorem). Such a sum is canonical as it stands, with the options in the order of those of G. No two options that
// come from one of the two are comparable, since sums keep the order.
fn summed_item<B: BoardForms, S: CellStore<GameFacts<B>>>(
    alloc: Global,
    work: &mut Work<B, S>,
    terms: &Terms,
    row: usize,
    column: usize,
    table: &[Game],
) -> Result<Game, ValueFault>
    ghost games: { List tree.Game × List tree.Game }
    requires ready { IsReady work.old.arena terms.now games row column table.now }
    requires node { IsNode (game_of games.0 row) ⊎ IsNode (game_of games.1 column) }
    ensures { SumMade (work_state S.state work.old) (work_state S.state work.new) work.old.arena work.new.arena
        (work_state S.state work.old).spare (game_of games.0 row) (game_of games.1 column) result }
{
    let f = terms.firsts.positions[row];
    let k = terms.seconds.positions[column];
    let places = Places {
        columns: terms.seconds.positions.len(),
        row,
        column,
    };
    let own = lefts(&terms.firsts, &f);
    let others = rights(&terms.firsts, &f);
    let left = side(alloc, table, own, lefts(&terms.seconds, &k), places)?;
    let right = side(alloc, table, others, rights(&terms.seconds, &k), places)?;
    if f.is_number || k.is_number {
        return work.make_given(alloc, left.as_slice(), right.as_slice(), 1);
    }
    let first_term = FirstTerm {
        lefts: own.len(),
        rights: others.len(),
    };
    work.make_of_terms(alloc, left.as_slice(), right.as_slice(), first_term, 1)
}

// Where a sum stands in the table.
#[derive(Clone, Copy)]
struct Places {
    columns: usize,
    row: usize,
    column: usize,
}

// The options of a sum on one side: those of the first position, with the second, and then the first with those of
// the second.
#[inline(always)]
fn side(
    alloc: Global,
    table: &[Game],
    firsts: &[usize],
    seconds: &[usize],
    at: Places,
) -> Result<SmallVec<Game, 8>, AllocError>
    requires firsts { All (λ p. p * at.columns + at.column < length table.now) firsts.now }
    requires seconds { All (λ q. q * 1 + at.row * at.columns < length table.now) seconds.now }
    requires row { at.row * at.columns ≤ length table.now }
    ensures { IfOk result (λ all. all.items ≡ indexes table.now at.columns at.column firsts.now
        ++ indexes table.now 1 (at.row * at.columns) seconds.now) }
{
    let mut all = SmallVec::new(alloc);
    all.reserve(firsts.len() + seconds.len())?;
    gather(table, firsts, at.columns, at.column, &mut all);
    gather(table, seconds, 1, at.row * at.columns, &mut all);
    Ok(all)
}
