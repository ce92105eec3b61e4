//! The sum of the games of two handles.
ghost use Rattle.cg_canon.specs.Made.{Gives};
ghost use Rattle.cg_canon.specs.SumItems.{sum_items};
ghost use Rattle.cg_canon.specs.Works.{work_state};
ghost use Rattle.cg_form.specs.Sum.{sum as sum_of};
ghost use Rattle.cg_nodes.specs.Can.{can};
ghost use Rattle.cg_nodes.specs.Games.{IsGame, game_at};

use crate::nimber_sums::nimber_sum;
use crate::pair::nimber_pair;
use crate::rows::add_rows;
use crate::terms::read_terms;
use cg_canon::{ValueFault, Work, keep_sum, sum_again};
use cg_cells::CellStore;
use cg_nodes::{BoardForms, GameFacts, Handle};
use std::alloc::Global;

/// The greatest number of sums for which an addition takes room at once.
const ROOM: usize = 1_024;

/// The handle of the canonical form of a + b, where G + H = {A + H, G + C | B + H, G + D} over the Left
/// options A and C and the Right options B and D of G and H (Siegel, Combinatorial Game Theory (2013),
/// I.1).
///
/// It makes the items of f + k for each position f of a, in the outer loop, and each position k of b, in
/// the inner loop. Such an item costs 1 more than the form. `Positions` comes exactly where there are more
/// such pairs than the limit, and nothing is made then. `Range`, `Depth` and `Full` come exactly where the
/// first item that isn't made is refused so; what the items before it cost is spent. No difference is made
/// in order to compare. A sum that this work made before, or an earlier one whose findings it took up, is
/// charged again at once.
pub fn sum<B: BoardForms, S: CellStore<GameFacts<B>>>(
    alloc: Global,
    work: &mut Work<B, S>,
    a: Handle,
    b: Handle,
) -> Result<Handle, ValueFault>
    requires a { IsGame (work_state S.state work.old) a }
    requires b { IsGame (work_state S.state work.old) b }
    ensures { let W = work_state S.state work.old in Gives W (work_state S.state work.new)
        (sum_items work.old.limit (game_at W a) (game_at W b)) (can (sum_of (game_at W a) (game_at W b))) result }
{
    match sum_again(work, a, b) {
        Some(sum) => Ok(sum),
        None => new_sum(alloc, work, a, b),
    }
}

// Makes the items of the sum's own list, one by one, and keeps what they cost together.
fn new_sum<B: BoardForms, S: CellStore<GameFacts<B>>>(
    alloc: Global,
    work: &mut Work<B, S>,
    a: Handle,
    b: Handle,
) -> Result<Handle, ValueFault>
    requires a { IsGame (work_state S.state work.old) a }
    requires b { IsGame (work_state S.state work.old) b }
    ensures { let W = work_state S.state work.old in Gives W (work_state S.state work.new)
        (sum_items work.old.limit (game_at W a) (game_at W b)) (can (sum_of (game_at W a) (game_at W b))) result }
{
    let before = work.spent();
    let sum = found_sum(alloc, work, a, b, true)?;
    keep_sum(work, a, b, sum, before)?;
    Ok(sum)
}

/// Makes the items of the sum's own list, of which the last is the sum. Those of two nimbers are nimbers; others are
/// kept, and noted on cells where that is asked for.
pub(crate) fn found_sum<B: BoardForms, S: CellStore<GameFacts<B>>>(
    alloc: Global,
    work: &mut Work<B, S>,
    a: Handle,
    b: Handle,
    notes: bool,
) -> Result<Handle, ValueFault>
    requires a { IsGame (work_state S.state work.old) a }
    requires b { IsGame (work_state S.state work.old) b }
    ensures { let W = work_state S.state work.old in Gives W (work_state S.state work.new)
        (sum_items work.old.limit (game_at W a) (game_at W b)) (can (sum_of (game_at W a) (game_at W b))) result }
{
    match nimber_pair(alloc, work, a, b)? {
        Some(pair) => nimber_sum(alloc, work, a, b, pair),
        None => other_sum(alloc, work, a, b, notes),
    }
}

// Makes the items of the sum's own list, of which the last is the sum, by a table.
fn other_sum<B: BoardForms, S: CellStore<GameFacts<B>>>(
    alloc: Global,
    work: &mut Work<B, S>,
    a: Handle,
    b: Handle,
    notes: bool,
) -> Result<Handle, ValueFault>
    requires a { IsGame (work_state S.state work.old) a }
    requires b { IsGame (work_state S.state work.old) b }
    ensures { let W = work_state S.state work.old in Gives W (work_state S.state work.new)
        (sum_items work.old.limit (game_at W a) (game_at W b)) (can (sum_of (game_at W a) (game_at W b))) result }
{
    let terms = read_terms(alloc, work, a, b, notes)?;
    let pairs = terms
        .firsts
        .positions
        .len()
        .saturating_mul(terms.seconds.positions.len());
    let mut table = Vec::with_capacity(alloc, pairs.min(ROOM))?;
    add_rows(alloc, work, &terms, &mut table)?;
    Ok(work.handle(table[table.len() - 1]))
}
