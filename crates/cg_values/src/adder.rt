//! What adds up the values of a board's pieces.
ghost use Rattle.cg_canon.specs.Made.{Gives};
ghost use Rattle.cg_canon.specs.Works.{work_state};
ghost use Rattle.cg_form.specs.Sum.{sum as sum_of};
ghost use Rattle.cg_nodes.specs.Can.{can};
ghost use Rattle.cg_nodes.specs.Games.{IsGame, game_at};
ghost use Rattle.cg_canon.specs.SumItems.{sum_items};

use cg_canon::{ValueFault, Work};
use cg_cells::CellStore;
use cg_nodes::{BoardForms, GameFacts, Handle};
use std::alloc::Global;

/// What adds the games of two handles.
pub trait Adder {
    /// The handle of the canonical form of a + b. It makes the items of f + k for each position f of a, in the outer
    /// loop, and each position k of b, in the inner loop. Such an item costs 1 more than the form. `Positions` comes
    /// exactly where there are more such pairs than the limit. A refusal is that of the first item that isn't made;
    /// what the items before it cost is spent.
    fn add<B: BoardForms, S: CellStore<GameFacts<B>>>(
        &self,
        alloc: Global,
        work: &mut Work<'_, B, S>,
        a: Handle,
        b: Handle,
    ) -> Result<Handle, ValueFault>
        requires a { IsGame (work_state S.state work.old) a }
        requires b { IsGame (work_state S.state work.old) b }
        ensures { let W = work_state S.state work.old in Gives W (work_state S.state work.new)
            (sum_items work.old.limit (game_at W a) (game_at W b)) (can (sum_of (game_at W a) (game_at W b))) result };
}
