//! The two games of a sum, as they were walked.
ghost use Rattle.std.specs.Prelude.{◌≡◌, ◌⊎◌, ◌*◌, ◌≤◌, ◌<◌, ◌↔◌, IfErr, IfOk, IsTrue, OnOk, length};
ghost use Rattle.cg_canon.specs.Arena.{Begins};
ghost use Rattle.cg_canon.specs.Items.{WasRefused};
ghost use Rattle.cg_canon.specs.SumItems.{sum_items};
ghost use Rattle.cg_canon.specs.Walk.{IsWalk};
ghost use Rattle.cg_canon.specs.Works.{work_state};
ghost use Rattle.cg_cells.specs.Store.{Spends};
ghost use Rattle.cg_form.specs.Positions.{positions_of};
ghost use Rattle.cg_nodes.specs.Games.{IsGame, game_at};

use cg_canon::{ValueFault, Walk, Work};
use cg_cells::CellStore;
use cg_nodes::{BoardForms, GameFacts, Handle};
use std::alloc::Global;

/// The positions of two games, and how their sums are looked for.
#[derive(Drop)]
pub(crate) struct Terms {
    /// The positions of the first game.
    pub(crate) firsts: Walk,
    /// Those of the second.
    pub(crate) seconds: Walk,
    /// What the work had to spare when the addition began.
    pub(crate) start: u64,
    /// Whether sums are noted on the cells of their pairs, for other calls too.
    pub(crate) notes: bool,
}

/// The positions of the handle's game. `Positions` comes exactly where there are more than the work's limit; the
/// other error is out of memory.
pub(crate) fn walked<B: BoardForms, S: CellStore<GameFacts<B>>>(
    alloc: Global,
    work: &mut Work<B, S>,
    handle: Handle,
) -> Result<Walk, ValueFault>
    requires { IsGame (work_state S.state work.old) handle }
    ensures walk { IfOk result (λ w. IsWalk work.new.arena w
        (positions_of (game_at (work_state S.state work.old) handle))) }
    ensures within { OnOk result
        (length (positions_of (game_at (work_state S.state work.old) handle)) ≤ work.old.limit) }
    ensures refused { IfErr result (λ fault. (fault ≡ ValueFault.Memory) ⊎ ((fault ≡ ValueFault.Positions)
        × (work.old.limit < length (positions_of (game_at (work_state S.state work.old) handle))))) }
    ensures begins { Begins work.old.arena work.new.arena }
    ensures spends { Spends 0 (work_state S.state work.old) (work_state S.state work.new) }
{
    let game = work.game(alloc, handle)?;
    work.walk(alloc, game)
}

/// The positions of both games, unless there are more pairs of them than the limit.
pub(crate) fn read_terms<B: BoardForms, S: CellStore<GameFacts<B>>>(
    alloc: Global,
    work: &mut Work<B, S>,
    a: Handle,
    b: Handle,
    notes: bool,
) -> Result<Terms, ValueFault>
    requires a { IsGame (work_state S.state work.old) a }
    requires b { IsGame (work_state S.state work.old) b }
    ensures firsts { IfOk result (λ terms. IsWalk work.new.arena terms.firsts
        (positions_of (game_at (work_state S.state work.old) a))) }
    ensures seconds { IfOk result (λ terms. IsWalk work.new.arena terms.seconds
        (positions_of (game_at (work_state S.state work.old) b))) }
    ensures start { IfOk result (λ terms. terms.start ≡ (work_state S.state work.new).spare) }
    ensures within { OnOk result (length (positions_of (game_at (work_state S.state work.old) a))
        * length (positions_of (game_at (work_state S.state work.old) b)) ≤ work.old.limit) }
    ensures refused { let W = work_state S.state work.old in IfErr result (λ fault. WasRefused fault work.old.share
        work.old.spent (sum_items work.old.limit (game_at W a) (game_at W b)) work.new.spent) }
    ensures spends { Spends 0 (work_state S.state work.old) (work_state S.state work.new) }
{
    let firsts = walked(alloc, work, a)?;
    let seconds = walked(alloc, work, b)?;
    if is_product_above(
        firsts.positions.len(),
        seconds.positions.len(),
        work.limit(),
    ) {
        return Err(ValueFault::Positions);
    }
    Ok(Terms {
        firsts,
        seconds,
        start: work.spare(),
        notes,
    })
}

/// Whether m * n is above the limit.
pub(crate) fn is_product_above(m: usize, n: usize, limit: u64) -> bool
    ensures { IsTrue result ↔ (limit < m * n) }
{
    (m as u128) * (n as u128) > limit as u128
}
