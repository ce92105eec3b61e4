//! Items that were made before, charged again at once.
//!
//! The items of a sum depend on its two games alone, so a sum all of whose items were made in a work, or before in one
//! whose cache it took up, is charged by what they cost together, where that stays within the share: then each of them
//! would be made again.
ghost use Rattle.std.specs.Prelude.{◌≡◌, ◌≤◌, ◌+◌, ◌↔◌, List, IfSome, IfNone, IsTrue, Ok, false};
ghost use Rattle.cg_canon.specs.Items.{AllPass, Item};
ghost use Rattle.cg_canon.specs.Made.{Gives};
ghost use Rattle.cg_canon.specs.SumItems.{sum_items};
ghost use Rattle.cg_canon.specs.Works.{Keeps, work_state};
ghost use Rattle.cg_form.specs.Sum.{sum as sum_of};
ghost use Rattle.cg_nodes.specs.Can.{can};
ghost use Rattle.cg_nodes.specs.Games.{IsGame, StandsFor, game_at};

use crate::memo::KnownSum;
use crate::work::Work;
use cg_cells::CellStore;
use cg_nodes::{BoardForms, GameFacts, Handle};
use std::alloc::AllocError;

/// Charges items that cost so much together, where that stays within the share, and says whether it does. Items that
/// pass where nothing was spent before and no more than that may be spent are all made again then.
pub fn charge_again<B: BoardForms, S: CellStore<GameFacts<B>>>(
    work: &mut Work<B, S>,
    cost: u64,
) -> bool
    ensures fits { IsTrue result ↔ (work.old.spent + cost ≤ work.old.share) }
    ensures charged { (items : List Item) → AllPass cost 0 items cost → IsTrue result
        → AllPass work.old.share work.old.spent items work.new.spent }
    ensures none { result ≡ false → work.new ≡ work.old }
    ensures spare { (work_state S.state work.old).spare ≤ (work_state S.state work.new).spare }
    ensures keeps { Keeps (work_state S.state work.old) (work_state S.state work.new) }
{
    work.charge(cost)
}

/// The handle of the canonical form of a + b, where all items of that sum were made before and what they cost together
/// stays within the share; it is charged. None leaves the work as it was. It takes no memory.
pub fn sum_again<B: BoardForms, S: CellStore<GameFacts<B>>>(
    work: &mut Work<B, S>,
    a: Handle,
    b: Handle,
) -> Option<Handle>
    requires a { IsGame (work_state S.state work.old) a }
    requires b { IsGame (work_state S.state work.old) b }
    ensures given { let W = work_state S.state work.old in IfSome result (λ h. Gives W (work_state S.state work.new)
        (sum_items work.old.limit (game_at W a) (game_at W b)) (can (sum_of (game_at W a) (game_at W b))) (Ok h)) }
    ensures none { IfNone result (work.new ≡ work.old) }
{
    match work.added(a, b) {
        Some(known) => {
            if known.limit == work.limit() && work.charge(known.cost) {
                return Some(known.sum);
            }
            None
        }
        None => None,
    }
}

/// Keeps that the sum is that of a and b, and that all its items were made after so much was spent, `before`, and no
/// others. The only error is want of memory.
pub fn keep_sum<B: BoardForms, S: CellStore<GameFacts<B>>>(
    work: &mut Work<B, S>,
    a: Handle,
    b: Handle,
    sum: Handle,
    before: u64,
) -> Result<(), AllocError>
    requires a { IsGame (work_state S.state work.old) a }
    requires b { IsGame (work_state S.state work.old) b }
    requires sum { let W = work_state S.state work.old in StandsFor W sum (can (sum_of (game_at W a) (game_at W b))) }
    requires items { let W = work_state S.state work.old in AllPass work.old.share before
        (sum_items work.old.limit (game_at W a) (game_at W b)) work.old.spent }
    ensures { work.new ≡ work.old }
{
    let known = KnownSum {
        sum,
        cost: work.spent() - before,
        limit: work.limit(),
    };
    work.keep_added(a, b, known)
}
