//! Items of forms that need no search: a number, and a form that is known.
ghost use Rattle.std.specs.Prelude.{◌≡◌, ◌+◌, ◌≤◌, IfOk, IfErr, OnOk, OnErr, [], ◌∷◌};
ghost use Rattle.cg_nodes.specs.Games.{IsGame, StandsFor, game_at};
ghost use Rattle.cg_canon.specs.Made.{FormGiven, ItemsMade};
ghost use Rattle.cg_canon.specs.NumberItems.{IsForm, number_made};
ghost use Rattle.cg_canon.specs.Works.{IsUnspent, work_state};

use crate::fault::ValueFault;
use crate::work::Work;
use cg_arena::Charge;
use cg_cells::CellStore;
use cg_dyadic::Dyadic;
use cg_nodes::{BoardForms, GameFacts, Handle, number};
use std::alloc::Global;

/// Makes the item of a number, with a cost of `extra` more, where `extra` is at most 8. None stands for a number out of
/// range.
///
/// `Range` comes exactly for None, and `Full` exactly where its cost, 1 for a narrow and 3 for a long number, and
/// `extra` together bring the total cost above the share; the total is in the fault. After a refusal nothing was spent.
/// It takes no memory.
pub fn number_item<B: BoardForms, S: CellStore<GameFacts<B>>>(
    alloc: Global,
    work: &mut Work<B, S>,
    x: Option<Dyadic>,
    extra: u64,
) -> Result<Handle, ValueFault>
    requires { extra ≤ 8 }
    ensures game { IfOk result (λ h. IsForm x (StandsFor (work_state S.state work.new) h)) }
    ensures made { ItemsMade (work_state S.state work.old) (work_state S.state work.new) (number_made x extra ∷ []) result }
    ensures memory { IfErr result (λ fault. ¬ (fault ≡ ValueFault.Memory)) }
    ensures same { OnErr result (IsUnspent (work_state S.state work.old) (work_state S.state work.new)) }
    ensures spare { OnOk result ((work_state S.state work.old).spare + extra ≤ (work_state S.state work.new).spare) }
    ensures more { (work_state S.state work.old).spare ≤ (work_state S.state work.new).spare }
{
    match x {
        None => Err(ValueFault::Range),
        Some(value) => {
            work.charge_item(Charge::number(value), extra)?;
            Ok(number(work, value))
        }
    }
}

/// Makes the item of a form that is known already, at this handle, with a cost of `extra` more, where `extra` is at
/// most 8.
///
/// `Depth` comes exactly where its depth is above 512, and else `Full` exactly where its cost and `extra` together
/// bring the total cost above the share. After a refusal nothing was spent.
#[inline(always)]
pub fn item_of<B: BoardForms, S: CellStore<GameFacts<B>>>(
    alloc: Global,
    work: &mut Work<B, S>,
    handle: Handle,
    extra: u64,
) -> Result<Handle, ValueFault>
    requires extra { extra ≤ 8 }
    requires game { IsGame (work_state S.state work.old) handle }
    ensures given { let W = work_state S.state work.old in FormGiven W (work_state S.state work.new) (game_at W handle) extra result }
    ensures own { IfOk result (λ h. h ≡ handle) }
{
    let charge = work.charge_of(alloc, handle)?;
    work.charge_item(charge, extra)?;
    Ok(handle)
}
