//! The first nimbers, 0, *1, *2 and so on, and the items of sums that are nimbers.
//!
//! What such an item costs is kept when it is first made, so that it is charged again at once.
ghost use Rattle.std.specs.Prelude.{◌≡◌, ◌+◌, ◌≤◌, ◌<◌, OnOk, [], ◌∷◌, length, true, false};
ghost use Rattle.cg_canon.specs.Items.{AllPass};
ghost use Rattle.cg_canon.specs.Made.{ItemsMade};
ghost use Rattle.cg_canon.specs.Works.{Keeps, work_state};
ghost use Rattle.cg_sum.specs.Firsts.{AreFirst, HoldsCosts, HoldsFirst, nimber_item as item_of_nimber};

use cg_canon::{ValueFault, Work, canonical_item, charge_again, item_of};
use cg_cells::CellStore;
use cg_nodes::{BoardForms, GameFacts, Handle};
use std::alloc::Global;

/// The first nimbers that a call knows.
#[derive(Drop)]
pub(crate) struct FirstNimbers {
    /// Their handles, in their order.
    pub(crate) handles: Vec<Handle>,
    /// What the items of sums that are the first of them cost.
    pub(crate) costs: Vec<u64>,
}

/// Makes the item of a sum that is the nimber of n, which is known or is the next one.
pub(crate) fn nimber_item<B: BoardForms, S: CellStore<GameFacts<B>>>(
    alloc: Global,
    work: &mut Work<B, S>,
    nimbers: &mut FirstNimbers,
    n: usize,
) -> Result<(), ValueFault>
    requires holds { HoldsFirst (work_state S.state work.old) nimbers.old }
    requires near { n ≤ length nimbers.old.handles.items }
    ensures holds { OnOk result (HoldsFirst (work_state S.state work.new) nimbers.new) }
    ensures known { OnOk result (n < length nimbers.new.handles.items) }
    ensures more { OnOk result (length nimbers.old.handles.items ≤ length nimbers.new.handles.items) }
    ensures made { ItemsMade (work_state S.state work.old) (work_state S.state work.new)
        (item_of_nimber n ∷ []) result }
    ensures spare { (work_state S.state work.old).spare ≤ (work_state S.state work.new).spare }
{
    if charged_again(work, nimbers.costs.as_slice(), n) {
        return Ok(());
    }
    let before = work.spent();
    first_item(alloc, work, &mut nimbers.handles, n)?;
    let cost = work.spent() - before;
    if nimbers.costs.len() == n {
        nimbers.costs.push(cost)?;
    }
    Ok(())
}

// Charges the item of a sum that is the nimber of n, where what it costs is known, unless it doesn't fit.
fn charged_again<B: BoardForms, S: CellStore<GameFacts<B>>>(
    work: &mut Work<B, S>,
    costs: &[u64],
    n: usize,
) -> bool
    requires { HoldsCosts costs.now }
    ensures passed { result ≡ true
        → AllPass work.old.share work.old.spent (item_of_nimber n ∷ []) work.new.spent }
    ensures known { result ≡ true → n < length costs.now }
    ensures none { result ≡ false → work.new ≡ work.old }
    ensures spare { (work_state S.state work.old).spare ≤ (work_state S.state work.new).spare }
    ensures keeps { Keeps (work_state S.state work.old) (work_state S.state work.new) }
{
    if n < costs.len() {
        charge_again(work, costs[n])
    } else {
        false
    }
}

// Makes the item of a sum that is the nimber of n, by its handle or as the next one.
fn first_item<B: BoardForms, S: CellStore<GameFacts<B>>>(
    alloc: Global,
    work: &mut Work<B, S>,
    handles: &mut Vec<Handle>,
    n: usize,
) -> Result<(), ValueFault>
    requires some { 0 < length handles.old.items }
    requires first { AreFirst (work_state S.state work.old) handles.old.items }
    requires near { n ≤ length handles.old.items }
    ensures first { OnOk result (AreFirst (work_state S.state work.new) handles.new.items) }
    ensures known { OnOk result (n < length handles.new.items) }
    ensures more { OnOk result (length handles.old.items ≤ length handles.new.items) }
    ensures made { ItemsMade (work_state S.state work.old) (work_state S.state work.new)
        (item_of_nimber n ∷ []) result }
    ensures spare { (work_state S.state work.old).spare ≤ (work_state S.state work.new).spare }
{
    if n < handles.len() {
        item_of(alloc, work, handles[n], 1)?;
        Ok(())
    } else {
        next_item(alloc, work, handles)
    }
}

// Makes the item of a sum that is the next nimber, the options of which are those that are known.
fn next_item<B: BoardForms, S: CellStore<GameFacts<B>>>(
    alloc: Global,
    work: &mut Work<B, S>,
    handles: &mut Vec<Handle>,
) -> Result<(), ValueFault>
    requires some { 0 < length handles.old.items }
    requires first { AreFirst (work_state S.state work.old) handles.old.items }
    ensures first { OnOk result (AreFirst (work_state S.state work.new) handles.new.items) }
    ensures more { OnOk result (length handles.new.items ≡ length handles.old.items + 1) }
    ensures made { ItemsMade (work_state S.state work.old) (work_state S.state work.new)
        (item_of_nimber (length handles.old.items) ∷ []) result }
    ensures spare { (work_state S.state work.old).spare ≤ (work_state S.state work.new).spare }
{
    let next = canonical_item(alloc, work, handles.as_slice(), handles.as_slice(), 1)?;
    handles.push(next)?;
    Ok(())
}
