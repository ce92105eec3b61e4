//! Two games that are nimbers, by the numbers of both.
//!
//! The options of a nimber are the lesser ones, in their order. They are read from the work's arena.
ghost use Rattle.std.specs.Prelude.{◌≡◌, ◌<◌, IfOk, [], length};
ghost use Rattle.std.specs.Option.{ForSome};
ghost use Rattle.cg_canon.specs.Works.{work_state};
ghost use Rattle.cg_cells.specs.Store.{Spends};
ghost use Rattle.cg_nimbers.specs.Nimbers.{nimber_form, nimbers_below};
ghost use Rattle.cg_nodes.specs.Games.{IsGame, StandFor, StandsFor};
ghost use Rattle.cg_sum.specs.Firsts.{AreFirst, IsPair};

use crate::firsts::FirstNimbers;
use cg_canon::{Work, Written};
use cg_cells::CellStore;
use cg_nodes::{BoardForms, GameFacts, Handle};
use std::alloc::{AllocError, Global};

/// Two nimbers.
#[derive(Drop)]
pub(crate) struct NimberPair {
    /// The number of the first.
    pub(crate) first: usize,
    /// The number of the second.
    pub(crate) second: usize,
    /// The nimbers up to both.
    pub(crate) nimbers: FirstNimbers,
}

/// The two games as nimbers, where both are known as some. The only error is out of memory.
pub(crate) fn nimber_pair<B: BoardForms, S: CellStore<GameFacts<B>>>(
    alloc: Global,
    work: &mut Work<B, S>,
    a: Handle,
    b: Handle,
) -> Result<Option<NimberPair>, AllocError>
    requires a { IsGame (work_state S.state work.old) a }
    requires b { IsGame (work_state S.state work.old) b }
    ensures pair { IfOk result (λ o. ForSome o (IsPair (work_state S.state work.new) a b)) }
    ensures spends { Spends 0 (work_state S.state work.old) (work_state S.state work.new) }
{
    let Some(first) = work.nimber_of(a) else {
        return Ok(None);
    };
    let Some(second) = work.nimber_of(b) else {
        return Ok(None);
    };
    if first < second {
        let handles = nimbers_to(alloc, work, b, second)?;
        return Ok(Some(pair_of(alloc, first, second, handles)));
    }
    let handles = nimbers_to(alloc, work, a, first)?;
    Ok(Some(pair_of(alloc, first, second, handles)))
}

// The nimbers of these two numbers, where these are the handles up to both.
fn pair_of(alloc: Global, first: u64, second: u64, handles: Vec<Handle>) -> NimberPair
    ensures first { result.first ≡ first }
    ensures second { result.second ≡ second }
    ensures handles { result.nimbers.handles.items ≡ handles.items }
    ensures costs { result.nimbers.costs.items ≡ [] }
{
    NimberPair {
        first: first as usize,
        second: second as usize,
        nimbers: FirstNimbers {
            handles,
            costs: Vec::new(alloc),
        },
    }
}

// The nimbers up to that of n, whose handle is given, in their order. The only error is out of memory.
fn nimbers_to<B: BoardForms, S: CellStore<GameFacts<B>>>(
    alloc: Global,
    work: &mut Work<B, S>,
    handle: Handle,
    n: u64,
) -> Result<Vec<Handle>, AllocError>
    requires { StandsFor (work_state S.state work.old) handle (nimber_form n) }
    ensures first { IfOk result (λ r. AreFirst (work_state S.state work.new) r.items) }
    ensures count { IfOk result (λ r. n < length r.items) }
    ensures spends { Spends 0 (work_state S.state work.old) (work_state S.state work.new) }
{
    let mut handles = lesser_nimbers(alloc, work, handle, n)?;
    handles.push(handle)?;
    Ok(handles)
}

// The nimbers below n, of which the handle is given, in their order. The only error is out of memory.
fn lesser_nimbers<B: BoardForms, S: CellStore<GameFacts<B>>>(
    alloc: Global,
    work: &mut Work<B, S>,
    handle: Handle,
    n: u64,
) -> Result<Vec<Handle>, AllocError>
    requires { StandsFor (work_state S.state work.old) handle (nimber_form n) }
    ensures lesser { IfOk result (λ r. StandFor (work_state S.state work.new) r.items (nimbers_below n)) }
    ensures spends { Spends 0 (work_state S.state work.old) (work_state S.state work.new) }
{
    match work.written(alloc, handle)? {
        Written::Number(_) => Ok(Vec::new(alloc)),
        Written::Options(lefts, _) => Ok(lefts.into_vec()?),
    }
}
