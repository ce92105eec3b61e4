//! Rows of calls that make items: the name of the value, and what was spent in the call.
//!
//! `nimber 2` and `switch 1` make these games, and `clobber xo` the value of a board of Clobber; each on a store of
//! 4,096 cells with 65,536 positions.
ghost use Rattle.std.specs.Prelude.{IfOk};
ghost use Rattle.cg_canon.specs.Works.{work_state};
ghost use Rattle.cg_nodes.specs.Games.{IsGame};

use crate::text::number;
use cg_canon::Work;
use cg_cells::{CellStore, PlainStore};
use cg_clobber::{Clobber, read};
use cg_dyadic::Dyadic;
use cg_eval::{CgBoards, SumAdder, may_note};
use cg_names::{name, nimber, switch};
use cg_nodes::{GameFacts, Handle};
use cg_values::value_of;
use std::alloc::Global;

type Store = PlainStore<GameFacts<CgBoards>>;

fn switched<S: CellStore<GameFacts<CgBoards>>>(
    alloc: Global,
    work: &mut Work<CgBoards, S>,
    x: Dyadic,
) -> anyhow::Result<Handle>
    ensures { IfOk result (λ h. IsGame (work_state S.state work.new) h) }
{
    if !Dyadic::of_lowest(0, 0).le(x) {
        anyhow::bail!("a negative number");
    }
    Ok(switch(alloc, work, Some(x))?)
}

/// The value of the call's argument.
fn made<S: CellStore<GameFacts<CgBoards>>>(
    alloc: Global,
    work: &mut Work<CgBoards, S>,
    call: &str,
    rest: &str,
) -> anyhow::Result<Handle>
    ensures { IfOk result (λ h. IsGame (work_state S.state work.new) h) }
{
    match call {
        "nimber" => Ok(nimber(alloc, work, rest.parse::<u128>()?)?),
        "switch" => switched(alloc, work, number(rest)?),
        _ => {
            let board = read(alloc, rest.as_bytes())?;
            may_note();
            Ok(value_of(alloc, work, &Clobber, &SumAdder, &board)?)
        }
    }
}

/// The name of the value, and what was spent.
fn told<S: CellStore<GameFacts<CgBoards>>>(
    alloc: Global,
    work: &mut Work<CgBoards, S>,
    call: &str,
    rest: &str,
) -> anyhow::Result<String> {
    let value = made(alloc, work, call, rest)?;
    let spent = work.spent();
    let text = name(alloc, work, value)?;
    Ok(format!(in alloc; "{text}, {spent} spent")?)
}

pub(crate) fn answer(alloc: Global, call: &str, rest: &str) -> anyhow::Result<String> {
    let mut store: Store = PlainStore::new(alloc, 4096)?;
    let mut work = Work::new(alloc, &mut store, 4096, 65_536);
    told(alloc, &mut work, call, rest)
}
