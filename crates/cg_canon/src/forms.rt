//! The canonical form of the game of two lists of handles, by the form that was made of them before where it is kept.
ghost use Rattle.std.specs.Prelude.{◌≤◌};
ghost use Rattle.cg_form.specs.Canonical.{Canonical};
ghost use Rattle.cg_form.specs.Game.{node};
ghost use Rattle.cg_nodes.specs.Can.{can};
ghost use Rattle.cg_nodes.specs.Games.{AreGames, games_at};
ghost use Rattle.cg_canon.specs.Made.{FormGiven};
ghost use Rattle.cg_canon.specs.Ways.{IsWay};
ghost use Rattle.cg_canon.specs.Works.{work_state};

use crate::distinct::distinct;
use crate::fault::ValueFault;
use crate::item::item_of;
use crate::made::number_of_both;
use crate::value::Way;
use crate::work::Work;
use cg_cells::CellStore;
use cg_nodes::{BoardForms, GameFacts, Handle};
use std::alloc::Global;

/// Forms are found by their options where no side has more than this.
const MOST_OPTIONS: usize = 32;

/// Makes the item of the canonical form of the game with these options, by the form that was made from them where it is
/// kept, and else in this way.
fn found_item<B: BoardForms, S: CellStore<GameFacts<B>>>(
    alloc: Global,
    work: &mut Work<B, S>,
    lefts: &[Handle],
    rights: &[Handle],
    way: Way,
    extra: u64,
) -> Result<Handle, ValueFault>
    requires extra { extra ≤ 8 }
    requires lefts { AreGames (work_state S.state work.old) lefts.now }
    requires rights { AreGames (work_state S.state work.old) rights.now }
    requires way { let W = work_state S.state work.old in IsWay way (games_at W lefts.now) (games_at W rights.now) }
    ensures { let W = work_state S.state work.old in FormGiven W (work_state S.state work.new)
        (can (node (games_at W lefts.now) (games_at W rights.now))) extra result }
{
    let number = number_of_both(lefts, rights);
    if let Some(form) = work.made_from(number, lefts, rights) {
        return item_of(alloc, work, form, extra);
    }
    let form = work.make_value(alloc, lefts, rights, way, extra)?;
    // Where there is no memory for it, it is made anew the next time.
    let _kept = work.keep_made(number, lefts, rights, form);
    Ok(form)
}

/// Makes the item of the canonical form of the game with these Left and Right options, with a cost of `extra` more,
/// where `extra` is at most 8. The lists may have any order and repetitions.
///
/// `Range` comes exactly where the game equals a number out of range; else `Depth` exactly where the depth of the
/// canonical form is above 512; else `Full` exactly where its cost and `extra` together bring the total cost above the
/// share. After a refusal nothing was spent. (Siegel, Combinatorial Game Theory (2013), II.2 and II.3.)
pub fn canonical<B: BoardForms, S: CellStore<GameFacts<B>>>(
    alloc: Global,
    work: &mut Work<B, S>,
    lefts: &[Handle],
    rights: &[Handle],
    extra: u64,
) -> Result<Handle, ValueFault>
    requires extra { extra ≤ 8 }
    requires lefts { AreGames (work_state S.state work.old) lefts.now }
    requires rights { AreGames (work_state S.state work.old) rights.now }
    ensures { let W = work_state S.state work.old in FormGiven W (work_state S.state work.new)
        (can (node (games_at W lefts.now) (games_at W rights.now))) extra result }
{
    let search = Way::Search;
    if lefts.len() > MOST_OPTIONS || rights.len() > MOST_OPTIONS {
        return work.make_value(alloc, lefts, rights, search, extra);
    }
    let own = distinct(alloc, lefts)?;
    let others = distinct(alloc, rights)?;
    found_item(
        alloc,
        work,
        own.as_slice(),
        others.as_slice(),
        search,
        extra,
    )
}

/// Makes the item of a game that is canonical as it is given, with a cost of `extra` more, where `extra` is at most 8.
/// It is [`canonical`] without the search: both lists rise in the structural order, no option is dominated or
/// reversible, and the game equals no number.
///
/// `Depth` comes exactly where its depth is above 512, and else `Full` exactly where its cost and `extra` together
/// bring the total cost above the share. After a refusal nothing was spent.
pub fn canonical_item<B: BoardForms, S: CellStore<GameFacts<B>>>(
    alloc: Global,
    work: &mut Work<B, S>,
    lefts: &[Handle],
    rights: &[Handle],
    extra: u64,
) -> Result<Handle, ValueFault>
    requires extra { extra ≤ 8 }
    requires lefts { AreGames (work_state S.state work.old) lefts.now }
    requires rights { AreGames (work_state S.state work.old) rights.now }
    requires canonical { let W = work_state S.state work.old in Canonical (node (games_at W lefts.now) (games_at W rights.now)) }
    ensures { let W = work_state S.state work.old in FormGiven W (work_state S.state work.new)
        (node (games_at W lefts.now) (games_at W rights.now)) extra result }
{
    // Each option of a list is a claim, so the form is looked for before it is made.
    found_item(alloc, work, lefts, rights, Way::AsGiven, extra)
}
