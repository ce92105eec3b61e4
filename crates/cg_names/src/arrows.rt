//! Ups and downs.
ghost use Rattle.std.specs.Prelude.{◌≡◌, ◌==◌, ◌&&◌, ◌≤◌, map, false, not, suc, [], ◌∷◌};
ghost use Rattle.cg_nodes.specs.Games.{StandsFor};
ghost use Rattle.cg_canon.specs.Made.{Gives};
ghost use Rattle.cg_canon.specs.Works.{work_state};
ghost use Rattle.cg_names.specs.Lists.{form_items, plain_item};
ghost use Rattle.cg_names.specs.Named.{ups_form, ups_of, ups_chain, ups_last, zero_form, star_form};

use crate::making::{make, make_zero, within};
use crate::nimbers::nimber;
use cg_canon::{ValueFault, Work};
use cg_cells::CellStore;
use cg_nodes::{BoardForms, GameFacts, Handle};
use std::alloc::Global;

/// Makes `count.^`, or `count.v` where it is `down`; 0 where the count is 0. Here `^ = {0|*}`, `^* = {0,*|0}`, and
/// for `n >= 2` `n.^ = {0|(n - 1).^*}` and `n.^* = {0|(n - 1).^}`; downs are their negatives. Its items are its
/// positions: 0 alone, or 0, `*` and then the chain of ups up to itself, `count + 2` of them.
///
/// `Positions` comes exactly where there are more of them than the work's limit, and else `Depth` or `Full` exactly
/// where the first item that can't be made says so; what was spent before is spent. (Siegel, Combinatorial Game
/// Theory (2013), II.4.)
pub fn ups<B: BoardForms, S: CellStore<GameFacts<B>>>(
    alloc: Global,
    work: &mut Work<B, S>,
    down: bool,
    count: u128,
) -> Result<Handle, ValueFault>
    ensures { Gives (work_state S.state work.old) (work_state S.state work.new)
        (form_items work.old.limit (ups_form down count)) (ups_form down count) result }
{
    if count == 0 {
        return nimber(alloc, work, 0);
    }
    let limit = work.limit();
    match within(count, 2, limit) {
        None => Err(ValueFault::Positions),
        Some(count) => make_ups(alloc, work, down, count),
    }
}

/// Makes 0, `*` and the chain of ups, or downs, up to the one of this count.
fn make_ups<B: BoardForms, S: CellStore<GameFacts<B>>>(
    alloc: Global,
    work: &mut Work<B, S>,
    down: bool,
    count: u64,
) -> Result<Handle, ValueFault>
    requires { 1 ≤ count }
    ensures { Gives (work_state S.state work.old) (work_state S.state work.new)
        (map plain_item (ups_chain down false count)) (ups_form down count) result }
{
    let zero = make_zero(alloc, work)?;
    let mut last = make_star(alloc, work, zero)?;
    // The chain ends without a star, so its games have one by turns.
    let mut starred = count % 2 == 1;
    for level in 0..count {
        starred = !starred;
        last = make_next(alloc, work, down, starred, level, zero, last)?;
    }
    Ok(last)
}

/// Makes `*`.
fn make_star<B: BoardForms, S: CellStore<GameFacts<B>>>(
    alloc: Global,
    work: &mut Work<B, S>,
    zero: Handle,
) -> Result<Handle, ValueFault>
    requires { StandsFor (work_state S.state work.old) zero zero_form }
    ensures { Gives (work_state S.state work.old) (work_state S.state work.new)
        (plain_item star_form ∷ []) star_form result }
{
    make(alloc, work, false, &[zero], &[zero])
}

/// Whether the next game of the chain is `^*`, or its negative, which alone has two options on a side.
fn has_two(starred: bool, level: u64) -> bool
    ensures { result ≡ (starred && (level == 0)) }
{
    starred && level == 0
}

/// Makes the game of the chain that follows on so many ups, or downs.
fn make_next<B: BoardForms, S: CellStore<GameFacts<B>>>(
    alloc: Global,
    work: &mut Work<B, S>,
    down: bool,
    starred: bool,
    level: u64,
    zero: Handle,
    last: Handle,
) -> Result<Handle, ValueFault>
    requires zero { StandsFor (work_state S.state work.old) zero zero_form }
    requires last { StandsFor (work_state S.state work.old) last (ups_last down (not starred) level) }
    ensures { Gives (work_state S.state work.old) (work_state S.state work.new)
        (plain_item (ups_of down starred (suc level)) ∷ []) (ups_of down starred (suc level)) result }
{
    if has_two(starred, level) {
        make(alloc, work, down, &[zero, last], &[zero])
    } else {
        make(alloc, work, down, &[zero], &[last])
    }
}
