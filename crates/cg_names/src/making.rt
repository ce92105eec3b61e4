//! The steps of the makers: each makes one item.
ghost use Rattle.std.specs.Prelude.{◌≡◌, ◌+◌, ◌≤◌, ◌<◌, MatchOption, [], ◌∷◌};
ghost use Rattle.cg_form.specs.Canonical.{Canonical};
ghost use Rattle.cg_form.specs.Game.{Game, number as number_form};
ghost use Rattle.cg_nodes.specs.Games.{AreGames, games_at};
ghost use Rattle.cg_canon.specs.Made.{Gives};
ghost use Rattle.cg_canon.specs.Works.{work_state};
ghost use Rattle.cg_names.specs.Lists.{plain_item};
ghost use Rattle.cg_names.specs.Named.{mirrored_if, zero_form};

use cg_canon::{ValueFault, Work, canonical_item, number_item, zero};
use cg_cells::CellStore;
use cg_dyadic::Dyadic;
use cg_nodes::{BoardForms, GameFacts, Handle};
use std::alloc::Global;

/// The count, where it and so many more are at most the limit.
pub(crate) fn within(count: u128, more: u64, limit: u64) -> Option<u64>
    ensures { MatchOption result (limit < count + more) (λ n. (n ≡ count) × (count + more ≤ limit)) }
{
    let most = limit.checked_sub(more)?;
    if count <= u128::from(most) {
        Some(count as u64)
    } else {
        None
    }
}

/// Makes the item of a number.
pub(crate) fn make_number<B: BoardForms, S: CellStore<GameFacts<B>>>(
    alloc: Global,
    work: &mut Work<B, S>,
    x: Dyadic,
) -> Result<Handle, ValueFault>
    ensures { Gives (work_state S.state work.old) (work_state S.state work.new)
        (plain_item (number_form x) ∷ []) (number_form x) result }
{
    number_item(alloc, work, Some(x), 0)
}

/// Makes the item of the number 0.
pub(crate) fn make_zero<B: BoardForms, S: CellStore<GameFacts<B>>>(
    alloc: Global,
    work: &mut Work<B, S>,
) -> Result<Handle, ValueFault>
    ensures { Gives (work_state S.state work.old) (work_state S.state work.new)
        (plain_item zero_form ∷ []) zero_form result }
{
    make_number(alloc, work, zero())
}

/// Makes the item of the game of these Left and Right options, or with the sides exchanged where it is `mirrored`.
pub(crate) fn make<B: BoardForms, S: CellStore<GameFacts<B>>>(
    alloc: Global,
    work: &mut Work<B, S>,
    mirrored: bool,
    lefts: &[Handle],
    rights: &[Handle],
) -> Result<Handle, ValueFault>
    requires lefts { AreGames (work_state S.state work.old) lefts.now }
    requires rights { AreGames (work_state S.state work.old) rights.now }
    requires canonical { let W = work_state S.state work.old in
        Canonical (mirrored_if mirrored (games_at W lefts.now) (games_at W rights.now)) }
    ensures { let W = work_state S.state work.old in (g : Game) → mirrored_if mirrored (games_at W lefts.now)
        (games_at W rights.now) ≡ g → Gives W (work_state S.state work.new) (plain_item g ∷ []) g result }
{
    if mirrored {
        canonical_item(alloc, work, rights, lefts, 0)
    } else {
        canonical_item(alloc, work, lefts, rights, 0)
    }
}
