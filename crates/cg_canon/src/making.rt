//! Items of the games of lists of handles, made beside the interner of their work.
ghost use Rattle.std.specs.Prelude.{◌≡◌, ◌+◌, ◌≤◌, ℕ, length, IfSome};
ghost use Rattle.cg_form.specs.Canonical.{Canonical};
ghost use Rattle.cg_form.specs.Game.{node, number};
ghost use Rattle.cg_cells.specs.Store.{Spends};
ghost use Rattle.cg_nodes.specs.Games.{AreGames, IsGame, ListsAs, StandsFor, game_at, games_at};
ghost use Rattle.cg_arena.specs.Arena.{games_of};
ghost use Rattle.cg_arena.specs.Canonicalized.{IsNewForm};
ghost use Rattle.cg_canon.specs.Arena.{Begins, IsAt};
ghost use Rattle.cg_canon.specs.Interners.{InternerHolds};
ghost use Rattle.cg_canon.specs.Paid.{IsEntered, IsPaid, MayPay, written};

use crate::entering::enter_game;
use crate::fault::ValueFault;
use crate::interner::{Interner, put_handles};
use crate::made::are_same;
use crate::meter::Meter;
use cg_arena::{Charge, Game, NewForm};
use cg_cells::CellStore;
use cg_dyadic::Dyadic;
use cg_nodes::{BoardForms, GameFacts, Handle, ListId, game, list, number, prefetch_game};
use smallvec::SmallVec;
use std::alloc::Global;

/// A form that was made: its handle, and its game, where there was memory to enter it in the arena.
#[derive(Clone, Copy)]
pub(crate) struct Entered {
    pub handle: Handle,
    pub game: Option<Game>,
}

/// Enters the form that was made, with this handle, unless it is there or there is no memory for it. It is looked for by
/// this number.
fn enter_form<B: BoardForms, S: CellStore<GameFacts<B>>>(
    store: &S,
    interner: &mut Interner,
    handle: Handle,
    new: &NewForm,
    number: u32,
) -> Option<Game>
    requires holds { InternerHolds (S.state store.now) interner.old }
    requires game { IsGame (S.state store.now) handle }
    requires canonical { Canonical (game_at (S.state store.now) handle) }
    requires form { IsNewForm interner.old.arena (game_at (S.state store.now) handle) new.now }
    ensures holds { InternerHolds (S.state store.now) interner.new }
    ensures begins { Begins interner.old.arena interner.new.arena }
    ensures game { IfSome result (λ i. IsAt interner.new.arena i (game_at (S.state store.now) handle)) }
{
    let lefts = new.form.lefts.as_slice();
    let rights = new.form.rights.as_slice();
    match enter_game(store, interner, handle, lefts, rights, &new.summary, number) {
        Ok(game) => Some(game),
        Err(_) => None,
    }
}

/// The list of the Right options, where that of the Left options was made. The same options have the same list, as
/// those of nimbers have, and nothing is claimed for it then.
fn second_list<B: BoardForms, S: CellStore<GameFacts<B>>>(
    store: &mut S,
    lefts: &[Handle],
    rights: &[Handle],
    left_list: ListId,
) -> ListId
    requires spare { length rights.now ≤ (S.state store.old).spare }
    requires games { AreGames (S.state store.old) rights.now }
    requires first { ListsAs (S.state store.old) left_list (games_at (S.state store.old) lefts.now) }
    ensures list { ListsAs (S.state store.new) result (games_at (S.state store.old) rights.now) }
    ensures spends { (n : ℕ) × (n ≤ length rights.now) × Spends n (S.state store.old) (S.state store.new) }
{
    if are_same(lefts, rights) {
        return left_list;
    }
    list(store, rights)
}

/// The handle of the game whose options have these handles. All its cells are prefetched before the first is claimed,
/// so that it needn't wait for one after another.
fn claimed_game<B: BoardForms, S: CellStore<GameFacts<B>>>(
    store: &mut S,
    lefts: &[Handle],
    rights: &[Handle],
) -> Handle
    requires lefts { AreGames (S.state store.old) lefts.now }
    requires rights { AreGames (S.state store.old) rights.now }
    requires canonical { Canonical (node (games_at (S.state store.old) lefts.now) (games_at (S.state store.old) rights.now)) }
    requires spare { 1 + length lefts.now + length rights.now ≤ (S.state store.old).spare }
    ensures game { StandsFor (S.state store.new) result
        (node (games_at (S.state store.old) lefts.now) (games_at (S.state store.old) rights.now)) }
    ensures spends { (n : ℕ) × (n ≤ 1 + length lefts.now + length rights.now) × Spends n (S.state store.old) (S.state store.new) }
{
    prefetch_game(store, lefts, rights);
    let left_list = list(store, lefts);
    let right_list = second_list(store, lefts, rights, left_list);
    game(store, left_list, right_list)
}

/// Claims the form, whose options have these handles, and enters it in the interner, where it is looked for by this
/// number.
fn claimed<B: BoardForms, S: CellStore<GameFacts<B>>>(
    store: &mut S,
    interner: &mut Interner,
    lefts: &[Handle],
    rights: &[Handle],
    new: &NewForm,
    number: u32,
) -> Entered
    requires holds { InternerHolds (S.state store.old) interner.old }
    requires form { IsNewForm interner.old.arena (written interner.old.arena new.now) new.now }
    requires canonical { Canonical (written interner.old.arena new.now) }
    requires spare { new.now.summary.cost ≤ (S.state store.old).spare }
    requires lefts { AreGames (S.state store.old) lefts.now }
    requires rights { AreGames (S.state store.old) rights.now }
    requires left_games { games_at (S.state store.old) lefts.now ≡ games_of interner.old.arena
        new.now.form.lefts.items }
    requires right_games { games_at (S.state store.old) rights.now ≡ games_of interner.old.arena
        new.now.form.rights.items }
    ensures holds { InternerHolds (S.state store.new) interner.new }
    ensures begins { Begins interner.old.arena interner.new.arena }
    ensures game { StandsFor (S.state store.new) result.handle (written interner.old.arena new.now) }
    ensures at { IfSome result.game (λ i. IsAt interner.new.arena i (written interner.old.arena new.now)) }
    ensures spends { (n : ℕ) × (n ≤ new.now.summary.cost) × Spends n (S.state store.old) (S.state store.new) }
{
    let handle = claimed_game(store, lefts, rights);
    let game = enter_form(&*store, interner, handle, new, number);
    Entered { handle, game }
}

/// Makes the item of the canonical form that was found, with a cost of `extra` more. It is looked for by this number.
#[tactic(auto, using(crate::proofs::InternerSteps::begins_none))]
pub(crate) fn make_form<B: BoardForms, S: CellStore<GameFacts<B>>>(
    alloc: Global,
    store: &mut S,
    interner: &mut Interner,
    meter: &mut Meter,
    new: &NewForm,
    number: u32,
    extra: u64,
) -> Result<Entered, ValueFault>
    requires extra { extra ≤ 8 }
    requires holds { InternerHolds (S.state store.old) interner.old }
    requires form { IsNewForm interner.old.arena (written interner.old.arena new.now) new.now }
    requires canonical { Canonical (written interner.old.arena new.now) }
    requires meter { MayPay (S.state store.old) meter.old }
    ensures holds { InternerHolds (S.state store.new) interner.new }
    ensures entered { IsEntered (S.state store.old) (S.state store.new) meter.old meter.new interner.old.arena interner.new.arena
        (written interner.old.arena new.now) extra result }
{
    let mut lefts = SmallVec::new(alloc);
    put_handles(&*store, interner, new.form.lefts.as_slice(), &mut lefts)?;
    let mut rights = SmallVec::new(alloc);
    put_handles(&*store, interner, new.form.rights.as_slice(), &mut rights)?;
    meter.charge_item(new.summary.charge(), extra)?;
    Ok(claimed(
        store,
        interner,
        lefts.as_slice(),
        rights.as_slice(),
        new,
        number,
    ))
}

/// Makes the item of a number in range, with a cost of `extra` more.
pub(crate) fn make_number<B: BoardForms, S: CellStore<GameFacts<B>>>(
    store: &mut S,
    meter: &mut Meter,
    x: Dyadic,
    extra: u64,
) -> Result<Handle, ValueFault>
    requires extra { extra ≤ 8 }
    requires meter { MayPay (S.state store.old) meter.old }
    ensures { IsPaid (S.state store.old) (S.state store.new) meter.old meter.new (number x) extra result }
{
    meter.charge_item(Charge::number(x), extra)?;
    Ok(number(store, x))
}
