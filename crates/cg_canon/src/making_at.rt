//! Items of games of the arena of a work.
ghost use Rattle.std.specs.Prelude.{◌≡◌, ◌≤◌, IfOk, Some};
ghost use Rattle.cg_form.specs.Canonical.{Canonical};
ghost use Rattle.cg_form.specs.Game.{node, number};
ghost use Rattle.cg_nodes.specs.Can.{can};
ghost use Rattle.cg_nodes.specs.Games.{AreGames, games_at};
ghost use Rattle.cg_arena.specs.Arena.{AreIndexes, IsIndex, game_of, games_of};
ghost use Rattle.cg_arena.specs.Canonicalized.{IsNewForm};
ghost use Rattle.cg_arena.specs.Terms.{ApartByTerm};
ghost use Rattle.cg_canon.specs.Interners.{InternerHolds};
ghost use Rattle.cg_canon.specs.Ways.{IsWay};
ghost use Rattle.cg_canon.specs.Paid.{IsEntered, IsPaid, MayPay, handle_in, game_in, written};

use crate::entering::enter_number;
use crate::fault::ValueFault;
use crate::interner::{Interner, number_of_form};
use crate::making::{Entered, make_form, make_number};
use crate::meter::Meter;
use crate::value::{Way, put_both};
use cg_arena::{Canonicalized, FirstTerm, Form, Game, NewForm, canonicalize, summary_of_lists};
use cg_cells::CellStore;
use cg_dyadic::Dyadic;
use cg_nodes::{BoardForms, GameFacts, Handle};
use smallvec::SmallVec;
use std::alloc::Global;

/// Makes the item of the game, with a cost of `extra` more. The store is there for the contract alone: what the meter may
/// pay is what it has to spare.
#[inline(always)]
#[tactic(auto, using(crate::proofs::InternerSteps::begins_none))]
pub(crate) fn known_at<B: BoardForms, S: CellStore<GameFacts<B>>>(
    store: &S,
    interner: &Interner,
    meter: &mut Meter,
    game: Game,
    extra: u64,
) -> Result<Entered, ValueFault>
    requires extra { extra ≤ 8 }
    requires holds { InternerHolds (S.state store.now) interner.now }
    requires game { IsIndex interner.now.arena game }
    requires meter { MayPay (S.state store.now) meter.old }
    ensures entered { IsEntered (S.state store.now) (S.state store.now) meter.old meter.new interner.now.arena interner.now.arena
        (game_of interner.now.arena game) extra result }
    ensures own { IfOk result (λ e. e.game ≡ Some game) }
{
    meter.charge_item(interner.arena.charge(game), extra)?;
    Ok(Entered {
        handle: interner.handle(game),
        game: Some(game),
    })
}

/// Makes the item of a number in range, with a cost of `extra` more.
pub(crate) fn number_at<B: BoardForms, S: CellStore<GameFacts<B>>>(
    store: &mut S,
    interner: &mut Interner,
    meter: &mut Meter,
    x: Dyadic,
    extra: u64,
) -> Result<Entered, ValueFault>
    requires extra { extra ≤ 8 }
    requires holds { InternerHolds (S.state store.old) interner.old }
    requires meter { MayPay (S.state store.old) meter.old }
    ensures holds { InternerHolds (S.state store.new) interner.new }
    ensures entered { IsEntered (S.state store.old) (S.state store.new) meter.old meter.new interner.old.arena interner.new.arena (number x) extra result }
{
    match make_number(store, meter, x, extra) {
        Err(fault) => Err(fault),
        Ok(handle) => match enter_number(&*store, interner, handle, x) {
            Ok(game) => Ok(Entered {
                handle,
                game: Some(game),
            }),
            Err(_) => Ok(Entered { handle, game: None }),
        },
    }
}

/// Makes the item of the canonical form that was found, with a cost of `extra` more.
fn new_at<B: BoardForms, S: CellStore<GameFacts<B>>>(
    alloc: Global,
    store: &mut S,
    interner: &mut Interner,
    meter: &mut Meter,
    new: &NewForm,
    extra: u64,
) -> Result<Entered, ValueFault>
    requires extra { extra ≤ 8 }
    requires holds { InternerHolds (S.state store.old) interner.old }
    requires form { IsNewForm interner.old.arena (written interner.old.arena new.now) new.now }
    requires canonical { Canonical (written interner.old.arena new.now) }
    requires meter { MayPay (S.state store.old) meter.old }
    ensures holds { InternerHolds (S.state store.new) interner.new }
    ensures entered { IsEntered (S.state store.old) (S.state store.new) meter.old meter.new interner.old.arena interner.new.arena
        (written interner.old.arena new.now) extra result }
{
    let lefts = new.form.lefts.as_slice();
    let rights = new.form.rights.as_slice();
    let number = number_of_form(lefts, rights);
    if let Some(game) = interner.game_of_form(number, lefts, rights) {
        return known_at(&*store, interner, meter, game, extra);
    }
    make_form(alloc, store, interner, meter, new, number, extra)
}

/// Makes the item of a game that is canonical as it is given, with a cost of `extra` more.
pub(crate) fn given_at<B: BoardForms, S: CellStore<GameFacts<B>>>(
    alloc: Global,
    store: &mut S,
    interner: &mut Interner,
    meter: &mut Meter,
    lefts: &[Game],
    rights: &[Game],
    extra: u64,
) -> Result<Entered, ValueFault>
    requires extra { extra ≤ 8 }
    requires holds { InternerHolds (S.state store.old) interner.old }
    requires lefts { AreIndexes interner.old.arena lefts.now }
    requires rights { AreIndexes interner.old.arena rights.now }
    requires canonical { Canonical (node (games_of interner.old.arena lefts.now)
        (games_of interner.old.arena rights.now)) }
    requires meter { MayPay (S.state store.old) meter.old }
    ensures holds { InternerHolds (S.state store.new) interner.new }
    ensures entered { IsEntered (S.state store.old) (S.state store.new) meter.old meter.new interner.old.arena interner.new.arena
        (node (games_of interner.old.arena lefts.now) (games_of interner.old.arena rights.now)) extra result }
{
    let number = number_of_form(lefts, rights);
    if let Some(game) = interner.game_of_form(number, lefts, rights) {
        return known_at(&*store, interner, meter, game, extra);
    }
    let summary = summary_of_lists(&interner.arena, lefts, rights);
    let form = Form {
        lefts: SmallVec::from_slice(alloc, lefts)?,
        rights: SmallVec::from_slice(alloc, rights)?,
    };
    make_form(
        alloc,
        store,
        interner,
        meter,
        &NewForm { form, summary },
        number,
        extra,
    )
}

/// Makes the item of the canonical form of the game with these options, with a cost of `extra` more. Where so many
/// options of each side are told, these come from one term of a sum, and the others from the other.
pub(crate) fn canonical_at<B: BoardForms, S: CellStore<GameFacts<B>>>(
    alloc: Global,
    store: &mut S,
    interner: &mut Interner,
    meter: &mut Meter,
    lefts: &[Game],
    rights: &[Game],
    first_term: Option<FirstTerm>,
    extra: u64,
) -> Result<Entered, ValueFault>
    requires extra { extra ≤ 8 }
    requires holds { InternerHolds (S.state store.old) interner.old }
    requires lefts { AreIndexes interner.old.arena lefts.now }
    requires rights { AreIndexes interner.old.arena rights.now }
    requires terms { ApartByTerm first_term (games_of interner.old.arena lefts.now)
        (games_of interner.old.arena rights.now) }
    requires meter { MayPay (S.state store.old) meter.old }
    ensures holds { InternerHolds (S.state store.new) interner.new }
    ensures entered { IsEntered (S.state store.old) (S.state store.new) meter.old meter.new interner.old.arena interner.new.arena
        (can (node (games_of interner.old.arena lefts.now) (games_of interner.old.arena rights.now))) extra result }
{
    let canonicalized = canonicalize(
        &interner.arena,
        &mut interner.answers,
        lefts,
        rights,
        first_term,
    )?;
    match canonicalized {
        Canonicalized::Number(x) => number_at(store, interner, meter, x, extra),
        Canonicalized::Outside => Err(ValueFault::Range),
        Canonicalized::Game(new) => new_at(alloc, store, interner, meter, &new, extra),
    }
}

/// The game that was made. Where there was no memory to enter it there is none.
#[inline(always)]
pub(crate) fn made_game(made: Result<Entered, ValueFault>) -> Result<Game, ValueFault>
    ensures { result ≡ game_in made }
{
    match made {
        Ok(entered) => match entered.game {
            Some(game) => Ok(game),
            None => Err(ValueFault::Memory),
        },
        Err(fault) => Err(fault),
    }
}

/// The handle of what was made.
#[inline(always)]
fn made_handle(made: Result<Entered, ValueFault>) -> Result<Handle, ValueFault>
    ensures { result ≡ handle_in made }
{
    match made {
        Ok(entered) => Ok(entered.handle),
        Err(fault) => Err(fault),
    }
}

/// Makes the item of the canonical form of the game with these options, with a cost of `extra` more.
pub(crate) fn make_canonical<B: BoardForms, S: CellStore<GameFacts<B>>>(
    alloc: Global,
    store: &mut S,
    interner: &mut Interner,
    meter: &mut Meter,
    lefts: &[Handle],
    rights: &[Handle],
    way: Way,
    extra: u64,
) -> Result<Handle, ValueFault>
    requires extra { extra ≤ 8 }
    requires holds { InternerHolds (S.state store.old) interner.old }
    requires lefts { AreGames (S.state store.old) lefts.now }
    requires rights { AreGames (S.state store.old) rights.now }
    requires way { IsWay way (games_at (S.state store.old) lefts.now) (games_at (S.state store.old) rights.now) }
    requires meter { MayPay (S.state store.old) meter.old }
    ensures holds { InternerHolds (S.state store.new) interner.new }
    ensures paid { IsPaid (S.state store.old) (S.state store.new) meter.old meter.new
        (can (node (games_at (S.state store.old) lefts.now) (games_at (S.state store.old) rights.now))) extra result }
{
    let mut both = Form::new(alloc);
    put_both(alloc, store, interner, lefts, rights, &mut both)?;
    let low = both.lefts.as_slice();
    let high = both.rights.as_slice();
    match way {
        Way::Search => made_handle(canonical_at(
            alloc, store, interner, meter, low, high, None, extra,
        )),
        Way::AsGiven => {
            let summary = summary_of_lists(&interner.arena, low, high);
            let number = number_of_form(low, high);
            let new = NewForm {
                form: both,
                summary,
            };
            made_handle(make_form(alloc, store, interner, meter, &new, number, extra))
        }
    }
}
