//! Switches, tinies and minies.
ghost use Rattle.std.specs.Prelude.{◌≡◌, ◌≤◌, ◌++◌, map, length, cond, IfOk, IsSomeAnd, [], ◌∷◌};
ghost use Rattle.std.specs.Option.{ForSome};
ghost use Rattle.cg_dyadic.specs.Number.{NumberLe};
ghost use Rattle.cg_form.specs.Canonical.{Canonical};
ghost use Rattle.cg_form.specs.Game.{number as number_form};
ghost use Rattle.cg_nodes.specs.Games.{StandsFor};
ghost use Rattle.cg_canon.specs.Made.{Gives, ItemsMade};
ghost use Rattle.cg_canon.specs.Works.{work_state};
ghost use Rattle.cg_names.specs.Lists.{form_items, number_items, plain_item};
ghost use Rattle.cg_names.specs.Named.{other_numbers, pair_form, pair_positions, first_number};
ghost use Rattle.cg_names.specs.Named.{second_number, switch_form, tiny_form, zero_number};

use crate::making::{make, make_number};
use crate::numbers::{is_same, opposite};
use cg_canon::{ValueFault, Work, number_item, zero};
use cg_cells::CellStore;
use cg_dyadic::Dyadic;
use cg_nodes::{BoardForms, GameFacts, Handle};
use std::alloc::Global;

/// Makes the switch `+-x = {x|-x}` of a number of at least 0; None stands for a number out of range. Its items are its
/// positions: `x`, `-x` unless it is 0, and itself; of None the one item is a number out of range.
///
/// `Range` comes exactly for None. `Positions` comes exactly where there are more positions than the work's limit,
/// and else `Full` exactly where the first item that can't be made says so; what was spent before is spent. (Siegel,
/// Combinatorial Game Theory (2013), II.1.)
pub fn switch<B: BoardForms, S: CellStore<GameFacts<B>>>(
    alloc: Global,
    work: &mut Work<B, S>,
    x: Option<Dyadic>,
) -> Result<Handle, ValueFault>
    requires { ForSome x (λ y. NumberLe zero_number y) }
    ensures game { IfOk result (λ h. IsSomeAnd x (λ y. StandsFor (work_state S.state work.new) h (switch_form y))) }
    ensures made { ItemsMade (work_state S.state work.old) (work_state S.state work.new)
        (number_items work.old.limit switch_form x) result }
    ensures more { (work_state S.state work.old).spare ≤ (work_state S.state work.new).spare }
{
    match x {
        None => number_item(alloc, work, None, 0),
        Some(number) => switch_of(alloc, work, number),
    }
}

/// Makes `Tiny(x) = {0|{0|-x}}`, or `Miny(x) = {{x|0}|0}` where it is `miny`, of a number of at least 0; None stands
/// for a number out of range. Its items are its positions: of Tiny 0, `-x` unless it is 0, `{0|-x}` and itself; of
/// Miny `x`, 0 unless it is `x`, `{x|0}` and itself; of None the one item is a number out of range.
///
/// `Range` comes exactly for None. `Positions` comes exactly where there are more positions than the work's limit,
/// and else `Full` exactly where the first item that can't be made says so; what was spent before is spent. (Siegel,
/// Combinatorial Game Theory (2013), II.4.)
pub fn tiny<B: BoardForms, S: CellStore<GameFacts<B>>>(
    alloc: Global,
    work: &mut Work<B, S>,
    miny: bool,
    x: Option<Dyadic>,
) -> Result<Handle, ValueFault>
    requires { ForSome x (λ y. NumberLe zero_number y) }
    ensures game { IfOk result (λ h. IsSomeAnd x (λ y. StandsFor (work_state S.state work.new) h (tiny_form miny y))) }
    ensures made { ItemsMade (work_state S.state work.old) (work_state S.state work.new)
        (number_items work.old.limit (tiny_form miny) x) result }
    ensures more { (work_state S.state work.old).spare ≤ (work_state S.state work.new).spare }
{
    match x {
        None => number_item(alloc, work, None, 0),
        Some(number) => tiny_of(alloc, work, miny, number),
    }
}

/// The switch of a number in range.
fn switch_of<B: BoardForms, S: CellStore<GameFacts<B>>>(
    alloc: Global,
    work: &mut Work<B, S>,
    x: Dyadic,
) -> Result<Handle, ValueFault>
    requires { NumberLe zero_number x }
    ensures { Gives (work_state S.state work.old) (work_state S.state work.new)
        (form_items work.old.limit (switch_form x)) (switch_form x) result }
{
    let y = opposite(x);
    if work.limit() < pair_count(x, y) {
        return Err(ValueFault::Positions);
    }
    make_switch(alloc, work, x, y)
}

/// Tiny, or Miny, of a number in range.
fn tiny_of<B: BoardForms, S: CellStore<GameFacts<B>>>(
    alloc: Global,
    work: &mut Work<B, S>,
    miny: bool,
    x: Dyadic,
) -> Result<Handle, ValueFault>
    requires { NumberLe zero_number x }
    ensures { Gives (work_state S.state work.old) (work_state S.state work.new)
        (form_items work.old.limit (tiny_form miny x)) (tiny_form miny x) result }
{
    let first = first_of(miny, x);
    let second = second_of(miny, x);
    if work.limit() <= pair_count(first, second) {
        return Err(ValueFault::Positions);
    }
    make_tiny(alloc, work, miny, x, first, second)
}

/// The first number that is made for Tiny, or Miny.
fn first_of(miny: bool, x: Dyadic) -> Dyadic
    ensures { result ≡ first_number miny x }
{
    if miny { x } else { zero() }
}

/// The second number that is made for Tiny, or Miny, where it is another one.
fn second_of(miny: bool, x: Dyadic) -> Dyadic
    ensures { result ≡ second_number miny x }
{
    if miny { zero() } else { opposite(x) }
}

/// How many positions `{x|y}` has.
fn pair_count(x: Dyadic, y: Dyadic) -> u64
    ensures { result ≡ length (pair_positions x y) }
{
    if is_same(x, y) { 2 } else { 3 }
}

/// The handles of two numbers, and of the game of the first as its Left and the second as its Right option.
#[derive(Clone, Copy, Debug)]
struct Pair {
    first: Handle,
    second: Handle,
    game: Handle,
}

/// Makes `x`, `y` unless it is `x`, and `{x|y}`.
fn make_pair<B: BoardForms, S: CellStore<GameFacts<B>>>(
    alloc: Global,
    work: &mut Work<B, S>,
    x: Dyadic,
    y: Dyadic,
) -> Result<Pair, ValueFault>
    requires { Canonical (pair_form x y) }
    ensures first { IfOk result (λ p. StandsFor (work_state S.state work.new) p.first (number_form x)) }
    ensures second { IfOk result (λ p. StandsFor (work_state S.state work.new) p.second (number_form y)) }
    ensures game { IfOk result (λ p. StandsFor (work_state S.state work.new) p.game (pair_form x y)) }
    ensures made { ItemsMade (work_state S.state work.old) (work_state S.state work.new) (map plain_item (pair_positions x y)) result }
    ensures more { (work_state S.state work.old).spare ≤ (work_state S.state work.new).spare }
{
    let first = make_number(alloc, work, x)?;
    let second = make_other(alloc, work, x, first, y)?;
    let game = make(alloc, work, false, &[first], &[second])?;
    Ok(Pair {
        first,
        second,
        game,
    })
}

/// Makes `y` unless it is `x`, whose handle is given.
fn make_other<B: BoardForms, S: CellStore<GameFacts<B>>>(
    alloc: Global,
    work: &mut Work<B, S>,
    x: Dyadic,
    first: Handle,
    y: Dyadic,
) -> Result<Handle, ValueFault>
    requires { StandsFor (work_state S.state work.old) first (number_form x) }
    ensures { Gives (work_state S.state work.old) (work_state S.state work.new)
        (map plain_item (other_numbers x y)) (number_form y) result }
{
    if is_same(x, y) {
        Ok(first)
    } else {
        make_number(alloc, work, y)
    }
}

/// Makes the positions of a switch.
fn make_switch<B: BoardForms, S: CellStore<GameFacts<B>>>(
    alloc: Global,
    work: &mut Work<B, S>,
    x: Dyadic,
    y: Dyadic,
) -> Result<Handle, ValueFault>
    requires { Canonical (pair_form x y) }
    ensures { Gives (work_state S.state work.old) (work_state S.state work.new)
        (map plain_item (pair_positions x y)) (pair_form x y) result }
{
    let pair = make_pair(alloc, work, x, y)?;
    Ok(pair.game)
}

/// The handle of 0 among the numbers of Tiny, or Miny.
fn zero_of(miny: bool, pair: &Pair) -> Handle
    ensures { result ≡ cond miny pair.now.second pair.now.first }
{
    if miny { pair.second } else { pair.first }
}

/// Makes the positions of Tiny, or Miny, of which the two numbers are given.
fn make_tiny<B: BoardForms, S: CellStore<GameFacts<B>>>(
    alloc: Global,
    work: &mut Work<B, S>,
    miny: bool,
    x: Dyadic,
    first: Dyadic,
    second: Dyadic,
) -> Result<Handle, ValueFault>
    requires number { NumberLe zero_number x }
    requires first { first ≡ first_number miny x }
    requires second { second ≡ second_number miny x }
    ensures { Gives (work_state S.state work.old) (work_state S.state work.new)
        (map plain_item (pair_positions first second ++ (tiny_form miny x ∷ []))) (tiny_form miny x) result }
{
    let pair = make_pair(alloc, work, first, second)?;
    let zero = zero_of(miny, &pair);
    make(alloc, work, miny, &[zero], &[pair.game])
}
