//! The named form of a game, by the shape of its options and the named forms of those.
ghost use Rattle.std.specs.Prelude.{◌≡◌, ◌+◌, ◌≤◌, IfOk, OnOk, Some, None, [], ◌∷◌};
ghost use Rattle.cg_dyadic.specs.Number.{Number};
ghost use Rattle.cg_form.specs.Game.{node, number as number_form};
ghost use Rattle.cg_arena.specs.Arena.{AreIndexes, IsIndex, game_of, games_of};
ghost use Rattle.cg_canon.specs.Walking.{AreApart};
ghost use Rattle.cg_names.specs.Memos.{Recalls, arrow_count, kept};
ghost use Rattle.cg_names.specs.Named.{mirrored_if};
ghost use Rattle.cg_names.specs.Readings.{AreStars, IsStar};
ghost use Rattle.cg_names.specs.Shapes.{named_form_of};

use crate::look_arrows::{one_more, starred_arrow};
use crate::look_pairs::{named_switch, tiny};
use crate::look_star::{StarFound, are_same, one_star, star_on};
use crate::memo::Memo;
use crate::named_form::NamedForm;
use crate::shape::{number_at, only};
use cg_canon::{Arena, Game, Read};
use cg_dyadic::Dyadic;
use std::alloc::AllocError;

/// The named form of the game, which has these options. It is found once, and from then on is in the
/// memo. The only error is want of memory.
#[cycle(look)]
pub(crate) fn named_form(
    arena: &Arena,
    memo: &mut Memo,
    game: Game,
    lefts: &[Game],
    rights: &[Game],
) -> Result<Option<NamedForm>, AllocError>
    requires apart { AreApart arena.now }
    requires lefts { AreIndexes arena.now lefts.now }
    requires rights { AreIndexes arena.now rights.now }
    requires options { game_of arena.now game ≡ node (games_of arena.now lefts.now) (games_of arena.now rights.now) }
    requires memo { Recalls arena.now memo.old }
    ensures named_form { IfOk result (λ s. s ≡ named_form_of (game_of arena.now game)) }
    ensures few { IfOk result (λ s. arrow_count s ≤ kept memo.new) }
    ensures memo { OnOk result (Recalls arena.now memo.new) }
{
    match memo.recall(game) {
        Some(named_form) => Ok(named_form),
        None => {
            let named_form = named_by_shape(arena, memo, lefts, rights)?;
            memo.remember(game, &named_form)?;
            Ok(named_form)
        }
    }
}

/// The named form of the game with these options, by its shape.
#[cycle(look)]
fn named_by_shape(
    arena: &Arena,
    memo: &mut Memo,
    lefts: &[Game],
    rights: &[Game],
) -> Result<Option<NamedForm>, AllocError>
    requires apart { AreApart arena.now }
    requires lefts { AreIndexes arena.now lefts.now }
    requires rights { AreIndexes arena.now rights.now }
    requires memo { Recalls arena.now memo.old }
    ensures named_form { IfOk result (λ s. s ≡ named_form_of
        (node (games_of arena.now lefts.now) (games_of arena.now rights.now))) }
    ensures few { IfOk result (λ s. arrow_count s ≤ kept memo.new + 1) }
    ensures memo { OnOk result (Recalls arena.now memo.new) }
{
    match star(arena, memo, lefts, rights)? {
        Some(found) => Ok(Some(NamedForm::Star(found.base, found.count))),
        None => named_by_ends(arena, memo, lefts, rights),
    }
}

/// The number x and the count n of `x + *n`, with n from 1 on.
#[cycle(look)]
fn star(
    arena: &Arena,
    memo: &mut Memo,
    lefts: &[Game],
    rights: &[Game],
) -> Result<Option<StarFound>, AllocError>
    requires apart { AreApart arena.now }
    requires lefts { AreIndexes arena.now lefts.now }
    requires rights { AreIndexes arena.now rights.now }
    requires memo { Recalls arena.now memo.old }
    ensures star { IfOk result (IsStar (node (games_of arena.now lefts.now) (games_of arena.now rights.now))) }
    ensures memo { OnOk result (Recalls arena.now memo.new) }
{
    if !are_same(lefts, rights) {
        return Ok(None);
    }
    match stars(arena, memo, lefts)? {
        None => Ok(None),
        Some(base) => Ok(Some(StarFound {
            base,
            count: lefts.len() as u64,
        })),
    }
}

/// The number x where the games are x, x + *, x + *2 and so on. The named form of the last one tells what the others
/// must be.
#[cycle(look)]
fn stars(arena: &Arena, memo: &mut Memo, options: &[Game]) -> Result<Option<Dyadic>, AllocError>
    requires apart { AreApart arena.now }
    requires options { AreIndexes arena.now options.now }
    requires memo { Recalls arena.now memo.old }
    ensures stars { IfOk result (AreStars (games_of arena.now options.now)) }
    ensures memo { OnOk result (Recalls arena.now memo.new) }
{
    let Some((last, others)) = options.split_last() else {
        return Ok(None);
    };
    match arena.read(*last) {
        Read::Number(x) => Ok(one_star(x, others.len())),
        Read::Options(lefts, rights) => {
            let named_form = named_form(arena, memo, *last, lefts, rights)?;
            Ok(star_on(arena, lefts, &named_form, others))
        }
    }
}

/// The named form of a game that has none with a nimber alone.
#[cycle(look)]
fn named_by_ends(
    arena: &Arena,
    memo: &mut Memo,
    lefts: &[Game],
    rights: &[Game],
) -> Result<Option<NamedForm>, AllocError>
    requires apart { AreApart arena.now }
    requires lefts { AreIndexes arena.now lefts.now }
    requires rights { AreIndexes arena.now rights.now }
    requires no_star { IsStar (node (games_of arena.now lefts.now) (games_of arena.now rights.now)) None }
    requires memo { Recalls arena.now memo.old }
    ensures named_form { IfOk result (λ s. s ≡ named_form_of
        (node (games_of arena.now lefts.now) (games_of arena.now rights.now))) }
    ensures few { IfOk result (λ s. arrow_count s ≤ kept memo.new + 1) }
    ensures memo { OnOk result (Recalls arena.now memo.new) }
{
    match only(arena, lefts) {
        None => match only(arena, rights) {
            None => Ok(None),
            Some(last) => Ok(starred_arrow(arena, false, lefts, last)),
        },
        Some(first) => match only(arena, rights) {
            None => Ok(starred_arrow(arena, true, rights, first)),
            Some(last) => named_of_two(arena, memo, first, last),
        },
    }
}

/// The named form of `{first|last}`, which has none with a nimber alone.
#[cycle(look)]
fn named_of_two(
    arena: &Arena,
    memo: &mut Memo,
    first: Game,
    last: Game,
) -> Result<Option<NamedForm>, AllocError>
    requires apart { AreApart arena.now }
    requires first { IsIndex arena.now first }
    requires last { IsIndex arena.now last }
    requires no_star { IsStar (node (game_of arena.now first ∷ []) (game_of arena.now last ∷ [])) None }
    requires memo { Recalls arena.now memo.old }
    ensures named_form { IfOk result (λ s. s ≡ named_form_of
        (node (game_of arena.now first ∷ []) (game_of arena.now last ∷ []))) }
    ensures few { IfOk result (λ s. arrow_count s ≤ kept memo.new + 1) }
    ensures memo { OnOk result (Recalls arena.now memo.new) }
{
    match number_at(arena, first) {
        None => match number_at(arena, last) {
            None => Ok(None),
            Some(y) => steep(arena, memo, true, y, first),
        },
        Some(x) => match number_at(arena, last) {
            None => steep(arena, memo, false, x, last),
            Some(y) => Ok(named_switch(x, y)),
        },
    }
}

/// The named form of `{x|last}`, or of `{last|x}` where it is `down`: tiny or miny, ups or downs.
#[cycle(look)]
fn steep(
    arena: &Arena,
    memo: &mut Memo,
    down: bool,
    x: Dyadic,
    last: Game,
) -> Result<Option<NamedForm>, AllocError>
    requires apart { AreApart arena.now }
    requires game { IsIndex arena.now last }
    requires other { (y : Number) → ¬ (game_of arena.now last ≡ number_form y) }
    requires memo { Recalls arena.now memo.old }
    ensures named_form { IfOk result (λ s. s ≡ named_form_of
        (mirrored_if down (number_form x ∷ []) (game_of arena.now last ∷ []))) }
    ensures few { IfOk result (λ s. arrow_count s ≤ kept memo.new + 1) }
    ensures memo { OnOk result (Recalls arena.now memo.new) }
{
    match arena.read(last) {
        Read::Number(_) => Ok(None),
        Read::Options(lefts, rights) => match tiny(arena, down, x, lefts, rights) {
            Some(size) => Ok(Some(NamedForm::Tiny(down, size))),
            None => {
                let named_form = named_form(arena, memo, last, lefts, rights)?;
                memo.has_room();
                Ok(one_more(down, x, &named_form))
            }
        },
    }
}
