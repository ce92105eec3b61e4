//! Names of games.
ghost use Rattle.std.specs.Prelude.{◌≡◌, ◌≤◌, ◌++◌, IfOk, OnOk, string_bytes, cond, length, slice_index, [], ◌∷◌};
ghost use Rattle.cg_dyadic.specs.Exact.{number_text};
ghost use Rattle.cg_dyadic.specs.Number.{InRange};
ghost use Rattle.cg_form.specs.Canonical.{Canonical};
ghost use Rattle.cg_form.specs.Game.{of_list};
ghost use Rattle.cg_cells.specs.Store.{Spends};
ghost use Rattle.cg_nodes.specs.Games.{IsGame, game_at};
ghost use Rattle.cg_arena.specs.Arena.{AreIndexes, IsIndex, game_of, games_of};
ghost use Rattle.cg_canon.specs.Walking.{AreApart};
ghost use Rattle.cg_canon.specs.Works.{work_state};
ghost use Rattle.cg_names.specs.Memos.{Recalls};
ghost use Rattle.cg_names.specs.Name.{IsName, braces_name};
ghost use Rattle.cg_names.specs.Reading.{AreNamesInRange, IsNameInRange, IsNamedInRange, ReadsAs, most_open};
ghost use Rattle.cg_names.specs.NamedForms.{arrows_text, base_text, named_text, star_text};
ghost use Rattle.cg_names.specs.Spelled.{further_names, name_of, names_of};

use crate::look::named_form;
use crate::memo::Memo;
use crate::named_form::NamedForm;
use crate::numbers::is_same;
use cg_canon::{Arena, Game, Read, Work, zero};
use cg_cells::CellStore;
use cg_dyadic::Dyadic;
use cg_nodes::{BoardForms, GameFacts, Handle};
use std::alloc::{AllocError, Global};

/// The name of the game, by the first of these rules that fits:
///
/// - A number is `n` or `n/d` in lowest terms, with `d` a power of two and a leading `-` where it is negative.
/// - `x + *k`, with `k` from 1 on, is the number's text, left out where `x` is 0, and then `*` for `k = 1` or `*k`.
/// - `x + n.^`, with `n` from 1 on, is the number's text, left out where `x` is 0, and then `^`, `^^` or `^n`;
///   `x + n.^*` has `*` behind that. The negatives have `v` in place of `^`.
/// - `{x|-x}` with a number `x` above 0 is `+-x`; `{0|{0|-x}}` is `Tiny(x)`, and `{{x|0}|0}` is `Miny(x)`.
/// - Any other game is `{`, the names of its Left options joined by commas, `|`, the names of its Right options joined
///   by commas, `}`.
///
/// A name in whose text at most 64 braces are open at once reads as an expression of which the game is the canonical
/// form; one that opens more is written all the same.
///
/// The only error is want of memory. It claims nothing. (Siegel, Combinatorial Game Theory (2013), II.1 and II.4.)
pub fn name<B: BoardForms, S: CellStore<GameFacts<B>>>(
    alloc: Global,
    store: &mut S,
    handle: Handle,
) -> Result<String, AllocError>
    requires { IsGame (S.state store.old) handle }
    ensures name { IfOk result (λ text. IsName (game_at (S.state store.old) handle) (string_bytes text)) }
    ensures reads { IfOk result (λ text. most_open 0 (string_bytes text) ≤ 64
        → ReadsAs (game_at (S.state store.old) handle) (string_bytes text)) }
    ensures spends { Spends 0 (S.state store.old) (S.state store.new) }
{
    let mut work = Work::new(alloc, store, 0, 0);
    let text = named(alloc, &mut work, handle);
    let _store = work.into_store();
    text
}

/// The name of the game, as [`name`] writes it, with the help of what the work has met.
pub fn named<B: BoardForms, S: CellStore<GameFacts<B>>>(
    alloc: Global,
    work: &mut Work<B, S>,
    handle: Handle,
) -> Result<String, AllocError>
    requires { IsGame (work_state S.state work.old) handle }
    ensures name { IfOk result (λ text. IsName (game_at (work_state S.state work.old) handle) (string_bytes text)) }
    ensures reads { IfOk result (λ text. most_open 0 (string_bytes text) ≤ 64
        → ReadsAs (game_at (work_state S.state work.old) handle) (string_bytes text)) }
    ensures spends { Spends 0 (work_state S.state work.old) (work_state S.state work.new) }
{
    let game = work.game(alloc, handle)?;
    work.distinct();
    let mut memo = Memo::new(alloc);
    let mut text = String::new(alloc);
    push_name(alloc, work.arena(), &mut memo, &mut text, game)?;
    Ok(text)
}

/// Puts the name of the game at the end.
#[cycle(push_name)]
fn push_name(
    alloc: Global,
    arena: &Arena,
    memo: &mut Memo,
    text: &mut String,
    game: Game,
) -> Result<(), AllocError>
    requires apart { AreApart arena.now }
    requires game { IsIndex arena.now game }
    requires memo { Recalls arena.now memo.old }
    ensures text { OnOk result (string_bytes text.new ≡ string_bytes text.old ++ name_of (game_of arena.now game)) }
    ensures in_range { OnOk result (IsNameInRange (game_of arena.now game)) }
    ensures memo { OnOk result (Recalls arena.now memo.new) }
    ensures canonical { Canonical (game_of arena.now game) }
{
    match arena.read(game) {
        Read::Number(number) => push_number(alloc, text, number),
        Read::Options(lefts, rights) => match named_form(arena, memo, game, lefts, rights)? {
            Some(named_form) => push_named(alloc, text, &named_form),
            None => push_braces(alloc, arena, memo, text, lefts, rights),
        },
    }
}

/// Puts braces round the names of the options at the end.
#[cycle(push_name)]
fn push_braces(
    alloc: Global,
    arena: &Arena,
    memo: &mut Memo,
    text: &mut String,
    lefts: &[Game],
    rights: &[Game],
) -> Result<(), AllocError>
    requires apart { AreApart arena.now }
    requires lefts { AreIndexes arena.now lefts.now }
    requires rights { AreIndexes arena.now rights.now }
    requires memo { Recalls arena.now memo.old }
    ensures text { OnOk result (string_bytes text.new ≡ string_bytes text.old
        ++ braces_name (names_of (of_list (games_of arena.now lefts.now)))
        (names_of (of_list (games_of arena.now rights.now)))) }
    ensures lefts_in_range { OnOk result (AreNamesInRange (of_list (games_of arena.now lefts.now))) }
    ensures rights_in_range { OnOk result (AreNamesInRange (of_list (games_of arena.now rights.now))) }
    ensures memo { OnOk result (Recalls arena.now memo.new) }
{
    text.push_str("{")?;
    push_names(alloc, arena, memo, text, lefts)?;
    text.push_str("|")?;
    push_names(alloc, arena, memo, text, rights)?;
    text.push_str("}")
}

/// The number is in range. It does nothing, and its contract is the fact.
fn known_number(number: Dyadic)
    ensures { InRange number }
{
    let _num = number.num();
}

/// Puts the number's text at the end.
fn push_number(alloc: Global, text: &mut String, number: Dyadic) -> Result<(), AllocError>
    ensures text { OnOk result (string_bytes text.new ≡ string_bytes text.old ++ number_text number) }
    ensures in_range { InRange number }
{
    known_number(number);
    let digits = number.text(alloc)?;
    text.push_str(digits.as_str())
}

/// Puts the number's text at the end, unless it is 0.
fn push_base(alloc: Global, text: &mut String, number: Dyadic) -> Result<(), AllocError>
    ensures text { OnOk result (string_bytes text.new ≡ string_bytes text.old ++ base_text number) }
    ensures in_range { InRange number }
{
    known_number(number);
    if is_same(number, zero()) {
        return Ok(());
    }
    push_number(alloc, text, number)
}

/// Puts the text of the named form at the end.
fn push_named(alloc: Global, text: &mut String, named_form: &NamedForm) -> Result<(), AllocError>
    ensures text { OnOk result (string_bytes text.new ≡ string_bytes text.old ++ named_text named_form.now) }
    ensures in_range { OnOk result (IsNamedInRange named_form.now) }
{
    match named_form {
        NamedForm::Star(base, count) => {
            push_base(alloc, text, *base)?;
            push_star(alloc, text, *count)
        }
        NamedForm::Arrows {
            down,
            starred,
            base,
            count,
        } => {
            push_base(alloc, text, *base)?;
            push_arrows(alloc, text, arrow(*down), *count)?;
            text.push_str(if *starred { "*" } else { "" })
        }
        NamedForm::Switch(number) => {
            text.push_str("+-")?;
            push_number(alloc, text, *number)
        }
        NamedForm::Tiny(miny, number) => {
            text.push_str(if *miny { "Miny(" } else { "Tiny(" })?;
            push_number(alloc, text, *number)?;
            text.push_str(")")
        }
    }
}

/// The named form of an up, or of a down.
fn arrow(down: bool) -> &'static str
    ensures { result.now ≡ cond down 118 94 ∷ [] }
{
    if down { "v" } else { "^" }
}

/// Puts a star at the end, with its count unless that is 1.
fn push_star(alloc: Global, text: &mut String, count: u64) -> Result<(), AllocError>
    ensures { OnOk result (string_bytes text.new ≡ string_bytes text.old ++ star_text count) }
{
    text.push_str("*")?;
    if count == 1 {
        return Ok(());
    }
    let digits = format!(in alloc; "{count}")?;
    text.push_str(digits.as_str())
}

/// Puts the arrow at the end, twice for two of them, and with its count for another number but 1.
fn push_arrows(alloc: Global, text: &mut String, arrow: &str, count: u64) -> Result<(), AllocError>
    requires { length arrow.now ≡ 1 }
    ensures { OnOk result (string_bytes text.new ≡ string_bytes text.old ++ arrows_text (slice_index arrow.now 0) count) }
{
    text.push_str(arrow)?;
    match count {
        1 => Ok(()),
        2 => text.push_str(arrow),
        _ => {
            let digits = format!(in alloc; "{count}")?;
            text.push_str(digits.as_str())
        }
    }
}

/// Puts the names of the games at the end, with commas between them.
#[cycle(push_name)]
fn push_names(
    alloc: Global,
    arena: &Arena,
    memo: &mut Memo,
    text: &mut String,
    games: &[Game],
) -> Result<(), AllocError>
    requires apart { AreApart arena.now }
    requires games { AreIndexes arena.now games.now }
    requires memo { Recalls arena.now memo.old }
    ensures text { OnOk result (string_bytes text.new ≡ string_bytes text.old
        ++ names_of (of_list (games_of arena.now games.now))) }
    ensures in_range { OnOk result (AreNamesInRange (of_list (games_of arena.now games.now))) }
    ensures memo { OnOk result (Recalls arena.now memo.new) }
{
    match games.split_first() {
        None => Ok(()),
        Some((first, others)) => {
            push_name(alloc, arena, memo, text, *first)?;
            push_further(alloc, arena, memo, text, others)
        }
    }
}

/// Puts the names of the games at the end, each behind a comma.
#[cycle(push_name)]
fn push_further(
    alloc: Global,
    arena: &Arena,
    memo: &mut Memo,
    text: &mut String,
    games: &[Game],
) -> Result<(), AllocError>
    requires apart { AreApart arena.now }
    requires games { AreIndexes arena.now games.now }
    requires memo { Recalls arena.now memo.old }
    ensures text { OnOk result (string_bytes text.new ≡ string_bytes text.old
        ++ further_names (of_list (games_of arena.now games.now))) }
    ensures in_range { OnOk result (AreNamesInRange (of_list (games_of arena.now games.now))) }
    ensures memo { OnOk result (Recalls arena.now memo.new) }
{
    let mut rest = games;
    while let Some((first, others)) = rest.split_first() {
        text.push_str(",")?;
        push_name(alloc, arena, memo, text, *first)?;
        rest = others;
    }
    Ok(())
}
