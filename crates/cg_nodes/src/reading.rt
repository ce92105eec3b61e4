//! What a handle or a list stands for.
ghost use Rattle.std.specs.Prelude.{◌≡◌, IfOk};
ghost use Rattle.cg_dyadic.specs.Number.{InRange, ratio};
ghost use Rattle.cg_form.specs.Canonical.{Canonical};
ghost use Rattle.cg_form.specs.Game.{lefts, rights};
ghost use Rattle.cg_cells.specs.Layout.{FieldsFit};
ghost use Rattle.cg_cells.specs.declared.key.KeyParts.TheVariants as parts;
ghost use Rattle.cg_cells.specs.Store.{Spends};
ghost use Rattle.cg_nodes.specs.Games.{IsGame, game_at, IsList, listed, IsRead};
ghost use Rattle.cg_nodes.specs.Games.{IsHead, IsKind, IsNode, IsInRange, StandFor};
ghost use Rattle.cg_nodes.specs.Ranges.{AllInRange};

use crate::long::read_long;
use crate::{BoardForms, GameFacts, Handle, Handles, Kind, ListId};
use cg_cells::{CellStore, KeyParts};
use cg_dyadic::Dyadic;
use std::alloc::{AllocError, Global};

/// What a handle stands for: a number, or a game with its lists of Left and of Right options.
#[derive(Clone, Copy, Debug, PartialEq, Eq)]
pub enum Reading {
    /// A number.
    Number(Dyadic),
    /// A game that equals no number, by its lists.
    Game(ListId, ListId),
}

/// The first handle of a list, and the list of the others.
#[derive(Clone, Copy, Debug, PartialEq, Eq)]
pub struct Split {
    pub first: Handle,
    pub rest: ListId,
}

/// The options of a game, in rising structural order.
#[derive(Debug, Drop)]
pub struct Sides {
    pub lefts: Handles,
    pub rights: Handles,
}

fn number_of(num: i64, exp: u8) -> Dyadic
    requires { FieldsFit (parts.Number num exp) }
    ensures { result ≡ ratio num exp }
{
    Dyadic::of_lowest(i128::from(num), exp)
}

/// What the handle stands for. That game is canonical, and a number is in range.
pub fn read<B: BoardForms, S: CellStore<GameFacts<B>>>(store: &mut S, handle: Handle) -> Reading
    requires { IsGame (S.state store.old) handle }
    ensures game { IsRead (S.state store.new) result (game_at (S.state store.old) handle) }
    ensures canonical { Canonical (game_at (S.state store.old) handle) }
    ensures in_range { IsInRange (game_at (S.state store.old) handle) }
    ensures spends { Spends 0 (S.state store.old) (S.state store.new) }
{
    let key = store.look(handle.id());
    match key.parts() {
        KeyParts::Number { num, exp } => Reading::Number(number_of(num, exp)),
        KeyParts::Long {
            first,
            exp,
            negative,
        } => Reading::Number(read_long(store, first, exp, negative)),
        KeyParts::Game { lefts, rights } => {
            Reading::Game(ListId { id: lefts }, ListId { id: rights })
        }
        _ => unreachable!(),
    }
}

/// Fact: a known game is canonical, and each number in its tree is in range. The call does nothing: [`read`] tells this
/// of the number that is read, and `known_game` of the whole tree.
pub fn known_game<B: BoardForms, S: CellStore<GameFacts<B>>>(store: &S, handle: Handle)
    requires { IsGame (S.state store.now) handle }
    ensures canonical { Canonical (game_at (S.state store.now) handle) }
    ensures in_range { AllInRange (game_at (S.state store.now) handle) }
{
    let _same = store.same(handle.id(), handle.id());
}

/// The number that the handle stands for, or `Kind::Game`.
pub fn kind<B: BoardForms, S: CellStore<GameFacts<B>>>(store: &mut S, handle: Handle) -> Kind
    requires { IsGame (S.state store.old) handle }
    ensures kind { IsKind result (game_at (S.state store.old) handle) }
    ensures canonical { Canonical (game_at (S.state store.old) handle) }
    ensures in_range { IsInRange (game_at (S.state store.old) handle) }
    ensures spends { Spends 0 (S.state store.old) (S.state store.new) }
{
    match read(store, handle) {
        Reading::Number(x) => Kind::Number(x),
        Reading::Game(_, _) => Kind::Game,
    }
}

/// The first handle of the list and the list of the others, or None for the empty list.
pub fn head<B: BoardForms, S: CellStore<GameFacts<B>>>(store: &mut S, list: ListId) -> Option<Split>
    requires { IsList (S.state store.old) list }
    ensures head { IsHead (S.state store.new) result (listed (S.state store.old) list) }
    ensures spends { Spends 0 (S.state store.old) (S.state store.new) }
{
    let Some(id) = list.id else { return None };
    let key = store.look(id);
    let Some(parts) = key.list_parts() else {
        unreachable!()
    };
    Some(Split {
        first: Handle::of(parts.first),
        rest: ListId { id: parts.rest },
    })
}

/// The handles of the list, in order.
pub fn handles<B: BoardForms, S: CellStore<GameFacts<B>>>(
    alloc: Global,
    store: &mut S,
    list: ListId,
) -> Result<Handles, AllocError>
    requires { IsList (S.state store.old) list }
    ensures handles { IfOk result (λ hs. StandFor (S.state store.new) hs (listed (S.state store.old) list)) }
    ensures spends { Spends 0 (S.state store.old) (S.state store.new) }
{
    let mut all = Vec::new(alloc);
    let mut left = list;
    while let Some(top) = head(store, left) {
        all.push(top.first)?;
        left = top.rest;
    }
    Ok(Handles::of(all))
}

/// The options of a game that isn't a number.
pub fn options<B: BoardForms, S: CellStore<GameFacts<B>>>(
    alloc: Global,
    store: &mut S,
    handle: Handle,
) -> Result<Sides, AllocError>
    requires game { IsGame (S.state store.old) handle }
    requires not_number { IsNode (game_at (S.state store.old) handle) }
    ensures lefts { IfOk result (λ sides.
        StandFor (S.state store.new) sides.lefts (lefts (game_at (S.state store.old) handle))) }
    ensures rights { IfOk result (λ sides.
        StandFor (S.state store.new) sides.rights (rights (game_at (S.state store.old) handle))) }
    ensures canonical { Canonical (game_at (S.state store.old) handle) }
    ensures spends { Spends 0 (S.state store.old) (S.state store.new) }
{
    let (left_list, right_list) = match read(store, handle) {
        Reading::Game(left_list, right_list) => (left_list, right_list),
        Reading::Number(_) => unreachable!(),
    };
    let lefts = handles(alloc, store, left_list)?;
    let rights = handles(alloc, store, right_list)?;
    Ok(Sides { lefts, rights })
}
