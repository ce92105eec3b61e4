//! The structural order of the games of two handles.
ghost use Rattle.std.specs.Prelude.{◌≡◌, ◌↔◌, ◌≢◌, ◌+◌};
ghost use Rattle.cg_form.specs.Depth.{depth_of, deepest};
ghost use Rattle.cg_form.specs.Game.{node};
ghost use Rattle.cg_form.specs.Structure.{game_cmp, order_of_lists};
ghost use Rattle.cg_cells.specs.Store.{Spends};
ghost use Rattle.cg_nodes.specs.Games.{IsGame, game_at, IsList, listed};
ghost use Rattle.cg_nodes.specs.Partings.{IsParting};

use crate::{BoardForms, GameFacts, Handle, ListId, Reading, head, read};
use cg_cells::CellStore;
use std::cmp::Ordering;

/// Where two games, or two lists of options, first differ.
#[derive(Clone, Copy)]
enum Parting {
    /// They are the same.
    Nowhere,
    /// The first comes before the second.
    Before,
    /// The first comes after the second.
    After,
    /// They are ordered as these two different games are, the first options that differ.
    At(Handle, Handle),
}

// At their first options that differ, or where one list ends before the other.
fn parting_of_lists<B: BoardForms, S: CellStore<GameFacts<B>>>(
    store: &mut S,
    left: ListId,
    right: ListId,
) -> Parting
    requires left { IsList (S.state store.old) left }
    requires right { IsList (S.state store.old) right }
    ensures parting { IsParting (S.state store.new) result
        (order_of_lists (listed (S.state store.old) left) (listed (S.state store.old) right))
        (deepest (listed (S.state store.old) left) + 1) }
    ensures spends { Spends 0 (S.state store.old) (S.state store.new) }
{
    let mut left = left;
    let mut right = right;
    while let Some(a) = head(store, left) {
        let Some(b) = head(store, right) else {
            return Parting::After;
        };
        if !store.same(a.first.id(), b.first.id()) {
            return Parting::At(a.first, b.first);
        }
        left = a.rest;
        right = b.rest;
    }
    match head(store, right) {
        Some(_) => Parting::Before,
        None => Parting::Nowhere,
    }
}

// In their Left options, otherwise in their Right options.
fn parting_of_nodes<B: BoardForms, S: CellStore<GameFacts<B>>>(
    store: &mut S,
    left: (ListId, ListId),
    right: (ListId, ListId),
) -> Parting
    requires left { IsList (S.state store.old) left.0 × IsList (S.state store.old) left.1 }
    requires right { IsList (S.state store.old) right.0 × IsList (S.state store.old) right.1 }
    ensures parting { IsParting (S.state store.new) result
        (game_cmp (node (listed (S.state store.old) left.0) (listed (S.state store.old) left.1))
        (node (listed (S.state store.old) right.0) (listed (S.state store.old) right.1)))
        (depth_of (node (listed (S.state store.old) left.0) (listed (S.state store.old) left.1))) }
    ensures spends { Spends 0 (S.state store.old) (S.state store.new) }
{
    let parting = parting_of_lists(store, left.0, right.0);
    match parting {
        Parting::Nowhere => parting_of_lists(store, left.1, right.1),
        _ => parting,
    }
}

fn parting_of_games<B: BoardForms, S: CellStore<GameFacts<B>>>(
    store: &mut S,
    left: Handle,
    right: Handle,
) -> Parting
    requires left { IsGame (S.state store.old) left }
    requires right { IsGame (S.state store.old) right }
    ensures parting { IsParting (S.state store.new) result
        (game_cmp (game_at (S.state store.old) left) (game_at (S.state store.old) right))
        (depth_of (game_at (S.state store.old) left)) }
    ensures spends { Spends 0 (S.state store.old) (S.state store.new) }
{
    let a = read(store, left);
    let b = read(store, right);
    match a {
        Reading::Number(x) => match b {
            Reading::Number(y) => match x.compare(y) {
                Ordering::Less => Parting::Before,
                Ordering::Equal => Parting::Nowhere,
                Ordering::Greater => Parting::After,
            },
            Reading::Game(_, _) => Parting::Before,
        },
        Reading::Game(left_a, right_a) => match b {
            Reading::Number(_) => Parting::After,
            Reading::Game(left_b, right_b) => {
                parting_of_nodes(store, (left_a, right_a), (left_b, right_b))
            }
        },
    }
}

/// The structural order: numbers before other games, and by value; other games by their lists of Left options, then by
/// their lists of Right options. Lists are compared entry by entry, and a proper prefix comes first. It allocates
/// nothing, and follows at most one option of each game.
pub fn compare_structure<B: BoardForms, S: CellStore<GameFacts<B>>>(
    store: &mut S,
    a: Handle,
    b: Handle,
) -> Ordering
    requires a { IsGame (S.state store.old) a }
    requires b { IsGame (S.state store.old) b }
    ensures order { result ≡ game_cmp (game_at (S.state store.old) a) (game_at (S.state store.old) b) }
    ensures same { (result ≡ Ordering.Equal) ↔ (a ≡ b) }
    ensures spends { Spends 0 (S.state store.old) (S.state store.new) }
{
    if store.same(a.id(), b.id()) {
        return Ordering::Equal;
    }
    let mut left = a;
    let mut right = b;
    loop {
        match parting_of_games(store, left, right) {
            Parting::Nowhere => return Ordering::Equal,
            Parting::Before => return Ordering::Less,
            Parting::After => return Ordering::Greater,
            Parting::At(x, y) => {
                left = x;
                right = y;
            }
        }
    }
}
