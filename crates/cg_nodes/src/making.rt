//! Numbers, lists and games put into cells.
ghost use Rattle.std.specs.Prelude.{◌≡◌, ◌≤◌, ◌∷◌, false, length};
ghost use Rattle.cg_dyadic.specs.Number.{is_long};
ghost use Rattle.cg_form.specs.Game.{number, node};
ghost use Rattle.cg_form.specs.Canonical.{Canonical};
ghost use Rattle.cg_cells.specs.Store.{Spends};
ghost use Rattle.cg_nodes.specs.Games.{StandsFor, IsGame, game_at, AreGames, games_at, ListsAs, listed, IsList};
ghost use Rattle.cg_nodes.specs.Longs.{cells_of};

use crate::long::claim_long;
use crate::{BoardForms, GameFacts, Handle, ListId};
use cg_cells::{CellStore, Id, Key, KeyParts};
use cg_dyadic::Dyadic;

// The handle of a narrow number. It spends one claim.
#[tactic(auto, using(crate::proofs::LongSteps::narrow_fits))]
fn claim_narrow<B: BoardForms, S: CellStore<GameFacts<B>>>(store: &mut S, x: Dyadic) -> Handle
    requires spare { 1 ≤ (S.state store.old).spare }
    requires narrow { is_long x ≡ false }
    ensures game { StandsFor (S.state store.new) result (number x) }
    ensures spends { Spends 1 (S.state store.old) (S.state store.new) }
{
    let key = Key::pack(KeyParts::Number {
        num: x.num() as i64,
        exp: x.exp(),
    });
    Handle::of(store.claim(key))
}

/// The handle of the number. It spends one claim for a narrow number, and three for a long one.
pub fn number<B: BoardForms, S: CellStore<GameFacts<B>>>(store: &mut S, x: Dyadic) -> Handle
    requires { cells_of x ≤ (S.state store.old).spare }
    ensures game { StandsFor (S.state store.new) result (number x) }
    ensures spends { Spends (cells_of x) (S.state store.old) (S.state store.new) }
{
    if x.is_long() {
        claim_long(store, x)
    } else {
        claim_narrow(store, x)
    }
}

fn prepend<B: BoardForms, S: CellStore<GameFacts<B>>>(
    store: &mut S,
    first: Handle,
    rest: ListId,
) -> ListId
    requires spare { 1 ≤ (S.state store.old).spare }
    requires first { IsGame (S.state store.old) first }
    requires rest { IsList (S.state store.old) rest }
    ensures list { ListsAs (S.state store.new) result
        (game_at (S.state store.old) first ∷ listed (S.state store.old) rest) }
    ensures spends { Spends 1 (S.state store.old) (S.state store.new) }
{
    let key = Key::list(first.id(), rest.id);
    ListId {
        id: Some(store.claim(key)),
    }
}

/// The list of the games of the handles, in order. It spends a claim for each.
pub fn list<B: BoardForms, S: CellStore<GameFacts<B>>>(store: &mut S, options: &[Handle]) -> ListId
    requires spare { length options.now ≤ (S.state store.old).spare }
    requires games { AreGames (S.state store.old) options.now }
    ensures list { ListsAs (S.state store.new) result (games_at (S.state store.old) options.now) }
    ensures spends { Spends (length options.now) (S.state store.old) (S.state store.new) }
{
    let mut list = ListId { id: None };
    for option in options.iter().rev() {
        list = prepend(store, *option, list);
    }
    list
}

// Hints that the list of these games may be claimed soon. It answers the id that the list would most likely have.
fn prefetch_list<B: BoardForms, S: CellStore<GameFacts<B>>>(
    store: &mut S,
    options: &[Handle],
) -> Option<Id>
    ensures { Spends 0 (S.state store.old) (S.state store.new) }
{
    let mut list = None;
    for option in options.iter().rev() {
        let key = Key::list(option.id(), list);
        list = Some(store.prefetch_claim(key));
    }
    list
}

/// Hints that the game with these Left and Right options may be claimed soon, so that the store may load the cells of
/// both lists and of the game into the cache.
pub fn prefetch_game<B: BoardForms, S: CellStore<GameFacts<B>>>(
    store: &mut S,
    lefts: &[Handle],
    rights: &[Handle],
)
    ensures { Spends 0 (S.state store.old) (S.state store.new) }
{
    let left_list = prefetch_list(store, lefts);
    let right_list = if lefts == rights {
        left_list
    } else {
        prefetch_list(store, rights)
    };
    if left_list.is_some() || right_list.is_some() {
        let key = Key::game(left_list, right_list);
        store.prefetch_claim(key);
    }
}

/// The handle of the game with these lists of Left and Right options, which must be canonical and equal no number. It
/// spends one claim.
pub fn game<B: BoardForms, S: CellStore<GameFacts<B>>>(
    store: &mut S,
    lefts: ListId,
    rights: ListId,
) -> Handle
    requires spare { 1 ≤ (S.state store.old).spare }
    requires lefts { IsList (S.state store.old) lefts }
    requires rights { IsList (S.state store.old) rights }
    requires canonical { Canonical (node (listed (S.state store.old) lefts) (listed (S.state store.old) rights)) }
    ensures game { StandsFor (S.state store.new) result
        (node (listed (S.state store.old) lefts) (listed (S.state store.old) rights)) }
    ensures spends { Spends 1 (S.state store.old) (S.state store.new) }
{
    let key = Key::game(lefts.id, rights.id);
    Handle::of(store.claim(key))
}
