//! Equality of the games of two handles.
ghost use Rattle.std.specs.Prelude.{◌≡◌, ◌↔◌, IsTrue};
ghost use Rattle.cg_form.specs.Order.{Equal};
ghost use Rattle.cg_nodes.specs.Games.{IsGame, game_at};

use cg_cells::CellStore;
use cg_nodes::{BoardForms, GameFacts, Handle};

/// Whether a and b are equal games, which is so exactly where they are one handle. It takes no memory.
pub fn equal<B: BoardForms, S: CellStore<GameFacts<B>>>(store: &S, a: Handle, b: Handle) -> bool
    requires a { IsGame (S.state store.now) a }
    requires b { IsGame (S.state store.now) b }
    ensures games { IsTrue result ↔ Equal (game_at (S.state store.now) a) (game_at (S.state store.now) b) }
    ensures handles { IsTrue result ↔ (a ≡ b) }
{
    store.same(a.id(), b.id())
}
