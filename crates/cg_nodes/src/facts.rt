//! What the keys of numbers, lists, games, pairs and boards mean.
ghost use base.Fml.{ftrue};
ghost use Rattle.std.specs.Prelude.{◌≡◌, ℕ, List, pos};
ghost use Rattle.cg_dyadic.specs.Number.{whole};
ghost use Rattle.cg_form.specs.Game.{Game, number};
ghost use Rattle.cg_nodes.specs.Meant.{Meant};
ghost use Rattle.cg_nodes.specs.MeantCode.{meant_code};
ghost use Rattle.cg_nodes.specs.Spelled.{game_meaning};
ghost use Rattle.cg_nodes.specs.KeysLaw.{lawful};

use cg_cells::{Divisor, Facts};
use std::marker::{Model, PhantomData};

const SPREAD: u64 = 0x9E37_79B9_7F4A_7C15;

/// What a cell stands for, in contracts only: a number or a canonical game, a list of such games, contents of 32 bits,
/// a pair of games, or a board.
pub struct Thing {
    of: PhantomData<u8>,
    ghost meant: { Meant } by { meant_code },
}

impl Model for Thing {
    ghost Value = { Meant };

    ghost coded = { meant_code };

    ghost view = { λ t. t.meant };

    ghost also_owns = { λ _. ftrue };
}

impl Drop for Thing {
    fn drop(self) {
        let Self { of: _ } = self;
    }
}

/// What boards stand for, in contracts only: the form of a position, by the number of its game, its rows, its columns
/// and the contents of its cells.
pub trait BoardForms {
    ghost form: { ℕ → ℕ → ℕ → List ℕ → Game };
}

/// No boards: each board cell stands for the number 0.
pub struct NoBoards;

impl BoardForms for NoBoards {
    ghost form = { λ number_of_game rows columns contents. number (whole (pos 0)) };
}

/// The facts of the cells of games. A key spells the thing of its kind that its fields and the things of its ids make.
/// The key of a game spells one only if that game is canonical and equals no number. The key of a long number spells it
/// only if its chunks are those of a long number in lowest terms. The key of a board spells one only if its game's
/// number is 1 to 4, it has 1 to 64 cells, and its contents are exactly those of a board of that game's symbols. A note
/// on a pair must spell the canonical form of the sum, and a note on a board that of the board's form.
pub struct GameFacts<B: BoardForms> {
    of: PhantomData<B>,
}

impl<B: BoardForms> Facts for GameFacts<B> {
    type Thing = Thing;

    ghost meaning = { game_meaning B.form };

    /// `((key * 0x9E3779B97F4A7C15) mod 2^64) mod size`.
    fn home(key: u64, size: u64) -> u64 {
        key.wrapping_mul(SPREAD) % size
    }

    /// The same, with no division.
    #[inline(always)]
    fn home_in(key: u64, size: &Divisor) -> u64 {
        size.remainder(key.wrapping_mul(SPREAD))
    }

    ghost lawful = { lawful B.form };
}
