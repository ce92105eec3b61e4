//! The positions of a game of the arena, in order, each with the places of its options.
//!
//! A mark says at which place a game was found. The position at that place is read then, so a mark that a former walk
//! left does no harm.
ghost use Rattle.std.specs.Prelude.{◌≡◌, ℕ, ◌<◌, ◌≤◌, ◌^◌, ◌++◌, ◌∷◌, [], IfOk};
ghost use Rattle.std.specs.Prelude.{All, IsTrue, List, OnOk, Err, get_or, length, false};
ghost use Rattle.cg_form.specs.Canonical.{Canonical};
ghost use Rattle.cg_form.specs.Extended.{positions_before};
ghost use Rattle.cg_form.specs.Game as tree;
ghost use Rattle.cg_form.specs.Game.{Among};
ghost use Rattle.cg_arena.specs.Arena.{IsIndex, game_of};
ghost use Rattle.cg_canon.specs.Walk.{IsPlace};
ghost use Rattle.cg_canon.specs.Walking.{Appended, AreApart, AreMarked, HasMark, HasPlace, found_in};

use crate::number_up_star::zero;
use cg_arena::{Arena, Game, Read};
use cg_nodes::PositionsFault;
use std::alloc::{AllocError, Global};

/// A position of a game, and where its options are listed.
#[derive(Clone, Copy)]
pub struct Position {
    /// Its game.
    pub game: Game,
    /// Where its Left options begin among the options of all positions.
    pub lefts: usize,
    /// Where its Right options begin.
    pub rights: usize,
    /// Where its Right options end.
    pub end: usize,
    /// Whether it is a number. No options are listed for one.
    pub is_number: bool,
    /// Whether it is 0.
    pub is_zero: bool,
}

/// The positions of a game, in order, and their options, by their places among the positions.
#[derive(Drop)]
pub struct Walk {
    /// The positions.
    pub positions: Vec<Position>,
    /// The options of all positions.
    pub options: Vec<usize>,
}

/// The first room for positions.
const POSITIONS: usize = 32;

/// The first room for options.
const OPTIONS: usize = 64;

impl Walk {
    /// Of no positions.
    pub(crate) fn new(alloc: Global) -> Result<Walk, AllocError>
        ensures positions { IfOk result (λ w. w.positions.items ≡ []) }
        ensures options { IfOk result (λ w. w.options.items ≡ []) }
    {
        Ok(Walk {
            positions: Vec::with_capacity(alloc, POSITIONS)?,
            options: Vec::with_capacity(alloc, OPTIONS)?,
        })
    }

    /// Whether the position at the place that the mark of the game says is that of this game.
    pub(crate) fn has(&self, marks: &[usize], game: Game) -> bool
        requires { game < length marks.now }
        ensures found { IsTrue result → HasPlace self.now.positions.items (get_or marks.now game 0) game }
        ensures none { result ≡ false → ¬ HasPlace self.now.positions.items (get_or marks.now game 0) game }
    {
        match self.positions.get(marks[game.place()]) {
            Some(position) => position.game == game,
            None => false,
        }
    }

    /// Puts the places of these games, which were all found, behind the options.
    #[inline(always)]
    fn put_options(&mut self, marks: &[usize], games: &[Game]) -> Result<(), AllocError>
        requires { All (HasMark self.old.positions.items marks.now) games.now }
        ensures positions { self.new.positions.items ≡ self.old.positions.items }
        ensures options { OnOk result (Appended self.old.positions.items self.old.options.items self.new.options.items games.now) }
    {
        for game in games {
            self.options.push(marks[game.place()])?;
        }
        Ok(())
    }

    /// The position of the game, which is the next one. The places of its options are put behind the
    /// options.
    pub(crate) fn position(
        &mut self,
        arena: &Arena,
        marks: &[usize],
        game: Game,
    ) -> Result<Position, AllocError>
        requires apart { AreApart arena.now }
        requires marked { AreMarked arena.now marks.now self.old.positions.items }
        requires game { IsIndex arena.now game }
        requires found { (g : tree.Game) → Among g (positions_before (game_of arena.now game)) → Among g (found_in arena.now self.old.positions.items) }
        ensures positions { self.new.positions.items ≡ self.old.positions.items }
        ensures more { OnOk result ((more : List ℕ) × (self.new.options.items ≡ self.old.options.items ++ more)) }
        ensures canonical { OnOk result (Canonical (game_of arena.now game)) }
        ensures game { IfOk result (λ p. p.game ≡ game) }
        ensures place { IfOk result (IsPlace self.new.options.items
            (found_in arena.now self.old.positions.items ++ (game_of arena.now game ∷ [])) (length self.old.positions.items)) }
    {
        let lefts = self.options.len();
        match arena.read(game) {
            Read::Number(x) => Ok(Position {
                game,
                lefts,
                rights: lefts,
                end: lefts,
                is_number: true,
                is_zero: x == zero(),
            }),
            Read::Options(left_options, right_options) => {
                self.put_options(marks, left_options)?;
                let rights = self.options.len();
                self.put_options(marks, right_options)?;
                Ok(Position {
                    game,
                    lefts,
                    rights,
                    end: self.options.len(),
                    is_number: false,
                    is_zero: false,
                })
            }
        }
    }

    /// Adds the next position, and marks its game, unless there are so many positions.
    pub(crate) fn add(
        &mut self,
        marks: &mut [usize],
        position: Position,
        limit: u64,
    ) -> Result<(), PositionsFault>
        requires room { position.game < length marks.old }
        requires within { length self.old.positions.items ≤ limit }
        ensures positions { OnOk result (self.new.positions.items ≡ self.old.positions.items ++ (position ∷ [])) }
        ensures options { self.new.options.items ≡ self.old.options.items }
        ensures room { length marks.new ≡ length marks.old }
        ensures own { OnOk result (get_or marks.new position.game 0 ≡ length self.old.positions.items) }
        ensures others { OnOk result ((i : ℕ) → ¬ (i ≡ position.game) → get_or marks.new i 0 ≡ get_or marks.old i 0) }
        ensures within { OnOk result (length self.old.positions.items < limit) }
        ensures refused { result ≡ Err PositionsFault.Positions → (limit ≡ length self.old.positions.items) × (limit < 2 ^ 63) }
    {
        let place = self.positions.len();
        if place as u64 >= limit {
            return Err(PositionsFault::Positions);
        }
        let own = position.game.place();
        self.positions.push(position)?;
        marks[own] = place;
        Ok(())
    }
}
