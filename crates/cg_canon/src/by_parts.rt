//! Sums of games that are known as numbers, ups and nimbers.
//!
//! The sum of two such games is such a game, part by part. So where a game is known as that sum, it stands for the
//! canonical form of the sum, and no option is looked at. Where two of the three games of a sum are known so, the third
//! is, too: that is how the multiples of ^, with nimbers and numbers added to them, become known.
ghost use Rattle.std.specs.Prelude.{◌≡◌, IfSome};
ghost use Rattle.cg_arena.specs.Arena.{IsIndex, game_of};
ghost use Rattle.cg_canon.specs.Arena.{IsAt};
ghost use Rattle.cg_canon.specs.NumberUpStars.{game_of as game_of_parts};
ghost use Rattle.cg_canon.specs.Recognized.{IsKnownAt};
ghost use Rattle.cg_canon.specs.Works.{work_state};
ghost use Rattle.cg_form.specs.Order.{Equal};
ghost use Rattle.cg_form.specs.Sum.{sum as sum_of};
ghost use Rattle.cg_nimbers.specs.Nimbers.{nimber_form};
ghost use Rattle.cg_nodes.specs.Can.{can};
ghost use Rattle.cg_nodes.specs.Games.{StandsFor};

use crate::number_up_star::NumberUpStar;
use crate::work::Work;
use cg_arena::Game;
use cg_cells::CellStore;
use cg_nodes::{BoardForms, GameFacts, Handle};

impl<'a, B: BoardForms, S: CellStore<GameFacts<B>>> Work<'a, B, S> {
    /// The number of the nimber that the game is known as, if it is known as one.
    pub fn nimber_of(&self, a: Handle) -> Option<u64>
        ensures { IfSome result (λ n. StandsFor (work_state S.state self.now) a (nimber_form n)) }
    {
        let game = self.cache.memo.interner.game(a)?;
        self.nimber_of_game(game)
    }

    /// The number of the nimber that the game is known as, if it is known as one.
    fn nimber_of_game(&self, game: Game) -> Option<u64>
        requires { IsIndex self.now.arena game }
        ensures { IfSome result (λ n. game_of self.now.arena game ≡ nimber_form n) }
    {
        let parts = self.parts_of(game)?;
        if parts.is(&NumberUpStar::of_nimber(parts.star)) {
            Some(parts.star)
        } else {
            None
        }
    }

    /// The canonical form of a + b, where both are known as a number, ups and a nimber, and it is, too.
    pub fn sum_by_parts(&self, a: Game, b: Game) -> Option<Game>
        requires a { IsIndex self.now.arena a }
        requires b { IsIndex self.now.arena b }
        ensures { let A = self.now.arena in
            IfSome result (λ i. IsAt A i (can (sum_of (game_of A a) (game_of A b)))) }
    {
        let first = self.parts_of(a)?;
        let second = self.parts_of(b)?;
        let both = first.plus(second)?;
        self.game_with(&both)
    }

    /// Keeps what one of a, b and their sum is known as, where that is known of the other two.
    pub fn learn_sum(&mut self, a: Game, b: Game, sum: Game)
        requires a { IsIndex self.old.arena a }
        requires b { IsIndex self.old.arena b }
        requires sum { let A = self.old.arena in IsAt A sum (can (sum_of (game_of A a) (game_of A b))) }
        ensures { self.new ≡ self.old }
    {
        match (self.parts_of(a), self.parts_of(b)) {
            (Some(first), Some(second)) => {
                if let Some(both) = first.plus(second) {
                    self.learn(sum, both);
                }
            }
            (Some(first), None) => {
                let one = *first;
                self.learn_other(b, a, sum, one);
            }
            (None, Some(second)) => {
                let one = *second;
                self.learn_other(a, b, sum, one);
            }
            (None, None) => {}
        }
    }

    /// What the game is known as, if it is.
    #[inline(always)]
    fn parts_of(&self, game: Game) -> Option<&NumberUpStar>
        ensures { IfSome result (λ parts. IsKnownAt self.now.arena game parts.now) }
    {
        self.cache.memo.interner.recognized.parts_of(game)
    }

    /// A game that is known as these parts, if one is found.
    fn game_with(&self, parts: &NumberUpStar) -> Option<Game>
        ensures { IfSome result (λ game. IsKnownAt self.now.arena game parts.now) }
    {
        self.cache.memo.interner.recognized.game_with(parts)
    }

    /// Keeps what the game is known as, unless that is known or there is no memory for it.
    fn learn(&mut self, game: Game, parts: NumberUpStar)
        requires game { IsIndex self.old.arena game }
        requires equal { Equal (game_of self.old.arena game) (game_of_parts parts) }
        ensures { self.new ≡ self.old }
    {
        if self.parts_of(game).is_none() {
            self.cache.memo.interner.recognized.keep(game, parts);
        }
    }

    /// Keeps what the game at a is known as, where that at b is known as `one`, and their sum is known.
    fn learn_other(&mut self, a: Game, b: Game, sum: Game, one: NumberUpStar)
        requires a { IsIndex self.old.arena a }
        requires b { IsKnownAt self.old.arena b one }
        requires sum { let A = self.old.arena in Equal (game_of A sum) (sum_of (game_of A a) (game_of A b)) }
        ensures { self.new ≡ self.old }
    {
        if let Some(both) = self.parts_of(sum) {
            if let Some(own) = both.less(&one) {
                self.learn(a, own);
            }
        }
    }
}
