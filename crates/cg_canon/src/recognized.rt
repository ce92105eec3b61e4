//! Games that are known as sums of a number, of ups or downs, and of a nimber, by their places.
//!
//! A game is recognized when it enters the arena: a number, a nimber, or ^. A game that isn't found here is summed by
//! its options.
ghost use Rattle.std.specs.Prelude.{◌≡◌, ◌≤◌, ◌∷◌, [], List, IfSome, IsTrue, length, take};
ghost use Rattle.cg_form.specs.Game as tree;
ghost use Rattle.cg_form.specs.Game.{node};
ghost use Rattle.cg_form.specs.Order.{Equal};
ghost use Rattle.cg_arena.specs.Arena.{games_of};
ghost use Rattle.cg_canon.specs.NumberUpStars.{game_of as game_of_parts};
ghost use Rattle.cg_canon.specs.Recognized.{AreNimbers, AreRecognized, IsKnownAt, IsListed};

use crate::interner::are_equal;
use crate::lossy_index::{LossyIndex, half_of, mixed};
use crate::number_up_star::NumberUpStar;
use cg_arena::Game;
use std::alloc::Global;

/// A game with what it is known as.
#[derive(Clone, Copy)]
pub(crate) struct KnownAt {
    game: Game,
    parts: NumberUpStar,
}

/// The games, and where they are looked for.
#[derive(Drop)]
pub(crate) struct Recognized {
    games: Vec<KnownAt>,
    /// For each game of the arena where it may stand among the games.
    marks: Vec<u32>,
    /// Where a game is looked for by its parts.
    by_parts: LossyIndex,
    /// 0, *1, *2 and so on, as far as they were met in this order.
    nimbers: Vec<Game>,
}

/// The low half of a number.
fn low_half(number: u64) -> u64 {
    number % 4_294_967_296
}

/// A number for the parts.
fn number_of_parts(parts: &NumberUpStar) -> u32 {
    let size = (parts.number.num().unsigned_abs() % 18_446_744_073_709_551_616) as u64;
    let sign = u64::from(parts.number.num() < 0);
    let number = mixed(
        mixed(sign ^ (size >> 32), low_half(size)),
        parts.number.exp() as u64,
    );
    let ups = mixed(mixed(number, low_half(parts.ups)), low_half(parts.downs));
    half_of(mixed(ups, low_half(parts.star)))
}

/// Whether the list has this entry alone.
#[inline(always)]
fn is_one(list: &[Game], entry: Game) -> bool
    ensures { IsTrue result → list.now ≡ entry ∷ [] }
{
    list.len() == 1 && list[0] == entry
}

/// So many entries from the front of the list.
#[inline(always)]
fn first(list: &[Game], count: usize) -> &[Game]
    requires { count ≤ length list.now }
    ensures { result.now ≡ take count list.now }
{
    &list[..count]
}

/// Sets the mark of the game, if it has one.
#[inline(always)]
fn mark_at(marks: &mut [u32], game: Game, mark: u32) {
    if game.place() < marks.len() {
        marks[game.place()] = mark;
    }
}

/// Keeps the game among the nimbers, if it is the next one of them.
fn keep_nimber(nimbers: &mut Vec<Game>, game: Game, parts: &NumberUpStar)
    ensures { (gs : List tree.Game) → IsKnownAt gs game parts.now → AreNimbers gs nimbers.old.items → AreNimbers gs nimbers.new.items }
{
    if parts.is(&NumberUpStar::of_nimber(nimbers.len() as u64)) {
        let _pushed = nimbers.push(game);
    }
}

impl Recognized {
    /// Of no games.
    pub fn new(alloc: Global) -> Recognized
        ensures { AreRecognized [] result }
    {
        Recognized {
            games: Vec::new(alloc),
            marks: Vec::new(alloc),
            by_parts: LossyIndex::new(alloc),
            nimbers: Vec::new(alloc),
        }
    }

    /// What the game is known as, if it is.
    #[inline(always)]
    pub fn parts_of(&self, game: Game) -> Option<&NumberUpStar>
        ensures { IfSome result (λ parts. IsListed self.now game parts.now) }
    {
        let mark = *self.marks.get(game.place())? as usize;
        if mark < self.games.len() && self.games[mark].game == game {
            return Some(&self.games[mark].parts);
        }
        None
    }

    /// The game of the entry, if it is known as these parts.
    fn game_at(&self, entry: u32, parts: &NumberUpStar) -> Option<Game>
        ensures { IfSome result (λ game. IsListed self.now game parts.now) }
    {
        let place = entry as usize;
        if place < self.games.len() && self.games[place].parts.is(parts) {
            return Some(self.games[place].game);
        }
        None
    }

    /// A game that is known as these parts, if one is found.
    pub fn game_with(&self, parts: &NumberUpStar) -> Option<Game>
        ensures { IfSome result (λ game. IsListed self.now game parts.now) }
    {
        self.by_parts
            .find(number_of_parts(parts), |entry| self.game_at(entry, parts))
    }

    /// What the game with these options is, where that is seen at once: a nimber, or ^.
    #[inline(always)]
    pub fn seen(&self, lefts: &[Game], rights: &[Game]) -> Option<NumberUpStar>
        ensures { (gs : List tree.Game) → AreRecognized gs self.now
            → IfSome result (λ parts. Equal (node (games_of gs lefts.now) (games_of gs rights.now)) (game_of_parts parts)) }
    {
        let count = lefts.len();
        if count == 0 || count > self.nimbers.len() {
            return None;
        }
        if !are_equal(lefts, first(&self.nimbers, count)) {
            return None;
        }
        if are_equal(lefts, rights) {
            return Some(NumberUpStar::of_nimber(count as u64));
        }
        if count == 1 && self.nimbers.len() > 1 && is_one(rights, self.nimbers[1]) {
            return Some(NumberUpStar::up());
        }
        None
    }

    /// Keeps what the game is known as, unless there is no memory for it.
    pub fn keep(&mut self, game: Game, parts: NumberUpStar)
        ensures { (gs : List tree.Game) → IsKnownAt gs game parts → AreRecognized gs self.old → AreRecognized gs self.new }
    {
        let mark = (self.games.len() % 4_294_967_296) as u32;
        if self.games.push(KnownAt { game, parts }).is_err() {
            return;
        }
        self.by_parts.add(number_of_parts(&parts));
        mark_at(&mut self.marks, game, mark);
        keep_nimber(&mut self.nimbers, game, &parts);
    }

    /// Keeps what this game, which entered last, is known as, if it is.
    #[inline(always)]
    pub fn enter(&mut self, game: Game, parts: Option<NumberUpStar>)
        ensures { (gs : List tree.Game) → IfSome parts (IsKnownAt gs game) → AreRecognized gs self.old → AreRecognized gs self.new }
    {
        let _marked = self.marks.push(u32::MAX);
        if let Some(known) = parts {
            self.keep(game, known);
        }
    }
}
