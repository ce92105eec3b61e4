//! An arena: interned games, each at its place.
ghost use Rattle.std.specs.Prelude.{◌≡◌, ◌<◌, ◌≤◌, ◌^◌, ◌++◌, ◌∷◌, [], length, is_ok, if◌then◌else◌};
ghost use Rattle.std.specs.Prelude.{IfNone, IfOk, IfSome, OnErr};
ghost use Rattle.std.specs.List.{slice_range};
ghost use Rattle.cg_form.specs.Canonical.{Canonical};
ghost use Rattle.cg_form.specs.Game.{node, number};
ghost use Rattle.cg_form.specs.Order.{le};
ghost use Rattle.cg_arena.specs.Costs.{IsCharge};
ghost use Rattle.cg_arena.specs.Keys.{HasKeys};
ghost use Rattle.cg_arena.specs.Arena.{AreIndexes, IsIndex, IsRead, game_of, games_of};
ghost use Rattle.cg_arena.specs.Summaries.{IsSummary};

use crate::charge::Charge;
use crate::game::Game;
use crate::keys::Keys;
use crate::summary::Summary;
use cg_dyadic::Dyadic;
use cg_form::cuts::in_cut;
use std::alloc::{AllocError, Global};
use std::marker::Model;

/// What an entry says of its game.
#[derive(Clone, Copy)]
pub(crate) struct Entry {
    /// Where the cuts of its summary lie.
    keys: Keys,
    /// Where its Left options begin among the options of all games.
    lefts: usize,
    /// Where its Right options begin.
    rights: usize,
    /// Where its Right options end.
    end: usize,
    /// Whether it is a number, which is then where the cuts of its summary are.
    is_number: bool,
    /// How many positions it has, each counted once for each way to it, or some number beyond `LIGHT`.
    weight: u8,
}

/// A number, or the Left and the Right options of another game.
#[derive(Clone, Copy)]
pub enum Read<'a> {
    Number(Dyadic),
    Options(&'a [Game], &'a [Game]),
}

/// Games in canonical form, each at a place. The places are counted from 0, and those of the options of a game come
/// before its own. Contracts see the list of games.
#[derive(Drop)]
pub struct Arena {
    entries: Vec<Entry>,
    /// What is known of the game at each place besides its options. It stands apart, since a comparison reads the keys
    /// alone.
    summaries: Vec<Summary>,
    options: Vec<Game>,
}

/// The greatest weight of a light game. Two light games are compared in a few steps.
const LIGHT: u8 = 8;

/// The greatest number of options of a short game.
const LONG: usize = 16;

impl Model for Arena {
    ghost use Rattle.std.specs.Prelude.{List, [], zip};
    ghost use Rattle.std.specs.Coded.{coded_list};
    ghost use Rattle.cg_form.specs.Game as tree;
    ghost use Rattle.cg_form.specs.GameCode.{game_code};
    ghost use Rattle.cg_arena.specs.Arena.{IsArena, said_by};

    ghost Value = { List tree.Game };

    ghost coded = { coded_list game_code };

    ghost view = { λ b. said_by b.options.items [] (zip b.entries.items b.summaries.items) };

    ghost invariant = { λ b. IsArena b.options.items b.entries.items b.summaries.items };
}

/// The part of the list from one place up to another.
#[inline]
fn part(list: &[Game], from: usize, to: usize) -> &[Game]
    requires from { from ≤ to }
    requires to { to ≤ length list.now }
    ensures { result.now ≡ slice_range list.now from to }
{
    &list[from..to]
}

/// The weight, and those of the games of the options, as far as the sum is light.
fn weight_with(entries: &[Entry], options: &[Game], weight: u8) -> u8 {
    let mut sum = weight;
    for option in options {
        if sum > LIGHT {
            return sum;
        }
        if let Some(entry) = entries.get(option.place()) {
            sum = sum.saturating_add(entry.weight);
        }
    }
    sum
}

/// Adds the entry and its summary, each behind the others, or neither.
fn add(
    entries: &mut Vec<Entry>,
    summaries: &mut Vec<Summary>,
    entry: Entry,
    summary: &Summary,
) -> Result<(), AllocError>
    ensures entries { entries.new.items ≡ (if is_ok result then entries.old.items ++ (entry ∷ []) else
        entries.old.items) }
    ensures summaries { summaries.new.items
        ≡ (if is_ok result then summaries.old.items ++ (summary.now ∷ []) else summaries.old.items) }
{
    summaries.push(*summary)?;
    if entries.push(entry).is_err() {
        summaries.pop();
        return Err(AllocError);
    }
    Ok(())
}

impl Arena {
    /// No games.
    pub fn new(alloc: Global) -> Arena
        ensures { result ≡ [] }
    {
        Arena {
            entries: Vec::new(alloc),
            summaries: Vec::new(alloc),
            options: Vec::new(alloc),
        }
    }

    /// Adds a number, at the next place. The only error is want of memory.
    pub fn add_number(&mut self, x: Dyadic) -> Result<Game, AllocError>
        requires few { length self.old < 2 ^ 32 }
        ensures index { IfOk result (λ p. p ≡ length self.old) }
        ensures games { IfOk result (λ _. self.new ≡ self.old ++ (number x ∷ [])) }
        ensures same { OnErr result (self.new ≡ self.old) }
    {
        let count = self.entries.len();
        let game = Game::at(count as u32);
        let end = self.options.len();
        let summary = Summary::number(x);
        let entry = Entry {
            keys: Keys::of(&summary),
            lefts: end,
            rights: end,
            end,
            is_number: true,
            weight: 1,
        };
        add(&mut self.entries, &mut self.summaries, entry, &summary)?;
        Ok(game)
    }

    /// Adds the game with these options and this summary, at the next place. The only error is want of memory.
    #[inline(always)]
    pub fn add_game(
        &mut self,
        lefts: &[Game],
        rights: &[Game],
        summary: &Summary,
    ) -> Result<Game, AllocError>
        requires few { length self.old < 2 ^ 32 }
        requires lefts { AreIndexes self.old lefts.now }
        requires rights { AreIndexes self.old rights.now }
        requires canonical { Canonical (node (games_of self.old lefts.now) (games_of self.old rights.now)) }
        requires summary { IsSummary (node (games_of self.old lefts.now) (games_of self.old rights.now)) summary.now }
        ensures index { IfOk result (λ p. p ≡ length self.old) }
        ensures games { IfOk result (λ _. self.new
            ≡ self.old ++ (node (games_of self.old lefts.now) (games_of self.old rights.now) ∷ [])) }
        ensures same { OnErr result (self.new ≡ self.old) }
    {
        let count = self.entries.len();
        let game = Game::at(count as u32);
        let first = self.options.len();
        let middle = first + lefts.len();
        let end = middle + rights.len();
        let weight = weight_with(&self.entries, rights, weight_with(&self.entries, lefts, 1));
        self.options.extend_from_slice(lefts)?;
        self.options.extend_from_slice(rights)?;
        let entry = Entry {
            keys: Keys::of(summary),
            lefts: first,
            rights: middle,
            end,
            is_number: false,
            weight,
        };
        add(&mut self.entries, &mut self.summaries, entry, summary)?;
        Ok(game)
    }

    /// How many there are.
    pub fn count(&self) -> usize
        ensures { result ≡ length self.now }
    {
        self.entries.len()
    }

    /// The game at the place, if there is one.
    #[inline(always)]
    pub fn at(&self, place: usize) -> Option<Game>
        ensures some { IfSome result (λ game. (game ≡ place) × IsIndex self.now game) }
        ensures none { IfNone result (length self.now ≤ place) }
    {
        if place < self.entries.len() {
            return Some(Game::at(place as u32));
        }
        None
    }

    /// The game at the place, which has one.
    #[inline(always)]
    pub fn game(&self, place: usize) -> Game
        requires { place < length self.now }
        ensures { result ≡ place }
    {
        // Read for the proof alone: there are at most 2^32 games.
        let _count = self.entries.len();
        Game::at(place as u32)
    }

    /// Whether the game has so few positions that no answer about it has to be kept.
    #[inline]
    pub(crate) fn is_light(&self, game: Game) -> bool
        requires { IsIndex self.now game }
    {
        self.entries[game.place()].weight <= LIGHT
    }

    /// Whether the game has so many options that a search among them takes long.
    #[inline]
    pub(crate) fn is_long(&self, game: Game) -> bool
        requires { IsIndex self.now game }
    {
        let entry = &self.entries[game.place()];
        entry.end.saturating_sub(entry.lefts) > LONG
    }

    /// The game: a number, or its Left and its Right options.
    #[inline]
    pub fn read(&self, game: Game) -> Read<'_>
        requires { IsIndex self.now game }
        ensures read { IsRead self.now result (game_of self.now game) }
        ensures canonical { Canonical (game_of self.now game) }
    {
        let at = game.place();
        let found = &self.entries[at];
        if found.is_number {
            return Read::Number(self.summaries[at].low.at);
        }
        let lefts = part(&self.options, found.lefts, found.rights);
        let rights = part(&self.options, found.rights, found.end);
        Read::Options(lefts, rights)
    }

    /// What is known of the game besides its options.
    pub fn summary(&self, game: Game) -> &Summary
        requires { IsIndex self.now game }
        ensures summary { IsSummary (game_of self.now game) result.now }
        ensures small { result.now.depth ≤ 2 ^ 32 }
    {
        &self.summaries[game.place()]
    }

    /// What the game's item is charged by.
    #[inline(always)]
    pub fn charge(&self, game: Game) -> Charge
        requires { IsIndex self.now game }
        ensures { IsCharge (game_of self.now game) result }
    {
        self.summary(game).charge()
    }

    /// Whether x is at most the game. No number is counted down: x is compared with the cut that the game makes among
    /// the numbers.
    #[inline(always)]
    pub fn number_le(&self, x: Dyadic, game: Game) -> bool
        requires { IsIndex self.now game }
        ensures { result ≡ le (number x) (game_of self.now game) }
    {
        in_cut(true, &self.summary(game).low, x)
    }

    /// Whether the game is at most x.
    #[inline(always)]
    pub fn le_number(&self, game: Game, x: Dyadic) -> bool
        requires { IsIndex self.now game }
        ensures { result ≡ le (game_of self.now game) (number x) }
    {
        in_cut(false, &self.summary(game).high, x)
    }

    /// Where the cuts of the game lie.
    #[inline]
    pub(crate) fn keys(&self, game: Game) -> &Keys
        requires { IsIndex self.now game }
        ensures { HasKeys (game_of self.now game) result.now }
    {
        &self.entries[game.place()].keys
    }
}
