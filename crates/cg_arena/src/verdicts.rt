//! Which games are no better than an unreduced game, as far as it was found.
ghost use Rattle.std.specs.Prelude.{◌≡◌, ◌⊎◌, ℕ, Bool, None, Some};
ghost use Rattle.cg_arena.specs.Verdict.{answer_for, noted, verdict};

use crate::game::Game;
use smallvec::SmallVec;
use std::alloc::{AllocError, Global};
use std::collections::HashMap;

/// Up to so many answers are searched one after the other.
const FEW: usize = 8;

/// The answer for an index.
#[derive(Clone, Copy, Default)]
pub(crate) struct Noted {
    pub index: Game,
    pub answer: bool,
}

/// Answers by indexes: up to 8 of them take no memory.
#[derive(Drop)]
pub(crate) struct ByIndex {
    /// The first ones.
    few: SmallVec<Noted, 8>,
    /// The others.
    more: HashMap<u32, bool>,
}

/// The answer for the index among these, if there is one.
fn find(entries: &[Noted], index: Game) -> Option<bool>
    ensures { result ≡ noted entries.now index }
{
    for entry in entries {
        if entry.index == index {
            return Some(entry.answer);
        }
    }
    None
}

impl ByIndex {
    /// No answers.
    pub(crate) fn new(alloc: Global) -> ByIndex
        ensures { (a : ℕ) → answer_for result a ≡ None }
    {
        ByIndex {
            few: SmallVec::new(alloc),
            more: HashMap::new(alloc),
        }
    }

    /// The answer for the index, if there is one.
    pub(crate) fn recall(&self, a: Game) -> Option<bool>
        ensures { result ≡ answer_for self.now a }
    {
        if let Some(answer) = find(self.few.as_slice(), a) {
            return Some(answer);
        }
        if self.more.is_empty() {
            return None;
        }
        self.more.get(&a.number()).copied()
    }

    /// Keeps the answer for the index.
    pub(crate) fn remember(&mut self, a: Game, answer: bool) -> Result<(), AllocError>
        ensures { (c : ℕ) (b : Bool) → answer_for self.new c ≡ Some b
            → (answer_for self.old c ≡ Some b) ⊎ ((c ≡ a) × (b ≡ answer)) }
    {
        if self.few.len() < FEW {
            self.few.push(Noted { index: a, answer })?;
        } else {
            self.more.insert(a.number(), answer)?;
        }
        Ok(())
    }
}

/// For each player and each index, the answer to whether the game at the index is no better for the player than an
/// unreduced game.
#[derive(Drop)]
pub(crate) struct Verdicts {
    for_left: ByIndex,
    for_right: ByIndex,
}

impl Verdicts {
    /// No answers.
    pub(crate) fn new(alloc: Global) -> Verdicts
        ensures { (s : Bool) (a : ℕ) → verdict result s a ≡ None }
    {
        Verdicts {
            for_left: ByIndex::new(alloc),
            for_right: ByIndex::new(alloc),
        }
    }

    /// The answer for the player, who is Left with `left`, and the index, if there is one.
    pub(crate) fn recall(&self, left: bool, a: Game) -> Option<bool>
        ensures { result ≡ verdict self.now left a }
    {
        if left {
            return self.for_left.recall(a);
        }
        self.for_right.recall(a)
    }

    /// Keeps the answer for the player and the index. Nothing changes where there is no memory.
    pub(crate) fn remember(&mut self, left: bool, a: Game, answer: bool) -> Result<(), AllocError>
        ensures { (s : Bool) (c : ℕ) (b : Bool) → verdict self.new s c ≡ Some b
            → (verdict self.old s c ≡ Some b) ⊎ ((s ≡ left) × (c ≡ a) × (b ≡ answer)) }
    {
        if left {
            return self.for_left.remember(a, answer);
        }
        self.for_right.remember(a, answer)
    }
}
