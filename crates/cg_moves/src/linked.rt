//! Parts by numbers, with what comes next after each.
ghost use Rattle.std.specs.Prelude.{◌≡◌, ◌+◌, ◌<◌, ◌≤◌, drop, length, take};
ghost use Rattle.cg_moves.specs.Graph.{IsAt};

use crate::found::Found;
use crate::{Adjacency, Board, Boards};

/// Parts, each once, while they are found. A part's number is its place among those that were found.
#[derive(Drop)]
pub(crate) struct Linking {
    /// The parts that were found.
    pub(crate) found: Found,
    /// For each of the first of them, in order, what comes next after it, by numbers.
    pub(crate) next: Vec<Adjacency>,
    /// How many parts each board has that a move leads to.
    pub(crate) counts: Vec<u32>,
    /// The numbers of these parts.
    pub(crate) numbers: Vec<u32>,
}

/// The parts once all are found, with what comes next after each. No part is looked for any more.
#[derive(Drop)]
pub(crate) struct Linked {
    /// The parts, in the order of their numbers.
    pub(crate) found: Boards,
    /// For each of them what comes next after it, by numbers.
    pub(crate) next: Vec<Adjacency>,
    /// How many parts each board has that a move leads to.
    pub(crate) counts: Vec<u32>,
    /// The numbers of these parts.
    pub(crate) numbers: Vec<u32>,
}

impl Linking {
    /// The parts that were found, without what they are looked for by.
    pub(crate) fn linked(self) -> Linked
        ensures found { result.found ≡ self.found }
        ensures next { result.next.items ≡ self.next.items }
        ensures counts { result.counts.items ≡ self.counts.items }
        ensures numbers { result.numbers.items ≡ self.numbers.items }
    {
        let Linking {
            found,
            next,
            counts,
            numbers,
        } = self;
        Linked {
            found: found.into_boards(),
            next,
            counts,
            numbers,
        }
    }
}

impl Linked {
    /// The part with the number.
    #[inline(always)]
    pub(crate) fn part(&self, number: usize) -> &Board
        requires { number < length self.now.found }
        ensures { IsAt self.now.found number result.now }
    {
        &self.found.as_slice()[number]
    }

    /// The numbers of the parts that come next after a part, where this says where they stand.
    #[inline(always)]
    pub(crate) fn numbers_of(&self, next: Adjacency) -> &[u32]
        requires { next.first_place + next.parts ≤ length self.now.numbers.items }
        ensures { result.now ≡ take next.parts (drop next.first_place self.now.numbers.items) }
    {
        let first = next.first_place as usize;
        &self.numbers[first..first + next.parts as usize]
    }
}
