//! The comparison cache: answers to comparisons that were found of late.
//!
//! Each pair of games has two places in a table, which it shares with other pairs. A new answer stands at the first of
//! them, the one that stood there goes to its neighbour, and the one that stood at the neighbour is forgotten. The
//! table grows with the answers of one question, up to a fixed size; so they take a bounded memory, however many are
//! found. As long as it is small it serves question after question.
ghost use Rattle.std.specs.Prelude.{◌≡◌, ◌⊎◌, IfOk, IfSome, OnErr};
ghost use Rattle.cg_arena.specs.declared.order_memo.Answer.{Answer as Known};
ghost use Rattle.cg_arena.specs.OrderMemos.{IsPlaced, IsKept};

use crate::game::Game;
use std::alloc::{AllocError, Global};

/// Whether the game at one index is at most that at another.
#[derive(Clone, Copy)]
pub(crate) struct Answer {
    pub low: Game,
    pub high: Game,
    pub at_most: bool,
}

/// The answers that were found last, with at most one in each place.
#[derive(Drop)]
pub struct OrderMemo {
    alloc: Global,
    places: Vec<Option<Answer>>,
    /// How many answers more are put into the table before it grows.
    room: usize,
}

/// The first size of a table.
const FIRST: usize = 16;

/// The greatest size of a table.
const MOST: usize = 1_048_576;

/// The greatest size of a table that serves more than one question.
const SMALL: usize = 16_384;

/// How many places a pair has.
const WAYS: usize = 2;

/// The first place of the pair, in a table of 16,777,216 places.
fn home_of(a: Game, b: Game) -> usize {
    let pair = b.number() as u64 * 4_294_967_296 + a.number() as u64;
    (pair.wrapping_mul(0x9E37_79B9_7F4A_7C15) >> 40) as usize
}

/// The place of this way, 0 or 1, in a table of so many places.
fn place_at(home: usize, way: usize, places: usize) -> usize {
    (home ^ way) & places.saturating_sub(1)
}

/// The answer at this place of the pair with this first place, if there is one.
fn answer_at(places: &[Option<Answer>], home: usize, way: usize) -> Option<Answer>
    ensures { IfSome result (λ x. IsPlaced places.now x) }
{
    let at = place_at(home, way, places.len());
    if at >= places.len() {
        return None;
    }
    places[at]
}

/// Puts what stands at the one place at the other, too, in the place of what stands there.
fn copy(places: &mut [Option<Answer>], from: usize, to: usize)
    ensures { (x : Known) → IsPlaced places.new x → IsPlaced places.old x }
{
    if from < places.len() && to < places.len() {
        places[to] = places[from];
    }
}

/// Puts the answer to whether the one game is at most the other at the place.
fn set(places: &mut [Option<Answer>], at: usize, low: Game, high: Game, at_most: bool)
    ensures { (x : Known) → IsPlaced places.new x
        → (x ≡ record { low = low; high = high; at_most = at_most }) ⊎ IsPlaced places.old x }
{
    if at < places.len() {
        places[at] = Some(Answer { low, high, at_most });
    }
}

/// Puts the answer to whether the one game is at most the other at its first place, and what stood there at its second
/// one. It comes in parts, since an answer that was just written would be read again as one word, and the processor
/// waits for that.
fn put(places: &mut [Option<Answer>], low: Game, high: Game, at_most: bool)
    ensures { (x : Known) → IsPlaced places.new x
        → (x ≡ record { low = low; high = high; at_most = at_most }) ⊎ IsPlaced places.old x }
{
    let home = home_of(low, high);
    let first = place_at(home, 0, places.len());
    let second = place_at(home, 1, places.len());
    copy(places, first, second);
    set(places, first, low, high, at_most);
}

/// Puts the answers of the first table into the second.
fn put_all(old: &[Option<Answer>], places: &mut [Option<Answer>])
    ensures { (x : Known) → IsPlaced places.new x → IsPlaced old.now x ⊎ IsPlaced places.old x }
{
    for place in old {
        if let Some(answer) = place {
            put(places, answer.low, answer.high, answer.at_most);
        }
    }
}

/// A table of so many places, with the answers of the old one.
fn moved(
    alloc: Global,
    old: &[Option<Answer>],
    size: usize,
) -> Result<Vec<Option<Answer>>, AllocError>
    ensures { IfOk result (λ v. (x : Known) → IsPlaced v.items x → IsPlaced old.now x) }
{
    let mut places = vec![in alloc; None; size]?;
    put_all(old, &mut places);
    Ok(places)
}

impl OrderMemo {
    /// Of no answers.
    pub fn new(alloc: Global) -> OrderMemo
        ensures { (x : Known) → IsKept result x → ⊥ }
    {
        OrderMemo {
            alloc,
            places: Vec::new(alloc),
            room: 0,
        }
    }

    /// What gives them memory.
    pub(crate) fn alloc(&self) -> Global {
        self.alloc
    }

    /// Whether the first game is at most the second, if that is kept.
    pub(crate) fn recall(&self, low: Game, high: Game) -> Option<bool>
        ensures { IfSome result (λ yes. IsKept self.now (record { low = low; high = high; at_most = yes })) }
    {
        let home = home_of(low, high);
        for way in 0..WAYS {
            let answer = answer_at(&self.places, home, way)?;
            if answer.low == low && answer.high == high {
                return Some(answer.at_most);
            }
        }
        None
    }

    /// Makes the table larger, where it isn't yet of the greatest size. Nothing changes where there is no memory.
    #[inline(never)]
    fn enlarge(&mut self) -> Result<(), AllocError>
        ensures { (x : Known) → IsKept self.new x → IsKept self.old x }
    {
        let size = self.places.len();
        if size >= MOST {
            return Ok(());
        }
        let next = (2 * size).max(FIRST);
        self.places = moved(self.alloc, &self.places, next)?;
        self.room = next / 2;
        Ok(())
    }

    /// Makes the table larger, where half as many answers as it has places were put into it since it grew, and it isn't
    /// yet of the greatest size. Nothing changes where there is no memory.
    #[inline(always)]
    fn grow(&mut self) -> Result<(), AllocError>
        ensures { (x : Known) → IsKept self.new x → IsKept self.old x }
    {
        if self.room > 0 {
            return Ok(());
        }
        self.enlarge()
    }

    /// Keeps whether the first game is at most the second. Some other answer may be forgotten for it. Nothing changes
    /// where there is no memory.
    pub(crate) fn remember(
        &mut self,
        low: Game,
        high: Game,
        at_most: bool,
    ) -> Result<(), AllocError>
        ensures ok { IfOk result (λ _. (x : Known) → IsKept self.new x
            → (x ≡ record { low = low; high = high; at_most = at_most }) ⊎ IsKept self.old x) }
        ensures err { OnErr result ((x : Known) → IsKept self.new x → IsKept self.old x) }
    {
        self.grow()?;
        put(&mut self.places, low, high, at_most);
        self.room = self.room.saturating_sub(1);
        Ok(())
    }

    /// Makes ready for another question. A small table stays, with its answers, and stands in near caches; a large one
    /// is given up, since another question asks for few of its answers.
    pub fn make_ready(&mut self)
        ensures { (x : Known) → IsKept self.new x → IsKept self.old x }
    {
        if self.places.len() > SMALL {
            self.places = Vec::new(self.alloc);
        }
        self.room = self.places.len() / 2;
    }
}
