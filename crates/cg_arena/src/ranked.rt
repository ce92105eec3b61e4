//! Games in order, those first that go furthest.
//!
//! Of games that the numbers tell apart, each goes further than all before it to one side and less far to the other, so
//! it is enough to look at how far those before it go together.
ghost use Rattle.std.specs.Prelude.{IfOk};
ghost use Rattle.std.specs.List.Sorted.{IsPermutation};

use crate::arena::Arena;
use crate::game::Game;
use std::alloc::{AllocError, Global};
use std::cmp::Ordering;

/// Which of the games at two indexes comes first for the player, where both indexes are there: the one with more
/// numbers that are no better, and where these are the same, the one with fewer numbers that are as good.
fn compare_reach(arena: &Arena, left: bool, a: Game, b: Game) -> Ordering {
    let count = arena.count();
    if a.place() >= count || b.place() >= count {
        return Ordering::Equal;
    }
    let (a, b) = (arena.keys(a), arena.keys(b));
    if left {
        return b.low.cmp(&a.low).then(b.high.cmp(&a.high));
    }
    a.high.cmp(&b.high).then(a.low.cmp(&b.low))
}

/// The items, those first that go furthest for the player.
pub(crate) fn furthest_first(
    alloc: Global,
    arena: &Arena,
    left: bool,
    items: &[Game],
) -> Result<Vec<Game>, AllocError>
    ensures { IfOk result (λ r. IsPermutation items.now r.items) }
{
    let mut all = items.to_vec(alloc)?;
    all.sort_unstable_by(|a, b| compare_reach(arena, left, *a, *b));
    Ok(all)
}
