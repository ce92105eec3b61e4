//! The cache of a work.
ghost use Rattle.std.specs.Prelude.{◌≡◌, []};
ghost use Rattle.std.specs.FinMap as map;
ghost use Rattle.std.specs.Ordering.{nat_cmp};
ghost use Rattle.cg_nodes.specs.Meant.{Meant};
ghost use Rattle.cg_canon.specs.Cache.{CacheHolds, knowing};

use crate::made::MadeForms;
use crate::memo::Memo;
use std::alloc::Global;

/// The cache of a work: the games that it met, their sums, the forms that it made, and which games are a number, ups
/// and a nimber.
///
/// It is taken out of a work by [`Work::take_cache`](crate::Work::take_cache), and taken up by a later one by
/// [`Work::resume`](crate::Work::resume), on a store that knows at least as much.
#[derive(Drop)]
pub struct Cache {
    /// The interned games, and their sums.
    pub(crate) memo: Memo,
    /// The forms.
    pub(crate) made: MadeForms,
    /// At which place of a walk each game of the arena was found.
    pub(crate) marks: Vec<usize>,
}

/// A cache with more interned games than this, or with more sums, is large.
const LARGE: usize = 262_144;

impl Cache {
    /// Of nothing, which holds whatever is known.
    pub fn new(alloc: Global) -> Cache
        ensures holds { (known : map.FinMap nat_cmp Meant) → CacheHolds (knowing known) result }
        ensures arena { result.memo.interner.arena ≡ [] }
    {
        Cache {
            memo: Memo::new(alloc),
            made: MadeForms::new(alloc),
            marks: Vec::new(alloc),
        }
    }

    /// The cache for a later question, which asks for few of the answers to comparisons again: they stay only in a
    /// small table.
    pub(crate) fn for_later(self) -> Cache
        ensures { (known : map.FinMap nat_cmp Meant) → CacheHolds (knowing known) self → CacheHolds (knowing known)
            result }
    {
        let mut cache = self;
        cache.memo.interner.answers.make_ready();
        cache
    }

    /// Whether the interned games or the sums are so many that a caller would rather begin anew than keep them. Of the
    /// forms only so many are kept in any case.
    pub fn is_large(&self) -> bool {
        self.memo.interner.arena.count() > LARGE
            || self.memo.count() > LARGE
            || self.memo.interner.pairs.count() > 4 * LARGE
    }
}
