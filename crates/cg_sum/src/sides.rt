//! The options of a sum or a negative, which were made before.
ghost use Rattle.std.specs.Prelude.{◌≡◌, ◌+◌, ◌*◌, ◌<◌, ◌≤◌, ◌++◌, All, IfOk, length, map, slice_index};
ghost use Rattle.cg_canon.specs.Walk.{lefts_of, rights_of};
ghost use Rattle.cg_sum.specs.Progress.{indexes};
ghost use Rattle.smallvec.specs.SmallVec.{HasRoomFor};

use cg_canon::{Game, Position, Walk};
use smallvec::SmallVec;
use std::alloc::{AllocError, Global};

/// The places of the Left options of the position.
pub(crate) fn lefts<'a>(walk: &'a Walk, position: &Position) -> &'a [usize]
    requires start { position.now.lefts ≤ position.now.rights }
    requires end { position.now.rights ≤ length walk.now.options.items }
    ensures { result.now ≡ lefts_of walk.now.options.items position.now }
{
    &walk.options[position.lefts..position.rights]
}

/// The places of its Right options.
pub(crate) fn rights<'a>(walk: &'a Walk, position: &Position) -> &'a [usize]
    requires start { position.now.rights ≤ position.now.end }
    requires end { position.now.end ≤ length walk.now.options.items }
    ensures { result.now ≡ rights_of walk.now.options.items position.now }
{
    &walk.options[position.rights..position.end]
}

/// Adds the games that the table has at the places: each place stands so many times `step` behind `first`.
#[inline(always)]
pub(crate) fn gather(
    table: &[Game],
    places: &[usize],
    step: usize,
    first: usize,
    all: &mut SmallVec<Game, 8>,
)
    requires within { All (λ p. p * step + first < length table.now) places.now }
    requires room { HasRoomFor all.old (length places.now) }
    ensures items { all.new.items ≡ all.old.items ++ indexes table.now step first places.now }
    ensures capacity { all.new.capacity ≡ all.old.capacity }
{
    for place in places {
        all.push_reserved(table[*place * step + first]);
    }
}
