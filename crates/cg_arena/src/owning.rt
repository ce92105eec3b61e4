//! The best of the options of a game that may be a sum of two terms.
//!
//! Sums keep the order. So of the options of a sum that come from one term, no two are comparable, as no two options of
//! that term are: only options of different terms need a comparison.
ghost use Rattle.std.specs.Prelude.{◌++◌, IfOk, cond};
ghost use Rattle.cg_arena.specs.Arena.{AreIndexes, games_of};
ghost use Rattle.cg_arena.specs.OrderMemos.{AreRight};
ghost use Rattle.cg_arena.specs.Terms.{ApartByTerm, NoneComparable};
ghost use Rattle.cg_arena.specs.Undominated.{Undominated};

use crate::arena::Arena;
use crate::best::{take_out, undominated};
use crate::game::Game;
use crate::order::none_as_good;
use crate::order_memo::OrderMemo;
use crate::substitutes::{Options, push_option, push_options};
use crate::terms::FirstTerm;
use crate::unreduced::chosen;
use smallvec::SmallVec;
use std::alloc::AllocError;

/// The best of the options of two terms, in no order.
fn undominated_of_terms(
    arena: &Arena,
    answers: &mut OrderMemo,
    left: bool,
    firsts: &[Game],
    seconds: &[Game],
) -> Result<Options, AllocError>
    requires firsts { AreIndexes arena.now firsts.now }
    requires seconds { AreIndexes arena.now seconds.now }
    requires first_apart { NoneComparable (games_of arena.now firsts.now) }
    requires second_apart { NoneComparable (games_of arena.now seconds.now) }
    requires right { AreRight arena.now answers.old }
    ensures indexes { IfOk result (λ r. AreIndexes arena.now r.items) }
    ensures undominated { IfOk result (λ r. Undominated left (games_of arena.now (firsts.now ++ seconds.now)) (games_of arena.now r.items)) }
    ensures right { AreRight arena.now answers.new }
{
    let mut own = SmallVec::new(answers.alloc());
    let mut rest = SmallVec::new(answers.alloc());
    push_options(&mut rest, seconds)?;
    for x in firsts {
        if none_as_good(arena, answers, left, *x, rest.as_slice())? {
            take_out(arena, answers, left, &mut rest, *x)?;
            push_option(&mut own, *x)?;
        }
    }
    push_options(&mut rest, own.as_slice())?;
    Ok(rest)
}

/// The best of the player's own options of a game with these options, in no order.
pub(crate) fn own_undominated(
    arena: &Arena,
    answers: &mut OrderMemo,
    left: bool,
    lefts: &[Game],
    rights: &[Game],
    first_term: Option<FirstTerm>,
) -> Result<Options, AllocError>
    requires lefts { AreIndexes arena.now lefts.now }
    requires rights { AreIndexes arena.now rights.now }
    requires terms { ApartByTerm first_term (games_of arena.now lefts.now) (games_of arena.now rights.now) }
    requires right { AreRight arena.now answers.old }
    ensures indexes { IfOk result (λ r. AreIndexes arena.now r.items) }
    ensures undominated { IfOk result (λ r. Undominated left (games_of arena.now (cond left lefts.now rights.now)) (games_of arena.now r.items)) }
    ensures right { AreRight arena.now answers.new }
{
    let options = chosen(left, lefts, rights);
    let Some(first) = first_term else {
        return undominated(arena, answers, left, options);
    };
    let count = first.own(left).min(options.len());
    let (firsts, seconds) = options.split_at(count);
    undominated_of_terms(arena, answers, left, firsts, seconds)
}
