//! The canonical form of a game of two lists of indexes, found but not yet put into the arena.
//!
//! First the dominated options are left out, and then the reversible ones are bypassed. What a bypass brings in may
//! dominate others, or be dominated; where no option is reversible, the options are the best already.
ghost use Rattle.std.specs.Prelude.{◌≡◌, IfOk, [], cond, false, true};
ghost use Rattle.cg_form.specs.Bypass.{Replaces};
ghost use Rattle.cg_form.specs.Canonical.{IsCanonicalForm};
ghost use Rattle.cg_form.specs.Game.{node};
ghost use Rattle.cg_form.specs.Simple.{NoNumber};
ghost use Rattle.cg_arena.specs.Terms.{ApartByTerm};
ghost use Rattle.cg_arena.specs.Arena.{AreIndexes, games_of};
ghost use Rattle.cg_arena.specs.Summaries.{HasCuts};
ghost use Rattle.cg_arena.specs.OrderMemos.{AreRight};
ghost use Rattle.cg_arena.specs.Undominated.{Undominated};
ghost use Rattle.cg_arena.specs.UnreducedGames.{AreKnown, UnreducedHolds, unreduced_game};

use crate::arena::Arena;
use crate::best::undominated;
use crate::bypass::candidates;
use crate::game::Game;
use crate::keys::Keys;
use crate::order_memo::OrderMemo;
use crate::owning::own_undominated;
use crate::placing::put_in_order;
use crate::staying::all_stay;
use crate::substitutes::Options;
use crate::summary::Summary;
use crate::terms::FirstTerm;
use crate::unreduced::Unreduced;
use crate::verdicts::Verdicts;
use smallvec::SmallVec;
use std::alloc::{AllocError, Global};

/// The options of a canonical form.
#[derive(Drop)]
pub struct Form {
    /// The indexes of its Left options, in structural order.
    pub lefts: Options,
    /// The indexes of its Right options, in structural order.
    pub rights: Options,
}

impl Form {
    /// Of no options.
    pub fn new(alloc: Global) -> Form
        ensures lefts { result.lefts.items ≡ [] }
        ensures rights { result.rights.items ≡ [] }
    {
        Form {
            lefts: SmallVec::new(alloc),
            rights: SmallVec::new(alloc),
        }
    }
}

/// Puts what stands in the place of the player's own options of the unreduced game in its canonical form into the list,
/// which is empty.
#[inline(always)]
fn put_replaced(
    arena: &Arena,
    answers: &mut OrderMemo,
    unreduced: &Unreduced,
    verdicts: &mut Verdicts,
    left: bool,
    list: &mut Options,
) -> Result<(), AllocError>
    requires known { AreKnown arena.now unreduced.now answers.old verdicts.old }
    requires undominated { let own = games_of arena.now (cond left unreduced.now.lefts.now unreduced.now.rights.now) in Undominated left own own }
    requires empty { list.old.items ≡ [] }
    ensures indexes { IfOk result (λ _. AreIndexes arena.now list.new.items) }
    ensures replaces { IfOk result (λ _. Replaces left (unreduced_game arena.now unreduced.now)
        (games_of arena.now (cond left unreduced.now.lefts.now unreduced.now.rights.now))
        (games_of arena.now list.new.items)) }
    ensures known { AreKnown arena.now unreduced.now answers.new verdicts.new }
{
    if all_stay(arena, answers, unreduced, verdicts, left)? {
        return put_in_order(arena, unreduced.own(left), list);
    }
    let all = candidates(arena, answers, unreduced, verdicts, left)?;
    let best = undominated(arena, answers, left, all.as_slice())?;
    put_in_order(arena, best.as_slice(), list)
}

/// Puts the options of the canonical form of the unreduced game, of whose own options no two on one side are
/// comparable, into the form, which has none.
fn put_bypassed(
    arena: &Arena,
    answers: &mut OrderMemo,
    unreduced: &Unreduced,
    form: &mut Form,
) -> Result<(), AllocError>
    requires unreduced { UnreducedHolds arena.now unreduced.now }
    requires lefts { let own = games_of arena.now unreduced.now.lefts.now in Undominated true own own }
    requires rights { let own = games_of arena.now unreduced.now.rights.now in Undominated false own own }
    requires right { AreRight arena.now answers.old }
    requires no_lefts { form.old.lefts.items ≡ [] }
    requires no_rights { form.old.rights.items ≡ [] }
    ensures lefts { IfOk result (λ _. AreIndexes arena.now form.new.lefts.items) }
    ensures rights { IfOk result (λ _. AreIndexes arena.now form.new.rights.items) }
    ensures form { IfOk result (λ _. IsCanonicalForm (unreduced_game arena.now unreduced.now)
        (node (games_of arena.now form.new.lefts.items) (games_of arena.now form.new.rights.items))) }
    ensures right { AreRight arena.now answers.new }
{
    let mut verdicts = Verdicts::new(answers.alloc());
    let known = &mut verdicts;
    put_replaced(arena, answers, unreduced, known, true, &mut form.lefts)?;
    put_replaced(arena, answers, unreduced, known, false, &mut form.rights)?;
    Ok(())
}

/// Puts the options of the canonical form of the game with these options, which equals no number, and which has the
/// same cuts of the numbers as the summary, into the form, which has none. Where the game is a sum of two terms,
/// `first_term` says which options come from the first. The only error is want of memory. (Siegel, Combinatorial Game
/// Theory (2013), II.2.)
pub(crate) fn put_reduced(
    arena: &Arena,
    answers: &mut OrderMemo,
    lefts: &[Game],
    rights: &[Game],
    summary: &Summary,
    first_term: Option<FirstTerm>,
    form: &mut Form,
) -> Result<(), AllocError>
    requires lefts { AreIndexes arena.now lefts.now }
    requires rights { AreIndexes arena.now rights.now }
    requires no_number { NoNumber (node (games_of arena.now lefts.now) (games_of arena.now rights.now)) }
    requires cuts { HasCuts (node (games_of arena.now lefts.now) (games_of arena.now rights.now)) summary.now }
    requires terms { ApartByTerm first_term (games_of arena.now lefts.now) (games_of arena.now rights.now) }
    requires right { AreRight arena.now answers.old }
    requires no_lefts { form.old.lefts.items ≡ [] }
    requires no_rights { form.old.rights.items ≡ [] }
    ensures lefts { IfOk result (λ _. AreIndexes arena.now form.new.lefts.items) }
    ensures rights { IfOk result (λ _. AreIndexes arena.now form.new.rights.items) }
    ensures form { IfOk result (λ _. IsCanonicalForm (node (games_of arena.now lefts.now) (games_of arena.now rights.now))
        (node (games_of arena.now form.new.lefts.items) (games_of arena.now form.new.rights.items))) }
    ensures right { AreRight arena.now answers.new }
{
    let own_lefts = own_undominated(arena, answers, true, lefts, rights, first_term)?;
    let own_rights = own_undominated(arena, answers, false, lefts, rights, first_term)?;
    let unreduced = Unreduced {
        lefts: own_lefts.as_slice(),
        rights: own_rights.as_slice(),
        summary: *summary,
        keys: Keys::of(summary),
    };
    put_bypassed(arena, answers, &unreduced, form)
}
