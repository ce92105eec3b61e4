//! What the game of two lists of indexes is: a number, or the canonical form of a game that equals none.
ghost use Rattle.std.specs.Prelude.{IfOk, ◌≡◌};
ghost use Rattle.cg_form.specs.Canonical.{IsCanonicalForm};
ghost use Rattle.cg_form.specs.Game as tree;
ghost use Rattle.cg_form.specs.Game.{node};
ghost use Rattle.cg_form.specs.Simple.{NoNumber};
ghost use Rattle.cg_arena.specs.Arena.{AreIndexes, games_of};
ghost use Rattle.cg_arena.specs.Summaries.{HasCuts, IsSummary};
ghost use Rattle.cg_arena.specs.OrderMemos.{AreRight};
ghost use Rattle.cg_arena.specs.Canonicalized.{IsNewForm, IsCanonicalized};
ghost use Rattle.cg_arena.specs.Terms.{ApartByTerm};

use crate::arena::Arena;
use crate::game::Game;
use crate::order_memo::OrderMemo;
use crate::reduce::{Form, put_reduced};
use crate::summarizing::{cut_of, summary_between, summary_with};
use crate::summary::Summary;
use crate::terms::FirstTerm;
use cg_dyadic::Dyadic;
use cg_dyadic::cut::Found;
use cg_dyadic::search::simplest_in;
use std::alloc::AllocError;

/// A canonical form that equals no number, with its summary.
#[derive(Drop)]
pub struct NewForm {
    /// Its options.
    pub form: Form,
    /// What is known of it besides.
    pub summary: Summary,
}

/// What a game is.
#[derive(Drop)]
pub enum Canonicalized {
    /// It equals this number.
    Number(Dyadic),
    /// It equals a number out of range.
    Outside,
    /// It equals no number, and this is its canonical form.
    Game(NewForm),
}

/// The canonical form of the game with these options, which equals no number, and has this summary. Equal games cut the
/// numbers alike, so the form has the cuts of this summary too.
fn form_of(
    arena: &Arena,
    answers: &mut OrderMemo,
    lefts: &[Game],
    rights: &[Game],
    summary: &Summary,
    first_term: Option<FirstTerm>,
) -> Result<NewForm, AllocError>
    requires lefts { AreIndexes arena.now lefts.now }
    requires rights { AreIndexes arena.now rights.now }
    requires no_number { NoNumber (node (games_of arena.now lefts.now) (games_of arena.now rights.now)) }
    requires cuts { HasCuts (node (games_of arena.now lefts.now) (games_of arena.now rights.now)) summary.now }
    requires terms { ApartByTerm first_term (games_of arena.now lefts.now) (games_of arena.now rights.now) }
    requires right { AreRight arena.now answers.old }
    ensures form { (k : tree.Game) → IsCanonicalForm (node (games_of arena.now lefts.now) (games_of arena.now rights.now)) k
        → IfOk result (IsNewForm arena.now k) }
    ensures right { AreRight arena.now answers.new }
{
    let mut new = NewForm {
        form: Form::new(answers.alloc()),
        summary: *summary,
    };
    put_reduced(
        arena,
        answers,
        lefts,
        rights,
        summary,
        first_term,
        &mut new.form,
    )?;
    new.summary = summary_with(
        arena,
        summary.low,
        summary.high,
        new.form.lefts.as_slice(),
        new.form.rights.as_slice(),
    );
    Ok(new)
}

/// What the game with these options is. Where it is a sum of two terms, `first_term` says which of its options come
/// from the first one: on each side these come first. The only error is want of memory. (Siegel, Combinatorial Game
/// Theory (2013), II.2 and II.3.)
pub fn canonicalize(
    arena: &Arena,
    answers: &mut OrderMemo,
    lefts: &[Game],
    rights: &[Game],
    first_term: Option<FirstTerm>,
) -> Result<Canonicalized, AllocError>
    requires lefts { AreIndexes arena.now lefts.now }
    requires rights { AreIndexes arena.now rights.now }
    requires terms { ApartByTerm first_term (games_of arena.now lefts.now) (games_of arena.now rights.now) }
    requires right { AreRight arena.now answers.old }
    ensures canonicalized { (k : tree.Game) → IsCanonicalForm (node (games_of arena.now lefts.now) (games_of arena.now rights.now)) k
        → IfOk result (IsCanonicalized arena.now k) }
    ensures right { AreRight arena.now answers.new }
{
    let low = cut_of(arena, true, lefts);
    let high = cut_of(arena, false, rights);
    match simplest_in(low, high) {
        Found::Number(x) => Ok(Canonicalized::Number(x)),
        Found::Outside(_) => Ok(Canonicalized::Outside),
        Found::Nothing => {
            let summary = summary_between(arena, &low, &high, lefts, rights);
            let new = form_of(arena, answers, lefts, rights, &summary, first_term)?;
            Ok(Canonicalized::Game(new))
        }
    }
}
