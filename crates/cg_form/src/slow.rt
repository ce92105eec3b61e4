//! The order of whole trees.
//!
//! Two nodes are compared by their options, as the definition says. A number isn't expanded into its options: it is
//! compared with a node by the node's cut, the numbers in range that are at most (or at least) the node. That cut
//! follows from the cuts of the options, by the simplest number between them.
ghost use Rattle.std.specs.Prelude.{◌≡◌, Some};
ghost use Rattle.cg_dyadic.specs.Number.{InRange};
ghost use Rattle.cg_form.specs.Cut.{CutIs, CutOf};
ghost use Rattle.cg_form.specs.Forms.{game_of};
ghost use Rattle.cg_form.specs.Order.{le, no_one};

use crate::cuts::{in_cut, joined, smallest, turned};
use crate::form::{Form, Options};
use cg_dyadic::cut::Cut;
use cg_dyadic::search::simplest;

/// The union of the options' cuts.
#[cycle(cut_of)]
fn cut_of_all(left: bool, options: &Options) -> Cut
    ensures { CutOf InRange left (Some result) options.now }
{
    let mut all = smallest(left);
    for option in options.as_slice() {
        let next = cut_of(left, option);
        let so_far = Some(all);
        all = joined(left, &so_far, &next);
    }
    all
}

/// The numbers in range that are no better for the player than the game.
#[cycle(cut_of)]
fn cut_of(left: bool, form: &Form) -> Cut
    ensures { CutIs InRange left result (game_of form.now) }
{
    match form {
        Form::Num(x) => Cut::closed(*x),
        Form::Node(lefts, rights) => {
            let low = cut_of_all(true, lefts);
            let high = cut_of_all(false, rights);
            match simplest(&low, &high) {
                Some(x) => Cut::closed(x),
                None => turned(left, &low, &high),
            }
        }
    }
}

#[cycle(le_slow)]
fn none_above(form: &Form, options: &Options) -> bool
    ensures { result ≡ no_one (λ a. le (game_of form.now) a) options.now }
{
    for option in options.as_slice() {
        if le_slow(form, option) {
            return false;
        }
    }
    true
}

#[cycle(le_slow)]
fn none_below(form: &Form, options: &Options) -> bool
    ensures { result ≡ no_one (λ b. le b (game_of form.now)) options.now }
{
    for option in options.as_slice() {
        if le_slow(option, form) {
            return false;
        }
    }
    true
}

/// Whether a <= b: no Left option of a is at least b, and no Right option of b is at most a. It allocates nothing.
/// (Siegel, Combinatorial Game Theory (2013), I.1 and II.1.)
#[cycle(le_slow)]
pub fn le_slow(a: &Form, b: &Form) -> bool
    ensures { result ≡ le (game_of a.now) (game_of b.now) }
{
    match a {
        Form::Num(x) => match b {
            Form::Num(y) => x.le(*y),
            Form::Node(_, _) => {
                let cut = cut_of(true, b);
                in_cut(true, &cut, *x)
            }
        },
        Form::Node(lefts, _) => match b {
            Form::Num(y) => {
                let cut = cut_of(false, a);
                in_cut(false, &cut, *y)
            }
            Form::Node(_, rights) => none_above(b, lefts) && none_below(a, rights),
        },
    }
}
