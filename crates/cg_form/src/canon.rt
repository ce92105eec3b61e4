//! Canonical forms of whole trees.
//!
//! The options are made canonical first. If some number, in range or not, fits between their cuts, the game equals the
//! simplest such number. Otherwise its reversible options are bypassed, the dominated ones dropped, and the rest sorted
//! in the structural order.
ghost use Rattle.std.specs.Prelude.{◌≡◌, IfOk, OnOk, Err, true, false};
ghost use Rattle.cg_form.specs.Forms.{game_of, games_of};
ghost use Rattle.cg_form.specs.Game.{node, of_list};
ghost use Rattle.cg_form.specs.Simple.{NoNumber};
ghost use Rattle.cg_form.specs.Canonical.{IsCanonicalForm};
ghost use Rattle.cg_form.specs.Range.{HasOutside, AnyOutside};
ghost use Rattle.cg_form.specs.Cut.{CutOf, AnyNumber};
ghost use Rattle.cg_form.specs.Known.{KnownOf, CopiesOf, EachCanonical};

use crate::cuts::{joined, turned};
use crate::fault::SlowFault;
use crate::form::{Form, Options};
use cg_dyadic::cut::{Cut, Found};
use cg_dyadic::search::simplest_in;
use std::alloc::{AllocError, Global};

mod best;
mod reversing;

use reversing::bypass_all;

/// A canonical form, and the cut of the numbers that are no better for the player.
#[derive(Drop)]
struct Known {
    form: Form,
    cut: Cut,
}

/// The canonical forms of a list of options, and the union of their cuts.
#[derive(Drop)]
struct KnownAll {
    forms: Vec<Form>,
    cut: Option<Cut>,
}

/// The canonical form of the game with these options, which are canonical, where it equals no number.
fn reduced(alloc: Global, lefts: Vec<Form>, rights: Vec<Form>) -> Result<Form, AllocError>
    requires none { NoNumber (node (games_of lefts.items) (games_of rights.items)) }
    requires lefts { EachCanonical (games_of lefts.items) }
    requires rights { EachCanonical (games_of rights.items) }
    ensures { IfOk result (λ k.
        IsCanonicalForm (node (games_of lefts.items) (games_of rights.items)) (game_of k)) }
{
    let whole = Form::Node(Options::of(lefts), Options::of(rights));
    match &whole {
        Form::Num(_) => unreachable!(),
        Form::Node(own_lefts, own_rights) => {
            let best_lefts = bypass_all(alloc, true, &whole, own_lefts, Vec::new(alloc))?;
            let best_rights = bypass_all(alloc, false, &whole, own_rights, Vec::new(alloc))?;
            Ok(Form::Node(Options::of(best_lefts), Options::of(best_rights)))
        }
    }
}

#[cycle(learn)]
fn learn_all(alloc: Global, left: bool, options: &Options) -> Result<KnownAll, SlowFault>
    ensures copies { IfOk result (λ r. CopiesOf options.now (games_of r.forms.items)) }
    ensures cut { IfOk result (λ r. CutOf AnyNumber left r.cut options.now) }
    ensures inside { OnOk result (¬ AnyOutside (of_list options.now)) }
    ensures range { result ≡ Err SlowFault.Range → AnyOutside (of_list options.now) }
{
    let mut forms = Vec::new(alloc);
    let mut cut: Option<Cut> = None;
    for option in options.as_slice() {
        let Known { form, cut: next } = learn(alloc, left, option)?;
        let both = joined(left, &cut, &next);
        cut = Some(both);
        forms.push(form)?;
    }
    Ok(KnownAll { forms, cut })
}

#[cycle(learn)]
fn learn(alloc: Global, left: bool, form: &Form) -> Result<Known, SlowFault>
    ensures known { IfOk result (λ r. KnownOf left (game_of form.now) (game_of r.form) r.cut) }
    ensures range { result ≡ Err SlowFault.Range → HasOutside (game_of form.now) }
{
    match form {
        Form::Num(x) => Ok(Known {
            form: Form::Num(*x),
            cut: Cut::closed(*x),
        }),
        Form::Node(lefts, rights) => {
            let low = learn_all(alloc, true, lefts)?;
            let high = learn_all(alloc, false, rights)?;
            match simplest_in(low.cut, high.cut) {
                Found::Number(x) => Ok(Known {
                    form: Form::Num(x),
                    cut: Cut::closed(x),
                }),
                Found::Outside(_) => Err(SlowFault::Range),
                Found::Nothing => {
                    let below = low.cut.unwrap();
                    let above = high.cut.unwrap();
                    let form = reduced(alloc, low.forms, high.forms)?;
                    let cut = turned(left, &below, &above);
                    Ok(Known { form, cut })
                }
            }
        }
    }
}

/// The canonical form: the equal form in which no position but a number has a dominated or a reversible option, with
/// options in the structural order. `SlowFault::Range` says that some position equals a number out of range. (Siegel,
/// Combinatorial Game Theory (2013), II.2 and II.3.)
pub fn canonical_slow(alloc: Global, form: &Form) -> Result<Form, SlowFault>
    ensures canonical { IfOk result (λ k. IsCanonicalForm (game_of form.now) (game_of k)) }
    ensures in_range { OnOk result (¬ HasOutside (game_of form.now)) }
    ensures range { result ≡ Err SlowFault.Range → HasOutside (game_of form.now) }
{
    let found = learn(alloc, true, form)?;
    Ok(found.form)
}
