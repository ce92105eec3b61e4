//! Bypassing the reversible options of a game that equals no number.
//!
//! An option that is reversible through a number is replaced by that number itself: the number is at
//! least as good as what the bypass would bring in, and adds nothing, since another option is at
//! least as good as the number. So no number is counted down.
ghost use Rattle.std.specs.Prelude.{◌∷◌, [], IfOk};
ghost use Rattle.cg_form.specs.Forms.{game_of, games_of};
ghost use Rattle.cg_form.specs.Canonical.{Canonical};
ghost use Rattle.cg_form.specs.Simple.{NoNumber};
ghost use Rattle.cg_form.specs.Side.{AtMost};
ghost use Rattle.cg_form.specs.Bypass.{Stands, Taken};
ghost use Rattle.cg_form.specs.Known.{EachCanonical, EachLess};

use super::best::with_one;
use crate::form::{Form, Options};
use crate::player::{at_most, chosen};
use std::alloc::{AllocError, Global};

/// The list with what stands in the place of the option, less what another dominates.
#[cycle(bypass)]
fn bypass(
    alloc: Global,
    left: bool,
    whole: &Form,
    option: &Form,
    out: Vec<Form>,
) -> Result<Vec<Form>, AllocError>
    requires none { NoNumber (game_of whole.now) }
    requires stands { Stands left (game_of whole.now) (games_of out.items) }
    requires canonical { Canonical (game_of option.now) }
    requires less { ¬ AtMost left (game_of whole.now) (game_of option.now) }
    ensures { IfOk result (λ r. Taken left (game_of whole.now) (games_of out.items) (game_of option.now ∷ [])
        (games_of r.items)) }
{
    match option {
        Form::Num(_) => with_one(alloc, left, out, option),
        Form::Node(lefts, rights) => {
            let far = chosen(left, rights, lefts);
            for answer in far.as_slice() {
                if at_most(left, answer, whole) {
                    return match answer {
                        Form::Num(_) => with_one(alloc, left, out, answer),
                        Form::Node(next_lefts, next_rights) => bypass_all(
                            alloc,
                            left,
                            whole,
                            chosen(left, next_lefts, next_rights),
                            out,
                        ),
                    };
                }
            }
            with_one(alloc, left, out, option)
        }
    }
}

/// The list with what stands in the places of the options, less what another dominates.
#[cycle(bypass)]
pub fn bypass_all(
    alloc: Global,
    left: bool,
    whole: &Form,
    options: &Options,
    out: Vec<Form>,
) -> Result<Vec<Form>, AllocError>
    requires none { NoNumber (game_of whole.now) }
    requires stands { Stands left (game_of whole.now) (games_of out.items) }
    requires canonical { EachCanonical options.now }
    requires less { EachLess left (game_of whole.now) options.now }
    ensures { IfOk result (λ r. Taken left (game_of whole.now) (games_of out.items) options.now (games_of r.items)) }
{
    let mut all = out;
    for option in options.as_slice() {
        all = bypass(alloc, left, whole, option, all)?;
    }
    Ok(all)
}
