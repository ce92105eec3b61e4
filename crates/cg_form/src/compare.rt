//! The structural order, in which the options of a canonical form are listed.
ghost use Rattle.std.specs.Prelude.{◌≡◌, ◌↔◌};
ghost use Rattle.cg_form.specs.Forms.{game_of};
ghost use Rattle.cg_form.specs.Structure.{game_cmp, order_of_lists};

use crate::form::{Form, Options};
use std::cmp::Ordering;

#[cycle(compare)]
fn compare_lists(a: &Options, b: &Options) -> Ordering
    ensures { result ≡ order_of_lists a.now b.now }
{
    let left = a.as_slice();
    let right = b.as_slice();
    for (i, x) in left.iter().enumerate() {
        if right.len() <= i {
            return Ordering::Greater;
        }
        let order = compare_structure(x, &right[i]);
        if order != Ordering::Equal {
            return order;
        }
    }
    if left.len() < right.len() {
        Ordering::Less
    } else {
        Ordering::Equal
    }
}

/// The structural order: numbers before other games, and by value; other games by their lists of
/// Left options, then by their lists of Right options. Lists are compared entry by entry, and a
/// proper prefix comes first. `Equal` comes exactly for the same tree.
#[cycle(compare)]
pub fn compare_structure(a: &Form, b: &Form) -> Ordering
    ensures order { result ≡ game_cmp (game_of a.now) (game_of b.now) }
    ensures same { (result ≡ Ordering.Equal) ↔ (game_of a.now ≡ game_of b.now) }
{
    match a {
        Form::Num(x) => match b {
            Form::Num(y) => x.compare(*y),
            Form::Node(_, _) => Ordering::Less,
        },
        Form::Node(lefts, rights) => match b {
            Form::Num(_) => Ordering::Greater,
            Form::Node(other_lefts, other_rights) => {
                let order = compare_lists(lefts, other_lefts);
                if order != Ordering::Equal {
                    return order;
                }
                compare_lists(rights, other_rights)
            }
        },
    }
}
