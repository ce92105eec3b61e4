//! A form, and its lists of options.
ghost use Rattle.std.specs.Prelude.{◌≡◌};
ghost use Rattle.cg_form.specs.Forms.{games_of};

use cg_dyadic::Dyadic;
use std::marker::Model;

mod copy;
mod walk;

/// A game written as a tree: a number, or lists of Left and of Right options. Contracts see the
/// game of the same shape.
#[cycle(form)]
#[derive(Debug, Drop)]
pub enum Form {
    /// A number in range, which stands for the game of its canonical form.
    Num(Dyadic),
    /// Left and Right options, in order and with repetitions.
    Node(Options, Options),
}

/// A list of options. Contracts see a list of games.
#[cycle(form)]
#[derive(Debug, Drop)]
pub struct Options {
    items: Vec<Form>,
}

impl Model for Options {
    ghost use Rattle.std.specs.Prelude.{List, ℕ};
    ghost use Rattle.cg_form.specs.Game.{Game};
    ghost use Rattle.cg_form.specs.Size.{list_size};
    ghost use Rattle.cg_form.specs.GameCode.{game_code};
    ghost use Rattle.std.specs.Coded.{coded_list};

    ghost Value = { List Game };

    ghost coded = { coded_list game_code };

    ghost use Rattle.cg_form.specs.Forms.{games_of};

    ghost view = { λ a. games_of a.items.items };

    ghost size = { list_size };

    ghost use Rattle.cg_form.specs.FallsLaw.{most_le-list_size};

    ghost size_decreases = { λ a h. most_le-list_size a.items.items };
}

impl Options {
    /// The list of these options, in their order.
    pub fn of(items: Vec<Form>) -> Options
        ensures { result ≡ games_of items.items }
    {
        Options { items }
    }
}
