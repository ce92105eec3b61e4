// The rule of a table, and what each step tells.
ghost use Rattle.std.specs.Prelude.{ℕ, [], ◌∷◌};
ghost use Rattle.cg_cells.specs.Views.{a_split, a_join, makes, first_view, after_split};
ghost use Rattle.cg_cells.specs.Views.{split_off, after_meet, ended};
ghost use Rattle.cg_shared.specs.Plays.{sizes_of, Kept, Drew, Checked, Looked, Read, Probed};
ghost use Rattle.cg_shared.specs.Plays.{Claimed, Noted};

use crate::view::{Plan, View};
use atomic_table::{Join, Play, Split, TableRule};
use cg_cells::Facts;
use std::marker::{Brand, PhantomData};

/// The rule of a table: some list of steps leads from the start to its words and to the views of all its passes.
pub struct Rule<F> {
    of: PhantomData<F>,
}

impl<F: Facts> TableRule<(), View<F::Thing>, Plan> for Rule<F> {
    ghost holds = { Kept F.meaning };

    ghost first = { λ p. first_view (sizes_of p) };
}

pub(crate) struct Draws<F> {
    of: PhantomData<F>,
}

impl<F: Facts> Play<(), View<F::Thing>> for Draws<F> {
    ghost then = { Drew F.meaning };
}

pub(crate) struct Checks<F> {
    of: PhantomData<F>,
}

impl<F: Facts> Play<(), View<F::Thing>> for Checks<F> {
    ghost then = { Checked F.meaning };
}

pub(crate) struct Looks<F> {
    of: PhantomData<F>,
}

impl<F: Facts> Play<(), View<F::Thing>> for Looks<F> {
    ghost then = { Looked F.meaning };
}

pub(crate) struct Reads<F> {
    of: PhantomData<F>,
}

impl<F: Facts> Play<(), View<F::Thing>> for Reads<F> {
    ghost then = { Read F.meaning };
}

// The key that a probe searches for, as a type: a load can't pass a key to its play.
pub(crate) trait Sought {
    ghost key: { ℕ };
}

impl Sought for Brand {
    ghost key = { 0 };
}

pub(crate) struct Probes<F, K> {
    of: PhantomData<(F, K)>,
}

impl<F: Facts, K: Sought> Play<(), View<F::Thing>> for Probes<F, K> {
    ghost then = { Probed F.meaning K.key };
}

pub(crate) struct Claims<F> {
    of: PhantomData<F>,
}

impl<F: Facts> Play<(), View<F::Thing>> for Claims<F> {
    ghost then = { Claimed F.meaning };
}

pub(crate) struct Notes<F> {
    of: PhantomData<F>,
}

impl<F: Facts> Play<(), View<F::Thing>> for Notes<F> {
    ghost then = { Noted F.meaning };
}

// How many heirs a new pass gets, as a type.
pub(crate) trait Heirs {
    ghost heirs: { ℕ };
}

impl Heirs for Brand {
    ghost heirs = { 0 };
}

pub(crate) struct Cuts<H> {
    of: PhantomData<H>,
}

impl<X, H: Heirs> Split<View<X>> for Cuts<H> {
    ghost left = { λ v. after_split H.heirs (makes (a_split H.heirs ∷ []) v) };

    ghost right = { split_off H.heirs };
}

pub(crate) struct Meets;

impl<X> Join<View<X>> for Meets {
    ghost both = { λ v w. after_meet (makes (a_join ∷ []) v) w };

    ghost spent = { ended };
}
