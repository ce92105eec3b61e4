// What one pass knows and owns, in contracts and proofs only.
ghost use base.Fml.{ftrue};
ghost use Rattle.cg_cells.specs.Views.{ViewOf};
ghost use Rattle.cg_shared.specs.Passes.{view_code};

use std::marker::{Model, PhantomData};

/// How many lines a table serves, how many cells each gets, and how many passes there are.
#[derive(Clone, Copy)]
pub struct Plan {
    pub lines: u64,
    pub share: u64,
    pub passes: u64,
}

/// The view of a pass.
pub struct View<X> {
    of: PhantomData<X>,
    ghost sees: { ViewOf X } by { view_code X.code },
}

impl<X> Model for View<X> {
    ghost Value = { ViewOf X };

    ghost coded = { view_code X.code };

    ghost view = { λ v. v.sees };

    ghost also_owns = { λ _. ftrue };
}

impl<X> Drop for View<X> {
    fn drop(self) {
        let Self { of: _ } = self;
    }
}
