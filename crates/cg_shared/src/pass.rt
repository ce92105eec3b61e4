// A pass.
ghost use Rattle.std.specs.Prelude.{◌≡◌, ℕ, ◌≤◌, ◌^◌, ◌↔◌, IsTrue, if◌then◌else◌, nat_lt, length};
ghost use Rattle.std.specs.Prelude.{true};
ghost use Rattle.cg_cells.specs.Meaning.{IsInjective, IsReal};
ghost use Rattle.cg_cells.specs.Store.{Known, thing_at};
ghost use Rattle.cg_cells.specs.Sure.{IsReached};
ghost use Rattle.cg_cells.specs.Table.{times, passes_of, HasAllTickets};
ghost use Rattle.cg_shared.specs.Passes.{PassOf, pass_code, pass_state, IsKeptPass};

use crate::view::View;
use atomic_table::Seat;
use cg_cells::{Facts, Id};
use std::marker::Model;

/// What one caller knows of a table and owns of it. Contracts see its table and its view.
#[derive(Drop)]
pub struct Pass<F: Facts> {
    pub(crate) seat: Seat<(), View<F::Thing>>,
    pub(crate) spare: u64,
    pub(crate) heirs: u64,
    pub(crate) over: bool,
}

impl<F: Facts> Model for Pass<F> {
    ghost Value = { PassOf F.Thing };

    ghost coded = { pass_code F.Thing.code };

    ghost view = { λ p. record { table = p.seat.table_id; sees = p.seat.me.0 } };

    ghost invariant = { λ p. IsKeptPass F.meaning p.spare p.heirs p.over p.seat.me };
}

impl<F: Facts> Pass<F> {
    /// How many claims it has left.
    pub fn spare(&self) -> u64
        ensures value { result ≡ self.now.sees.spare }
        ensures few { result ≤ 2 ^ 26 }
    {
        self.spare
    }

    /// How many further passes may split off.
    pub fn heirs(&self) -> u64
        ensures { result ≡ self.now.sees.heirs }
    {
        self.heirs
    }

    /// Whether two known ids are known to be one thing.
    pub fn same(&self, a: Id, b: Id) -> bool
        requires a { Known (pass_state self.now) a }
        requires b { Known (pass_state self.now) b }
        ensures ids { IsTrue result ↔ (a ≡ b) }
        ensures things { IsTrue result
            ↔ (thing_at (pass_state self.now) a ≡ thing_at (pass_state self.now) b) }
        ensures real { IsReal F.meaning (thing_at (pass_state self.now) a)
            × IsReal F.meaning (thing_at (pass_state self.now) b) }
    {
        // For the proof alone: where a field is read, the prover knows the pass's invariant.
        let _seat = &self.seat;
        a.number() == b.number()
    }

    /// Fact: different known ids are known to be different things. The call does nothing.
    pub fn apart(&self)
        ensures { IsInjective (thing_at (pass_state self.now)) }
    {
        // For the proof, as in `same`.
        let _seat = &self.seat;
    }

    /// Fact: no line is twice among the tickets, and if none is left and there is no other pass, all are there. The
    /// call does nothing.
    pub fn each_ticket_once(&self)
        ensures once { (n : ℕ)
            → times n self.now.sees.tickets
            ≤ (if nat_lt n self.now.sees.sizes.lines then 1 else 0) }
        ensures few { length self.now.sees.tickets ≤ self.now.sees.sizes.lines }
        ensures all { self.now.sees.over ≡ true
            → passes_of self.now.sees ≡ self.now.sees.sizes.passes → HasAllTickets self.now.sees }
    {
        // For the proof, as in `same`.
        let _seat = &self.seat;
    }

    /// Fact: some list of steps that closes nothing leads from the start to a table in which a live pass has this view.
    /// The steps in the view are that pass's steps in the list, as the law `made` of cg_cells says. The call does
    /// nothing.
    pub fn reached(&self)
        ensures { IsReached F.meaning self.now.sees }
    {
        // For the proof, as in `same`.
        let _seat = &self.seat;
    }
}
