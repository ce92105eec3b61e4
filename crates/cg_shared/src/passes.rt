// The calls on passes: tickets, new passes, and passes that meet.
ghost use Rattle.std.specs.Prelude.{◌≡◌, ◌+◌, ◌<◌, ◌++◌, [], ◌∷◌, true, MatchOption, IfNone};
ghost use Rattle.std.specs.Prelude.{IsNone, if◌then◌else◌};
ghost use Rattle.cg_cells.specs.Meaning.{Grows};
ghost use Rattle.cg_cells.specs.Store.{IsSublist, thing_at};
ghost use Rattle.cg_cells.specs.Views.{a_split, a_join, a_draw, makes, after_split, split_off};
ghost use Rattle.cg_cells.specs.Views.{after_meet};
ghost use Rattle.cg_cells.specs.Table.{HasAllTickets, passes_of};
ghost use Rattle.cg_shared.specs.Passes.{IsPassOf, pass_state};

use crate::pass::Pass;
use crate::plays::Heirs;
use crate::steps;
use crate::table::SharedCells;
use cg_cells::Facts;
use std::marker::Brand;

/// A line's index, from 0.
#[derive(Clone, Copy, Debug, PartialEq, Eq)]
pub struct Ticket(pub u64);

impl<F: Facts> SharedCells<F> {
    /// A line that no pass has drawn yet, with its share of claims. None only if no line is left: the counter was at
    /// `lines` at this step, or at an earlier draw of this pass or of one that was met into it. If no line is left and
    /// there is no other pass, this one has the tickets of all lines, each once. It is one addition, or none after an
    /// earlier None.
    pub fn draw(&self, pass: &mut Pass<F>) -> Option<Ticket>
        requires own { IsPassOf self.now pass.old }
        ensures own { IsPassOf self.now pass.new }
        ensures drew { MatchOption result
            (pass.new.sees ≡ record pass.old.sees { over = true; made = pass.new.sees.made })
            (λ ticket. (ticket.0 < self.now.sizes.lines) × (pass.new.sees ≡ record pass.old.sees {
              spare = pass.old.sees.spare + self.now.sizes.share;
              tickets = pass.old.sees.tickets ++ ticket.0 ∷ [];
              made = pass.new.sees.made;
            })) }
        ensures made { pass.new.sees.made
            ≡ (if pass.old.sees.over then pass.old.sees.made else a_draw ∷ pass.old.sees.made) }
        ensures over { pass.old.sees.over ≡ true → IsNone result }
        ensures all { IfNone result
            (passes_of pass.new.sees ≡ self.now.sizes.passes → HasAllTickets pass.new.sees) }
    {
        if pass.over {
            return None;
        }
        let number = steps::draw::<F>(&self.table.shared, &mut pass.seat);
        if number < self.plan.lines {
            pass.spare += self.plan.share;
            Some(Ticket(number))
        } else {
            pass.over = true;
            None
        }
    }

    fn split_by<H: Heirs>(&self, pass: &mut Pass<F>, heirs: u64) -> Pass<F>
        requires own { IsPassOf self.now pass.old }
        requires few { heirs < pass.old.sees.heirs }
        requires heirs { heirs ≡ H.heirs }
        ensures old { IsPassOf self.now pass.new
            × (pass.new.sees ≡ after_split heirs (makes (a_split heirs ∷ []) pass.old.sees)) }
        ensures new { IsPassOf self.now result × (result.sees ≡ split_off heirs pass.old.sees) }
    {
        let seat = steps::split::<F, H>(&self.table.shared, &mut pass.seat);
        pass.heirs -= heirs + 1;
        Pass {
            seat,
            spare: 0,
            heirs,
            over: false,
        }
    }

    /// A new pass, which knows and has noted what this one does, owns nothing, and takes `heirs` of its heirs.
    pub fn split(&self, pass: &mut Pass<F>, heirs: u64) -> Pass<F>
        requires own { IsPassOf self.now pass.old }
        requires few { heirs < pass.old.sees.heirs }
        ensures old { IsPassOf self.now pass.new
            × (pass.new.sees ≡ after_split heirs (makes (a_split heirs ∷ []) pass.old.sees)) }
        ensures new { IsPassOf self.now result × (result.sees ≡ split_off heirs pass.old.sees) }
    {
        self.split_by::<Brand>(pass, heirs)
    }

    /// Ends the other pass: this one then knows, has noted and owns what either did.
    pub fn meet(&self, pass: &mut Pass<F>, other: Pass<F>)
        requires own { IsPassOf self.now pass.old × IsPassOf self.now other }
        ensures own { IsPassOf self.now pass.new }
        ensures view { pass.new.sees ≡ after_meet (makes (a_join ∷ []) pass.old.sees) other.sees }
        ensures known { Grows (thing_at (pass_state pass.old)) (thing_at (pass_state pass.new))
            × Grows (thing_at (pass_state other)) (thing_at (pass_state pass.new)) }
        ensures noted { IsSublist (pass_state pass.old).noted (pass_state pass.new).noted
            × IsSublist (pass_state other).noted (pass_state pass.new).noted }
    {
        let Pass {
            seat,
            spare,
            heirs,
            over,
        } = other;
        steps::meet::<F>(&self.table.shared, &mut pass.seat, seat);
        pass.spare += spare;
        pass.heirs += heirs;
        pass.over = pass.over || over;
    }
}
