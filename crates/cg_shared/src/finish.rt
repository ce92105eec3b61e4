// The end of a table.
ghost use Rattle.std.specs.Prelude.{◌≡◌, ℕ, ◌+◌, ◌<◌, ◌≤◌, length, slice_index, IfOk};
ghost use Rattle.std.specs.Mem.Slots.{slots_items, slots_len, IsFull};
ghost use Rattle.cg_cells.specs.Meaning.{Grows};
ghost use Rattle.cg_cells.specs.Steps.{IsOutcome};
ghost use Rattle.cg_cells.specs.Store.{IsSublist, thing_at};
ghost use Rattle.cg_cells.specs.Words.{state_of};
ghost use Rattle.cg_shared.specs.Passes.{IsPassOf, pass_state};

use crate::pass::Pass;
use crate::table::SharedCells;
use atomic_table::Closed;
use cg_cells::{Facts, PlainStore};
use std::alloc::{AllocError, Global};

// The `count` words of a closed table from `first` on.
fn words_from(
    alloc: Global,
    closed: &Closed<(), Global>,
    first: usize,
    count: usize,
) -> Result<Vec<u64>, AllocError>
    requires inside { first + count ≤ slots_len closed.now.words }
    requires full { IsFull closed.now.words }
    ensures long { IfOk result (λ v. length v.items ≡ count) }
    ensures words { IfOk result
        (λ v. (i : ℕ) → i < count
        → slice_index v.items i ≡ slice_index (slots_items closed.now.words) (first + i)) }
{
    let mut words = Vec::with_capacity(alloc, count)?;
    for i in 0..count {
        words.push(closed.word(first + i))?;
    }
    Ok(words)
}

impl<F: Facts> SharedCells<F> {
    /// The cells as a store in plain memory, which knows what the pass did, has noted what it had, and has its claims
    /// to spare. The keys stay in their cells. Some list of steps of passes leads from the start to these words and
    /// this pass. If memory runs out, the table is gone.
    pub fn finish(self, alloc: Global, pass: Pass<F>) -> Result<PlainStore<F>, AllocError>
        requires own { IsPassOf self pass }
        ensures known { IfOk result
            (λ s. Grows (thing_at (pass_state pass)) (thing_at (state_of F.meaning s))) }
        ensures noted { IfOk result
            (λ s. IsSublist (pass_state pass).noted (state_of F.meaning s).noted) }
        ensures spare { IfOk result (λ s. s.spare ≡ pass.sees.spare) }
        ensures reached { IfOk result
            (λ s. IsOutcome F.meaning self.sizes s.keys s.values pass.sees) }
    {
        let size = self.size() as usize;
        let SharedCells {
            table,
            plan: _,
            size: _,
        } = self;
        let Pass {
            seat,
            spare,
            heirs: _,
            over: _,
        } = pass;
        let closed = table.close_with(seat);
        let keys = words_from(alloc, &closed, 1, size);
        let values = words_from(alloc, &closed, 1 + size, size);
        closed.free();
        PlainStore::of_words(alloc, keys?, values?, spare)
    }
}
