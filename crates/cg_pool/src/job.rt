ghost use Rattle.std.specs.Prelude.{◌≡◌, ℕ, ◌<◌, ◌≤◌, IfOk};
ghost use Rattle.std.specs.FinMap as map;
ghost use Rattle.std.specs.Ordering.{nat_cmp};
ghost use Rattle.cg_cells.specs.Meaning.{Grows};
ghost use Rattle.cg_cells.specs.Store.{thing_at};
ghost use Rattle.cg_shared.specs.Passes.{pass_state};

use cg_cells::Facts;
use cg_shared::Desk;
use std::alloc::{AllocError, Global};

/// Lines that can be answered in any order. Contracts see how many there are, the spare that an answer needs, and which
/// answers are good for a line, given what is known. An answer stays good when more is known.
pub trait Job<F: Facts>: Sync {
    /// The answer to one line.
    type Answer: Send + Drop;

    ghost count: { Self → ℕ };

    ghost needs: { Self → ℕ };

    ghost good: { Self → ℕ → Self.Answer → map.FinMap nat_cmp F.Thing → Type 0 };

    /// Answers the line with this index. The desk keeps its table, its pass, and the pass's tickets, heirs and meets,
    /// and forgets nothing.
    fn work(
        &self,
        alloc: Global,
        desk: &mut Desk<'_, F>,
        index: u64,
    ) -> Result<Self::Answer, AllocError>
        requires index { index < count self.now }
        requires spare { needs self.now ≤ (pass_state desk.old).spare }
        ensures good { IfOk result
            (λ answer. good self.now index answer (pass_state desk.new).known) }
        ensures known { Grows (thing_at (pass_state desk.old)) (thing_at (pass_state desk.new)) }
        ensures rest { (pass_state desk.new).rest ≡ (pass_state desk.old).rest };

    ghost stays: { (job : Self) (n : ℕ) (answer : Self.Answer) (f g : map.FinMap nat_cmp F.Thing)
        → Grows (map.get f) (map.get g) → good job n answer f → good job n answer g };
}
