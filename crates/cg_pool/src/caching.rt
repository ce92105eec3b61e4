//! Jobs whose workers keep a cache.
ghost use Rattle.std.specs.Prelude.{◌≡◌, ℕ, ◌<◌, ◌≤◌, IfOk};
ghost use Rattle.std.specs.FinMap as map;
ghost use Rattle.std.specs.Ordering.{nat_cmp};
ghost use Rattle.cg_cells.specs.Meaning.{Grows};
ghost use Rattle.cg_cells.specs.Store.{thing_at};
ghost use Rattle.cg_shared.specs.Passes.{pass_state};

use crate::Job;
use cg_cells::Facts;
use cg_shared::Desk;
use std::alloc::{AllocError, Global};

/// A [`Job`] whose workers keep a cache from line to line. Contracts also see when a cache is right, given what is
/// known; it stays right when more is known. Every `Job` is a `CachingJob` that keeps nothing.
pub trait CachingJob<F: Facts>: Sync {
    /// The answer to one line.
    type Answer: Send + Drop;

    /// What a worker keeps from line to line.
    type Cache: Send + Drop;

    ghost count: { Self → ℕ };

    ghost needs: { Self → ℕ };

    ghost good: { Self → ℕ → Self.Answer → map.FinMap nat_cmp F.Thing → Type 0 };

    ghost holds: { Self.Cache → map.FinMap nat_cmp F.Thing → Type 0 };

    /// A worker's first cache.
    fn start(&self, alloc: Global) -> Self::Cache
        ensures { (f : map.FinMap nat_cmp F.Thing) → holds result f };

    /// Answers the line with this index. The desk keeps its table, its pass, and the pass's tickets, heirs and meets,
    /// and forgets nothing. After an answer the cache is right; nothing is said of it after an error.
    fn work(
        &self,
        alloc: Global,
        desk: &mut Desk<'_, F>,
        cache: &mut Self::Cache,
        index: u64,
    ) -> Result<Self::Answer, AllocError>
        requires index { index < count self.now }
        requires spare { needs self.now ≤ (pass_state desk.old).spare }
        requires cache { holds cache.old (pass_state desk.old).known }
        ensures good { IfOk result
            (λ answer. good self.now index answer (pass_state desk.new).known) }
        ensures known { Grows (thing_at (pass_state desk.old)) (thing_at (pass_state desk.new)) }
        ensures rest { (pass_state desk.new).rest ≡ (pass_state desk.old).rest }
        ensures cache { IfOk result (λ _. holds cache.new (pass_state desk.new).known) };

    ghost stays: { (job : Self) (n : ℕ) (answer : Self.Answer) (f g : map.FinMap nat_cmp F.Thing)
        → Grows (map.get f) (map.get g) → good job n answer f → good job n answer g };

    ghost holding: { (cache : Self.Cache) (f g : map.FinMap nat_cmp F.Thing) → Grows (map.get f) (map.get g)
        → holds cache f → holds cache g };
}

impl<F: Facts, J: Job<F>> CachingJob<F> for J {
    type Answer = J::Answer;

    type Cache = ();

    ghost count = { J.count };

    ghost needs = { J.needs };

    ghost good = { J.good };

    ghost holds = { λ cache known. Unit {0} };

    fn start(&self, alloc: Global) {
        let _ = alloc;
    }

    fn work(
        &self,
        alloc: Global,
        desk: &mut Desk<'_, F>,
        cache: &mut (),
        index: u64,
    ) -> Result<J::Answer, AllocError> {
        let _ = cache;
        Job::work(self, alloc, desk, index)
    }

    ghost stays = { J.stays };

    ghost holding = { λ cache f g grows h. h };
}
