//! What was found out of the games of a work.
ghost use Rattle.std.specs.Prelude.{◌≡◌, ◌++◌, ◌∷◌, [], IfOk, IfSome, OnErr};
ghost use Rattle.cg_arena.specs.declared.order_memo.Answer.{Answer as Known};
ghost use Rattle.cg_arena.specs.OrderMemos.{IsKept};
ghost use Rattle.cg_canon.specs.Interners.{AreApart};
ghost use Rattle.cg_canon.specs.Recognized.{AreRecognized};
ghost use Rattle.cg_canon.specs.Memos.{IsAdded, added_sum};

use crate::interner::Interner;
use crate::lossy_index::{LossyIndex, half_of, mixed};
use cg_nodes::Handle;
use std::alloc::{AllocError, Global};

/// A sum of two games all of whose items were made in a work.
#[derive(Clone, Copy)]
pub(crate) struct KnownSum {
    /// The sum.
    pub sum: Handle,
    /// What its items cost together.
    pub cost: u64,
    /// The limit on positions under which they were made.
    pub limit: u64,
}

/// A known sum with the ids of its two games.
#[derive(Clone, Copy)]
pub(crate) struct AddedSum {
    a: u32,
    b: u32,
    known: KnownSum,
}

/// The games that were met, and sums, by pairs of ids.
#[derive(Drop)]
pub(crate) struct Memo {
    pub(crate) interner: Interner,
    sums: Vec<AddedSum>,
    /// Where the sum of a pair is looked for.
    places: LossyIndex,
}

/// A number for a pair of ids.
fn number_of(a: u32, b: u32) -> u32 {
    half_of(mixed(mixed(1, u64::from(a)), u64::from(b)))
}

impl Memo {
    /// Of nothing.
    pub fn new(alloc: Global) -> Memo
        ensures arena { result.interner.arena ≡ [] }
        ensures handles { result.interner.handles.items ≡ [] }
        ensures answers { (x : Known) → IsKept result.interner.answers x → ⊥ }
        ensures pairs { result.interner.pairs.sums.items ≡ [] }
        ensures apart { AreApart result.interner.handles.items result.interner.by_id result.interner.is_complete }
        ensures recognized { AreRecognized [] result.interner.recognized }
        ensures sums { result.sums.items ≡ [] }
    {
        Memo {
            interner: Interner::new(alloc),
            sums: Vec::new(alloc),
            places: LossyIndex::new(alloc),
        }
    }

    /// How many sums there are.
    pub fn count(&self) -> usize {
        self.sums.len()
    }

    /// The sum of the entry, if it is that of the first id and the second.
    fn sum_at(&self, entry: u32, a: u32, b: u32) -> Option<KnownSum>
        ensures { IfSome result (IsAdded self.now a b) }
    {
        let place = entry as usize;
        if place < self.sums.len() && self.sums[place].a == a && self.sums[place].b == b {
            return Some(self.sums[place].known);
        }
        None
    }

    /// The sum for the first id and the second, if there is one that is found.
    pub fn added(&self, a: u32, b: u32) -> Option<KnownSum>
        ensures { IfSome result (IsAdded self.now a b) }
    {
        self.places
            .find(number_of(a, b), |entry| self.sum_at(entry, a, b))
    }

    /// Keeps the sum for the first id and the second. Nothing changes where there is no memory.
    pub fn keep_added(&mut self, a: u32, b: u32, known: KnownSum) -> Result<(), AllocError>
        ensures ok { IfOk result (λ _. self.new.sums.items ≡ self.old.sums.items ++ (added_sum a b known ∷ [])) }
        ensures err { OnErr result (self.new.sums.items ≡ self.old.sums.items) }
        ensures interner { self.new.interner ≡ self.old.interner }
    {
        self.sums.push(AddedSum { a, b, known })?;
        self.places.add(number_of(a, b));
        Ok(())
    }
}
