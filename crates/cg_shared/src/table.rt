ghost use Rattle.std.specs.Prelude.{◌≡◌, ◌≢◌, ◌+◌, ◌≤◌, ◌↔◌, [], IfOk, Err, MatchOption};
ghost use Rattle.cg_cells.specs.Views.{first_view, cells_of};
ghost use Rattle.cg_cells.specs.Table.{IsAllowed};
ghost use Rattle.cg_shared.specs.Plays.{sizes_of};
ghost use Rattle.cg_shared.specs.Passes.{CellsOf, cells_code, IsPassOf};

use crate::pass::Pass;
use crate::plays::Rule;
use crate::view::{Plan, View};
use atomic_table::Table;
use cg_cells::{Divisor, Facts};
use std::alloc::{AllocError, Global};
use std::marker::Model;
use thiserror::Error;

const MOST_CELLS: u64 = 1 << 26;

const MOST_PASSES: u64 = 1 << 16;

/// A table of cells that threads share. Contracts see its identity and its sizes.
#[derive(Drop)]
pub struct SharedCells<F: Facts> {
    pub(crate) table: Table<(), View<F::Thing>, Plan, Rule<F>, Global>,
    pub(crate) plan: Plan,
    pub(crate) size: Divisor,
}

impl<F: Facts> Model for SharedCells<F> {
    ghost Value = { CellsOf };

    ghost coded = { cells_code };

    ghost view = { λ c. record { table = c.table.shared.table_id; sizes = sizes_of c.plan } };

    ghost invariant = { λ c. (c.table.shared.key ≡ c.plan)
        × (c.table.shared.table_id.words ≡ 1 + cells_of (sizes_of c.plan) + cells_of
        (sizes_of c.plan))
        × (c.table.shared.table_id.slots ≡ 0) × IsAllowed (sizes_of c.plan)
        × (c.size ≡ cells_of (sizes_of c.plan)) };
}

/// Why no table was made.
#[derive(Clone, Copy, Debug, PartialEq, Eq, Error)]
pub enum StartFault {
    #[error("a table has from 1 to 67108864 cells and from 1 to 65536 passes")]
    Size,
    #[error("out of memory")]
    Memory,
}

// The number of cells, if the sizes are allowed.
fn allowed(plan: Plan) -> Option<u64>
    ensures { MatchOption result (¬ IsAllowed (sizes_of plan))
        (λ size. (size ≡ cells_of (sizes_of plan)) × IsAllowed (sizes_of plan)) }
{
    let size = plan.lines.checked_mul(plan.share)?;
    let cells = 1 <= size && size <= MOST_CELLS;
    let passes = 1 <= plan.passes && plan.passes <= MOST_PASSES;
    if cells && passes { Some(size) } else { None }
}

impl<F: Facts> SharedCells<F> {
    /// A table of `lines * share` empty cells, and its first pass, from which up to `passes - 1` others may come. It
    /// allocates 16 bytes a cell here and nothing later.
    pub fn start(
        alloc: Global,
        lines: u64,
        share: u64,
        passes: u64,
    ) -> Result<(SharedCells<F>, Pass<F>), StartFault>
        ensures cells { IfOk result
            (λ r. r.0.sizes ≡ record { lines = lines; share = share; passes = passes }) }
        ensures pass { IfOk result (λ r. IsPassOf r.0 r.1 × (r.1.sees ≡ first_view r.0.sizes)) }
        ensures size { (result ≡ Err StartFault.Size)
            ↔ (¬ IsAllowed (record { lines = lines; share = share; passes = passes })) }
    {
        let plan = Plan {
            lines,
            share,
            passes,
        };
        let Some(size) = allowed(plan) else {
            return Err(StartFault::Size);
        };
        Self::made(alloc, plan, size).map_err(|_| StartFault::Memory)
    }

    fn made(alloc: Global, plan: Plan, size: u64) -> Result<(SharedCells<F>, Pass<F>), AllocError>
        requires { (size ≡ cells_of (sizes_of plan)) × IsAllowed (sizes_of plan) }
        ensures cells { IfOk result (λ r. r.0.sizes ≡ sizes_of plan) }
        ensures pass { IfOk result (λ r. IsPassOf r.0 r.1 × (r.1.sees ≡ first_view r.0.sizes)) }
    {
        let words = vec![in alloc; 0u64; (1 + size + size) as usize]?;
        let (table, seat) = Table::of_words(alloc, words.as_slice(), &plan)?;
        let pass = Pass {
            seat,
            spare: 0,
            heirs: plan.passes - 1,
            over: false,
        };
        let size = Divisor::new(size);
        Ok((SharedCells { table, plan, size }, pass))
    }
}
