//! Sums for the values of boards in pieces.

use cg_canon::{ValueFault, Work};
use cg_cells::CellStore;
use cg_nodes::{BoardForms, GameFacts, Handle};
use cg_sum::sum;
use cg_values::Adder;
use std::alloc::Global;

/// What adds the games of two handles by [`sum`].
pub struct SumAdder;

impl Adder for SumAdder {
    fn add<B: BoardForms, S: CellStore<GameFacts<B>>>(
        &self,
        alloc: Global,
        work: &mut Work<'_, B, S>,
        a: Handle,
        b: Handle,
    ) -> Result<Handle, ValueFault> {
        sum(alloc, work, a, b)
    }
}
