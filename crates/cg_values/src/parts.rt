//! The parts that play can come to, with what comes next after each of them.
ghost use Rattle.std.specs.Prelude.{◌≡◌, ◌⊎◌, ◌<◌, ◌≤◌, true, IfErr, IfOk, OnOk, length, Err};
ghost use Rattle.cg_values.specs.Items.{parts_reach};
ghost use Rattle.cg_values.specs.Parts.{IsOpened};

use cg_canon::ValueFault;
use cg_moves::{Board, Pieces, PositionGraph, ReachFault, Rules, open, open_pieces};
use std::alloc::Global;

/// The pieces that play can come to where the rules cut, and the boards where they don't, unless there are more than
/// the limit.
fn opened_parts<R: Rules>(
    alloc: Global,
    rules: &R,
    start: &Board,
    limit: u64,
) -> Result<PositionGraph, ReachFault>
    requires { (R.game rules.now).has start.now ≡ true }
    ensures graph { IfOk result (IsOpened (R.game rules.now) start.now) }
    ensures within { OnOk result (length (parts_reach (R.game rules.now) start.now) ≤ limit) }
    ensures refused { result ≡ Err ReachFault.Positions → limit < length (parts_reach (R.game rules.now) start.now) }
{
    match rules.pieces(alloc, start)? {
        Pieces::Whole => open(alloc, rules, start, limit),
        Pieces::Cut(_own) => open_pieces(alloc, rules, start, limit),
    }
}

/// The parts that play can come to, unless there are more than the limit.
pub(crate) fn parts_within<R: Rules>(
    alloc: Global,
    rules: &R,
    start: &Board,
    limit: u64,
) -> Result<PositionGraph, ValueFault>
    requires { (R.game rules.now).has start.now ≡ true }
    ensures graph { IfOk result (IsOpened (R.game rules.now) start.now) }
    ensures within { OnOk result (length (parts_reach (R.game rules.now) start.now) ≤ limit) }
    ensures refused { IfErr result (λ fault. (fault ≡ ValueFault.Memory) ⊎ ((fault ≡ ValueFault.Positions)
        × (limit < length (parts_reach (R.game rules.now) start.now)))) }
{
    match opened_parts(alloc, rules, start, limit) {
        Ok(graph) => Ok(graph),
        Err(ReachFault::Positions) => Err(ValueFault::Positions),
        Err(ReachFault::Memory) => Err(ValueFault::Memory),
    }
}
