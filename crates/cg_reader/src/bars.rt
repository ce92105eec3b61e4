//! Runs of bars.
ghost use Rattle.std.specs.Prelude.{◌≡◌, ◌<◌, ◌≤◌, length, IfOk};
ghost use Rattle.cg_grammar.specs.OperandReading.{bars_at};
ghost use Rattle.cg_reading.specs.Gives.{Gives};

use cg_reading::{ReadFault, after_all};

/// A run of one to eight bars, with its column and its length.
#[tactic(auto, using(crate::proofs::BarRuns::bars_none, crate::proofs::BarRuns::bars_many, crate::proofs::BarRuns::bars_few, cg_reading::proofs::Skip::taken_length))]
pub fn bars(line_end: u64, bytes: &[u8]) -> Result<((u64, u64), &[u8]), ReadFault>
    requires { length bytes.now ≤ line_end }
    ensures read { Gives (λ x. (x.0, x.1.now)) result (bars_at line_end bytes.now) }
    ensures shorter { IfOk result (λ x. length x.1.now < length bytes.now) }
{
    let rest = after_all(b'|', bytes);
    let count = bytes.len() - rest.len();
    if count == 0 {
        return Err(ReadFault::Stuck(bytes.len()));
    }
    if count > 8 {
        return Err(ReadFault::Stuck(bytes.len() - 8));
    }
    Ok(((line_end - bytes.len() as u64, count as u64), rest))
}
