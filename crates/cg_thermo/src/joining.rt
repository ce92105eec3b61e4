//! One step: the pair of walls of a game from the walls of its options.
ghost use Rattle.std.specs.Prelude.{◌≡◌, ◌≤ℤ◌, pos, IfOk, Err};
ghost use Rattle.cg_walls.specs.Rises.{IsWall, gap};
ghost use Rattle.cg_thermo.specs.Joins.{Joins, Jumps};

use crate::fault::ThermoFault;
use crate::wall_pair::WallPair;
use cg_walls::{Rise, meeting, turned};
use std::alloc::Global;

/// The pair of walls of a game, from the greatest right wall of the Left options and the greatest negative of a left
/// wall of the Right options. `Range` comes exactly where the scaffolds pass each other between two whole units.
pub(crate) fn joined(alloc: Global, p: &Rise, q: &Rise) -> Result<WallPair, ThermoFault>
    requires p { IsWall p.now }
    requires q { IsWall q.now }
    requires start { pos 0 ≤ℤ gap p.now q.now 0 }
    ensures joined { IfOk result (Joins p.now q.now) }
    ensures range { result ≡ Err ThermoFault.Range → Jumps p.now q.now }
{
    let Some(end) = meeting(p, q) else {
        return Err(ThermoFault::Range);
    };
    let left = turned(alloc, p, end)?;
    let right = turned(alloc, q, end)?;
    Ok(WallPair { left, right, end })
}
