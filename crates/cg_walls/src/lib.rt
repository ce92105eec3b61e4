//! Walls in whole units: functions of t = 0, 1, 2, .. that in each unit rise by 1 or stay. Here are the greater of two
//! walls, the time at which two scaffolds meet, the bends of a wall, and the line through points.
#![tactic(auto)]

mod bends;
pub mod laws;
mod meet;
mod place;
mod rise;
mod turning;
mod upper;
mod worth;

pub use bends::{Point, points};
pub use meet::meeting;
pub use rise::Rise;
pub use turning::turned;
pub use upper::higher;
pub use worth::value;

/// The greatest size of a wall's value, in units of 1/2^60: more than any number below 2^64, and the sum of two such
/// values fits an i128.
pub const BOUND: i128 = 1 << 124;

/// All turns come before this time. Scaffolds over walls within [`BOUND`] have met by t = `BOUND`, half of this, and
/// twice this fits a u128.
pub const END: u128 = 1 << 125;
