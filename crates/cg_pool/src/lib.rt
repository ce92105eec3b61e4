//! Workers that answer lines over one shared table: one good answer for each line, in order, whatever the schedule.
#![tactic(auto)]

mod caching;
mod evaluation;
mod gate;
mod job;
mod order;
mod workers;

pub use caching::CachingJob;
pub use evaluation::{Evaluated, evaluate, evaluate_by_weight};
pub use gate::{Gate, NoGate};
pub use job::Job;
