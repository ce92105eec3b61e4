//! Values of boards, on handles of a store, with exact costs.
#![tactic(auto)]

mod adder;
mod cells;
mod contents;
mod item;
mod joining;
mod options;
mod parts;
mod prefetching;
mod reached;
mod values;

pub use adder::Adder;
pub use reached::value_of;
