//! Tests that need threads, a gate, a table that is kept, a store of its own, or readers and writers that fail: what
//! cg_cells, cg_shared, cg_pool, cg_io and cg_session do where no row of text can ask. The expected values come from
//! the textbook and from hand.
#![tactic(auto)]

#[cfg(test)]
mod adapters;
#[cfg(test)]
mod heirs;
#[cfg(test)]
mod keys;
#[cfg(test)]
mod lines;
#[cfg(test)]
mod notes;
#[cfg(test)]
mod numbers;
#[cfg(test)]
mod pools;
#[cfg(test)]
mod sessions;
#[cfg(test)]
mod stars;
#[cfg(test)]
mod stores;
#[cfg(test)]
mod tables;
#[cfg(test)]
mod watch;
