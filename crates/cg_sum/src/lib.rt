//! Sums, negatives and multiples on handles of a store, with exact costs.
//!
//! Each call makes a list of items, forms with their costs, in order, and stops at the first that is
//! refused: [`sum`] the sums of all pairs of positions, [`negative`] the negatives of all positions,
//! [`multiple`] the sums of its steps. Inside a call games go by their places in the work's arena, and what
//! was made of them stands in a table. The work keeps each sum of two positions, and [`sum`] notes it on the
//! cell of the pair, too, for other works. The sum of 0 and a game is that game, which is charged as it is
//! known. The sum of two games that are known as a number, ups and a nimber is looked for among those that
//! are known so. Where both games are nimbers, all sums of their positions are, and each is charged by what
//! the first that is equal cost. The charge is the same.
#![tactic(auto)]

mod addition;
mod firsts;
mod item;
mod multiples;
mod negation;
mod nimber_sums;
mod pair;
mod rows;
mod sides;
mod terms;

pub use addition::sum;
pub use multiples::multiple;
pub use negation::negative;
