//! Named games, and the names of games.
//!
//! [`nimber`], [`ups`], [`switch`] and [`tiny`] make the games that have names of their own, on handles of a work,
//! with exact costs: the items of each are the positions of its form, as the textbook writes it, in order. [`name`]
//! writes the name of a game. The functions of [`laws`] do nothing; their contracts say that those forms are
//! canonical, and what their positions are.
#![tactic(auto)]

mod arrows;
pub mod laws;
mod look;
mod look_arrows;
mod look_pairs;
mod look_star;
mod making;
mod memo;
mod named_form;
mod naming;
mod nimbers;
mod numbers;
mod pairs;
mod shape;

pub use arrows::ups;
pub use named_form::NamedForm;
pub use naming::{name, named};
pub use nimbers::nimber;
pub use pairs::{switch, tiny};
