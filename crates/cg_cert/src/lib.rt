//! Certificates of the order of two games: texts that prove that one game is at least another, move by move.
//!
//! To prove that G is at least H, each of Right's moves in G - H needs an answer of Left's. A certificate is such an
//! answer for each of them, with a certificate of what it leads to. [`prove`] writes one, or Right's move that wins and
//! the certificate of that; [`check`] tells whether a text is one.
#![tactic(auto)]

mod checking;
mod choice;
mod fault;
pub mod laws;
mod place;
mod position;
mod proving;
mod stage;
mod text;
mod token;

pub use checking::check;
pub use fault::CertFault;
pub use proving::prove;
