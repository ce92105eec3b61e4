//! Reading a line from its front, piece by piece.
//!
//! A grammar is written with the combinators of `specs/Pieces`, and its reader with those of
//! `specs/Readers`. For each combinator `proofs/` has the laws from which follows, for any grammar
//! that is told apart byte by byte, that no line is read in two ways, and that reading a line which
//! isn't in the grammar stops exactly at the first byte that no line of the grammar has there.
//!
//! The functions here read the tokens that any line may have.
#![tactic(auto)]

mod fault;
mod tokens;

pub use fault::ReadFault;
pub use tokens::{
    after_all, after_blanks, after_byte, after_gap, after_word, digits, few_digits, is_blank,
    is_byte, is_digit, word_of,
};
