//! Names and their uses.
ghost use Rattle.std.specs.Prelude.{◌≡◌, ◌<◌, ◌≤◌, ◌∷◌, [], length, IfOk, ℕ};
ghost use Rattle.std.specs.Str.{bytes_eq};
ghost use Rattle.cg_reading.specs.Bytes.{has};
ghost use Rattle.cg_reading.specs.Gives.{Gives};
ghost use Rattle.cg_reading.specs.Readers.{most_skipped};
ghost use Rattle.cg_grammar.specs.Grammar.{letter, is_free};
ghost use Rattle.cg_grammar.specs.OperandReading.{lettered_at, name_at, use_at};
ghost use Rattle.cg_grammar.specs.Values.{letter_or_digit};
ghost use Rattle.cg_reader.specs.Views.{found_of};

use crate::found::Found;
use crate::questions::{Kind, kind_of};
use cg_query::{Expr, Text};
use cg_reading::{ReadFault, is_digit};
use std::alloc::Global;

/// Whether a name may begin with the byte.
pub fn is_letter(byte: u8) -> bool
    ensures { result ≡ has letter byte }
{
    (b'a' <= byte && byte <= b'u') || (b'w' <= byte && byte <= b'z')
}

/// Whether the byte is one of the letters from a to z.
pub fn is_small_letter(byte: u8) -> bool
    ensures { result ≡ has ((97, 122) ∷ []) byte }
{
    b'a' <= byte && byte <= b'z'
}

/// Whether a name may go on with the byte.
fn is_letter_or_digit(byte: u8) -> bool
    ensures { result ≡ has letter_or_digit byte }
{
    (b'a' <= byte && byte <= b'z') || is_digit(byte)
}

/// What is left behind all letters and digits in front, so many of them at most.
fn after_letters(most: u8, bytes: &[u8]) -> &[u8]
    ensures rest { result.now ≡ most_skipped letter_or_digit most bytes.now }
    ensures shorter { length result.now ≤ length bytes.now }
{
    let mut room = most;
    let mut rest = bytes;
    while let Some((first, after)) = rest.split_first() {
        if room == 0 || !is_letter_or_digit(*first) {
            break;
        }
        room -= 1;
        rest = after;
    }
    rest
}

/// All letters and digits in front, sixteen at most, the first of which is a letter.
#[tactic(auto, unfolding(cg_grammar::specs::OperandReading::lettered_at))]
pub fn lettered(bytes: &[u8]) -> Result<(&[u8], &[u8]), ReadFault>
    ensures read { (end : ℕ) → Gives (λ x. (x.0.now, x.1.now)) result (lettered_at end bytes.now) }
    ensures shorter { IfOk result (λ x. length x.1.now < length bytes.now) }
{
    let Some((first, behind)) = bytes.split_first() else {
        return Err(ReadFault::Stuck(0));
    };
    if !is_letter(*first) {
        return Err(ReadFault::Stuck(bytes.len()));
    }
    let rest = after_letters(15, behind);
    Ok((&bytes[..bytes.len() - rest.len()], rest))
}

/// Whether the word is this one.
pub fn is_word(word: &[u8], other: &[u8]) -> bool
    ensures { result ≡ bytes_eq word.now other.now }
{
    word == other
}

/// Whether the word may be a name: it is no word of a question.
#[tactic(auto, using(crate::proofs::Free::name_is))]
fn is_free(word: &[u8]) -> bool
    ensures { result ≡ is_free word.now }
{
    match kind_of(word) {
        Kind::Name => true,
        _ => false,
    }
}

/// A name.
#[tactic(auto, unfolding(cg_grammar::specs::OperandReading::name_at))]
fn name(bytes: &[u8]) -> Result<(&[u8], &[u8]), ReadFault>
    ensures read { (end : ℕ) → Gives (λ x. (x.0.now, x.1.now)) result (name_at end bytes.now) }
    ensures shorter { IfOk result (λ x. length x.1.now < length bytes.now) }
{
    let (word, rest) = lettered(bytes)?;
    if is_free(word) {
        Ok((word, rest))
    } else {
        Err(ReadFault::Stuck(rest.len()))
    }
}

/// A use of a name.
#[inline(never)]
#[tactic(auto, using(cg_query::proofs::TreeOf::used_tree), unfolding(cg_grammar::specs::OperandReading::use_at))]
pub fn use_of_name(alloc: Global, line_end: u64, bytes: &[u8]) -> Result<(Found, &[u8]), ReadFault>
    requires { length bytes.now ≤ line_end }
    ensures read { Gives (λ x. (found_of x.0, x.1.now)) result (use_at line_end bytes.now) }
    ensures shorter { IfOk result (λ x. length x.1.now < length bytes.now) }
{
    let (word, rest) = name(bytes)?;
    let text = Text::of(word.to_vec(alloc)?);
    let column = line_end - bytes.len() as u64;
    let expr = Expr::Name { text, column };
    Ok((Found { expr, fault: None }, rest))
}
