//! Numbers, switches, tiny and miny, and texts.
ghost use Rattle.std.specs.Prelude.{◌≡◌, ◌<◌, ◌≤◌, length, IfOk, ℕ};
ghost use Rattle.cg_reading.specs.Bytes.{has};
ghost use Rattle.cg_reading.specs.Gives.{Gives};
ghost use Rattle.cg_reading.specs.Readers.{skipped};
ghost use Rattle.cg_grammar.specs.Grammar.{printable};
ghost use Rattle.cg_grammar.specs.OperandReading.{over_at, number_at, switch_at, printable_at, string_at};
ghost use Rattle.cg_grammar.specs.OperandReading.{Of_tiny, behind_named_at, enclosed_number_at};
ghost use Rattle.cg_reader.specs.Views.{found_of};

use crate::found::Found;
use cg_query::{Expr, Text};
use cg_reading::{ReadFault, after_blanks, after_byte, digits, is_byte};
use std::alloc::Global;

/// A denominator behind a slash, or 1.
#[tactic(auto, unfolding(cg_grammar::specs::OperandReading::over_at))]
fn over(bytes: &[u8]) -> Result<(u128, &[u8]), ReadFault>
    ensures read { (end : ℕ) → Gives (λ x. (x.0, x.1.now)) result (over_at end bytes.now) }
    ensures shorter { IfOk result (λ x. length x.1.now ≤ length bytes.now) }
{
    match bytes.split_first() {
        Some((first, rest)) if is_byte(b'/', *first) => digits(rest),
        _ => Ok((1, bytes)),
    }
}

/// A number, by its numerator and denominator.
#[tactic(auto, unfolding(cg_grammar::specs::OperandReading::number_at))]
fn number(bytes: &[u8]) -> Result<((u128, u128), &[u8]), ReadFault>
    ensures read { (end : ℕ) → Gives (λ x. (x.0, x.1.now)) result (number_at end bytes.now) }
    ensures shorter { IfOk result (λ x. length x.1.now < length bytes.now) }
{
    let (num, rest) = digits(bytes)?;
    let (den, rest) = over(rest)?;
    Ok(((num, den), rest))
}

/// A switch.
#[tactic(auto, using(cg_query::proofs::TreeOf::switch_tree), unfolding(cg_grammar::specs::OperandReading::switch_at))]
pub fn switch(bytes: &[u8]) -> Result<(Found, &[u8]), ReadFault>
    ensures read { (end : ℕ) → Gives (λ x. (found_of x.0, x.1.now)) result
        (switch_at end bytes.now) }
    ensures shorter { IfOk result (λ x. length x.1.now < length bytes.now) }
{
    let rest = after_byte(b'+', bytes)?;
    let rest = after_byte(b'-', rest)?;
    let ((num, den), rest) = number(rest)?;
    let expr = Expr::Switch { num, den };
    Ok((Found { expr, fault: None }, rest))
}

/// Whether the byte may stand between quotation marks.
fn is_printable(byte: u8) -> bool
    ensures { result ≡ has printable byte }
{
    (b' ' <= byte && byte <= b'!') || (b'#' <= byte && byte <= b'~')
}

/// What is left behind all bytes in front that may stand between quotation marks.
fn after_printable(bytes: &[u8]) -> &[u8]
    ensures rest { result.now ≡ skipped printable bytes.now }
    ensures shorter { length result.now ≤ length bytes.now }
{
    let mut rest = bytes;
    while let Some((first, after)) = rest.split_first() {
        if !is_printable(*first) {
            break;
        }
        rest = after;
    }
    rest
}

/// All bytes in front that may stand between quotation marks.
#[tactic(auto, using(cg_reading::proofs::Skip::taken_length, cg_reading::proofs::Skip::taken_take), unfolding(cg_grammar::specs::OperandReading::printable_at))]
fn text(alloc: Global, bytes: &[u8]) -> Result<(Text, &[u8]), ReadFault>
    ensures read { (end : ℕ) → Gives (λ x. (x.0, x.1.now)) result (printable_at end bytes.now) }
    ensures shorter { IfOk result (λ x. length x.1.now ≤ length bytes.now) }
{
    let rest = after_printable(bytes);
    let text = bytes[..bytes.len() - rest.len()].to_vec(alloc)?;
    Ok((Text::of(text), rest))
}

/// A text between quotation marks.
#[tactic(auto, unfolding(cg_grammar::specs::OperandReading::string_at))]
pub fn string(alloc: Global, bytes: &[u8]) -> Result<(Text, &[u8]), ReadFault>
    ensures read { (end : ℕ) → Gives (λ x. (x.0, x.1.now)) result (string_at end bytes.now) }
    ensures shorter { IfOk result (λ x. length x.1.now < length bytes.now) }
{
    let rest = after_byte(b'"', bytes)?;
    let (text, rest) = text(alloc, rest)?;
    let rest = after_byte(b'"', rest)?;
    Ok((text, rest))
}

/// A number between parentheses.
#[tactic(auto, unfolding(cg_grammar::specs::OperandReading::enclosed_number_at))]
fn enclosed_number(bytes: &[u8]) -> Result<((u128, u128), &[u8]), ReadFault>
    ensures read { (end : ℕ) → Gives (λ x. (x.0, x.1.now)) result
        (enclosed_number_at end bytes.now) }
    ensures shorter { IfOk result (λ x. length x.1.now < length bytes.now) }
{
    let rest = after_byte(b'(', bytes)?;
    let (number, rest) = number(after_blanks(rest))?;
    let rest = after_byte(b')', after_blanks(rest))?;
    Ok((number, rest))
}

/// The number of tiny or miny, between parentheses.
#[tactic(auto, using(cg_query::proofs::TreeOf::tiny_tree))]
pub fn tiny(miny: bool, bytes: &[u8]) -> Result<(Found, &[u8]), ReadFault>
    ensures read { (end : ℕ) → Gives (λ x. (found_of x.0, x.1.now)) result
        (behind_named_at (Of_tiny miny) end bytes.now) }
    ensures shorter { IfOk result (λ x. length x.1.now < length bytes.now) }
{
    let ((num, den), rest) = enclosed_number(bytes)?;
    let expr = Expr::Tiny { miny, num, den };
    Ok((Found { expr, fault: None }, rest))
}
