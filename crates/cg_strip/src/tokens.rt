//! Numbers and symbols of a rules text: each function reads from the front of the bytes, and gives what is left behind.
ghost use Rattle.std.specs.Prelude.{◌≡◌, ◌<◌, ◌≤◌, ◌∷◌, length, IfOk, IsTrue, ℕ};
ghost use Rattle.cg_reading.specs.Bytes.{has};
ghost use Rattle.cg_reading.specs.Gives.{Gives};
ghost use Rattle.cg_reading.specs.Readers.{skipped};
ghost use Rattle.cg_strip.specs.Grammar.{symbol};
ghost use Rattle.cg_strip.specs.Reading.{letter, nat_at, numbers_at, weighing_at, symbols_at};

use cg_moves::Cells;
use cg_reading::{ReadFault, after_byte, few_digits};
use std::alloc::Global;

/// The number that all digits in front spell, one to three of them.
pub fn nat(bytes: &[u8]) -> Result<(u16, &[u8]), ReadFault>
    ensures read { (end : ℕ) → Gives (λ x. (x.0, x.1.now)) result (nat_at end bytes.now) }
    ensures shorter { IfOk result (λ x. length x.1.now < length bytes.now) }
{
    let (value, rest) = few_digits(3, bytes)?;
    Ok((value as u16, rest))
}

#[tactic(auto, unfolding(crate::specs::Reading::numbers_at))]
fn numbers(bytes: &[u8]) -> Result<((u16, u16, u16), &[u8]), ReadFault>
    ensures read { (end : ℕ) → Gives (λ x. ((x.0.0, (x.0.1, x.0.2)), x.1.now)) result
        (numbers_at end bytes.now) }
    ensures shorter { IfOk result (λ x. length x.1.now < length bytes.now) }
{
    let (base, rest) = nat(bytes)?;
    let rest = after_byte(b',', rest)?;
    let (left, rest) = nat(rest)?;
    let rest = after_byte(b',', rest)?;
    let (right, rest) = nat(rest)?;
    Ok(((base, left, right), rest))
}

/// What a symbol weighs: what stands behind it.
#[tactic(auto, unfolding(crate::specs::Reading::weighing_at))]
pub fn weighing(bytes: &[u8]) -> Result<((u16, u16, u16), &[u8]), ReadFault>
    ensures read { (end : ℕ) → Gives (λ x. ((x.0.0, (x.0.1, x.0.2)), x.1.now)) result
        (weighing_at end bytes.now) }
    ensures shorter { IfOk result (λ x. length x.1.now < length bytes.now) }
{
    let rest = after_byte(b'=', bytes)?;
    numbers(rest)
}

/// Whether the byte is a symbol of a strip game.
pub fn is_symbol(byte: u8) -> bool
    ensures { result ≡ has symbol byte }
{
    byte == b'.' || (b'A' <= byte && byte <= b'Z') || (b'a' <= byte && byte <= b'z')
}

/// Whether the byte is the letter of a player.
pub fn is_letter(byte: u8) -> bool
    ensures { result ≡ has letter byte }
{
    byte == b'L' || byte == b'R'
}

/// What is left behind all symbols in front.
fn after_symbols(bytes: &[u8]) -> &[u8]
    ensures rest { result.now ≡ skipped symbol bytes.now }
    ensures shorter { length result.now ≤ length bytes.now }
{
    let mut rest = bytes;
    while let Some((first, after)) = rest.split_first() {
        if !is_symbol(*first) {
            break;
        }
        rest = after;
    }
    rest
}

/// All symbols in front, of which there is at least one.
#[tactic(auto, using(crate::proofs::Texts::symbols_take), unfolding(crate::specs::Reading::symbols_at))]
pub fn symbols(alloc: Global, bytes: &[u8]) -> Result<(Cells, &[u8]), ReadFault>
    ensures read { (end : ℕ) → Gives (λ x. (x.0, x.1.now)) result (symbols_at end bytes.now) }
    ensures shorter { IfOk result (λ x. length x.1.now < length bytes.now) }
{
    let Some((first, after)) = bytes.split_first() else {
        return Err(ReadFault::Stuck(0));
    };
    if !is_symbol(*first) {
        return Err(ReadFault::Stuck(bytes.len()));
    }
    let rest = after_symbols(after);
    let symbols = bytes[..bytes.len() - rest.len()].to_vec(alloc)?;
    Ok((Cells::of(symbols), rest))
}
