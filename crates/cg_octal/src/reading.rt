//! Reading the code of an octal game.
ghost use Rattle.std.specs.Prelude.{◌≡◌, ◌≤◌, ◌-◌, ◌++◌, IfOk, length, map};
ghost use Rattle.cg_octal.specs.Codes.{IsRead, digits_of};
ghost use Rattle.cg_octal.specs.Fitting.{fit_length, fits};

use crate::fault::OctalFault;
use crate::octal::Octal;
use std::alloc::{AllocError, Global};

/// The greatest heap.
const MOST: u128 = 1_000;

/// Whether the byte may stand at this place of a code, counted from 0.
fn fits(at: usize, byte: u8) -> bool
    ensures { result ≡ fits at byte }
{
    if at == 0 {
        byte == b'0'
    } else if at == 1 {
        byte == b'.'
    } else {
        at < 18 && b'0' <= byte && byte < b'8'
    }
}

/// The length of the longest front of the bytes that fits, from this place on.
fn fit_length(at: usize, bytes: &[u8]) -> usize
    requires { at ≤ 18 }
    ensures count { result ≡ fit_length at bytes.now }
    ensures within { result ≤ length bytes.now }
{
    match bytes.split_first() {
        None => 0,
        Some((byte, rest)) => {
            if fits(at, *byte) {
                1 + fit_length(at + 1, rest)
            } else {
                0
            }
        }
    }
}

/// Appends the digits that these bytes write.
fn with_digits(bytes: &[u8], found: Vec<u8>) -> Result<Vec<u8>, AllocError>
    ensures { IfOk result (λ all. all.items ≡ found.items ++ map (λ b. b - 48) bytes.now) }
{
    match bytes.split_first() {
        None => Ok(found),
        Some((byte, rest)) => {
            let mut more = found;
            more.push(byte.saturating_sub(b'0'))?;
            with_digits(rest, more)
        }
    }
}

/// Reads a code, `0.` and 1 to 16 digits from 0 to 7, and a heap of it.
///
/// `Code` has 1 plus the length of the text's longest prefix that begins a code. A text that is no code is reported
/// before a heap of more than 1,000 tokens.
pub fn read(alloc: Global, code: &[u8], heap: u128) -> Result<Octal, OctalFault>
    ensures read { IsRead code.now heap result }
    ensures digits { IfOk result (λ octal. octal.digits ≡ digits_of code.now) }
{
    let length = fit_length(0, code);
    if length < 3 || length < code.len() {
        return Err(OctalFault::Code(length as u64 + 1));
    }
    if heap > MOST {
        return Err(OctalFault::Heap);
    }
    let digits = with_digits(&code[2..], Vec::new(alloc))?;
    Ok(Octal::of(digits, heap as u64))
}
