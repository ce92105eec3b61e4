//! Blanks, single bytes, words and digits: each function reads one of them from the front of the
//! bytes, and gives what is left behind it.
ghost use Rattle.std.specs.Prelude.{◌≡◌, ◌≢◌, ◌<◌, ◌≤◌, ◌^◌, length, IfErr, IfOk, IsTrue, ℕ};
ghost use Rattle.cg_reading.specs.Bytes.{has};
ghost use Rattle.cg_reading.specs.Tokens.{blank, digit, only};
ghost use Rattle.cg_reading.specs.Readers.{skipped};
ghost use Rattle.cg_reading.specs.TokenReaders.{byte_at, digits_at, few_digits_at, gap_at, this_word_at};
ghost use Rattle.cg_reading.specs.Words.{among_at, words_of};
ghost use Rattle.cg_reading.specs.Gives.{Gives};

use crate::fault::ReadFault;

/// What is left behind all blanks in front.
pub fn after_blanks(bytes: &[u8]) -> &[u8]
    ensures rest { result.now ≡ skipped blank bytes.now }
    ensures shorter { length result.now ≤ length bytes.now }
{
    let mut rest = bytes;
    while let Some((first, after)) = rest.split_first() {
        if !is_blank(*first) {
            break;
        }
        rest = after;
    }
    rest
}

/// What is left behind all bytes in front that are this one.
pub fn after_all(byte: u8, bytes: &[u8]) -> &[u8]
    ensures rest { result.now ≡ skipped (only byte) bytes.now }
    ensures shorter { length result.now ≤ length bytes.now }
{
    let mut rest = bytes;
    while let Some((first, after)) = rest.split_first() {
        if !is_byte(byte, *first) {
            break;
        }
        rest = after;
    }
    rest
}

/// Whether the byte is a space, a tab or a CR.
pub fn is_blank(byte: u8) -> bool
    ensures { result ≡ has blank byte }
{
    byte == b' ' || byte == b'\t' || byte == b'\r'
}

/// Whether the byte is a decimal digit.
pub fn is_digit(byte: u8) -> bool
    ensures test { result ≡ has digit byte }
    ensures range { IsTrue result → (48 ≤ byte) × (byte ≤ 57) }
{
    b'0' <= byte && byte <= b'9'
}

/// Whether the other byte is this one.
pub fn is_byte(byte: u8, other: u8) -> bool
    ensures { result ≡ has (only byte) other }
{
    byte == other
}

/// What is left behind this byte.
#[tactic(auto, unfolding(crate::specs::TokenReaders::byte_at))]
pub fn after_byte(byte: u8, bytes: &[u8]) -> Result<&[u8], ReadFault>
    ensures read { (end : ℕ) → Gives (λ x. (byte, x.now)) result (byte_at byte end bytes.now) }
    ensures shorter { IfOk result (λ x. length x.now < length bytes.now) }
    ensures no_memory { IfErr result (λ fault. fault ≢ ReadFault.Memory) }
{
    let Some((first, rest)) = bytes.split_first() else {
        return Err(ReadFault::Stuck(0));
    };
    if !is_byte(byte, *first) {
        return Err(ReadFault::Stuck(bytes.len()));
    }
    Ok(rest)
}

/// What is left behind this word.
#[tactic(auto, unfolding(crate::specs::TokenReaders::this_word_at))]
pub fn after_word<'a>(word: &[u8], bytes: &'a [u8]) -> Result<&'a [u8], ReadFault>
    ensures read { (end : ℕ) → Gives (λ x. (tt {0}, x.now)) result
        (this_word_at word.now end bytes.now) }
    ensures shorter { IfOk result (λ x. length x.now ≤ length bytes.now) }
    ensures no_memory { IfErr result (λ fault. fault ≢ ReadFault.Memory) }
{
    let mut rest = bytes;
    for want in word {
        let Some((first, after)) = rest.split_first() else {
            return Err(ReadFault::Stuck(0));
        };
        if *first != *want {
            return Err(ReadFault::Stuck(rest.len()));
        }
        rest = after;
    }
    Ok(rest)
}

/// The value of the word of the table that stands in front, and what is left behind the word.
///
/// Where no word of the table stands there, reading stops behind the longest front that the bytes have of one.
pub fn word_of<'a, T: Copy>(
    table: &[(&[u8], T)],
    bytes: &'a [u8],
) -> Result<(T, &'a [u8]), ReadFault>
    ensures read { (end : ℕ) → Gives (λ x. (x.0, x.1.now)) result
        (among_at (words_of table.now) end bytes.now) }
    ensures shorter { IfOk result (λ x. length x.1.now ≤ length bytes.now) }
    ensures no_memory { IfErr result (λ fault. fault ≢ ReadFault.Memory) }
{
    let mut left = bytes.len();
    for entry in table {
        match after_word(entry.0, bytes) {
            Ok(rest) => return Ok((entry.1, rest)),
            Err(ReadFault::Stuck(here)) => left = left.min(here),
            Err(fault) => return Err(fault),
        }
    }
    Err(ReadFault::Stuck(left))
}

/// What is left behind all blanks in front, of which there is at least one.
#[tactic(auto, unfolding(crate::specs::TokenReaders::gap_at))]
pub fn after_gap(bytes: &[u8]) -> Result<&[u8], ReadFault>
    ensures read { (end : ℕ) → Gives (λ x. (tt {0}, x.now)) result (gap_at end bytes.now) }
    ensures shorter { IfOk result (λ x. length x.now ≤ length bytes.now) }
    ensures no_memory { IfErr result (λ fault. fault ≢ ReadFault.Memory) }
{
    let Some((first, rest)) = bytes.split_first() else {
        return Err(ReadFault::Stuck(0));
    };
    if !is_blank(*first) {
        return Err(ReadFault::Stuck(bytes.len()));
    }
    Ok(after_blanks(rest))
}

/// The number that all digits in front spell, one to thirty of them.
pub fn digits(bytes: &[u8]) -> Result<(u128, &[u8]), ReadFault>
    ensures read { (end : ℕ) → Gives (λ x. (x.0, x.1.now)) result (digits_at end bytes.now) }
    ensures below { IfOk result (λ x. x.0 < 10 ^ 30) }
    ensures shorter { IfOk result (λ x. length x.1.now < length bytes.now) }
    ensures no_memory { IfErr result (λ fault. fault ≢ ReadFault.Memory) }
{
    few_digits(30, bytes)
}

/// The number that all digits in front spell, of which there are one to so many.
#[tactic(auto, unfolding(crate::specs::TokenReaders::few_digits_at))]
pub fn few_digits(most: u8, bytes: &[u8]) -> Result<(u128, &[u8]), ReadFault>
    requires some { 1 ≤ most }
    requires fits { most ≤ 30 }
    ensures read { (end : ℕ) → Gives (λ x. (x.0, x.1.now)) result (few_digits_at most end bytes.now) }
    ensures below { IfOk result (λ x. x.0 < 10 ^ most) }
    ensures shorter { IfOk result (λ x. length x.1.now < length bytes.now) }
    ensures no_memory { IfErr result (λ fault. fault ≢ ReadFault.Memory) }
{
    let Some((first, after)) = bytes.split_first() else {
        return Err(ReadFault::Stuck(0));
    };
    if !is_digit(*first) {
        return Err(ReadFault::Stuck(bytes.len()));
    }
    let mut value = u128::from(*first - b'0');
    let mut room = most - 1;
    let mut rest = after;
    while let Some((digit, after)) = rest.split_first() {
        if !is_digit(*digit) {
            break;
        }
        if room == 0 {
            return Err(ReadFault::Stuck(rest.len()));
        }
        value = value * 10 + u128::from(*digit - b'0');
        room -= 1;
        rest = after;
    }
    Ok((value, rest))
}
