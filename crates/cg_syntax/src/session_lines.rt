//! The lines of a session.
ghost use Rattle.std.specs.Prelude.{◌≡◌, ◌≢◌, ◌∷◌, ◌<◌, ◌≤◌, ℕ, List, length, slice_index};
ghost use Rattle.cg_syntax.specs.SessionLines.{lines_of, is_answered};

use cg_reading::after_blanks;
use memchr::memchr_iter;

/// The first line of a text that isn't empty, and what follows its LF.
#[inline(always)]
pub fn first_line(text: &[u8]) -> (&[u8], &[u8])
    requires { 0 < length text.now }
    ensures lines { lines_of text.now ≡ result.0.now ∷ lines_of result.1.now }
    ensures shorter { length result.1.now < length text.now }
{
    let end = line_length(text);
    if end < text.len() {
        (&text[..end], &text[end + 1..])
    } else {
        (text, &text[text.len()..])
    }
}

/// How many bytes stand before the first LF, or in all. This is the one place that searches, so that the search is
/// inlined here alone.
#[inline(never)]
fn line_length(text: &[u8]) -> usize
    ensures within { result ≤ length text.now }
    ensures before { (k : ℕ) → k < result → slice_index text.now k ≢ 10 }
    ensures found { result < length text.now → slice_index text.now result ≡ 10 }
{
    match memchr_iter(b'\n', text).next() {
        Some(end) => end,
        None => text.len(),
    }
}

/// Whether the first line of a text gets an answer, which is mostly told by its first byte.
#[inline(always)]
pub fn is_first_answered(text: &[u8], line: &[u8]) -> bool
    requires { (lines : List (List ℕ)) × (lines_of text.now ≡ line.now ∷ lines) }
    ensures { result ≡ is_answered line.now }
{
    match text.split_first() {
        Some((b'#', _)) => false,
        _ => is_answered(line),
    }
}

/// Whether the line gets an answer: it is neither blank nor a comment.
#[inline(never)]
fn is_answered(line: &[u8]) -> bool
    ensures { result ≡ is_answered line.now }
{
    match after_blanks(line).split_first() {
        None => false,
        Some((first, _)) => *first != b'#',
    }
}
