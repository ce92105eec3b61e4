//! The mark of format 2.
ghost use Rattle.std.specs.Prelude.{◌≡◌, ◌∷◌, ◌++◌, ℕ, List, MatchOption, codes};
ghost use Rattle.cg_syntax.specs.Session.{format_of, is_mark, trimmed};
ghost use Rattle.cg_syntax.specs.SessionLines.{lines_of};
ghost use Rattle.cg_query.specs.declared.format.Format.TheVariants as formats;

use crate::session_lines::first_line;
use cg_reading::{after_blanks, is_blank};

/// What stands behind the first line, where that is the mark of format 2.
pub fn behind_mark(text: &[u8]) -> Option<&[u8]>
    ensures { MatchOption result (format_of text.now ≡ formats.One) (λ rest. (line : List ℕ)
        × (lines_of text.now ≡ line ∷ lines_of rest.now) × (format_of text.now ≡ formats.Two)) }
{
    if text.is_empty() {
        return None;
    }
    let (line, rest) = first_line(text);
    if is_mark(line) { Some(rest) } else { None }
}

/// Whether the line, without the blanks at both ends, is the mark of format 2.
fn is_mark(line: &[u8]) -> bool
    ensures { result ≡ is_mark line.now }
{
    trimmed(line) == b"cg 2".as_slice()
}

/// The line without the blanks at both ends.
fn trimmed(line: &[u8]) -> &[u8]
    ensures { result.now ≡ trimmed line.now }
{
    let mut rest = after_blanks(line);
    while let Some((last, before)) = rest.split_last() {
        if !is_blank(*last) {
            break;
        }
        rest = before;
    }
    rest
}
