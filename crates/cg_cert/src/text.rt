//! Putting pieces behind a text that may not grow above a limit.
ghost use Rattle.std.specs.Prelude.{◌≡◌, ◌≤◌, cond, codes, length, string_bytes};
ghost use Rattle.cg_cert.specs.Written.{Wrote};

use crate::fault::CertFault;

/// Puts the piece behind the text, unless that would bring it above the limit: then the fault is `Long`.
pub(crate) fn put(text: &mut String, limit: usize, piece: &str) -> Result<(), CertFault>
    requires { length (string_bytes text.old) ≤ limit }
    ensures { Wrote result limit (string_bytes text.old) (string_bytes text.new) piece.now }
{
    if piece.len() > limit - text.len() {
        return Err(CertFault::Long);
    }
    text.push_str(piece)?;
    Ok(())
}

/// The letter of an answer of Left's in the first game or in the second, or of a move of Right's.
pub(crate) fn letter(left: bool, is_first: bool) -> &'static str
    ensures { result.now ≡ cond left (cond is_first (codes "g") (codes "h")) (cond is_first (codes "r") (codes "l")) }
{
    if left {
        if is_first { "g" } else { "h" }
    } else if is_first {
        "r"
    } else {
        "l"
    }
}
