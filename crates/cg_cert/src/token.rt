//! The bytes of which the text of a certificate is made.
ghost use Rattle.std.specs.Prelude.{◌≡◌, ◌≤◌, IfSome, drop, length, option_map, take_while};
ghost use Rattle.cg_cert.specs.Reads.{IsByte, IsLetter, Reads, is_digit};

/// The letter of an answer, and the place behind it.
#[derive(Clone, Copy, Debug, PartialEq, Eq)]
pub(crate) struct Letter {
    /// Whether it is that of an answer in the first game.
    pub is_first: bool,
    /// The place behind it.
    pub end: usize,
}

/// The place behind the byte, where it stands at this place.
pub(crate) fn after(bytes: &[u8], at: usize, byte: u8) -> Option<usize>
    ensures reads { Reads (IsByte byte) (drop at bytes.now) (option_map (λ end. drop end bytes.now) result) }
    ensures within { IfSome result (λ end. end ≤ length bytes.now) }
{
    if at < bytes.len() && bytes[at] == byte {
        Some(at + 1)
    } else {
        None
    }
}

/// The letter that stands at this place.
pub(crate) fn letter_at(bytes: &[u8], at: usize) -> Option<Letter>
    ensures letter { IsLetter bytes.now (drop at bytes.now) result }
    ensures within { IfSome result (λ letter. letter.end ≤ length bytes.now) }
{
    match after(bytes, at, b'g') {
        Some(end) => Some(Letter {
            is_first: true,
            end,
        }),
        None => match after(bytes, at, b'h') {
            Some(end) => Some(Letter {
                is_first: false,
                end,
            }),
            None => None,
        },
    }
}

fn is_digit(byte: u8) -> bool
    ensures { result ≡ is_digit byte }
{
    b'0' <= byte && byte <= b'9'
}

/// The digits in front.
pub(crate) fn digits_front(bytes: &[u8]) -> &[u8]
    ensures { result.now ≡ take_while is_digit bytes.now }
{
    let count = bytes.iter().take_while(|byte| is_digit(**byte)).count();
    &bytes[..count]
}
