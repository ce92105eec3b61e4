//! Writing what has no expression inside it: each function puts its text at the end.
ghost use Rattle.std.specs.Prelude.{◌≡◌, ◌++◌, ◌∷◌, [], cond, codes, decimal, replicate, OnOk};
ghost use Rattle.cg_grammar.specs.Written.{fraction_text, kind_text, quoted, texts_of_game, two_quoted, ups_text};

use cg_query::{GameKind, Text};
use std::alloc::{AllocError, Global};

/// The least number with more than thirty digits.
const THIRTY_DIGITS: u128 = 1_000_000_000_000_000_000_000_000_000_000;

/// The number in base ten.
pub fn push_count(alloc: Global, text: &mut Vec<u8>, count: u128) -> Result<(), AllocError>
    ensures { OnOk result (text.new.items ≡ text.old.items ++ decimal count) }
{
    let digits = count.to_string(alloc)?;
    text.extend_from_slice(digits.as_bytes())
}

/// A byte, and a number behind it.
pub fn push_after(
    alloc: Global,
    text: &mut Vec<u8>,
    sign: u8,
    count: u128,
) -> Result<(), AllocError>
    ensures { OnOk result (text.new.items ≡ text.old.items ++ (sign ∷ decimal count)) }
{
    text.push(sign)?;
    push_count(alloc, text, count)
}

/// Arrows with their count, or as a run where the count has more than thirty digits.
pub fn push_ups(
    alloc: Global,
    text: &mut Vec<u8>,
    down: bool,
    count: u128,
) -> Result<(), AllocError>
    ensures { OnOk result (text.new.items ≡ text.old.items ++ ups_text (cond down 118 94) count) }
{
    let arrow = arrow(down);
    if count < THIRTY_DIGITS {
        push_after(alloc, text, arrow, count)
    } else {
        push_run(text, arrow, count)
    }
}

fn arrow(down: bool) -> u8
    ensures { result ≡ cond down 118 94 }
{
    if down { b'v' } else { b'^' }
}

/// So many of the byte.
#[tactic(auto, using(crate::proofs::WrittenSteps::run_next))]
fn push_run(text: &mut Vec<u8>, byte: u8, count: u128) -> Result<(), AllocError>
    ensures { OnOk result (text.new.items ≡ text.old.items ++ replicate count byte) }
{
    for _written in 0..count {
        text.push(byte)?;
    }
    Ok(())
}

/// A numerator and a denominator.
pub fn push_fraction(
    alloc: Global,
    text: &mut Vec<u8>,
    num: u128,
    den: u128,
) -> Result<(), AllocError>
    ensures { OnOk result (text.new.items ≡ text.old.items ++ fraction_text num den) }
{
    push_count(alloc, text, num)?;
    push_after(alloc, text, b'/', den)
}

/// A number, with its minus.
pub fn push_number(
    alloc: Global,
    text: &mut Vec<u8>,
    negative: bool,
    num: u128,
    den: u128,
) -> Result<(), AllocError>
    ensures { OnOk result (text.new.items
        ≡ text.old.items ++ (cond negative (codes "-") [] ++ fraction_text num den)) }
{
    if negative {
        text.push(b'-')?;
    }
    push_fraction(alloc, text, num, den)
}

/// A switch.
pub fn push_switch(
    alloc: Global,
    text: &mut Vec<u8>,
    num: u128,
    den: u128,
) -> Result<(), AllocError>
    ensures { OnOk result (text.new.items ≡ text.old.items ++ (codes "+-" ++ fraction_text num den)) }
{
    text.extend_from_slice(b"+-")?;
    push_fraction(alloc, text, num, den)
}

/// Tiny or miny.
pub fn push_tiny(
    alloc: Global,
    text: &mut Vec<u8>,
    miny: bool,
    num: u128,
    den: u128,
) -> Result<(), AllocError>
    ensures { OnOk result (text.new.items ≡ text.old.items
        ++ (cond miny (codes "Miny(") (codes "Tiny(") ++ (fraction_text num den ++ codes ")"))) }
{
    push_tiny_word(text, miny)?;
    push_fraction(alloc, text, num, den)?;
    text.push(b')')?;
    Ok(())
}

/// The word of tiny or miny, with its parenthesis.
fn push_tiny_word(text: &mut Vec<u8>, miny: bool) -> Result<(), AllocError>
    ensures { OnOk result (text.new.items ≡ text.old.items ++ cond miny (codes "Miny(") (codes "Tiny(")) }
{
    if miny {
        text.extend_from_slice(b"Miny(")
    } else {
        text.extend_from_slice(b"Tiny(")
    }
}

/// A board.
pub fn push_game(
    text: &mut Vec<u8>,
    kind: GameKind,
    rules: &Text,
    board: &Text,
) -> Result<(), AllocError>
    ensures { OnOk result (text.new.items ≡ text.old.items
        ++ (kind_text kind ++ (40 ∷ (texts_of_game kind rules.now board.now ++ (41 ∷ []))))) }
{
    push_kind(text, kind)?;
    text.push(b'(')?;
    push_texts(text, kind, rules, board)?;
    text.push(b')')?;
    Ok(())
}

/// A heap of an octal game.
pub fn push_octal(
    alloc: Global,
    text: &mut Vec<u8>,
    code: &Text,
    heap: u128,
) -> Result<(), AllocError>
    ensures { OnOk result (text.new.items ≡ text.old.items
        ++ (codes "Octal(" ++ ((quoted code.now ++ (44 ∷ decimal heap)) ++ (41 ∷ [])))) }
{
    text.extend_from_slice(b"Octal(")?;
    push_quoted(text, code)?;
    push_after(alloc, text, b',', heap)?;
    text.push(b')')?;
    Ok(())
}

fn push_kind(text: &mut Vec<u8>, kind: GameKind) -> Result<(), AllocError>
    ensures { OnOk result (text.new.items ≡ text.old.items ++ kind_text kind) }
{
    match kind {
        GameKind::Domineering => text.extend_from_slice(b"Domineering"),
        GameKind::Clobber => text.extend_from_slice(b"Clobber"),
        GameKind::Amazons => text.extend_from_slice(b"Amazons"),
        GameKind::Toads => text.extend_from_slice(b"Toads"),
        GameKind::Strip => text.extend_from_slice(b"Strip"),
        GameKind::Hackenbush => text.extend_from_slice(b"Hackenbush"),
        GameKind::Col => text.extend_from_slice(b"Col"),
        GameKind::Snort => text.extend_from_slice(b"Snort"),
    }
}

/// What stands between the parentheses of a board.
fn push_texts(
    text: &mut Vec<u8>,
    kind: GameKind,
    rules: &Text,
    board: &Text,
) -> Result<(), AllocError>
    ensures { OnOk result (text.new.items ≡ text.old.items ++ texts_of_game kind rules.now board.now) }
{
    match kind {
        GameKind::Hackenbush => push_quoted(text, rules),
        GameKind::Strip => push_two(text, rules, board),
        GameKind::Col | GameKind::Snort => push_two(text, board, rules),
        GameKind::Domineering | GameKind::Clobber => push_quoted(text, board),
        GameKind::Amazons | GameKind::Toads => push_quoted(text, board),
    }
}

/// Two texts between quotation marks, with a comma between them.
fn push_two(text: &mut Vec<u8>, first: &Text, second: &Text) -> Result<(), AllocError>
    ensures { OnOk result (text.new.items ≡ text.old.items ++ two_quoted first.now second.now) }
{
    push_quoted(text, first)?;
    text.push(b',')?;
    push_quoted(text, second)
}

/// A text between quotation marks.
pub fn push_quoted(text: &mut Vec<u8>, string: &Text) -> Result<(), AllocError>
    ensures { OnOk result (text.new.items ≡ text.old.items ++ quoted string.now) }
{
    text.push(b'"')?;
    text.extend_from_slice(string.as_slice())?;
    text.push(b'"')?;
    Ok(())
}

/// A name.
pub fn push_name(text: &mut Vec<u8>, name: &Text) -> Result<(), AllocError>
    ensures { OnOk result (text.new.items ≡ text.old.items ++ name.now) }
{
    text.extend_from_slice(name.as_slice())?;
    Ok(())
}
