//! Boards and heaps of octal games: with switches, tiny and miny the operands that hold no expression.
ghost use Rattle.std.specs.Prelude.{◌≡◌, ◌<◌, ◌≤◌, length, IfOk, ℕ};
ghost use Rattle.cg_reading.specs.Gives.{Gives};
ghost use Rattle.cg_grammar.specs.OperandReading.{enclosed_octal_at, enclosed_string_at, enclosed_strings_at};
ghost use Rattle.cg_grammar.specs.OperandReading.{string_and_digits_at, two_strings_at};
ghost use Rattle.cg_grammar.specs.OperandReading.{Of_octal, Of_one_text, Of_two_texts, behind_named_at};
ghost use Rattle.cg_grammar.specs.OperandReading.{named_at, named_word_at, plain_special_at};
ghost use Rattle.cg_query.specs.Tree.{game};
ghost use Rattle.cg_query.specs.Trees.{tree_of};
ghost use Rattle.cg_grammar.specs.Values.{one_text as tree_of_one, two_texts as tree_of_two};
ghost use Rattle.cg_reader.specs.Named.{named_view};
ghost use Rattle.cg_reader.specs.Views.{found_of};

use crate::found::Found;
use crate::named::{string, switch, tiny};
use cg_query::{Expr, GameKind, Text};
use cg_reading::{ReadFault, after_blanks, after_byte, digits, is_byte, word_of};
use std::alloc::Global;

/// What the word of an operand tells.
#[derive(Clone, Copy, Debug, PartialEq, Eq)]
enum Named {
    Tiny,
    Miny,
    OneText(GameKind),
    TwoTexts(GameKind),
    Octal,
}

/// The words that operands begin with.
const NAMED: [(&[u8], Named); 11] = [
    (b"Tiny", Named::Tiny),
    (b"Miny", Named::Miny),
    (b"Domineering", Named::OneText(GameKind::Domineering)),
    (b"Clobber", Named::OneText(GameKind::Clobber)),
    (b"Amazons", Named::OneText(GameKind::Amazons)),
    (b"Toads", Named::OneText(GameKind::Toads)),
    (b"Hackenbush", Named::OneText(GameKind::Hackenbush)),
    (b"Strip", Named::TwoTexts(GameKind::Strip)),
    (b"Col", Named::TwoTexts(GameKind::Col)),
    (b"Snort", Named::TwoTexts(GameKind::Snort)),
    (b"Octal", Named::Octal),
];

/// A text between quotation marks and parentheses.
#[tactic(auto, unfolding(cg_grammar::specs::OperandReading::enclosed_string_at))]
fn enclosed_string(alloc: Global, bytes: &[u8]) -> Result<(Text, &[u8]), ReadFault>
    ensures read { (end : ℕ) → Gives (λ x. (x.0, x.1.now)) result
        (enclosed_string_at end bytes.now) }
    ensures shorter { IfOk result (λ x. length x.1.now < length bytes.now) }
{
    let rest = after_byte(b'(', bytes)?;
    let (text, rest) = string(alloc, after_blanks(rest))?;
    let rest = after_byte(b')', after_blanks(rest))?;
    Ok((text, rest))
}

/// Two texts with a comma between them.
#[tactic(auto, unfolding(cg_grammar::specs::OperandReading::two_strings_at))]
fn two_strings(alloc: Global, bytes: &[u8]) -> Result<((Text, Text), &[u8]), ReadFault>
    ensures read { (end : ℕ) → Gives (λ x. (x.0, x.1.now)) result (two_strings_at end bytes.now) }
    ensures shorter { IfOk result (λ x. length x.1.now < length bytes.now) }
{
    let (first, rest) = string(alloc, bytes)?;
    let rest = after_byte(b',', after_blanks(rest))?;
    let (second, rest) = string(alloc, after_blanks(rest))?;
    Ok(((first, second), rest))
}

/// Two texts between parentheses.
#[tactic(auto, unfolding(cg_grammar::specs::OperandReading::enclosed_strings_at))]
fn enclosed_strings(alloc: Global, bytes: &[u8]) -> Result<((Text, Text), &[u8]), ReadFault>
    ensures read { (end : ℕ) → Gives (λ x. (x.0, x.1.now)) result
        (enclosed_strings_at end bytes.now) }
    ensures shorter { IfOk result (λ x. length x.1.now < length bytes.now) }
{
    let rest = after_byte(b'(', bytes)?;
    let (texts, rest) = two_strings(alloc, after_blanks(rest))?;
    let rest = after_byte(b')', after_blanks(rest))?;
    Ok((texts, rest))
}

/// A text and a number with a comma between them.
#[tactic(auto, unfolding(cg_grammar::specs::OperandReading::string_and_digits_at))]
fn string_and_digits(alloc: Global, bytes: &[u8]) -> Result<((Text, u128), &[u8]), ReadFault>
    ensures read { (end : ℕ) → Gives (λ x. (x.0, x.1.now)) result
        (string_and_digits_at end bytes.now) }
    ensures shorter { IfOk result (λ x. length x.1.now < length bytes.now) }
{
    let (text, rest) = string(alloc, bytes)?;
    let rest = after_byte(b',', after_blanks(rest))?;
    let (count, rest) = digits(after_blanks(rest))?;
    Ok(((text, count), rest))
}

/// A text and a number between parentheses.
#[tactic(auto, unfolding(cg_grammar::specs::OperandReading::enclosed_octal_at))]
fn enclosed_octal(alloc: Global, bytes: &[u8]) -> Result<((Text, u128), &[u8]), ReadFault>
    ensures read { (end : ℕ) → Gives (λ x. (x.0, x.1.now)) result
        (enclosed_octal_at end bytes.now) }
    ensures shorter { IfOk result (λ x. length x.1.now < length bytes.now) }
{
    let rest = after_byte(b'(', bytes)?;
    let (octal, rest) = string_and_digits(alloc, after_blanks(rest))?;
    let rest = after_byte(b')', after_blanks(rest))?;
    Ok((octal, rest))
}

/// The edges of Hackenbush, or the board of another game.
fn of_one_text(alloc: Global, kind: GameKind, text: Text) -> Expr
    ensures { tree_of result ≡ tree_of_one kind text }
{
    let none = Text::of(Vec::new(alloc));
    match kind {
        GameKind::Hackenbush => of_game(kind, text, none),
        _ => of_game(kind, none, text),
    }
}

fn one_text(alloc: Global, kind: GameKind, bytes: &[u8]) -> Result<(Found, &[u8]), ReadFault>
    ensures read { (end : ℕ) → Gives (λ x. (found_of x.0, x.1.now)) result
        (behind_named_at (Of_one_text kind) end bytes.now) }
    ensures shorter { IfOk result (λ x. length x.1.now < length bytes.now) }
{
    let (text, rest) = enclosed_string(alloc, after_blanks(bytes))?;
    let expr = of_one_text(alloc, kind, text);
    Ok((Found { expr, fault: None }, rest))
}

/// The rules and the row of a strip, or the vertices and the edges of another game.
fn of_two_texts(kind: GameKind, first: Text, second: Text) -> Expr
    ensures { tree_of result ≡ tree_of_two kind first second }
{
    match kind {
        GameKind::Strip => of_game(kind, first, second),
        _ => of_game(kind, second, first),
    }
}

#[tactic(auto, using(cg_query::proofs::TreeOf::game_tree))]
fn of_game(kind: GameKind, rules: Text, board: Text) -> Expr
    ensures { tree_of result ≡ game kind rules board }
{
    Expr::Game { kind, rules, board }
}

fn two_texts(alloc: Global, kind: GameKind, bytes: &[u8]) -> Result<(Found, &[u8]), ReadFault>
    ensures read { (end : ℕ) → Gives (λ x. (found_of x.0, x.1.now)) result
        (behind_named_at (Of_two_texts kind) end bytes.now) }
    ensures shorter { IfOk result (λ x. length x.1.now < length bytes.now) }
{
    let ((first, second), rest) = enclosed_strings(alloc, after_blanks(bytes))?;
    let expr = of_two_texts(kind, first, second);
    Ok((Found { expr, fault: None }, rest))
}

#[tactic(auto, using(cg_query::proofs::TreeOf::octal_tree))]
fn octal(alloc: Global, bytes: &[u8]) -> Result<(Found, &[u8]), ReadFault>
    ensures read { (end : ℕ) → Gives (λ x. (found_of x.0, x.1.now)) result
        (behind_named_at Of_octal end bytes.now) }
    ensures shorter { IfOk result (λ x. length x.1.now < length bytes.now) }
{
    let ((code, heap), rest) = enclosed_octal(alloc, after_blanks(bytes))?;
    let expr = Expr::Octal { code, heap };
    Ok((Found { expr, fault: None }, rest))
}

/// The word that an operand begins with.
fn named_word(bytes: &[u8]) -> Result<(Named, &[u8]), ReadFault>
    ensures read { (end : ℕ) → Gives (λ x. (named_view x.0, x.1.now)) result
        (named_word_at end bytes.now) }
    ensures shorter { IfOk result (λ x. length x.1.now ≤ length bytes.now) }
{
    word_of(&NAMED, bytes)
}

/// What stands behind the word that an operand begins with.
fn behind_named(alloc: Global, named: Named, bytes: &[u8]) -> Result<(Found, &[u8]), ReadFault>
    ensures read { (end : ℕ) → Gives (λ x. (found_of x.0, x.1.now)) result
        (behind_named_at (named_view named) end bytes.now) }
    ensures shorter { IfOk result (λ x. length x.1.now < length bytes.now) }
{
    match named {
        Named::Tiny => tiny(false, bytes),
        Named::Miny => tiny(true, bytes),
        Named::OneText(kind) => one_text(alloc, kind, bytes),
        Named::TwoTexts(kind) => two_texts(alloc, kind, bytes),
        Named::Octal => octal(alloc, bytes),
    }
}

/// Tiny or miny, a board, or a heap of an octal game.
#[tactic(auto, unfolding(cg_grammar::specs::OperandReading::named_at))]
fn named_operand(alloc: Global, bytes: &[u8]) -> Result<(Found, &[u8]), ReadFault>
    ensures read { (end : ℕ) → Gives (λ x. (found_of x.0, x.1.now)) result
        (named_at end bytes.now) }
    ensures shorter { IfOk result (λ x. length x.1.now < length bytes.now) }
{
    let (named, rest) = named_word(bytes)?;
    behind_named(alloc, named, rest)
}

/// A switch, tiny or miny, a board, or a heap of an octal game.
#[tactic(auto, unfolding(cg_grammar::specs::OperandReading::plain_special_at))]
pub fn plain_special(alloc: Global, bytes: &[u8]) -> Result<(Found, &[u8]), ReadFault>
    ensures read { (end : ℕ) → Gives (λ x. (found_of x.0, x.1.now)) result
        (plain_special_at end bytes.now) }
    ensures shorter { IfOk result (λ x. length x.1.now < length bytes.now) }
{
    match bytes.split_first() {
        Some((first, _)) if is_byte(b'+', *first) => switch(bytes),
        _ => named_operand(alloc, bytes),
    }
}
