//! Operands, alone or with what stands together with them: each function reads one production from the front of the
//! bytes, and gives what is left behind it.
ghost use Rattle.std.specs.Prelude.{◌≡◌, ◌<◌, ◌≤◌, length, IfOk, ℕ};
ghost use Rattle.cg_reading.specs.Bytes.{has};
ghost use Rattle.cg_reading.specs.Gives.{Gives};
ghost use Rattle.cg_grammar.specs.Reading.{special_at, bare_special_at, plain_primary_at};
ghost use Rattle.cg_grammar.specs.Reading.{times_at, counted_multiple_at};
ghost use Rattle.cg_grammar.specs.OperandReading.{ups_term_at};
ghost use Rattle.cg_grammar.specs.Reading.{plain_counted_term_at};
ghost use Rattle.cg_grammar.specs.Reading.{special_term_at, uncounted_term_at, bracket_at};
ghost use Rattle.cg_grammar.specs.Reading.{plain_begin, uncounted_begin, term_begin, sum_at, paren_at};
ghost use Rattle.cg_reader.specs.Views.{found_of};

use crate::arrows::{is_arrow, nim, nimber_expr, some_nim, ups};
use crate::boards::plain_special;
use crate::build::{behind_operand, joined, multiple, negative};
use crate::found::Found;
use crate::line_reader::LineReader;
use crate::names::{is_letter, is_small_letter, use_of_name};
use cg_query::{Expr, Format};
use cg_reading::{ReadFault, after_blanks, after_byte, digits, is_byte, is_digit};
use std::alloc::Global;

/// Ups or downs, and a nimber if one stands together with them.
#[inline(never)]
#[tactic(auto, unfolding(cg_grammar::specs::OperandReading::ups_term_at))]
fn ups_term(alloc: Global, bytes: &[u8]) -> Result<(Found, &[u8]), ReadFault>
    ensures read { (end : ℕ) → Gives (λ x. (found_of x.0, x.1.now)) result
        (ups_term_at end bytes.now) }
    ensures shorter { IfOk result (λ x. length x.1.now < length bytes.now) }
{
    let (arrows, rest) = ups(bytes)?;
    let (nim, rest) = some_nim(rest)?;
    let expr = arrows.expr();
    let found = joined(alloc, Found { expr, fault: None }, None, nim)?;
    Ok((found, rest))
}

/// Whether the byte begins a switch, tiny or miny, a board, or a heap of an octal game.
fn begins_plain(byte: u8) -> bool
    ensures { result ≡ has plain_begin byte }
{
    byte == b'+'
        || byte == b'A'
        || (b'C' <= byte && byte <= b'D')
        || byte == b'H'
        || byte == b'M'
        || byte == b'O'
        || (b'S' <= byte && byte <= b'T')
}

/// Whether the byte begins a term that begins with no digit and no minus.
fn begins_uncounted(byte: u8) -> bool
    ensures { result ≡ has uncounted_begin byte }
{
    is_small_letter(byte)
        || byte == b'^'
        || byte == b'*'
        || begins_plain(byte)
        || byte == b'{'
        || byte == b'('
}

/// Whether the byte begins a term.
pub fn begins_term(byte: u8) -> bool
    ensures { result ≡ has term_begin byte }
{
    byte == b'-' || is_digit(byte) || begins_uncounted(byte)
}

impl LineReader {
    /// An operand of a multiple.
    #[cycle(items)]
    #[tactic(auto, unfolding(cg_grammar::specs::Reading::plain_primary_at))]
    fn primary(self, brackets: u8, bytes: &[u8]) -> Result<(Found, &[u8]), ReadFault>
        requires { length bytes.now ≤ self.line_end }
        ensures read { Gives (λ x. (found_of x.0, x.1.now)) result
            (plain_primary_at (special_at self.format brackets) self.line_end bytes.now) }
        ensures shorter { IfOk result (λ x. length x.1.now < length bytes.now) }
    {
        match bytes.split_first() {
            Some((first, _)) if is_arrow(*first) => {
                let (arrows, rest) = ups(bytes)?;
                let expr = arrows.expr();
                Ok((Found { expr, fault: None }, rest))
            }
            Some((first, _)) if is_byte(b'*', *first) => {
                let (count, rest) = nim(bytes)?;
                let expr = nimber_expr(count);
                Ok((Found { expr, fault: None }, rest))
            }
            _ => self.special(brackets, bytes),
        }
    }

    /// What may be an operand besides numbers, ups and nimbers.
    #[cycle(items)]
    #[tactic(auto, unfolding(cg_grammar::specs::Reading::special_at))]
    fn special(self, brackets: u8, bytes: &[u8]) -> Result<(Found, &[u8]), ReadFault>
        requires { length bytes.now ≤ self.line_end }
        ensures read { Gives (λ x. (found_of x.0, x.1.now)) result
            (special_at self.format brackets self.line_end bytes.now) }
        ensures shorter { IfOk result (λ x. length x.1.now < length bytes.now) }
    {
        match self.format {
            Format::One => self.bare_special(brackets, bytes),
            Format::Two => match bytes.split_first() {
                Some((first, _)) if is_letter(*first) => use_of_name(
                    self.alloc,
                    self.line_end,
                    bytes,
                ),
                _ => self.bare_special(brackets, bytes),
            },
        }
    }

    /// What may be an operand besides numbers, ups, nimbers and names.
    #[cycle(items)]
    #[tactic(auto, unfolding(cg_grammar::specs::Reading::bare_special_at))]
    fn bare_special(self, brackets: u8, bytes: &[u8]) -> Result<(Found, &[u8]), ReadFault>
        requires { length bytes.now ≤ self.line_end }
        ensures read { Gives (λ x. (found_of x.0, x.1.now)) result
            (bare_special_at self.format brackets self.line_end bytes.now) }
        ensures shorter { IfOk result (λ x. length x.1.now < length bytes.now) }
    {
        if brackets == 0 {
            return plain_special(self.alloc, bytes);
        }
        match bytes.split_first() {
            Some((first, _)) if begins_plain(*first) => plain_special(self.alloc, bytes),
            _ => self.bracket(brackets - 1, bytes),
        }
    }

    /// The point and the operand of a multiple.
    #[cycle(items)]
    #[tactic(auto, unfolding(cg_grammar::specs::Reading::times_at))]
    fn times(
        self,
        brackets: u8,
        negative: bool,
        num: u128,
        bytes: &[u8],
    ) -> Result<(Found, &[u8]), ReadFault>
        requires { length bytes.now ≤ self.line_end }
        ensures read { Gives (λ x. (found_of x.0, x.1.now)) result
            (times_at (special_at self.format brackets) negative num self.line_end bytes.now) }
        ensures shorter { IfOk result (λ x. length x.1.now < length bytes.now) }
    {
        match bytes.split_first() {
            Some((first, rest)) if is_byte(b'.', *first) => {
                let (operand, rest) = self.primary(brackets, rest)?;
                let found = multiple(self.alloc, negative, num, operand)?;
                Ok((found, rest))
            }
            _ => Err(ReadFault::Stuck(bytes.len())),
        }
    }

    /// The point and the operand of a multiple, and what stands together with it.
    #[cycle(items)]
    #[inline(never)]
    #[tactic(auto, unfolding(cg_grammar::specs::Reading::counted_multiple_at, cg_grammar::specs::Reading::tail_of_at))]
    fn counted_multiple(
        self,
        brackets: u8,
        negative: bool,
        num: u128,
        bytes: &[u8],
    ) -> Result<(Found, &[u8]), ReadFault>
        requires { length bytes.now ≤ self.line_end }
        ensures read { Gives (λ x. (found_of x.0, x.1.now)) result
            (counted_multiple_at (special_at self.format brackets) negative num self.line_end bytes.now) }
        ensures shorter { IfOk result (λ x. length x.1.now < length bytes.now) }
    {
        let (operand, rest) = self.times(brackets, negative, num, bytes)?;
        behind_operand(self.alloc, operand, rest)
    }

    /// A number or a multiple, and what stands together with it.
    #[cycle(items)]
    #[inline(always)]
    #[tactic(auto, using(cg_query::proofs::TreeOf::number_tree), unfolding(cg_grammar::specs::Reading::plain_counted_term_at, cg_grammar::specs::Reading::number_or_multiple_at, cg_grammar::specs::Reading::behind_number_at, cg_grammar::specs::Reading::counted_multiple_at, cg_grammar::specs::Reading::tail_of_at))]
    pub fn counted_term(
        self,
        brackets: u8,
        negative: bool,
        bytes: &[u8],
    ) -> Result<(Found, &[u8]), ReadFault>
        requires { length bytes.now ≤ self.line_end }
        ensures read { Gives (λ x. (found_of x.0, x.1.now)) result
            (plain_counted_term_at (special_at self.format brackets) negative self.line_end bytes.now) }
        ensures shorter { IfOk result (λ x. length x.1.now < length bytes.now) }
    {
        let (num, rest) = digits(bytes)?;
        match rest.split_first() {
            Some((first, behind)) if is_byte(b'/', *first) => {
                let (den, rest) = digits(behind)?;
                let expr = Expr::Number { negative, num, den };
                behind_operand(self.alloc, Found { expr, fault: None }, rest)
            }
            Some((first, _)) if is_byte(b'.', *first) => {
                self.counted_multiple(brackets, negative, num, rest)
            }
            _ => {
                let expr = Expr::Number {
                    negative,
                    num,
                    den: 1,
                };
                behind_operand(self.alloc, Found { expr, fault: None }, rest)
            }
        }
    }

    /// A term that begins with no digit and no minus.
    #[cycle(items)]
    #[inline(always)]
    #[tactic(auto, unfolding(cg_grammar::specs::Reading::uncounted_term_at, cg_grammar::specs::Reading::special_term_at, cg_grammar::specs::Reading::tail_of_at))]
    pub fn uncounted_term(self, brackets: u8, bytes: &[u8]) -> Result<(Found, &[u8]), ReadFault>
        requires { length bytes.now ≤ self.line_end }
        ensures read { Gives (λ x. (found_of x.0, x.1.now)) result
            (uncounted_term_at (special_at self.format brackets) self.line_end bytes.now) }
        ensures shorter { IfOk result (λ x. length x.1.now < length bytes.now) }
    {
        match bytes.split_first() {
            Some((first, _)) if is_arrow(*first) => ups_term(self.alloc, bytes),
            Some((first, _)) if is_byte(b'*', *first) => {
                let (count, rest) = nim(bytes)?;
                let expr = nimber_expr(count);
                Ok((Found { expr, fault: None }, rest))
            }
            _ => {
                let (operand, rest) = self.special(brackets, bytes)?;
                behind_operand(self.alloc, operand, rest)
            }
        }
    }

    /// An expression in brackets.
    #[cycle(items)]
    #[inline(never)]
    #[tactic(auto, unfolding(cg_grammar::specs::Reading::bracket_at, cg_grammar::specs::Reading::paren_at))]
    fn bracket(self, brackets: u8, bytes: &[u8]) -> Result<(Found, &[u8]), ReadFault>
        requires { length bytes.now ≤ self.line_end }
        ensures read { Gives (λ x. (found_of x.0, x.1.now)) result
            (bracket_at (sum_at (special_at self.format brackets)) self.line_end bytes.now) }
        ensures shorter { IfOk result (λ x. length x.1.now < length bytes.now) }
    {
        match bytes.split_first() {
            Some((first, _)) if is_byte(b'{', *first) => self.braces(brackets, bytes),
            _ => {
                let rest = after_byte(b'(', bytes)?;
                let (found, rest) = self.sum(brackets, after_blanks(rest))?;
                let rest = after_byte(b')', rest)?;
                Ok((found, rest))
            }
        }
    }
}
