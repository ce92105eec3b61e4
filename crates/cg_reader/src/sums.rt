//! Terms and sums.
ghost use Rattle.std.specs.Prelude.{◌≡◌, ◌<◌, ◌≤◌, length, IfOk};
ghost use Rattle.cg_reading.specs.Bytes.{has};
ghost use Rattle.cg_reading.specs.Gives.{Gives};
ghost use Rattle.cg_query.specs.Trees.{terms_of};
ghost use Rattle.cg_grammar.specs.Reading.{special_at, unsigned_term_at, minus_body_at, term_at};
ghost use Rattle.cg_grammar.specs.Reading.{sum_at, more_terms_at, plus_minus};
ghost use Rattle.cg_reader.specs.Views.{found_of};

use crate::build::{negative, sum_of_terms};
use crate::faults::earlier;
use crate::found::Found;
use crate::line_reader::LineReader;
use cg_query::Term;
use cg_reading::{ReadFault, after_blanks, after_gap, is_blank, is_byte, is_digit};

fn is_sign(byte: u8) -> bool
    ensures { result ≡ has plus_minus byte }
{
    byte == b'-' || byte == b'+'
}

impl LineReader {
    /// A term with no minus in front.
    #[cycle(items)]
    #[inline(always)]
    #[tactic(auto, unfolding(cg_grammar::specs::Reading::unsigned_term_at))]
    fn unsigned_term(self, brackets: u8, bytes: &[u8]) -> Result<(Found, &[u8]), ReadFault>
        requires { length bytes.now ≤ self.line_end }
        ensures read { Gives (λ x. (found_of x.0, x.1.now)) result
            (unsigned_term_at (special_at self.format brackets) self.line_end bytes.now) }
        ensures shorter { IfOk result (λ x. length x.1.now < length bytes.now) }
    {
        match bytes.split_first() {
            Some((first, _)) if is_digit(*first) => self.counted_term(brackets, false, bytes),
            _ => self.uncounted_term(brackets, bytes),
        }
    }

    /// What stands behind a minus.
    #[cycle(items)]
    #[tactic(auto, unfolding(cg_grammar::specs::Reading::minus_body_at))]
    fn minus_body(self, brackets: u8, bytes: &[u8]) -> Result<(Found, &[u8]), ReadFault>
        requires { length bytes.now ≤ self.line_end }
        ensures read { Gives (λ x. (found_of x.0, x.1.now)) result
            (minus_body_at (special_at self.format brackets) self.line_end bytes.now) }
        ensures shorter { IfOk result (λ x. length x.1.now < length bytes.now) }
    {
        match bytes.split_first() {
            Some((first, _)) if is_digit(*first) => self.counted_term(brackets, true, bytes),
            Some((first, _)) if is_blank(*first) => {
                let rest = after_gap(bytes)?;
                let (found, rest) = self.unsigned_term(brackets, rest)?;
                Ok((negative(self.alloc, found)?, rest))
            }
            _ => {
                let (found, rest) = self.uncounted_term(brackets, bytes)?;
                Ok((negative(self.alloc, found)?, rest))
            }
        }
    }

    #[cycle(items)]
    #[inline(always)]
    #[tactic(auto, unfolding(cg_grammar::specs::Reading::term_at, cg_grammar::specs::Reading::minus_term_at))]
    fn term(self, brackets: u8, bytes: &[u8]) -> Result<(Found, &[u8]), ReadFault>
        requires { length bytes.now ≤ self.line_end }
        ensures read { Gives (λ x. (found_of x.0, x.1.now)) result
            (term_at (special_at self.format brackets) self.line_end bytes.now) }
        ensures shorter { IfOk result (λ x. length x.1.now < length bytes.now) }
    {
        match bytes.split_first() {
            Some((first, rest)) if is_byte(b'-', *first) => self.minus_body(brackets, rest),
            _ => self.unsigned_term(brackets, bytes),
        }
    }

    /// More terms of a sum, behind these and the first fault in them.
    #[cycle(items)]
    fn more_terms(
        self,
        brackets: u8,
        terms: Vec<Term>,
        fault: Option<u64>,
        bytes: &[u8],
    ) -> Result<(Found, &[u8]), ReadFault>
        requires { length bytes.now ≤ self.line_end }
        ensures read { Gives (λ x. (found_of x.0, x.1.now)) result
            (more_terms_at self.format brackets (terms_of terms.items) fault self.line_end bytes.now) }
        ensures shorter { IfOk result (λ x. length x.1.now ≤ length bytes.now) }
    {
        let mut terms = terms;
        let mut fault = fault;
        let mut rest = bytes;
        while let Some((sign, behind)) = rest.split_first() {
            if !is_sign(*sign) {
                break;
            }
            let minus = is_byte(b'-', *sign);
            let (found, after) = self.term(brackets, after_blanks(behind))?;
            let merged = earlier(fault, found.fault);
            terms.push(Term {
                minus,
                expr: found.expr,
            })?;
            fault = merged;
            rest = after_blanks(after);
        }
        let expr = sum_of_terms(terms);
        Ok((Found { expr, fault }, rest))
    }

    /// An expression and the blanks behind it.
    #[cycle(items)]
    #[tactic(auto, unfolding(cg_grammar::specs::Reading::sum_at))]
    pub fn sum(self, brackets: u8, bytes: &[u8]) -> Result<(Found, &[u8]), ReadFault>
        requires { length bytes.now ≤ self.line_end }
        ensures read { Gives (λ x. (found_of x.0, x.1.now)) result
            (sum_at (special_at self.format brackets) self.line_end bytes.now) }
        ensures shorter { IfOk result (λ x. length x.1.now < length bytes.now) }
    {
        let (first, rest) = self.term(brackets, bytes)?;
        let rest = after_blanks(rest);
        match rest.split_first() {
            Some((sign, _)) if is_sign(*sign) => {
                let fault = first.fault;
                let mut terms = Vec::new(self.alloc);
                terms.push(Term {
                    minus: false,
                    expr: first.expr,
                })?;
                self.more_terms(brackets, terms, fault, rest)
            }
            _ => Ok((first, rest)),
        }
    }
}
