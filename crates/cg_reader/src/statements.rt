//! Lines of either format: questions, and definitions.
ghost use Rattle.std.specs.Prelude.{◌≡◌, ◌≤◌, length, IfOk, ℕ, List};
ghost use Rattle.cg_reading.specs.Gives.{Gives};
ghost use Rattle.cg_grammar.specs.Reading.{becomes_at, behind_word_at, both_at, first_word_at, kind_of};
ghost use Rattle.cg_grammar.specs.Reading.{question_word_at, read_at, statement_at, value_word_at};
ghost use Rattle.cg_reader.specs.Statements.{kind_view, stated_view};
ghost use Rattle.cg_reader.specs.Views.{found_of};
ghost use Rattle.cg_reader.specs.declared.questions.Kind.TheVariants as kinds;
ghost use Rattle.cg_reading.specs.declared.fault.ReadFault.TheVariants.{Stuck};

use crate::faults::earlier;
use crate::found::{Found, Stated};
use crate::line_reader::LineReader;
use crate::named::string;
use crate::names::lettered;
use crate::questions::{
    Asking, AskingBoth, Kind, kind_of, query, query_of_both, question_word, value_word,
};
use cg_query::{Format, Query, Statement, Text};
use cg_reading::{ReadFault, after_blanks, after_byte, after_gap, after_word, is_byte};
use std::alloc::Global;

/// How many braces and parentheses may be open at once.
const MOST_OPEN: u8 = 64;

/// The sign of a definition, and the blanks around it.
#[tactic(auto, unfolding(cg_grammar::specs::Reading::becomes_at))]
fn after_becomes(bytes: &[u8]) -> Result<&[u8], ReadFault>
    ensures read { (end : ℕ) → Gives (λ x. (tt {0}, x.now)) result (becomes_at end bytes.now) }
    ensures shorter { IfOk result (λ x. length x.now ≤ length bytes.now) }
{
    let rest = after_word(b":=", after_blanks(bytes))?;
    Ok(after_blanks(rest))
}

impl LineReader {
    /// The first word of a line, where it may be a name, and what it tells.
    fn first_word(self, bytes: &[u8]) -> Result<((&[u8], Kind), &[u8]), ReadFault>
        ensures read { Gives (λ x. ((x.0.0.now, kind_view x.0.1), x.1.now)) result
            (first_word_at self.format self.line_end bytes.now) }
        ensures shorter { IfOk result (λ x. length x.1.now ≤ length bytes.now) }
    {
        match self.format {
            Format::One => {
                let (kind, rest) = question_word(bytes)?;
                Ok(((&bytes[..0], kind), rest))
            }
            Format::Two => match bytes.split_first() {
                Some((first, _)) if is_byte(b'v', *first) => value_word(bytes),
                _ => {
                    let (word, rest) = lettered(bytes)?;
                    Ok(((word, kind_of(word)), rest))
                }
            },
        }
    }

    /// Two expressions with a semicolon between them.
    #[tactic(auto, unfolding(cg_grammar::specs::Reading::both_at))]
    fn both(self, bytes: &[u8]) -> Result<((Found, Found), &[u8]), ReadFault>
        requires { length bytes.now ≤ self.line_end }
        ensures read { Gives (λ x. ((found_of x.0.0, found_of x.0.1), x.1.now)) result
            (both_at self.format self.line_end bytes.now) }
        ensures shorter { IfOk result (λ x. length x.1.now ≤ length bytes.now) }
    {
        let (first, rest) = self.sum(MOST_OPEN, bytes)?;
        let rest = after_byte(b';', rest)?;
        let (second, rest) = self.sum(MOST_OPEN, after_blanks(rest))?;
        Ok(((first, second), rest))
    }

    /// A question about one expression, behind its word.
    fn behind_one(self, asking: Asking, bytes: &[u8]) -> Result<(Stated, &[u8]), ReadFault>
        requires { length bytes.now ≤ self.line_end }
        ensures { (word : List ℕ) → Gives (λ x. (stated_view x.0, x.1.now)) result
            (behind_word_at self.format word (kind_view (kinds.One asking)) self.line_end bytes.now) }
    {
        let rest = after_gap(bytes)?;
        let (found, rest) = self.sum(MOST_OPEN, rest)?;
        let fault = found.fault;
        let statement = Statement::Ask(query(asking, found.expr));
        Ok((Stated { statement, fault }, rest))
    }

    /// A question about two expressions, behind its word.
    fn behind_two(self, asking: AskingBoth, bytes: &[u8]) -> Result<(Stated, &[u8]), ReadFault>
        requires { length bytes.now ≤ self.line_end }
        ensures { (word : List ℕ) → Gives (λ x. (stated_view x.0, x.1.now)) result
            (behind_word_at self.format word (kind_view (kinds.Two asking)) self.line_end bytes.now) }
    {
        let rest = after_gap(bytes)?;
        let ((first, second), rest) = self.both(rest)?;
        let fault = earlier(first.fault, second.fault);
        let statement = Statement::Ask(query_of_both(asking, first.expr, second.expr));
        Ok((Stated { statement, fault }, rest))
    }

    /// A question about two expressions and a text, behind its word.
    fn behind_check(self, bytes: &[u8]) -> Result<(Stated, &[u8]), ReadFault>
        requires { length bytes.now ≤ self.line_end }
        ensures { (word : List ℕ) → Gives (λ x. (stated_view x.0, x.1.now)) result
            (behind_word_at self.format word (kind_view kinds.Check) self.line_end bytes.now) }
    {
        let rest = after_gap(bytes)?;
        let ((first, second), rest) = self.both(rest)?;
        let rest = after_byte(b';', rest)?;
        let (text, rest) = string(self.alloc, after_blanks(rest))?;
        let rest = after_blanks(rest);
        let fault = earlier(first.fault, second.fault);
        let statement = Statement::Ask(Query::Check(first.expr, second.expr, text));
        Ok((Stated { statement, fault }, rest))
    }

    /// A definition, behind the name.
    fn behind_name<'a>(self, word: &[u8], bytes: &'a [u8]) -> Result<(Stated, &'a [u8]), ReadFault>
        requires { length bytes.now ≤ self.line_end }
        ensures { Gives (λ x. (stated_view x.0, x.1.now)) result
            (behind_word_at self.format word.now (kind_view kinds.Name) self.line_end bytes.now) }
    {
        let rest = after_becomes(bytes)?;
        let (found, rest) = self.sum(MOST_OPEN, rest)?;
        let fault = found.fault;
        let name = Text::of(word.to_vec(self.alloc)?);
        let statement = Statement::Define(name, found.expr);
        Ok((Stated { statement, fault }, rest))
    }

    /// What a line states, behind its first word.
    fn behind_word<'a>(
        self,
        word: &[u8],
        kind: Kind,
        bytes: &'a [u8],
    ) -> Result<(Stated, &'a [u8]), ReadFault>
        requires { length bytes.now ≤ self.line_end }
        ensures { Gives (λ x. (stated_view x.0, x.1.now)) result
            (behind_word_at self.format word.now (kind_view kind) self.line_end bytes.now) }
    {
        match kind {
            Kind::One(asking) => self.behind_one(asking, bytes),
            Kind::Two(asking) => self.behind_two(asking, bytes),
            Kind::Check => self.behind_check(bytes),
            Kind::Name => self.behind_name(word, bytes),
        }
    }

    /// What a line states that begins with no blank.
    #[tactic(auto, unfolding(cg_grammar::specs::Reading::statement_at))]
    fn statement(self, bytes: &[u8]) -> Result<(Stated, &[u8]), ReadFault>
        requires { length bytes.now ≤ self.line_end }
        ensures { Gives (λ x. (stated_view x.0, x.1.now)) result
            (statement_at self.format self.line_end bytes.now) }
    {
        let ((word, kind), rest) = self.first_word(bytes)?;
        self.behind_word(word, kind, rest)
    }
}

/// What the whole line states.
#[tactic(auto, unfolding(cg_grammar::specs::Reading::read_at, cg_grammar::specs::Reading::line_at))]
pub fn whole_line(alloc: Global, format: Format, line: &[u8]) -> Result<Stated, ReadFault>
    ensures { Gives stated_view result (read_at format line.now) }
{
    let reader = LineReader {
        alloc,
        format,
        line_end: line.len() as u64 + 1,
    };
    let (stated, rest) = reader.statement(after_blanks(line))?;
    if rest.is_empty() {
        Ok(stated)
    } else {
        Err(unfinished(stated, rest.len()))
    }
}

/// The fault where so many bytes are left behind what a line states.
#[inline(never)]
fn unfinished(_stated: Stated, left: usize) -> ReadFault
    ensures { result ≡ Stuck left }
{
    ReadFault::Stuck(left)
}
