//! What a line of a session is.
ghost use Rattle.std.specs.Prelude.{◌≡◌, ◌↔◌, IfOk, IfErr, Ok, true};
ghost use Rattle.cg_reader.specs.Answered.{IsFaultless};
ghost use Rattle.cg_grammar.specs.Lines.{is_blank_line, IsComment, IsReadAs, IsRefused, ReadsIn, StatesNothing};
ghost use Rattle.cg_query.specs.Trees.{statement_of};
ghost use Rattle.cg_query.specs.declared.format.Format.TheVariants as formats;
ghost use Rattle.cg_query.specs.declared.query.SyntaxFault.TheVariants as faults;

use crate::found::Stated;
use crate::statements::whole_line;
use cg_query::{Format, Line, Statement, SyntaxFault};
use cg_reading::{ReadFault, after_blanks};
use std::alloc::Global;

/// What the line is, which is given without its LF.
///
/// `Blank` comes exactly for blanks alone, and `Comment` exactly where the first byte that isn't a blank is `#`.
/// `Ask` comes with the one query that the grammar relates to the line. `Syntax` comes exactly where the line is none
/// of these, with its column: 1 plus the length of the longest prefix that some line of the grammar has, too. Where
/// only the rule on runs of bars is broken, it is the column of the first run that has the length of an earlier run of
/// its brace with no longer run between them. Only `Memory` may come in place of `Ask` or `Syntax`.
pub fn read_line(alloc: Global, line: &[u8]) -> Result<Line, SyntaxFault>
    ensures blank { (result ≡ Ok Line.Blank) ↔ (is_blank_line line.now ≡ true) }
    ensures comment { (result ≡ Ok Line.Comment) ↔ IsComment line.now }
    ensures read { IfOk result (IsReadAs line.now) }
    ensures refused { IfErr result (IsRefused line.now) }
{
    let Some((first, _)) = after_blanks(line).split_first() else {
        return Ok(Line::Blank);
    };
    if *first == b'#' {
        return Ok(Line::Comment);
    }
    match stated(alloc, Format::One, line) {
        Ok(Statement::Ask(query)) => Ok(Line::Ask(query)),
        Ok(Statement::Define(..)) => unreachable!(),
        Err(fault) => Err(fault),
    }
}

/// What a line of format 2 states, which is given without its LF.
///
/// It comes with the one question or definition that the grammar of format 2 relates to the line. `Syntax` comes
/// exactly where the line states nothing, as blanks and comments do, with its column: 1 plus the length of the longest
/// prefix that some line of the grammar has, too. Where only the rule on runs of bars is broken, it is the column of
/// the first run that has the length of an earlier run of its brace with no longer run between them. Only `Memory` may
/// come in place of them.
pub fn read_statement(alloc: Global, line: &[u8]) -> Result<Statement, SyntaxFault>
    ensures read { IfOk result (λ s. ReadsIn formats.Two line.now (statement_of s)) }
    ensures refused { IfErr result (StatesNothing formats.Two line.now) }
{
    stated(alloc, Format::Two, line)
}

/// What a line of this format states.
fn stated(alloc: Global, format: Format, line: &[u8]) -> Result<Statement, SyntaxFault>
    ensures read { IfOk result (λ s. ReadsIn format line.now (statement_of s)) }
    ensures refused { IfErr result (StatesNothing format line.now) }
{
    match whole_line(alloc, format, line) {
        Ok(stated) => faultless(stated),
        Err(ReadFault::Memory) => Err(SyntaxFault::Memory),
        Err(ReadFault::Stuck(left)) => {
            Err(SyntaxFault::Syntax(line.len() as u64 + 1 - left as u64))
        }
    }
}

/// What was stated, or the fault that was found in it.
fn faultless(stated: Stated) -> Result<Statement, SyntaxFault>
    ensures { IsFaultless (statement_of stated.statement) stated.fault result }
{
    match stated.fault {
        None => Ok(stated.statement),
        Some(column) => Err(refused(stated, column)),
    }
}

/// The refusal of what was stated, at this column.
#[inline(never)]
fn refused(_stated: Stated, column: u64) -> SyntaxFault
    ensures { result ≡ faults.Syntax column }
{
    SyntaxFault::Syntax(column)
}
