//! Braces: their sides, and the runs of bars between them.
ghost use Rattle.std.specs.Prelude.{◌<◌, ◌≤◌, length, IfOk};
ghost use Rattle.cg_reading.specs.Gives.{Gives};
ghost use Rattle.cg_grammar.specs.Reading.{special_at, braces_at, side_at, item_list_at, row_list_at};
ghost use Rattle.cg_grammar.specs.Reading.{row_at, sum_at};
ghost use Rattle.cg_reader.specs.Views.{found_of, row_list, row_of, side_found};

use crate::bars::bars;
use crate::build::braces_of;
use crate::found::{Found, Row, Rows, Side};
use crate::line_reader::LineReader;
use crate::operands::begins_term;
use crate::sides::with_item;
use cg_reading::{ReadFault, after_blanks, after_byte, is_byte};

impl LineReader {
    /// Braces.
    #[cycle(items)]
    #[tactic(auto, unfolding(cg_grammar::specs::Reading::braces_at))]
    pub fn braces(self, brackets: u8, bytes: &[u8]) -> Result<(Found, &[u8]), ReadFault>
        requires { length bytes.now ≤ self.line_end }
        ensures read { Gives (λ x. (found_of x.0, x.1.now)) result
            (braces_at (sum_at (special_at self.format brackets)) self.line_end bytes.now) }
        ensures shorter { IfOk result (λ x. length x.1.now < length bytes.now) }
    {
        let rest = after_byte(b'{', bytes)?;
        let (first, rest) = self.side(brackets, rest)?;
        let (rows, rest) = self.rows(brackets, rest)?;
        let rest = after_byte(b'}', rest)?;
        let found = braces_of(self.alloc, first, rows)?;
        Ok((found, rest))
    }

    /// A side of braces.
    #[cycle(items)]
    #[tactic(auto, unfolding(cg_grammar::specs::Reading::side_at))]
    fn side(self, brackets: u8, bytes: &[u8]) -> Result<(Side, &[u8]), ReadFault>
        requires { length bytes.now ≤ self.line_end }
        ensures read { Gives (λ x. (side_found x.0, x.1.now)) result
            (side_at (sum_at (special_at self.format brackets)) self.line_end bytes.now) }
        ensures shorter { IfOk result (λ x. length x.1.now ≤ length bytes.now) }
    {
        let rest = after_blanks(bytes);
        match rest.split_first() {
            Some((first, _)) if begins_term(*first) => self.items(brackets, rest),
            _ => Ok((Side::Sound(Vec::new(self.alloc)), rest)),
        }
    }

    /// Expressions with commas between them.
    #[cycle(items)]
    #[tactic(auto, unfolding(cg_grammar::specs::Reading::item_list_at))]
    fn items(self, brackets: u8, bytes: &[u8]) -> Result<(Side, &[u8]), ReadFault>
        requires { length bytes.now ≤ self.line_end }
        ensures read { Gives (λ x. (side_found x.0, x.1.now)) result
            (item_list_at (sum_at (special_at self.format brackets)) self.line_end bytes.now) }
        ensures shorter { IfOk result (λ x. length x.1.now < length bytes.now) }
    {
        let (first, after) = self.sum(brackets, bytes)?;
        let front = with_item(self.alloc, Side::Sound(Vec::new(self.alloc)), first)?;
        let mut items = front;
        let mut rest = after;
        while let Some((comma, behind)) = rest.split_first() {
            if !is_byte(b',', *comma) {
                break;
            }
            let (found, after) = self.sum(brackets, after_blanks(behind))?;
            items = with_item(self.alloc, items, found)?;
            rest = after;
        }
        Ok((items, rest))
    }

    /// A run of bars and a side.
    #[cycle(items)]
    fn row(self, brackets: u8, bytes: &[u8]) -> Result<(Row, &[u8]), ReadFault>
        requires { length bytes.now ≤ self.line_end }
        ensures read { Gives (λ x. (row_of x.0, x.1.now)) result
            (row_at (sum_at (special_at self.format brackets)) self.line_end bytes.now) }
        ensures shorter { IfOk result (λ x. length x.1.now < length bytes.now) }
    {
        let ((column, bars), rest) = bars(self.line_end, bytes)?;
        let (side, rest) = self.side(brackets, rest)?;
        Ok((Row { column, bars, side }, rest))
    }

    /// One run of bars and a side, or more.
    #[cycle(items)]
    #[tactic(auto, unfolding(cg_grammar::specs::Reading::row_list_at))]
    fn rows(self, brackets: u8, bytes: &[u8]) -> Result<(Rows, &[u8]), ReadFault>
        requires { length bytes.now ≤ self.line_end }
        ensures read { Gives (λ x. (row_list x.0, x.1.now)) result
            (row_list_at (sum_at (special_at self.format brackets)) self.line_end bytes.now) }
        ensures shorter { IfOk result (λ x. length x.1.now < length bytes.now) }
    {
        let (first, after) = self.row(brackets, bytes)?;
        let mut more = Vec::new(self.alloc);
        let mut rest = after;
        while let Some((bar, _)) = rest.split_first() {
            if !is_byte(b'|', *bar) {
                break;
            }
            let (next, after) = self.row(brackets, rest)?;
            more.push(next)?;
            rest = after;
        }
        Ok((Rows { first, more }, rest))
    }
}
