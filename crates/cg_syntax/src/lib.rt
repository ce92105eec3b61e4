//! Lines of questions: `read_line` tells what one line of a session asks, by this grammar, and `write_query` writes a
//! question as a line. `read_statement` tells what one line of a session of format 2 asks or defines.
//!
//! ```text
//! line     = B query B
//! query    = ( "value" | "outcome" | "stops" | "mean" | "temp" | "thermo" ) B1 expr
//!          | ( "compare" | "proof" ) B1 expr B ";" B expr
//!          | "check" B1 expr B ";" B expr B ";" B string
//! expr     = term { B ( "+" | "-" ) B term }
//! term     = [ "-" ] counted tail | special tail | ups [ nim ] | nim | "-" body
//! body     = B1 counted tail | B ( special tail | ups [ nim ] | nim )
//! tail     = [ ups ] [ nim ]
//! counted  = number | multiple
//! number   = digits [ "/" digits ]
//! multiple = digits "." primary
//! primary  = ups | nim | special
//! special  = switch | tiny | braces | paren | board | octal
//! switch   = "+-" number
//! tiny     = ( "Tiny" | "Miny" ) "(" B number B ")"
//! ups      = "^" { "^" } | "^" digits | "v" { "v" } | "v" digits
//! nim      = "*" [ digits ]
//! braces   = "{" side bars side { bars side } "}"
//! side     = B [ expr { B "," B expr } B ]
//! bars     = one to eight bytes "|", with no further "|" directly after them
//! paren    = "(" B expr B ")"
//! board    = ( "Domineering" | "Clobber" | "Amazons" | "Toads" | "Hackenbush" ) B "(" B string B ")"
//!          | ( "Strip" | "Col" | "Snort" ) B "(" B string B "," B string B ")"
//! octal    = "Octal" B "(" B string B "," B digits B ")"
//! string   = one quotation mark, any bytes 0x20 to 0x7E but a quotation mark, one quotation mark
//! digits   = one to thirty bytes "0" to "9"
//! ```
//!
//! In format 2 there are names:
//!
//! ```text
//! line     = B query B | B define B
//! define   = name B ":=" B expr
//! special  = switch | tiny | braces | paren | board | octal | name
//! name     = one byte "a" to "z" but "v", then up to fifteen bytes "a" to "z" or "0" to "9"; no word of a question
//! ```
//!
//! `B` is any number of blanks, and `B1` at least one. A blank is a space, a tab or a CR. Tokens are as long as
//! possible. At most 64 braces and parens are open at once. In a brace, two runs of bars of the same length have a
//! longer run between them. The longest run splits a brace into its Left and its Right side; a side that holds a run is
//! one option, the brace of that side.
#![tactic(auto)]

mod expand;
pub mod laws;
mod marks;
mod resolve;
mod session;
mod session_lines;
mod sheet;
mod sizes;

pub use cg_query::{
    Expr, Exprs, Format, GameKind, Line, Query, Statement, Subject, SyntaxFault, Term, Terms, Text,
    is_low,
};
pub use cg_reader::{read_line, read_statement};
pub use cg_writer::write_query;
pub use session::{Asked, Session, SessionLine, SessionLines, read_session, read_session_within};
