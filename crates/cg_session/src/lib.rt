//! Sessions: a text of lines in, the lines of the answers out.
//!
//! The text is cut at each LF; an unterminated last line counts unless it is empty. Lines are numbered from 1. Blank
//! lines (spaces, tabs and CRs alone) and comments get no answer, nor does `cg 2`, the first line of format 2. Every
//! other line gets one line of output: its number in decimal, a colon, a space, the reply, LF. [`run`] takes the
//! settings from the words of the command line, reads a whole input from a [`cg_io::Source`], lets workers answer its
//! lines over one shared table, and writes the whole output to a [`cg_io::Sink`]; [`Status`] says how that ended.
#![tactic(auto)]

mod answering;
mod input;
mod job;
pub mod laws;
mod output;
mod refusals;
mod session;
mod status;
mod weighing;
mod writing;

pub use answering::Kept;
pub use cg_sample::sample;
pub use cg_words::{Settings, SettingsFault};
pub use session::run;
pub use status::Status;
