//! The words of the command line: which are accepted, and the settings that they give.
//!
//! The command has four options, each with one whole number: `--workers` from 1 to 64 (default 4), `--cells` from 1 to
//! 67,108,864 (4,194,304), `--positions` from 1 to 1,048,576 (65,536), and `--sample` from 1 to 4,096 (no default). The
//! words are accepted exactly if clap's simple command with these options takes them; [`laws`] has examples.
#![tactic(auto)]

mod command;
pub mod laws;
mod settings;

pub use settings::{Settings, SettingsFault};
