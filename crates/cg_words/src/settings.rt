//! The settings of a session, read from the words after the program's name.
ghost use Rattle.std.specs.Prelude.{◌≡◌, ℕ, List, Some, IfErr, IfOk, map, string_bytes};
ghost use Rattle.clap.specs.Words.{found_of, one_text};
ghost use Rattle.clap.specs.Values.{IsUnsignedIn};
ghost use Rattle.cg_words.specs.Accepted.{Accepted, InRange, IsAccepted};
ghost use Rattle.cg_words.specs.Options.{number_in};

use crate::command::command;
use clap::ArgMatches;
use clap::error::ErrorKind;
use std::alloc::Global;
use thiserror::Error;

/// What the words ask for.
#[derive(Clone, Copy, Debug, Drop, PartialEq, Eq)]
pub struct Settings {
    /// How many workers answer lines in parallel, from 1 to 64.
    pub workers: u64,
    /// How many cells the table has, from 1 to 67,108,864.
    pub cells: u64,
    /// The most items that one list of items may have, from 1 to 1,048,576.
    pub positions: u64,
    /// How many lines the sample has, from 1 to 4,096, or 0 if none is asked for.
    pub sample: u64,
}

/// Why there are no settings.
#[derive(Clone, Copy, Debug, PartialEq, Eq, Error)]
pub enum SettingsFault {
    #[error("the words are not accepted")]
    Usage,
    #[error("memory was wanting")]
    Memory,
}

impl Settings {
    /// Reads the words after the program's name.
    pub fn read(alloc: Global, words: &[String]) -> Result<Settings, SettingsFault>
        ensures accepted { IfOk result (λ s. Accepted (map string_bytes words.now) s) }
        ensures range { IfOk result (λ s. InRange s) }
        ensures refused { IfErr result (λ fault. fault ≡ SettingsFault.Usage
            → ¬ IsAccepted (map string_bytes words.now)) }
    {
        let command = match command(alloc) {
            Ok(command) => command,
            Err(_) => return Err(SettingsFault::Memory),
        };
        let matches = match command.try_get_matches_from(words) {
            Ok(matches) => matches,
            Err(error) => {
                return Err(match error.kind() {
                    ErrorKind::OutOfMemory => SettingsFault::Memory,
                    _ => SettingsFault::Usage,
                });
            }
        };
        Ok(Settings {
            workers: number(&matches, "workers"),
            cells: number(&matches, "cells"),
            positions: number(&matches, "positions"),
            sample: number(&matches, "sample"),
        })
    }
}

/// The option's number, or 0 if it isn't given.
fn number(matches: &ArgMatches, id: &str) -> u64
    requires { (t : List ℕ) → one_text (found_of matches.now) id.now ≡ Some t → IsUnsignedIn 1 67108864 t }
    ensures { result ≡ number_in (found_of matches.now) id.now }
{
    matches.get_one::<u64>(id).unwrap_or(0)
}
