//! The command and its four options, for clap.
ghost use Rattle.std.specs.Prelude.{◌≡◌, IfOk};
ghost use Rattle.clap.specs.Words.{app_of, rule_of};
ghost use Rattle.cg_words.specs.Accepted.{cg_command, number_option, number_option_or};
ghost use Rattle.cg_words.specs.Options.{HasOptions, IsOption, IsOptionOr};

use clap::{Arg, ArgAction, Command, value_parser};
use std::alloc::{AllocError, Global};

/// The program's command, for the words after the program's name.
pub fn command<'a>(alloc: Global) -> Result<Command<'a>, AllocError>
    ensures shape { IfOk result (λ c. app_of c ≡ cg_command) }
    ensures options { IfOk result (λ c. HasOptions c) }
{
    let workers = number_option_or(alloc, "workers", 64, "4");
    let cells = number_option_or(alloc, "cells", 67_108_864, "4194304");
    let positions = number_option_or(alloc, "positions", 1_048_576, "65536");
    let sample = number_option(alloc, "sample", 4_096);
    Command::new(alloc, "cg")
        .no_binary_name(true)
        .arg(workers)?
        .arg(cells)?
        .arg(positions)?
        .arg(sample)
}

fn number_option<'a>(alloc: Global, name: &'a str, most: u32) -> Arg<'a>
    ensures rule { rule_of result ≡ number_option name.entry.now most }
    ensures option { IsOption name.entry.now most result }
{
    Arg::new(alloc, name)
        .long(name)
        .action(ArgAction::Set)
        .value_parser(value_parser!(u64).range(1..=i64::from(most)))
}

fn number_option_or<'a>(alloc: Global, name: &'a str, most: u32, default: &'a str) -> Arg<'a>
    ensures rule { rule_of result ≡ number_option_or name.entry.now most default.entry.now }
    ensures option { IsOptionOr name.entry.now most result }
{
    number_option(alloc, name, most).default_value(default)
}
