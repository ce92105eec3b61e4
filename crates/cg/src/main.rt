//! A calculator for short partizan games: lines of questions in, lines of answers out.
#![tactic(auto)]

use cg_io::{StdinSource, StdoutSink};
use cg_pool::NoGate;
use std::alloc::Global;
use std::process::ExitCode;
use std::{env, io};

/// The words after the program's name.
fn words(rt: &(impl env::Env + AllocGlobal), alloc: Global) -> io::Result<Vec<String>> {
    let mut words = Vec::new(alloc);
    for word in env::args(rt)?.skip(1) {
        words.push(word)?;
    }
    Ok(words)
}

/// The exit status if the words can't be read: 5 if memory ran out, otherwise 7, as for a word that isn't UTF-8.
fn code_without_words(fault: &io::Error) -> u8 {
    if fault.kind() == io::ErrorKind::OutOfMemory {
        5
    } else {
        7
    }
}

/// Runs a session from standard input to standard output. The exit status is the number of its status.
fn main(rt: HostRuntime) -> ExitCode {
    let alloc = rt.alloc();
    let words = match words(&rt, alloc) {
        Ok(words) => words,
        Err(fault) => return ExitCode::from(code_without_words(&fault)),
    };
    let mut source = StdinSource::new(rt.reader());
    let mut sink = StdoutSink::new(io::writer(&rt));
    let mut kept = None;
    let status = cg_session::run(
        &rt,
        alloc,
        &words,
        &mut source,
        &mut sink,
        &NoGate,
        &mut kept,
    );
    ExitCode::from(status.code())
}
