//! Worked sessions: what each writes and how it ends.
//!
//! In the input a session follows each line that begins with `$`. That line has the words of the command line, each
//! after a bar. If something fails in the session, it also has, before the words: how many bytes the source gives and
//! the sink takes in a call at most, how many bytes the sink has room for, and which of their calls fail. The lines
//! after it are the session's own; a session without lines has those of the one before. A line that begins with `@`
//! has a number and a text that stands there that many times; in it `\n`, `\r` and `\0` are a line feed, a carriage
//! return and the byte 0. A line that begins with `$#` is a comment, and one with `$?` asks what its words give.
//!
//! The output repeats the line of each session. Then come the number of its status, how many bytes it wrote, how many
//! the source still gives, and what it wrote, or the end of that if it is long. The sessions and their answers come
//! from the textbook and the literature, or were worked out by hand.
#![tactic(auto)]

use cg_io::{MemorySink, MemorySource, Source};
use cg_pool::NoGate;
use cg_session::{Settings, run};
use std::alloc::{AllocError, Global};
use std::io;
use std::thread::Threads;

/// The bytes that are written of what a session writes: all of them, or where they are many the last of them.
fn end_of(bytes: &[u8]) -> &[u8] {
    if bytes.len() <= 12_000 {
        return bytes;
    }
    &bytes[bytes.len() - 20..]
}

fn words_of(alloc: Global, line: &str) -> Result<Vec<String>, AllocError> {
    let mut words = Vec::new(alloc);
    for word in line.split('|').skip(1) {
        words.push(word.to_string(alloc)?)?;
    }
    Ok(words)
}

/// The text that a line stands for.
fn text_of(alloc: Global, line: &str) -> Result<String, AllocError> {
    if let Some(row) = line.strip_prefix('@')
        && let Some((times, piece)) = row.split_once(' ')
    {
        let piece = piece.replace(alloc, "\\n", "\n")?;
        let piece = piece.replace(alloc, "\\r", "\r")?;
        let piece = piece.replace(alloc, "\\0", "\0")?;
        return piece.repeat(alloc, times.parse::<usize>().unwrap_or(0));
    }
    format!(in alloc; "{line}\n")
}

fn bytes_of(alloc: Global, lines: &str) -> Result<Vec<u8>, AllocError> {
    let mut bytes = Vec::new(alloc);
    for line in lines.split('\n') {
        let text = text_of(alloc, line)?;
        bytes.extend_from_slice(text.as_bytes())?;
    }
    Ok(bytes)
}

fn settings(alloc: Global, line: &str) -> Result<String, AllocError> {
    let words = words_of(alloc, line)?;
    match Settings::read(alloc, &words) {
        Ok(s) => format!(in alloc; "{} {} {} {}", s.workers, s.cells, s.positions, s.sample),
        Err(fault) => format!(in alloc; "{fault:?}"),
    }
}

/// The number that the word spells, or else the usual one.
fn number(word: Option<&str>, usual: usize) -> usize {
    match word {
        Some(word) => word.parse::<usize>().unwrap_or(usual),
        None => usual,
    }
}

/// The status of the session, how many bytes it wrote, how many the source gives behind it, and what it wrote.
fn session<R: Threads + Sync>(
    rt: &R,
    alloc: Global,
    line: &str,
    input: Vec<u8>,
) -> Result<String, AllocError> {
    let (front, _) = line.split_once('|').unwrap_or((line, ""));
    let mut numbers = front.split(' ');
    let most = number(numbers.next(), 4096).max(1);
    let room = number(numbers.next(), 40_000);
    let source_fails = number(numbers.next(), 0) as u64;
    let sink_fails = number(numbers.next(), 0) as u64;
    let words = words_of(alloc, line)?;
    let mut source = MemorySource::new(input, most, vec![in alloc; source_fails]?);
    let mut sink = MemorySink::new(alloc, room, most, vec![in alloc; sink_fails]?)?;
    let mut kept = None;
    let status = run(
        rt,
        alloc,
        &words,
        &mut source,
        &mut sink,
        &NoGate,
        &mut kept,
    );
    let left = source.read(&mut [0; 8]);
    let bytes = sink.bytes();
    let text = str::from_utf8(end_of(bytes)).unwrap_or("?");
    format!(in alloc; "{} {} {left:?}\n{text}", status.code(), bytes.len())
}

/// What is written of the block: its line, and the lines behind it.
fn told<R: Threads + Sync>(
    rt: &R,
    alloc: Global,
    line: &str,
    lines: &str,
) -> Result<String, AllocError> {
    if line.starts_with('#') {
        return format!(in alloc; "${line}");
    }
    let text = if line.starts_with('?') {
        settings(alloc, line)?
    } else {
        session(rt, alloc, line, bytes_of(alloc, lines)?)?
    };
    format!(in alloc; "${line} => {text}")
}

fn main(rt: HostRuntime) -> io::Result<()> {
    let alloc = rt.alloc();
    let input = io::read_to_string(alloc, rt.reader())?;
    let mut kept = "";
    for block in input.as_str().split("\n$").skip(1) {
        let (line, lines) = block.split_once('\n').unwrap_or((block, kept));
        kept = lines;
        let text = told(&rt, alloc, line, lines)?;
        println!(rt; "{text}")?;
    }
    Ok(())
}
