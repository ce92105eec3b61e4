//! The sample: a session that is made from a number.
//!
//! Line i asks one of six kinds of question, by i mod 6, with the numbers a = i mod 5 and b = i * i mod 7. With the
//! default settings no line of it is refused.
#![tactic(auto)]

ghost use Rattle.std.specs.Prelude.{◌≡◌, ◌≤◌, ◌<◌, ◌+◌, ◌^◌, ◌++◌, ◌∷◌, [], IfOk, string_bytes, codes, length, take};
ghost use Rattle.cg_sample.specs.SampleText.{dots, line_of, grid_line, sample_text};

use std::alloc::{AllocError, Global};

/// The sample of `n` lines, for n from 1 to 4,096, each with its LF: no more than 1,048,576 bytes.
pub fn sample(alloc: Global, n: u64) -> Result<String, AllocError>
    requires some { 1 ≤ n }
    requires within { n ≤ 4096 }
    ensures text { IfOk result (λ text. string_bytes text ≡ sample_text n) }
    ensures short { IfOk result (λ text. length (string_bytes text) ≤ 2 ^ 20) }
{
    let mut text = String::new(alloc);
    for i in 0..n {
        write_line(&mut text, i + 1)?;
    }
    Ok(text)
}

fn write_line(text: &mut String, i: u64) -> Result<(), AllocError>
    requires { i ≤ 4096 }
    ensures { IfOk result (λ _. string_bytes text.new ≡ string_bytes text.old ++ line_of i) }
{
    let a = i % 5;
    let b = i * i % 7;
    match i % 6 {
        1 => writeln!(text, "value {{{a}|-{b}}}"),
        2 => writeln!(text, "value ^{a} + *"),
        3 => writeln!(text, "compare ^{a} ; *{b}"),
        4 => writeln!(text, "temp {{{a}||{b}|-{a}}}"),
        5 => {
            let row = strip(a % 3);
            writeln!(text, "outcome Clobber(\"{row}\")")
        }
        _ => write_grid(text, row(a % 3)),
    }
}

/// Appends a line with a Domineering board of two such rows.
fn write_grid(text: &mut String, row: &str) -> Result<(), AllocError>
    ensures { IfOk result (λ _. string_bytes text.new ≡ string_bytes text.old ++ (grid_line row.now ++ 10 ∷ [])) }
{
    writeln!(text, "value Domineering(\"{row}|{row}\")")
}

/// `c + 2` stones of a strip, x and o by turns.
fn strip(c: u64) -> &'static str
    requires { c < 3 }
    ensures { result.now ≡ take (c + 2) (codes "xoxo") }
{
    match c {
        0 => "xo",
        1 => "xox",
        _ => "xoxo",
    }
}

/// A row of `c + 1` empty cells.
fn row(c: u64) -> &'static str
    requires { c < 3 }
    ensures { result.now ≡ dots (c + 1) }
{
    match c {
        0 => ".",
        1 => "..",
        _ => "...",
    }
}
