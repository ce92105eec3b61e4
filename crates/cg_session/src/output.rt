//! The output of the lines of a session.
ghost use Rattle.std.specs.Prelude.{◌≡◌, ◌+◌, ◌<◌, ◌^◌, ◌++◌, ◌∷◌, [], ℕ, IfOk, OnOk, decimal, codes, length, map};
ghost use Rattle.cg_eval.specs.Shown.{shown};
ghost use Rattle.cg_syntax.specs.SessionViews.{line_of};
ghost use Rattle.cg_session.specs.Output.{IsOutputOf, joined, numbered, summary};
ghost use Rattle.cg_session.specs.Outputs.{AreReplies, output_of};

use cg_eval::Answered;
use cg_syntax::SessionLine;
use std::alloc::{AllocError, Global};

/// A text to be written, and how many lines were refused.
#[derive(Debug, Drop)]
pub struct Output {
    pub text: Vec<u8>,
    pub refused: u64,
}

/// One line of output for each answer, in order.
pub fn make_output(
    alloc: Global,
    lines: &[SessionLine],
    answers: &[Answered],
) -> Result<Output, AllocError>
    requires { length answers.now ≡ length lines.now }
    ensures { IfOk result (λ out. (share positions : ℕ) → AreReplies share positions (map line_of lines.now) answers.now
        → IsOutputOf share positions (map line_of lines.now) (output_of out)) }
{
    let mut out = Output {
        text: Vec::new(alloc),
        refused: 0,
    };
    for (i, line) in lines.iter().enumerate() {
        push_reply(alloc, &mut out, line.number, &answers[i])?;
    }
    Ok(out)
}

fn push_reply(
    alloc: Global,
    out: &mut Output,
    number: u64,
    answer: &Answered,
) -> Result<(), AllocError>
    requires { out.old.refused + 1 < 2 ^ 64 }
    ensures { OnOk result (output_of out.new ≡ joined (output_of out.old) (numbered number (shown answer.now))) }
{
    push_line(alloc, &mut out.text, number, answer.text.as_slice())?;
    out.refused += u64::from(answer.refused);
    Ok(())
}

/// Appends `number: reply` and LF.
fn push_line(alloc: Global, text: &mut Vec<u8>, number: u64, reply: &[u8]) -> Result<(), AllocError>
    ensures { OnOk result (text.new.items
        ≡ text.old.items ++ (decimal number ++ codes ": " ++ reply.now ++ (10 ∷ []))) }
{
    let digits = number.to_string(alloc)?;
    text.extend_from_slice(digits.as_bytes())?;
    text.extend_from_slice(b": ")?;
    text.extend_from_slice(reply)?;
    text.push(b'\n')?;
    Ok(())
}

/// The summary of a sample's output: how many lines the sample has, how many of them are refused, and how many bytes
/// the output has.
pub fn make_summary(alloc: Global, lines: u64, out: &Output) -> Result<Output, AllocError>
    ensures { IfOk result (λ written. output_of written ≡ summary lines (output_of out.now)) }
{
    let refused = out.refused;
    let bytes = out.text.len();
    let text = format!(in alloc; "lines {lines} refused {refused} bytes {bytes}\n")?;
    Ok(Output {
        text: text.into_bytes(),
        refused,
    })
}
