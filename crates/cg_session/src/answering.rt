//! The answers of a whole session: its limits, its lines, its output.
ghost use Rattle.std.specs.Prelude.{◌≡◌, ◌≤◌, ℕ, [], IfOk, IfSome, MatchOption, length, map};
ghost use Rattle.cg_words.specs.Accepted.{InRange};
ghost use Rattle.cg_session.specs.Kept.{KeepsAnswers, KeepsSession};
ghost use Rattle.cg_session.specs.Output.{IsOutput, IsOutputOf, IsWritten, written_of};
ghost use Rattle.cg_session.specs.Output.{Output as Out};
ghost use Rattle.cg_session.specs.Outputs.{AreReplies, output_of};
ghost use Rattle.cg_session.specs.Settings.{IsWithinBytes, IsWithinLimits};
ghost use Rattle.cg_syntax.specs.Session.{answered_lines};
ghost use Rattle.cg_syntax.specs.SessionViews.{line_of};

use crate::job::LineJob;
use crate::output::{Output, make_output, make_summary};
use crate::weighing::weights_of;
use cg_eval::{Answered, CgBoards};
use cg_nodes::GameFacts;
use cg_pool::{Evaluated, Gate, evaluate_by_weight};
use cg_syntax::laws::one_session;
use cg_syntax::{SessionLine, read_session_within};
use cg_words::Settings;
use std::alloc::{AllocError, Global};
use std::thread::Threads;

/// The answers to the answered lines of a session, in order, the table, and a pass of it that knows the handle of every
/// answer that has one.
pub type Kept = Evaluated<GameFacts<CgBoards>, Answered>;

const MOST_ANSWERED: u64 = 4096;

/// An output, and what is kept of the session: None if no line gets an answer.
#[derive(Drop)]
pub struct Answers {
    pub output: Output,
    pub kept: Option<Kept>,
}

/// Answers a session within the limit of bytes. None if it has too many answered lines.
pub fn answer_session<R: Threads + Sync, G: Gate>(
    rt: &R,
    alloc: Global,
    settings: Settings,
    text: &[u8],
    gate: &G,
) -> Result<Option<Answers>, AllocError>
    requires range { InRange settings }
    requires bytes { IsWithinBytes text.now }
    ensures within { IfOk result (λ o. MatchOption o (¬ IsWithinLimits settings text.now)
        (λ a. IsWithinLimits settings text.now)) }
    ensures written { IfOk result (λ o. IfSome o (λ a. IsWritten settings text.now (output_of a.output))) }
    ensures kept { IfOk result (λ o. IfSome o (λ a. MatchOption a.kept (answered_lines text.now ≡ [])
        (λ k. KeepsSession settings text.now k.answers.items k.cells k.pass))) }
{
    let most = settings.cells.min(MOST_ANSWERED);
    let Some(session) = read_session_within(alloc, text, most)? else {
        return Ok(None);
    };
    one_session();
    let answers = answer_lines::<R, G>(rt, alloc, settings, session.lines.as_slice(), gate)?;
    Ok(Some(answers))
}

fn answer_lines<R: Threads + Sync, G: Gate>(
    rt: &R,
    alloc: Global,
    settings: Settings,
    lines: &[SessionLine],
    gate: &G,
) -> Result<Answers, AllocError>
    requires range { InRange settings }
    requires cells { length lines.now ≤ settings.cells }
    ensures written { IfOk result (λ a. (out : Out) × IsOutput settings (map line_of lines.now) out
        × (output_of a.output ≡ written_of settings.sample out)) }
    ensures kept { IfOk result (λ a. MatchOption a.kept (map line_of lines.now ≡ [])
        (λ k. KeepsAnswers settings (map line_of lines.now) k.answers.items k.cells k.pass)) }
{
    if lines.is_empty() {
        let output = make_written(alloc, settings.sample, lines, &[])?;
        return Ok(Answers { output, kept: None });
    }
    let weights = weights_of(alloc, lines, settings.workers)?;
    let job = LineJob {
        lines,
        share: settings.cells / lines.len() as u64,
        positions: settings.positions,
    };
    let kept = evaluate_by_weight::<R, GameFacts<CgBoards>, LineJob<'_>, G>(
        rt,
        alloc,
        &weights,
        job.share,
        settings.workers,
        &job,
        gate,
    )?;
    let output = make_written(alloc, settings.sample, lines, &kept.answers)?;
    Ok(Answers {
        output,
        kept: Some(kept),
    })
}

/// The output of these answers, or its summary if there is a sample.
fn make_written(
    alloc: Global,
    sample: u64,
    lines: &[SessionLine],
    answers: &[Answered],
) -> Result<Output, AllocError>
    requires { length answers.now ≡ length lines.now }
    ensures { IfOk result (λ w. (share positions : ℕ) → AreReplies share positions (map line_of lines.now) answers.now
        → (out : Out) × IsOutputOf share positions (map line_of lines.now) out
        × (output_of w ≡ written_of sample out)) }
{
    let output = make_output(alloc, lines, answers)?;
    if sample == 0 {
        return Ok(output);
    }
    make_summary(alloc, sample, &output)
}
