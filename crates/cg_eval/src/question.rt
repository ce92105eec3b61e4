//! Answers to questions, on a work.
ghost use Rattle.cg_canon.specs.Works.{work_state};
ghost use Rattle.cg_eval.specs.Parts.{asked_of, asked_of_two};
ghost use Rattle.cg_eval.specs.Progress.{EvaluatesTwo};
ghost use Rattle.cg_eval.specs.Shown.{Answers};
ghost use Rattle.cg_query.specs.Trees.{question_of, tree_of};

use crate::Answered;
use crate::evaluate::evaluate;
use crate::fault::NoValue;
use crate::forms::CgBoards;
use crate::pictures::Part;
use crate::telling::{Asked, AskedOfTwo, tell, tell_two};
use cg_canon::Work;
use cg_cells::CellStore;
use cg_nodes::{GameFacts, Handle};
use cg_syntax::{Expr, Query};
use std::alloc::Global;

/// The answer to a question. It makes the question's items in order; the cause is that of the first board or heap that
/// is ill-formed, or of the first item that is refused, whichever it comes to first; or out of memory.
pub fn answer_question<S: CellStore<GameFacts<CgBoards>>>(
    alloc: Global,
    work: &mut Work<CgBoards, S>,
    query: &Query,
) -> Result<Answered, NoValue>
    ensures { Answers (work_state S.state work.old) (work_state S.state work.new) (question_of query.now) result }
{
    match query {
        Query::Value(expr) => answer_about(alloc, work, Asked::Value, expr),
        Query::Compare(first, second) => {
            answer_about_two(alloc, work, AskedOfTwo::Order, first, second)
        }
        Query::Outcome(expr) => answer_about(alloc, work, Asked::Outcome, expr),
        Query::Stops(expr) => answer_about(alloc, work, Asked::Stops, expr),
        Query::Mean(expr) => answer_about(alloc, work, Asked::Picture(Part::Mean), expr),
        Query::Temp(expr) => answer_about(alloc, work, Asked::Picture(Part::Temp), expr),
        Query::Thermo(expr) => answer_about(alloc, work, Asked::Picture(Part::Whole), expr),
        Query::Proof(first, second) => {
            answer_about_two(alloc, work, AskedOfTwo::Proof, first, second)
        }
        Query::Check(first, second, text) => {
            let asked = AskedOfTwo::Check(text.as_slice());
            answer_about_two(alloc, work, asked, first, second)
        }
    }
}

/// What is asked of an expression.
fn answer_about<S: CellStore<GameFacts<CgBoards>>>(
    alloc: Global,
    work: &mut Work<CgBoards, S>,
    asked: Asked,
    expr: &Expr,
) -> Result<Answered, NoValue>
    ensures { Answers (work_state S.state work.old) (work_state S.state work.new)
        (asked_of asked (tree_of expr.now)) result }
{
    let value = evaluate(alloc, work, expr)?;
    let told = tell(alloc, work, asked, value)?;
    Ok(told)
}

/// The values of two expressions. The first one's items are made before the second's.
fn evaluate_two<S: CellStore<GameFacts<CgBoards>>>(
    alloc: Global,
    work: &mut Work<CgBoards, S>,
    first: &Expr,
    second: &Expr,
) -> Result<(Handle, Handle), NoValue>
    ensures { EvaluatesTwo (work_state S.state work.old) (work_state S.state work.new) (tree_of first.now)
        (tree_of second.now) result }
{
    let left = evaluate(alloc, work, first)?;
    let right = evaluate(alloc, work, second)?;
    Ok((left, right))
}

/// What is asked of two expressions.
fn answer_about_two<S: CellStore<GameFacts<CgBoards>>>(
    alloc: Global,
    work: &mut Work<CgBoards, S>,
    asked: AskedOfTwo<'_>,
    first: &Expr,
    second: &Expr,
) -> Result<Answered, NoValue>
    ensures { Answers (work_state S.state work.old) (work_state S.state work.new)
        (asked_of_two asked.entry (tree_of first.now) (tree_of second.now)) result }
{
    let values = evaluate_two(alloc, work, first, second)?;
    let told = tell_two(alloc, work, asked, values.0, values.1)?;
    Ok(told)
}
