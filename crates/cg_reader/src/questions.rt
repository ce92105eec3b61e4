//! What is asked, and by which words.
ghost use Rattle.std.specs.Prelude.{◌≡◌, ◌≤◌, length, IfOk, ℕ};
ghost use Rattle.cg_reading.specs.Gives.{Gives};
ghost use Rattle.cg_grammar.specs.Reading.{kind_of, question_word_at, value_word_at};
ghost use Rattle.cg_query.specs.Trees.{tree_of, question_of};
ghost use Rattle.cg_reader.specs.Statements.{asking_of, asking_both_of, kind_view};

use crate::names::is_word;
use cg_query::{Expr, Query};
use cg_reading::{ReadFault, after_word, word_of};

/// What is asked of one expression.
#[derive(Clone, Copy)]
pub enum Asking {
    Value,
    Outcome,
    Stops,
    Mean,
    Temp,
    Thermo,
}

/// What is asked of two expressions.
#[derive(Clone, Copy)]
pub enum AskingBoth {
    Compare,
    Proof,
}

/// What the first word of a line tells.
#[derive(Clone, Copy)]
pub enum Kind {
    One(Asking),
    Two(AskingBoth),
    Check,
    Name,
}

/// The words of questions.
const QUESTIONS: [(&[u8], Kind); 9] = [
    (b"value", Kind::One(Asking::Value)),
    (b"compare", Kind::Two(AskingBoth::Compare)),
    (b"outcome", Kind::One(Asking::Outcome)),
    (b"stops", Kind::One(Asking::Stops)),
    (b"mean", Kind::One(Asking::Mean)),
    (b"temp", Kind::One(Asking::Temp)),
    (b"thermo", Kind::One(Asking::Thermo)),
    (b"proof", Kind::Two(AskingBoth::Proof)),
    (b"check", Kind::Check),
];

/// The word of a question.
pub fn question_word(bytes: &[u8]) -> Result<(Kind, &[u8]), ReadFault>
    ensures read { (end : ℕ) → Gives (λ x. (kind_view x.0, x.1.now)) result
        (question_word_at end bytes.now) }
    ensures shorter { IfOk result (λ x. length x.1.now ≤ length bytes.now) }
{
    word_of(&QUESTIONS, bytes)
}

/// The question for a value.
#[tactic(auto, unfolding(cg_grammar::specs::Reading::value_word_at))]
pub fn value_word(bytes: &[u8]) -> Result<((&[u8], Kind), &[u8]), ReadFault>
    ensures read { (end : ℕ) → Gives (λ x. ((x.0.0.now, kind_view x.0.1), x.1.now)) result
        (value_word_at end bytes.now) }
    ensures shorter { IfOk result (λ x. length x.1.now ≤ length bytes.now) }
{
    let rest = after_word(b"value", bytes)?;
    Ok(((&bytes[..0], Kind::One(Asking::Value)), rest))
}

/// What a line is whose first word is this one.
pub fn kind_of(word: &[u8]) -> Kind
    ensures { kind_view result ≡ kind_of word.now }
{
    if is_word(word, b"compare") {
        Kind::Two(AskingBoth::Compare)
    } else if is_word(word, b"outcome") {
        Kind::One(Asking::Outcome)
    } else if is_word(word, b"stops") {
        Kind::One(Asking::Stops)
    } else if is_word(word, b"mean") {
        Kind::One(Asking::Mean)
    } else if is_word(word, b"temp") {
        Kind::One(Asking::Temp)
    } else if is_word(word, b"thermo") {
        Kind::One(Asking::Thermo)
    } else if is_word(word, b"proof") {
        Kind::Two(AskingBoth::Proof)
    } else if is_word(word, b"check") {
        Kind::Check
    } else {
        Kind::Name
    }
}

/// The query that asks this of an expression.
pub fn query(asking: Asking, expr: Expr) -> Query
    ensures { question_of result ≡ asking_of asking (tree_of expr) }
{
    match asking {
        Asking::Value => Query::Value(expr),
        Asking::Outcome => Query::Outcome(expr),
        Asking::Stops => Query::Stops(expr),
        Asking::Mean => Query::Mean(expr),
        Asking::Temp => Query::Temp(expr),
        Asking::Thermo => Query::Thermo(expr),
    }
}

/// The query that asks this of two expressions.
pub fn query_of_both(asking: AskingBoth, first: Expr, second: Expr) -> Query
    ensures { question_of result ≡ asking_both_of asking (tree_of first) (tree_of second) }
{
    match asking {
        AskingBoth::Compare => Query::Compare(first, second),
        AskingBoth::Proof => Query::Proof(first, second),
    }
}
