//! The law of what is written, for all questions. A call puts it into the caller's facts.
ghost use Rattle.std.specs.Prelude.{◌≤◌, ℕ, List};
ghost use Rattle.cg_query.specs.Heights.{QuestionIs, height};
ghost use Rattle.cg_query.specs.Tree.{Question};
ghost use Rattle.cg_grammar.specs.Lines.{Reads};
ghost use Rattle.cg_grammar.specs.Written.{asked_text};

/// What is written of a question that some line reads as, with at most 64 nodes on each path of its trees, is a line
/// that reads as it.
pub fn written_reads()
    ensures { (line : List ℕ) (q : Question) → Reads line q → QuestionIs (λ t. height t ≤ 64) q → Reads (asked_text q) q }
{}
