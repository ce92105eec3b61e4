//! Laws of the grammar and of sessions, for all lines, questions and texts. A call puts its law into the caller's
//! facts.
ghost use Rattle.std.specs.Prelude.{◌≡◌, ◌≤◌, ℕ, List, length};
ghost use Rattle.cg_query.specs.Heights.{QuestionIs, height};
ghost use Rattle.cg_query.specs.Tree.{Question, Statement};
ghost use Rattle.cg_query.specs.declared.format.Format.{Format};
ghost use Rattle.cg_grammar.specs.Lines.{Reads, ReadsIn};
ghost use Rattle.cg_syntax.specs.Naming.{IsClosedQuestion, question_asked};
ghost use Rattle.cg_syntax.specs.Levels.{AreLowLines};
ghost use Rattle.cg_syntax.specs.Session.{AreClosedLines, IsSession, Resolved, answered_lines};

pub use cg_grammar::laws::{longest_run, one_query, one_statement};
pub use cg_writer::laws::written_reads;

/// What a line of format 1 asks has no names.
pub fn no_names()
    ensures { (line : List ℕ) (q : Question) → Reads line q → IsClosedQuestion q }
{}

/// No expression that a line of either format states has more than 773 levels, where a use of a name counts one.
pub fn few_levels()
    ensures { (format : Format) (line : List ℕ) (s : Statement) → ReadsIn format line s
        → QuestionIs (λ t. height t ≤ 773) (question_asked s) }
{}

/// A text says exactly one session, with as many lines as the text has that get an answer. No question in it has a
/// name, nor an expression of more than 1,024 levels.
pub fn one_session()
    ensures some { (text : List ℕ) → (rs : List (ℕ × Resolved)) × IsSession text rs }
    ensures unique { (text : List ℕ) (rs qs : List (ℕ × Resolved)) → IsSession text rs → IsSession text qs → rs ≡ qs }
    ensures counted { (text : List ℕ) (rs : List (ℕ × Resolved)) → IsSession text rs → length rs ≡ length (answered_lines text) }
    ensures closed { (text : List ℕ) (rs : List (ℕ × Resolved)) → IsSession text rs → AreClosedLines rs }
    ensures low { (text : List ℕ) (rs : List (ℕ × Resolved)) → IsSession text rs → AreLowLines rs }
{}
