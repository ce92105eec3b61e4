//! Answers to lines that ask nothing.
ghost use Rattle.std.specs.Prelude.{◌≡◌, None, IfOk, string_bytes};
ghost use Rattle.cg_eval.specs.Reply.{refusal, syntax_at};
ghost use Rattle.cg_eval.specs.Shown.{shown};
ghost use Rattle.cg_session.specs.Replies.{too_large, unknown_at};

use cg_eval::Answered;
use cg_syntax::Text;
use std::alloc::{AllocError, Global};

fn refused(text: String) -> Answered
    ensures text { shown result ≡ refusal (string_bytes text) }
    ensures handle { result.handle ≡ None }
{
    Answered {
        text: Text::of(text.into_bytes()),
        refused: true,
        handle: None,
    }
}

/// A syntax error at the column.
pub fn refuse_syntax(alloc: Global, column: u64) -> Result<Answered, AllocError>
    ensures text { IfOk result (λ a. shown a ≡ syntax_at column) }
    ensures handle { IfOk result (λ a. a.handle ≡ None) }
{
    let text = format!(in alloc; "! syntax {column}")?;
    Ok(refused(text))
}

/// A name at the column that no earlier line defines.
pub fn refuse_name(alloc: Global, column: u64) -> Result<Answered, AllocError>
    ensures text { IfOk result (λ a. shown a ≡ unknown_at column) }
    ensures handle { IfOk result (λ a. a.handle ≡ None) }
{
    let text = format!(in alloc; "! name {column}")?;
    Ok(refused(text))
}

/// An expression that is too large once names are expanded.
pub fn refuse_parts(alloc: Global) -> Result<Answered, AllocError>
    ensures text { IfOk result (λ a. shown a ≡ too_large) }
    ensures handle { IfOk result (λ a. a.handle ≡ None) }
{
    let text = String::from_str(alloc, "! parts")?;
    Ok(refused(text))
}
