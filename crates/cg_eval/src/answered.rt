//! The answer of a line.
ghost use Rattle.std.specs.Prelude.{◌≡◌, Some, string_bytes, IfOk};
ghost use Rattle.cg_eval.specs.Refused.{IsRefusedBy};
ghost use Rattle.cg_eval.specs.Reply.{answer, refusal};
ghost use Rattle.cg_eval.specs.Shown.{shown};

use cg_nodes::Handle;
use cg_syntax::Text;
use std::alloc::{AllocError, Global};

/// The reply to a line.
#[derive(Debug, Drop)]
pub struct Answered {
    /// The text after the line's number.
    pub text: Text,
    /// Whether the line is refused.
    pub refused: bool,
    /// The value of the line's first expression, exactly where the line isn't refused.
    pub handle: Option<Handle>,
}

/// The answer of this text.
pub(crate) fn answer_of(text: String, value: Handle) -> Answered
    ensures text { shown result ≡ answer (string_bytes text) }
    ensures value { result.handle ≡ Some value }
{
    Answered {
        text: Text::of(text.into_bytes()),
        refused: false,
        handle: Some(value),
    }
}

/// The refusal of this text.
pub(crate) fn refused(text: String) -> Answered
    ensures { IsRefusedBy (refusal (string_bytes text)) result }
{
    Answered {
        text: Text::of(text.into_bytes()),
        refused: true,
        handle: None,
    }
}

/// The refusal of this text.
pub(crate) fn refuse(alloc: Global, text: &str) -> Result<Answered, AllocError>
    ensures { IfOk result (IsRefusedBy (refusal text.now)) }
{
    let text = String::from_str(alloc, text)?;
    Ok(refused(text))
}
