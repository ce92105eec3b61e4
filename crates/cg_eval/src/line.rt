//! Lines, answered on a store.
ghost use Rattle.std.specs.Prelude.{◌≡◌, ◌+◌, ◌≤◌, false, IfOk, OnOk};
ghost use Rattle.cg_eval.specs.Reply.{IsReply};
ghost use Rattle.cg_eval.specs.Shown.{shown, HandleOf, IsDeepAt};
ghost use Rattle.cg_eval.specs.Stores.{KeepsStore};
ghost use Rattle.cg_grammar.specs.Lines.{is_blank_line, IsComment};

use crate::Answered;
use crate::forms::CgBoards;
use crate::refusals::refuse_syntax;
use crate::reply::answer_query;
use cg_cells::CellStore;
use cg_nodes::GameFacts;
use cg_syntax::laws::one_query;
use cg_syntax::{Line, SyntaxFault, read_line};
use std::alloc::{AllocError, Global};

/// The reply to a line that gets one, that is, to one that is neither blank nor a comment. It is made on a share of so
/// much of the store's spare, with so many positions at most in one list of items.
///
/// It is the first of these that applies: `! syntax c` with the column at which the line leaves the grammar; and else
/// the reply to its question, as [`answer_query`] gives it. Its last refusal, of a mean or a temperature that needs
/// more than 60 binary places, never comes where the value's depth is 20 or less. The one fault is out of memory.
/// Whatever it answers, what the store knew it knows, and its spare falls by the share at most.
pub fn answer<S: CellStore<GameFacts<CgBoards>>>(
    alloc: Global,
    store: &mut S,
    line: &[u8],
    share: u64,
    positions: u64,
) -> Result<Answered, AllocError>
    requires not_blank { is_blank_line line.now ≡ false }
    requires not_comment { ¬ IsComment line.now }
    requires spare { share ≤ (S.state store.old).spare }
    ensures reply { IfOk result (λ a. IsReply share positions line.now (shown a)) }
    ensures handle { IfOk result (λ a. HandleOf (S.state store.new) line.now a.refused a.handle) }
    ensures deep { OnOk result (IsDeepAt share positions line.now) }
    ensures keeps { KeepsStore (S.state store.old) (S.state store.new) }
    ensures spare { (S.state store.old).spare ≤ (S.state store.new).spare + share }
{
    one_query();
    match read_line(alloc, line) {
        Ok(Line::Ask(query)) => answer_query(alloc, store, &query, share, positions),
        Ok(Line::Blank) => unreachable!(),
        Ok(Line::Comment) => unreachable!(),
        Err(SyntaxFault::Syntax(column)) => refuse_syntax(alloc, column),
        Err(SyntaxFault::Memory) => Err(AllocError),
    }
}
