//! Refusals, by their causes.
ghost use Rattle.std.specs.Prelude.{◌≡◌, IfOk, string_bytes};
ghost use Rattle.cg_eval.specs.IllFormed.{board_text, graph_text, octal_text};
ghost use Rattle.cg_eval.specs.Refused.{IsRefusedBy, IsRefusedFor};
ghost use Rattle.cg_eval.specs.Reply.{ill_formed, syntax_at};

use crate::Answered;
use crate::answered::{refuse, refused};
use crate::fault::GameFault;
use cg_canon::ValueFault;
use cg_graph::GraphFault;
use cg_moves::BoardFault;
use cg_octal::OctalFault;
use cg_syntax::Text;
use std::alloc::{AllocError, Global};

/// The refusal of a line that leaves the grammar at the column.
pub fn refuse_syntax(alloc: Global, column: u64) -> Result<Answered, AllocError>
    ensures { IfOk result (IsRefusedBy (syntax_at column)) }
{
    let text = format!(in alloc; "! syntax {column}")?;
    Ok(Answered {
        text: Text::of(text.into_bytes()),
        refused: true,
        handle: None,
    })
}

/// The text of the refusal of a board. Out of memory has none.
fn board_text(alloc: Global, fault: BoardFault) -> Result<String, AllocError>
    ensures { IfOk result (λ text. string_bytes text ≡ board_text fault) }
{
    match fault {
        BoardFault::Symbol(place) => format!(in alloc; "! board symbol {place}"),
        BoardFault::Empty(place) => format!(in alloc; "! board empty {place}"),
        BoardFault::Ragged(place) => format!(in alloc; "! board ragged {place}"),
        BoardFault::Large(place) => format!(in alloc; "! board large {place}"),
        BoardFault::Rules(place) => format!(in alloc; "! board rules {place}"),
        BoardFault::Lowering(rule) => format!(in alloc; "! board lowering {rule}"),
        BoardFault::Memory => Err(AllocError),
    }
}

/// The text of the refusal of a graph. Out of memory has none.
fn graph_text(alloc: Global, fault: GraphFault) -> Result<String, AllocError>
    ensures { IfOk result (λ text. string_bytes text ≡ graph_text fault) }
{
    match fault {
        GraphFault::Symbol(place) => format!(in alloc; "! board symbol {place}"),
        GraphFault::Empty(place) => format!(in alloc; "! board empty {place}"),
        GraphFault::Large(place) => format!(in alloc; "! board large {place}"),
        GraphFault::Edges(place) => format!(in alloc; "! board edges {place}"),
        GraphFault::Memory => Err(AllocError),
    }
}

/// The text of the refusal of the code or the heap of an octal game. Out of memory has none.
fn octal_text(alloc: Global, fault: OctalFault) -> Result<String, AllocError>
    ensures { IfOk result (λ text. string_bytes text ≡ octal_text fault) }
{
    match fault {
        OctalFault::Code(place) => format!(in alloc; "! board octal {place}"),
        OctalFault::Heap => String::from_str(alloc, "! board heap 1"),
        OctalFault::Memory => Err(AllocError),
    }
}

/// The refusal of an ill-formed board or heap. Out of memory has none.
pub fn refuse_board(alloc: Global, fault: GameFault) -> Result<Answered, AllocError>
    ensures { IfOk result (IsRefusedBy (ill_formed fault)) }
{
    let text = match fault {
        GameFault::Board(fault) => board_text(alloc, fault)?,
        GameFault::Graph(fault) => graph_text(alloc, fault)?,
        GameFault::Octal(fault) => octal_text(alloc, fault)?,
    };
    Ok(refused(text))
}

/// The refusal of a question of which an item is refused for this cause. Out of memory has none.
pub fn refuse_value(alloc: Global, fault: ValueFault) -> Result<Answered, AllocError>
    ensures { IfOk result (IsRefusedFor fault) }
{
    match fault {
        ValueFault::Positions => refuse(alloc, "! positions"),
        ValueFault::Range => refuse(alloc, "! range"),
        ValueFault::Depth(_) => refuse(alloc, "! depth"),
        ValueFault::Full(_) => refuse(alloc, "! full"),
        ValueFault::Memory => Err(AllocError),
    }
}
