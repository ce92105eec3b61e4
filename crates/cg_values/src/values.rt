//! The values of the parts that play can come to, one after another.
ghost use Rattle.std.specs.Prelude.{◌≡◌, ◌≢◌, ◌≤◌, [], true, All, IfErr, IfOk, OnOk, length, map};
ghost use Rattle.std.specs.List.{flat_map};
ghost use Rattle.cg_canon.specs.Made.{ItemsMade};
ghost use Rattle.cg_canon.specs.Works.{work_state};
ghost use Rattle.cg_nodes.specs.Can.{can};
ghost use Rattle.cg_nodes.specs.Games.{StandFor, StandsFor};
ghost use Rattle.cg_moves.specs.declared.player.Player.TheVariants.{Left};
ghost use Rattle.cg_moves.specs.Graph.{AreNext};
ghost use Rattle.cg_moves.specs.Raw.{raw};
ghost use Rattle.cg_moves.specs.Rules.{boards_after, followers};
ghost use Rattle.cg_values.specs.Notes.{AreNoted, IsNoted, MayNote};
ghost use Rattle.cg_values.specs.Parts.{FrontsNoted, HoldAt, part_items, parts_of, values_of};

use crate::Adder;
use crate::item::board_item;
use crate::joining::joined;
use crate::options::Options;
use crate::prefetching::{boards_ahead, prefetch_boards};
use cg_canon::{ValueFault, Work};
use cg_cells::CellStore;
use cg_moves::{Board, PositionGraph, Rules};
use cg_nodes::{BoardForms, GameFacts, Handle};
use smallvec::SmallVec;
use std::alloc::Global;

/// A part that play can come to; what comes next after it, as [`PositionGraph`] has it; and the handles of the values
/// of the parts before it.
#[derive(Clone, Copy)]
struct Part<'a> {
    board: &'a Board,
    lefts: usize,
    counts: &'a [u32],
    places: &'a [u32],
    handles: &'a [Handle],
}

/// Makes the items of the part, from the handles of the values of those before it.
fn part_value<B: BoardForms, S: CellStore<GameFacts<B>>, R: Rules, A: Adder>(
    alloc: Global,
    work: &mut Work<B, S>,
    rules: &R,
    adder: &A,
    part: Part<'_>,
    start: u64,
) -> Result<Handle, ValueFault>
    requires has { (R.game rules.now).has part.board.now ≡ true }
    requires notes { MayNote B.form (R.game rules.now) }
    requires lefts { part.lefts ≡ length (boards_after (R.game rules.now) Left part.board.now) }
    requires counts { part.counts.now
        ≡ map (λ q. length (parts_of (R.game rules.now) q)) (followers (R.game rules.now) part.board.now) }
    requires values { HoldAt (work_state S.state work.old) (R.game rules.now) part.handles.now part.places.now
        (flat_map (parts_of (R.game rules.now)) (followers (R.game rules.now) part.board.now)) }
    requires spare { start ≤ (work_state S.state work.old).spare }
    ensures game { IfOk result (λ h. StandsFor (work_state S.state work.new) h (can (raw (R.game rules.now) part.entry.board.now))) }
    ensures noted { OnOk result ((R.game rules.now).number ≢ 0
        → IsNoted (work_state S.state work.new) (R.game rules.now) part.entry.board.now) }
    ensures made { ItemsMade (work_state S.state work.old) (work_state S.state work.new)
        (part_items work.old.limit (R.game rules.now) part.entry.board.now) result }
    ensures spare { start ≤ (work_state S.state work.new).spare }
{
    // Called for the proof alone: the rules are lawful.
    rules.lawful();
    let mut places = part.places;
    let mut options = SmallVec::with_capacity(alloc, part.counts.len())?;
    for count in part.counts {
        let (own, others) = places.split_at(*count as usize);
        let option = joined(alloc, work, adder, part.handles, own)?;
        options.push_reserved(option);
        places = others;
    }
    let options = Options {
        lefts: part.lefts,
        handles: options,
    };
    board_item(alloc, work, rules, part.board, &options, start)
}

/// Makes the items of the parts, in order, and gives the handles of their values. The boards ahead are prefetched
/// before.
pub(crate) fn part_values<B: BoardForms, S: CellStore<GameFacts<B>>, R: Rules, A: Adder>(
    alloc: Global,
    work: &mut Work<B, S>,
    rules: &R,
    adder: &A,
    graph: &PositionGraph,
) -> Result<Vec<Handle>, ValueFault>
    requires has { All (λ p. (R.game rules.now).has p ≡ true) graph.now.boards }
    requires notes { MayNote B.form (R.game rules.now) }
    requires next { AreNext (R.game rules.now) (parts_of (R.game rules.now)) graph.now.counts.items graph.now.places.items []
        graph.now.boards graph.now.next.items }
    ensures values { IfOk result (λ handles. StandFor (work_state S.state work.new) handles.items
        (values_of (R.game rules.now) graph.now.boards)) }
    ensures noted { OnOk result (AreNoted (work_state S.state work.new) (R.game rules.now) graph.now.boards) }
    ensures fronts { IfErr result (λ fault. fault ≢ ValueFault.Memory → FrontsNoted (work_state S.state work.old)
        (work_state S.state work.new) (R.game rules.now) graph.now.boards) }
    ensures made { ItemsMade (work_state S.state work.old) (work_state S.state work.new)
        (flat_map (part_items work.old.limit (R.game rules.now)) graph.now.boards) result }
    ensures more { (work_state S.state work.old).spare ≤ (work_state S.state work.new).spare }
{
    let spare = work.spare();
    let mut handles = Vec::with_capacity(alloc, graph.boards.len())?;
    for (place, board) in graph.boards.as_slice().iter().enumerate() {
        let ahead = boards_ahead(graph.boards.as_slice(), place);
        prefetch_boards(alloc, work, rules.number(), ahead);
        let next = graph.next[place];
        let part = Part {
            board,
            lefts: next.lefts as usize,
            counts: graph.counts_of(next),
            places: graph.places_of(next),
            handles: &handles,
        };
        let value = part_value(alloc, work, rules, adder, part, spare)?;
        handles.push(value)?;
    }
    Ok(handles)
}
