//! The boards that play can come to from a board.
ghost use Rattle.std.specs.Prelude.{◌≡◌, ◌<◌, ◌≤◌, ◌∷◌, [], true, IfOk, OnOk, length, Err};
ghost use Rattle.cg_moves.specs.Graph.{AreNext, StandAt, uncut};
ghost use Rattle.cg_moves.specs.PieceReach.{piece_reach_of};
ghost use Rattle.cg_moves.specs.Reach.{reach_of};
ghost use Rattle.cg_moves.specs.Rules.{cuts, pieces};

use crate::edges::{Edges, pieces_in, singleton};
use crate::walk::open_all;
use crate::{Board, Boards, PositionGraph, ReachFault, Rules};
use std::alloc::Global;

/// The boards that play can come to from the start, which must be a board of the game, as [`reach`] lists them, and for
/// each board what comes next after it: how many boards Left's moves lead to, that each is its own only part, and the
/// places of the boards that moves lead to. `Positions` comes exactly where there are more boards than `limit`.
/// `Memory` is the other error.
pub fn open<R: Rules>(
    alloc: Global,
    rules: &R,
    start: &Board,
    limit: u64,
) -> Result<PositionGraph, ReachFault>
    requires { (R.game rules.now).has start.now ≡ true }
    ensures boards { IfOk result (λ graph. graph.boards ≡ reach_of (R.game rules.now) start.now) }
    ensures next { IfOk result (λ graph. AreNext (R.game rules.now) uncut graph.counts.items graph.places.items [] graph.boards
        graph.next.items) }
    ensures starts { IfOk result (λ graph. StandAt graph.boards graph.starts.items (start.now ∷ [])) }
    ensures within { OnOk result (length (reach_of (R.game rules.now) start.now) ≤ limit) }
    ensures refused { result ≡ Err ReachFault.Positions → limit < length (reach_of (R.game rules.now) start.now) }
{
    // Called for the proof alone: the rules are lawful.
    rules.lawful();
    let starts = singleton(alloc, start)?;
    open_all(alloc, rules, Edges::Moves, starts, limit)
}

/// The boards that play can come to from the pieces of the start, which must be a board of the game, as
/// [`reach_pieces`] lists them, and for each board what comes next after it: how many boards Left's moves lead to, how
/// many pieces each board has that a move leads to, and the places of these pieces. The rules must cut. `Positions`
/// comes exactly where there are more boards than `limit`. `Memory` is the other error.
pub fn open_pieces<R: Rules>(
    alloc: Global,
    rules: &R,
    start: &Board,
    limit: u64,
) -> Result<PositionGraph, ReachFault>
    requires has { (R.game rules.now).has start.now ≡ true }
    requires cuts { cuts (R.game rules.now) ≡ true }
    ensures boards { IfOk result (λ graph. graph.boards ≡ piece_reach_of (R.game rules.now) start.now) }
    ensures next { IfOk result (λ graph. AreNext (R.game rules.now) (pieces (R.game rules.now)) graph.counts.items graph.places.items []
        graph.boards graph.next.items) }
    ensures starts { IfOk result (λ graph. StandAt graph.boards graph.starts.items (pieces (R.game rules.now) start.now)) }
    ensures within { OnOk result (length (piece_reach_of (R.game rules.now) start.now) ≤ limit) }
    ensures refused { result ≡ Err ReachFault.Positions → limit < length (piece_reach_of (R.game rules.now) start.now) }
{
    // Called for the proof alone: the rules are lawful.
    rules.lawful();
    let starts = pieces_in(alloc, rules, start)?;
    open_all(alloc, rules, Edges::Pieces, starts, limit)
}

/// The boards that play can come to from the start, which must be a board of the game: those of each Left move in
/// order, those of each Right move in order, then the start itself, each only where it comes first. `Positions` comes
/// exactly where there are more than `limit`. `Memory` is the other error.
pub fn reach<R: Rules>(
    alloc: Global,
    rules: &R,
    start: &Board,
    limit: u64,
) -> Result<Boards, ReachFault>
    requires { (R.game rules.now).has start.now ≡ true }
    ensures boards { IfOk result (λ boards. boards ≡ reach_of (R.game rules.now) start.now) }
    ensures within { OnOk result (length (reach_of (R.game rules.now) start.now) ≤ limit) }
    ensures refused { result ≡ Err ReachFault.Positions → limit < length (reach_of (R.game rules.now) start.now) }
{
    Ok(open(alloc, rules, start, limit)?.boards)
}

/// The boards that play can come to from the pieces of the start, which must be a board of the game; the rules must
/// cut. For each piece in order these are those of the pieces of the boards that its Left moves lead to, those of its
/// Right moves, then the piece itself, each only where it comes first. `Positions` comes exactly where there are more
/// than `limit`. `Memory` is the other error.
pub fn reach_pieces<R: Rules>(
    alloc: Global,
    rules: &R,
    start: &Board,
    limit: u64,
) -> Result<Boards, ReachFault>
    requires has { (R.game rules.now).has start.now ≡ true }
    requires cuts { cuts (R.game rules.now) ≡ true }
    ensures boards { IfOk result (λ boards. boards ≡ piece_reach_of (R.game rules.now) start.now) }
    ensures within { OnOk result (length (piece_reach_of (R.game rules.now) start.now) ≤ limit) }
    ensures refused { result ≡ Err ReachFault.Positions
        → limit < length (piece_reach_of (R.game rules.now) start.now) }
{
    Ok(open_pieces(alloc, rules, start, limit)?.boards)
}
