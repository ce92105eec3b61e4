//! Parts by numbers: what play can come to, found in breadth, and what comes next after each part, listed once.
ghost use Rattle.std.specs.Prelude.{◌≡◌, ◌+◌, ◌<◌, ◌≤◌, ◌∷◌, ◌++◌, [], true, IfOk, List, OnOk, length, map, Err};
ghost use Rattle.std.specs.List.{flat_map};
ghost use Rattle.cg_moves.specs.Grid.{Grid};
ghost use Rattle.cg_moves.specs.Kept.{kept};
ghost use Rattle.cg_moves.specs.Linked.{CanLink, IsLinking, IsWider, MayLink, NumberedAs};
ghost use Rattle.cg_moves.specs.Plays.{parts_of};
ghost use Rattle.cg_moves.specs.Rules.{boards_after};
ghost use Rattle.cg_moves.specs.Visiting.{CanVisit};
ghost use Rattle.cg_moves.specs.Walking.{reached, walk_of};

use crate::edges::Edges;
use crate::found::Found;
use crate::linked::{Linked, Linking};
use crate::numbering::{count_ones, number_all, number_pieces};
use crate::pushing::{narrowed, push};
use crate::{Adjacency, Board, Player, ReachFault, Rules};
use std::alloc::{AllocError, Global};

/// Room for the boards that moves lead to from a part, and for the pieces of one of them. What comes next after another
/// part is put into the same room.
#[derive(Drop)]
struct Room {
    moved: Vec<Board>,
    pieces: Vec<Board>,
}

/// Numbers the parts of the boards that the player's moves lead to, and counts them, board by board.
#[inline(always)]
fn link_player<R: Rules>(
    alloc: Global,
    rules: &R,
    edges: Edges,
    board: &Board,
    player: Player,
    room: &mut Room,
    linked: &mut Linking,
) -> Result<(), AllocError>
    requires { MayLink (R.game rules.now) edges linked.old.found board.now }
    ensures next { linked.new.next ≡ linked.old.next }
    ensures found { IfOk result (λ _. linked.new.found ≡ kept linked.old.found
        (flat_map (parts_of (R.game rules.now) edges) (boards_after (R.game rules.now) player board.now))) }
    ensures numbers { IfOk result (λ _. NumberedAs linked.new.found linked.old.numbers.items linked.new.numbers.items
        (flat_map (parts_of (R.game rules.now) edges) (boards_after (R.game rules.now) player board.now))) }
    ensures counts { IfOk result (λ _. linked.new.counts.items ≡ linked.old.counts.items
        ++ map (λ q. length (parts_of (R.game rules.now) edges q)) (boards_after (R.game rules.now) player board.now)) }
{
    rules.moves_into(alloc, board, player, &mut room.moved)?;
    match edges {
        Edges::Moves => {
            count_ones(&room.moved, &mut linked.counts)?;
            number_all(alloc, &mut linked.found, &room.moved, &mut linked.numbers)
        }
        Edges::Pieces => number_pieces(alloc, rules, &room.moved, &mut room.pieces, linked),
    }
}

/// Lists what comes next after the first part for which that wasn't done.
fn link<R: Rules>(
    alloc: Global,
    rules: &R,
    edges: Edges,
    room: &mut Room,
    linked: &mut Linking,
) -> Result<(), AllocError>
    ghost starts: { List Grid }
    requires can { CanLink (walk_of (R.game rules.now) edges starts) }
    requires linking { IsLinking (walk_of (R.game rules.now) edges starts) linked.old }
    requires some { length linked.old.next.items < length linked.old.found }
    ensures linking { IfOk result (λ _. IsLinking (walk_of (R.game rules.now) edges starts) linked.new) }
    ensures wider { IfOk result (λ _. IsWider linked.old.found linked.new.found) }
    ensures one { IfOk result (λ _. length linked.new.next.items ≡ length linked.old.next.items + 1) }
{
    let board = linked.found.board(linked.next.len()).copy(alloc)?;
    let first_count = narrowed(linked.counts.len())?;
    let first_place = narrowed(linked.numbers.len())?;
    link_player(alloc, rules, edges, &board, Player::Left, room, linked)?;
    let first_right = narrowed(linked.counts.len())?;
    link_player(alloc, rules, edges, &board, Player::Right, room, linked)?;
    let end_count = narrowed(linked.counts.len())?;
    let end_place = narrowed(linked.numbers.len())?;
    let next = Adjacency {
        lefts: first_right - first_count,
        first_count,
        moves: end_count - first_count,
        first_place,
        parts: end_place - first_place,
    };
    push(&mut linked.next, next)
}

/// Refuses more parts than the limit.
fn check(linked: &Linking, limit: u64) -> Result<(), ReachFault>
    ensures within { OnOk result (length linked.now.found ≤ limit) }
    ensures refused { result ≡ Err ReachFault.Positions → limit < length linked.now.found }
{
    if linked.found.len() as u64 > limit {
        return Err(ReachFault::Positions);
    }
    Ok(())
}

/// Lists what comes next after each part, and finds the parts so. `Positions` comes as soon as more than the limit were
/// found.
fn link_all<R: Rules>(
    alloc: Global,
    rules: &R,
    edges: Edges,
    linked: &mut Linking,
    limit: u64,
) -> Result<(), ReachFault>
    ghost starts: { List Grid }
    requires can { CanLink (walk_of (R.game rules.now) edges starts) }
    requires linking { IsLinking (walk_of (R.game rules.now) edges starts) linked.old }
    ensures linking { IfOk result (λ _. IsLinking (walk_of (R.game rules.now) edges starts) linked.new) }
    ensures all { IfOk result (λ _. length linked.new.next.items ≡ length linked.new.found) }
    ensures wider { IfOk result (λ _. IsWider linked.old.found linked.new.found) }
    ensures within { IfOk result (λ _. length linked.new.found ≤ limit) }
    ensures refused { result ≡ Err ReachFault.Positions
        → limit < length (reached (walk_of (R.game rules.now) edges starts)) }
{
    let mut room = Room {
        moved: Vec::new(alloc),
        pieces: Vec::new(alloc),
    };
    check(linked, limit)?;
    while linked.next.len() < linked.found.len() {
        link(alloc, rules, edges, &mut room, linked)?;
        check(linked, limit)?;
    }
    Ok(())
}

/// The starts and all parts that come after them. The numbers of the starts are put behind the numbers. `Positions`
/// comes where there are more parts than the limit.
pub(crate) fn linked_from<R: Rules>(
    alloc: Global,
    rules: &R,
    edges: Edges,
    starts: &[Board],
    limit: u64,
    numbers: &mut Vec<u32>,
) -> Result<Linked, ReachFault>
    ghost from: { List Grid }
    requires from { starts.now ≡ from }
    requires can { CanLink (walk_of (R.game rules.now) edges from) }
    ensures can { IfOk result (CanVisit (walk_of (R.game rules.now) edges from)) }
    ensures numbers { IfOk result (λ linked. NumberedAs linked.found numbers.old.items numbers.new.items from) }
    ensures within { OnOk result (length (reached (walk_of (R.game rules.now) edges from)) ≤ limit) }
    ensures refused { result ≡ Err ReachFault.Positions
        → limit < length (reached (walk_of (R.game rules.now) edges from)) }
{
    let mut linked = Linking {
        found: Found::new(alloc),
        next: Vec::new(alloc),
        counts: Vec::new(alloc),
        numbers: Vec::new(alloc),
    };
    number_all(alloc, &mut linked.found, starts, numbers)?;
    link_all(alloc, rules, edges, &mut linked, limit)?;
    Ok(linked.linked())
}
