//! A walk over the parts that play comes to: each is visited as soon as all that come after it were.
ghost use Rattle.std.specs.Prelude.{◌≡◌, ◌-◌, ◌<◌, ◌≤◌, ◌∷◌, ◌++◌, []};
ghost use Rattle.std.specs.Prelude.{All, Err, List, IfNone, IfOk, IfSome, OnOk, get_or, length, map};
ghost use Rattle.cg_moves.specs.Graph.{AreNext, StandAt};
ghost use Rattle.cg_moves.specs.Linked.{CanLink};
ghost use Rattle.cg_moves.specs.Visiting.{CanVisit, IsInside, IsStep, IsVisiting, board_at, visits_by};
ghost use Rattle.cg_moves.specs.Walking.{Walk, parts, play, reached, walk_of};
ghost use Rattle.cg_moves.specs.Walks.{Enters, Leaves, Visit, entered};

use crate::edges::Edges;
use crate::linked::Linked;
use crate::linking::linked_from;
use crate::pushing::{narrowed, push};
use crate::{Adjacency, Board, Boards, PositionGraph, ReachFault, Rules};
use std::alloc::{AllocError, Global};

/// The parts that were visited, in their order, with what comes next after each of them.
#[derive(Drop)]
pub(crate) struct Visited {
    pub(crate) boards: Vec<Board>,
    pub(crate) next: Vec<Adjacency>,
    pub(crate) places: Vec<u32>,
    /// For each part, by its number, how many were visited up to it, and with it; 0 where it wasn't.
    pub(crate) ranks: Vec<u32>,
}

/// A part that was entered: its number, and where the numbers stand of the parts that come next after it and are left
/// to visit.
#[derive(Clone, Copy)]
pub(crate) struct Open {
    pub(crate) number: usize,
    pub(crate) next: usize,
    pub(crate) end: usize,
}

/// Enters the part with the number.
#[inline(always)]
fn opened(linked: &Linked, number: usize) -> Open
    ghost walk: { Walk }
    requires can { CanVisit walk linked.now }
    requires number { number < length linked.now.found }
    ensures inside { IsInside linked.now.found linked.now.numbers.items result }
    ensures visits { visits_by linked.now.found linked.now.numbers.items result
        ≡ Leaves (board_at linked.now.found number) ∷ entered ((play walk).next (board_at linked.now.found number)) }
{
    let next = linked.next[number];
    Open {
        number,
        next: next.first_place as usize,
        end: next.first_place as usize + next.parts as usize,
    }
}

/// Puts the places of the parts with these numbers, which were visited, behind the places.
#[inline(always)]
fn put_places(ranks: &[u32], numbers: &[u32], places: &mut Vec<u32>) -> Result<(), AllocError>
    requires inside { All (λ n. n < length ranks.now) numbers.now }
    requires visited { All (λ n. 0 < get_or ranks.now n 0) numbers.now }
    ensures { IfOk result
        (λ _. places.new.items ≡ places.old.items ++ map (λ n. get_or ranks.now n 0 - 1) numbers.now) }
{
    for number in numbers {
        push(places, ranks[*number as usize] - 1)?;
    }
    Ok(())
}

/// The next part to visit after the one that was entered last, if one is left.
#[inline(always)]
fn next_unvisited(linked: &Linked, visited: &Visited, top: &mut Open) -> Option<usize>
    ghost walk: { Walk }
    requires can { CanVisit walk linked.now }
    requires inside { IsInside linked.now.found linked.now.numbers.items top.old }
    requires ranks { length visited.now.ranks.items ≡ length linked.now.found }
    ensures inside { IsInside linked.now.found linked.now.numbers.items top.new }
    ensures number { top.new.number ≡ top.old.number }
    ensures next { IfSome result (λ n. (below : List Visit)
        → IsVisiting walk linked.now visited.now (below ++ visits_by linked.now.found linked.now.numbers.items top.old)
        → IsStep walk linked.now visited.now below top.old top.new n) }
    ensures none { IfNone result ((below : List Visit)
        → IsVisiting walk linked.now visited.now (below ++ visits_by linked.now.found linked.now.numbers.items top.old)
        → IsVisiting walk linked.now visited.now (below ++ (Leaves (board_at linked.now.found top.old.number) ∷ []))) }
{
    while top.next < top.end {
        let number = linked.numbers[top.next] as usize;
        top.next += 1;
        if visited.ranks[number] == 0 {
            return Some(number);
        }
    }
    None
}

/// Visits the part with the number, which was entered, after all that come next after it.
#[inline(always)]
fn leave(
    alloc: Global,
    linked: &Linked,
    visited: &mut Visited,
    number: usize,
) -> Result<(), AllocError>
    ghost walk: { Walk }
    requires can { CanVisit walk linked.now }
    requires number { number < length linked.now.found }
    requires visiting { (below : List Visit)
        × IsVisiting walk linked.now visited.old (below ++ (Leaves (board_at linked.now.found number) ∷ [])) }
    ensures { IfOk result (λ _. (below : List Visit)
        → IsVisiting walk linked.now visited.old (below ++ (Leaves (board_at linked.now.found number) ∷ []))
        → IsVisiting walk linked.now visited.new below) }
{
    let next = linked.next[number];
    let first_place = narrowed(visited.places.len())?;
    put_places(&visited.ranks, linked.numbers_of(next), &mut visited.places)?;
    push(
        &mut visited.next,
        Adjacency {
            first_place,
            ..next
        },
    )?;
    push(&mut visited.boards, linked.part(number).copy(alloc)?)?;
    let rank = narrowed(visited.boards.len())?;
    visited.ranks[number] = rank;
    Ok(())
}

/// Visits the part with the number, if it wasn't visited, after all that come after it.
fn visit(
    alloc: Global,
    linked: &Linked,
    visited: &mut Visited,
    entered: &mut Vec<Open>,
    start: usize,
) -> Result<(), AllocError>
    ghost walk: { Walk }
    requires can { CanVisit walk linked.now }
    requires start { start < length linked.now.found }
    requires visiting { (below : List Visit)
        × IsVisiting walk linked.now visited.old (below ++ (Enters (board_at linked.now.found start) ∷ [])) }
    ensures { IfOk result (λ _. (below : List Visit)
        → IsVisiting walk linked.now visited.old (below ++ (Enters (board_at linked.now.found start) ∷ []))
        → IsVisiting walk linked.now visited.new below) }
{
    if visited.ranks[start] != 0 {
        return Ok(());
    }
    entered.clear();
    push(entered, opened(linked, start))?;
    while let Some(last) = entered.pop() {
        let mut last = last;
        match next_unvisited(linked, visited, &mut last) {
            Some(number) => {
                push(entered, last)?;
                push(entered, opened(linked, number))?;
            }
            None => leave(alloc, linked, visited, last.number)?,
        }
    }
    Ok(())
}

/// Visits all parts that come after the starts, and the starts.
fn visit_all(alloc: Global, linked: &Linked, starts: &[u32]) -> Result<Visited, AllocError>
    ghost walk: { Walk }
    requires can { CanVisit walk linked.now }
    requires starts { StandAt linked.now.found starts.now walk.starts }
    ensures { IfOk result (λ visited. IsVisiting walk linked.now visited []) }
{
    let mut visited = Visited {
        boards: Vec::with_capacity(alloc, linked.found.len())?,
        next: Vec::with_capacity(alloc, linked.found.len())?,
        places: Vec::with_capacity(alloc, linked.numbers.len())?,
        ranks: vec![in alloc; 0; linked.found.len()]?,
    };
    let mut entered = Vec::new(alloc);
    for start in starts {
        visit(alloc, linked, &mut visited, &mut entered, *start as usize)?;
    }
    Ok(visited)
}

/// The boards that play can come to from the starts, and what comes next after each of them. `Positions` comes where
/// there are more than the limit.
pub(crate) fn open_all<R: Rules>(
    alloc: Global,
    rules: &R,
    edges: Edges,
    starts: Vec<Board>,
    limit: u64,
) -> Result<PositionGraph, ReachFault>
    ghost walk: { Walk }
    requires walk { walk ≡ walk_of (R.game rules.now) edges starts.items }
    requires can { CanLink (walk_of (R.game rules.now) edges starts.items) }
    ensures boards { IfOk result (λ graph. graph.boards ≡ reached walk) }
    ensures next { IfOk result (λ graph. AreNext walk.game (parts walk) graph.counts.items graph.places.items [] graph.boards
        graph.next.items) }
    ensures starts { IfOk result (λ graph. StandAt graph.boards graph.starts.items walk.starts) }
    ensures within { OnOk result (length (reached walk) ≤ limit) }
    ensures refused { result ≡ Err ReachFault.Positions → limit < length (reached walk) }
{
    let mut numbers = Vec::new(alloc);
    let linked = linked_from(alloc, rules, edges, &starts, limit, &mut numbers)?;
    let visited = visit_all(alloc, &linked, &numbers)?;
    let mut places = Vec::new(alloc);
    put_places(&visited.ranks, &numbers, &mut places)?;
    let Visited {
        boards,
        next,
        places: all,
        ranks: _,
    } = visited;
    let Linked {
        found: _,
        next: _,
        counts,
        numbers: _,
    } = linked;
    Ok(PositionGraph {
        boards: Boards::of(boards),
        next,
        counts,
        places: all,
        starts: places,
    })
}
