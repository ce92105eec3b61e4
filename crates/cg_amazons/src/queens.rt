//! The moves of queens and their arrows.
ghost use Rattle.std.specs.Prelude.{◌≡◌, ◌<◌, ◌≤◌, length, slice_set, IfOk, true};
ghost use Rattle.cg_moves.specs.Grid.{with_cells};
ghost use Rattle.cg_moves.specs.PlaneBits.{IsWithIndex};
ghost use Rattle.cg_amazons.specs.Amazons.{amazons, blocked, with_queen};
ghost use Rattle.cg_amazons.specs.MoveParts.{IsMoveBelow, IsQueenMove, IsShot};
ghost use Rattle.cg_amazons.specs.Rays.{AreWordsOf};
ghost use Rattle.cg_amazons.specs.Taking.{AnyMarked, IfMarked, Takes};

use crate::reaching::reached;
use crate::shape::Shape;
use cg_moves::words::{bit, with_bit};
use cg_moves::{Board, Planes};
use std::alloc::{AllocError, Global};

pub(crate) const EMPTY: u8 = b'.';

/// A board in words: its shape, its empty cells, a player's symbol, and the cells with it.
#[derive(Clone, Copy)]
pub(crate) struct QueenWords {
    pub(crate) shape: Shape,
    pub(crate) free: u64,
    pub(crate) queen: u8,
    pub(crate) queens: u64,
}

/// The words with the cell blocked: its index is 3.
#[inline(always)]
fn with_blocked(planes: Planes, cell: u8) -> Planes
    requires { cell < 64 }
    ensures { IsWithIndex planes result cell 3 }
{
    Planes {
        a: with_bit(planes.a, cell, 1),
        b: with_bit(planes.b, cell, 1),
        c: with_bit(planes.c, cell, 0),
        d: with_bit(planes.d, cell, 0),
    }
}

/// The board after an arrow onto this cell.
#[inline(always)]
fn shot(board: &Board, target: u8) -> Board
    requires has { amazons.has board.now ≡ true }
    requires target { target < length board.now.cells }
    ensures { result ≡ with_cells board.now (slice_set board.now.cells target blocked) }
{
    let planes = board.planes();
    let after = with_blocked(planes, target);
    board.with_planes(board.rows(), board.columns(), after)
}

/// Appends the board after an arrow onto this cell, if it is a target.
fn shoot_at(
    board: &Board,
    targets: u64,
    target: u8,
    boards: &mut Vec<Board>,
) -> Result<(), AllocError>
    requires has { amazons.has board.now ≡ true }
    requires few { length board.now.cells ≤ 64 }
    requires target { target < length board.now.cells }
    ensures { IfOk result (λ _. Takes board.now boards.old.items boards.new.items
        (IfMarked targets (λ place after. after ≡ slice_set board.now.cells place blocked) target)) }
{
    if bit(targets, target) == 0 {
        return Ok(());
    }
    boards.push(shot(board, target))?;
    Ok(())
}

/// Appends to `boards` the board after an arrow at each target.
fn shoot(board: &Board, targets: u64, boards: &mut Vec<Board>) -> Result<(), AllocError>
    requires { amazons.has board.now ≡ true }
    ensures { IfOk result (λ _. Takes board.now boards.old.items boards.new.items
        (AnyMarked targets (λ place after. after ≡ slice_set board.now.cells place blocked) (length board.now.cells))) }
{
    for target in 0..board.size() {
        shoot_at(board, targets, target, boards)?;
    }
    Ok(())
}

fn moved(
    alloc: Global,
    board: &Board,
    words: &QueenWords,
    from: u8,
    to: u8,
) -> Result<Board, AllocError>
    requires words { AreWordsOf board.now words.now }
    requires from { from < length board.now.cells }
    requires to { to < length board.now.cells }
    ensures { IfOk result (λ after. after ≡
        with_cells board.now (with_queen board.now.cells from to words.now.queen)) }
{
    let mut after = board.copy(alloc)?;
    after.set(from, EMPTY);
    after.set(to, words.queen);
    Ok(after)
}

/// Appends the boards after the queen's move to that cell and each of its shots.
fn move_and_shoot(
    alloc: Global,
    board: &Board,
    words: &QueenWords,
    from: u8,
    to: u8,
    boards: &mut Vec<Board>,
) -> Result<(), AllocError>
    requires words { AreWordsOf board.now words.now }
    requires from { from < length board.now.cells }
    requires to { to < length board.now.cells }
    ensures { IfOk result (λ _. Takes board.now boards.old.items boards.new.items
        (IsShot words.now.shape.columns (with_queen board.now.cells from to words.now.queen) to)) }
{
    let moved = moved(alloc, board, words, from, to)?;
    let left = with_bit(words.free, from, 1);
    let free = with_bit(left, to, 0);
    let targets = reached(words.shape, free, to);
    shoot(&moved, targets, boards)?;
    Ok(())
}

/// Appends the boards after the queen's move to that cell and each of its shots, if it reaches that cell.
fn move_onto(
    alloc: Global,
    board: &Board,
    words: &QueenWords,
    from: u8,
    places: u64,
    to: u8,
    boards: &mut Vec<Board>,
) -> Result<(), AllocError>
    requires words { AreWordsOf board.now words.now }
    requires from { from < length board.now.cells }
    requires few { length board.now.cells ≤ 64 }
    requires to { to < length board.now.cells }
    ensures { IfOk result (λ _. Takes board.now boards.old.items boards.new.items
        (IfMarked places (λ place. IsShot words.now.shape.columns (with_queen board.now.cells from place words.now.queen) place) to)) }
{
    if bit(places, to) == 0 {
        return Ok(());
    }
    move_and_shoot(alloc, board, words, from, to, boards)?;
    Ok(())
}

/// Appends the boards after all moves of the queen on this cell.
fn move_queen(
    alloc: Global,
    board: &Board,
    words: &QueenWords,
    from: u8,
    boards: &mut Vec<Board>,
) -> Result<(), AllocError>
    requires words { AreWordsOf board.now words.now }
    requires from { from < length board.now.cells }
    ensures { IfOk result (λ _. Takes board.now boards.old.items boards.new.items
        (IsQueenMove words.now.shape.columns words.now.queen board.now.cells from)) }
{
    let places = reached(words.shape, words.free, from);
    for to in 0..board.size() {
        move_onto(alloc, board, words, from, places, to, boards)?;
    }
    Ok(())
}

/// Appends the boards after all moves of the queen on this cell, if there is one.
fn move_from(
    alloc: Global,
    board: &Board,
    words: &QueenWords,
    from: u8,
    boards: &mut Vec<Board>,
) -> Result<(), AllocError>
    requires words { AreWordsOf board.now words.now }
    requires few { length board.now.cells ≤ 64 }
    requires from { from < length board.now.cells }
    ensures { IfOk result (λ _. Takes board.now boards.old.items boards.new.items
        (IfMarked words.now.queens (IsQueenMove words.now.shape.columns words.now.queen board.now.cells) from)) }
{
    if bit(words.queens, from) == 0 {
        return Ok(());
    }
    move_queen(alloc, board, words, from, boards)?;
    Ok(())
}

/// Puts the boards that the player's queens lead to behind the boards.
pub(crate) fn move_all(
    alloc: Global,
    board: &Board,
    words: &QueenWords,
    boards: &mut Vec<Board>,
) -> Result<(), AllocError>
    requires { AreWordsOf board.now words.now }
    ensures { IfOk result (λ _. Takes board.now boards.old.items boards.new.items
        (IsMoveBelow words.now.shape.columns words.now.queen board.now.cells (length board.now.cells))) }
{
    for from in 0..board.size() {
        move_from(alloc, board, words, from, boards)?;
    }
    Ok(())
}
