//! Numbers of parts: each board that moves lead to is cut, its parts are numbered, and how many it has is counted.
ghost use Rattle.std.specs.Prelude.{◌≡◌, ◌∷◌, ◌++◌, [], true, IfOk, length, map};
ghost use Rattle.std.specs.List.{flat_map};
ghost use Rattle.cg_moves.specs.Found.{SameSymbols};
ghost use Rattle.cg_moves.specs.Grid.{AreAlike, Grid};
ghost use Rattle.cg_moves.specs.Kept.{kept};
ghost use Rattle.cg_moves.specs.Lawful.{ArePieces};
ghost use Rattle.cg_moves.specs.Linked.{AreUncut, NumberedAs};
ghost use Rattle.cg_moves.specs.Rules.{In, cuts, pieces};

use crate::found::Found;
use crate::linked::Linking;
use crate::pushing::{push, push_count};
use crate::{Board, Rules};
use std::alloc::{AllocError, Global};

/// Puts the numbers of the boards behind the others.
pub(crate) fn number_all(
    alloc: Global,
    found: &mut Found,
    boards: &[Board],
    numbers: &mut Vec<u32>,
) -> Result<(), AllocError>
    requires { SameSymbols (found.old ++ boards.now) }
    ensures found { IfOk result (λ _. found.new ≡ kept found.old boards.now) }
    ensures numbers { IfOk result (λ _. NumberedAs found.new numbers.old.items numbers.new.items boards.now) }
{
    for board in boards {
        let number = found.number_of(alloc, board)?;
        push(numbers, number)?;
    }
    Ok(())
}

/// Puts 1 behind the counts for each of the boards.
pub(crate) fn count_ones(boards: &[Board], counts: &mut Vec<u32>) -> Result<(), AllocError>
    ensures { IfOk result (λ _. counts.new.items ≡ counts.old.items ++ map (λ _. 1) boards.now) }
{
    for board in boards {
        // Read for the loop alone: each counts as one.
        let _ = board;
        push(counts, 1)?;
    }
    Ok(())
}

/// Where a player has so many moves, the boards that they lead to are looked for before they are cut: one that was
/// found is its own only piece.
const MANY_MOVES: usize = 24;

/// Numbers the pieces of the board, and puts how many it has behind the counts. A board that was found isn't cut.
#[inline(always)]
fn number_cut<R: Rules>(
    alloc: Global,
    rules: &R,
    board: &Board,
    own: &mut Vec<Board>,
    linked: &mut Linking,
) -> Result<(), AllocError>
    requires each { ArePieces (R.game rules.now) }
    requires cuts { cuts (R.game rules.now) ≡ true }
    requires has { (R.game rules.now).has board.now ≡ true }
    requires uncut { AreUncut (pieces (R.game rules.now)) linked.old.found }
    requires same_symbols { SameSymbols (linked.old.found ++ (board.now ∷ [])) }
    ensures next { linked.new.next ≡ linked.old.next }
    ensures found { IfOk result
        (λ _. linked.new.found ≡ kept linked.old.found (pieces (R.game rules.now) board.now)) }
    ensures numbers { IfOk result (λ _. NumberedAs linked.new.found linked.old.numbers.items linked.new.numbers.items
        (pieces (R.game rules.now) board.now)) }
    ensures counts { IfOk result (λ _. linked.new.counts.items
        ≡ linked.old.counts.items ++ (length (pieces (R.game rules.now) board.now) ∷ [])) }
{
    if let Some(number) = linked.found.find(board) {
        push(&mut linked.counts, 1)?;
        return push(&mut linked.numbers, number);
    }
    rules.pieces_into(alloc, board, own)?;
    push_count(&mut linked.counts, own.len())?;
    number_all(alloc, &mut linked.found, own, &mut linked.numbers)
}

/// Numbers the pieces of the boards, and puts how many each board has behind the counts. Each is looked for before it
/// is cut.
fn number_each<R: Rules>(
    alloc: Global,
    rules: &R,
    boards: &[Board],
    own: &mut Vec<Board>,
    linked: &mut Linking,
) -> Result<(), AllocError>
    requires each { ArePieces (R.game rules.now) }
    requires cuts { cuts (R.game rules.now) ≡ true }
    requires has { (q : Grid) → In q boards.now → (R.game rules.now).has q ≡ true }
    requires uncut { AreUncut (pieces (R.game rules.now)) linked.old.found }
    requires same_symbols { SameSymbols (linked.old.found ++ boards.now) }
    ensures next { linked.new.next ≡ linked.old.next }
    ensures found { IfOk result
        (λ _. linked.new.found ≡ kept linked.old.found (flat_map (pieces (R.game rules.now)) boards.now)) }
    ensures numbers { IfOk result (λ _. NumberedAs linked.new.found linked.old.numbers.items linked.new.numbers.items
        (flat_map (pieces (R.game rules.now)) boards.now)) }
    ensures counts { IfOk result (λ _. linked.new.counts.items
        ≡ linked.old.counts.items ++ map (λ q. length (pieces (R.game rules.now) q)) boards.now) }
{
    for board in boards {
        number_cut(alloc, rules, board, own, linked)?;
    }
    Ok(())
}

/// Numbers the pieces of the boards, and puts how many each board has behind the counts.
pub(crate) fn number_pieces<R: Rules>(
    alloc: Global,
    rules: &R,
    boards: &[Board],
    room: &mut Vec<Board>,
    linked: &mut Linking,
) -> Result<(), AllocError>
    requires each { ArePieces (R.game rules.now) }
    requires cuts { cuts (R.game rules.now) ≡ true }
    requires has { (q : Grid) → In q boards.now → (R.game rules.now).has q ≡ true }
    requires alike { AreAlike boards.now }
    requires uncut { AreUncut (pieces (R.game rules.now)) linked.old.found }
    requires same_symbols { SameSymbols (linked.old.found ++ boards.now) }
    ensures next { linked.new.next ≡ linked.old.next }
    ensures found { IfOk result
        (λ _. linked.new.found ≡ kept linked.old.found (flat_map (pieces (R.game rules.now)) boards.now)) }
    ensures numbers { IfOk result (λ _. NumberedAs linked.new.found linked.old.numbers.items linked.new.numbers.items
        (flat_map (pieces (R.game rules.now)) boards.now)) }
    ensures counts { IfOk result (λ _. linked.new.counts.items
        ≡ linked.old.counts.items ++ map (λ q. length (pieces (R.game rules.now) q)) boards.now) }
{
    if boards.len() >= MANY_MOVES {
        return number_each(alloc, rules, boards, room, linked);
    }
    rules.pieces_of_all_into(alloc, boards, room, &mut linked.counts)?;
    number_all(alloc, &mut linked.found, room, &mut linked.numbers)
}
