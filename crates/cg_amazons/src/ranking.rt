//! Numbers that sort the boards after moves.

use cg_moves::{Board, Planes};

/// What stands where no more cells changed: above what lowers a cell, and below what raises one.
const UNCHANGED: u64 = 128;

/// What was done to the first of the changed cells, as a number. A cell is lowered by an arrow, and less so where a
/// queen left it, the more the earlier it is; it is raised by a queen that came, the more the earlier it is.
fn change_at(after: Planes, changed: u64) -> u64 {
    if changed == 0 {
        return UNCHANGED;
    }
    let cell = u64::from(changed.trailing_zeros());
    let first = changed & changed.wrapping_neg();
    if (after.a ^ after.b) & first != 0 {
        (UNCHANGED + 64).saturating_sub(cell)
    } else if after.a & first != 0 {
        2 * cell
    } else {
        2 * cell + 1
    }
}

/// A number that sorts the boards after moves on this board, by the cells that the move changed, of which there are
/// three at most. It is meant to rise with the bytes of the cells, but nothing rests on that: it only saves steps where
/// the boards are put in order.
pub(crate) fn rank(board: &Board, after: &Board) -> u64 {
    let old = board.planes();
    let new = after.planes();
    let changed = (old.a ^ new.a) | (old.b ^ new.b);
    let second = changed & changed.wrapping_sub(1);
    let third = second & second.wrapping_sub(1);
    change_at(new, changed) << 16 | change_at(new, second) << 8 | change_at(new, third)
}
