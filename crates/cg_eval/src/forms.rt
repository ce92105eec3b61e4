//! What the board cells of the numbered games stand for.
ghost use Rattle.cg_amazons.specs.Amazons.{amazons};
ghost use Rattle.cg_domineering.specs.Moves.{domineering};
ghost use Rattle.cg_clobber.specs.Moves.{clobber};
ghost use Rattle.cg_strip.specs.Toads.{toads_game};
ghost use Rattle.cg_eval.specs.Forms.{board_form};
ghost use Rattle.cg_values.specs.Notes.{MayNote};

use cg_nodes::BoardForms;

/// The boards of the numbered games: each board cell has the tree of all moves from its position. Domineering has the
/// number 1, Clobber 2, Amazons 3, and Toads and Frogs 4; cells of other numbers, of which there are none, have the
/// form of the number 0.
pub struct CgBoards;

impl BoardForms for CgBoards {
    ghost form = { board_form };
}

/// The values of the four games may be noted on board cells of these forms. It does nothing, and its contract is the
/// fact.
pub fn may_note()
    ensures domineering { MayNote board_form domineering }
    ensures clobber { MayNote board_form clobber }
    ensures amazons { MayNote board_form amazons }
    ensures toads { MayNote board_form toads_game }
{}
