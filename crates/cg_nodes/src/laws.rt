//! Laws of canonical forms, of boards' contents and of long numbers: each function does nothing, and its contract is
//! the law.
ghost use Rattle.std.specs.Prelude.{◌≡◌, ◌↔◌, ◌≤◌, ◌*◌, ℕ, Bool, List, Some, length, true};
ghost use Rattle.cg_dyadic.specs.Number.{InRange, Number, exp_of, is_long, num_of};
ghost use Rattle.cg_form.specs.Canonical.{Canonical, IsCanonicalForm};
ghost use Rattle.cg_form.specs.Game.{Game, number};
ghost use Rattle.cg_nodes.specs.Boards.{IsBoard, are_contents, symbols};
ghost use Rattle.cg_nodes.specs.Can.{can, is_canonical};
ghost use Rattle.cg_nodes.specs.Longs.{cells_of, chunks_of, is_negative};
ghost use Rattle.cg_nodes.specs.Meant.{Meant, board, form};
ghost use Rattle.cg_nodes.specs.Spelled.{board_of, long_of};

/// Each game has exactly one canonical form, which is `can` of it, and `is_canonical` tests whether a game is
/// canonical. (Siegel, Combinatorial Game Theory (2013), II.2.)
pub fn canonical_forms()
    ensures form { (g : Game) → IsCanonicalForm g (can g) }
    ensures only { (g k : Game) → IsCanonicalForm g k → k ≡ can g }
    ensures test { (g : Game) → (is_canonical g ≡ true) ↔ Canonical g }
{}

/// The test of a board's contents passes exactly if they are written for some board of `count` cells with `size`
/// symbols. A key with these contents spells a board exactly if they are those of a board of this game with 1 to 64
/// cells; then the game has a number from 1 to 4, and there are at most four contents.
pub fn boards()
    ensures contents { (count size : ℕ) (contents : List ℕ) → count ≤ 4
        → (are_contents count size contents ≡ true) ↔ IsBoard count size contents }
    ensures spelled { (number rows columns : ℕ) (contents : List ℕ)
        → (board_of number rows columns (Some contents) ≡ Some (board number rows columns contents))
        ↔ ((1 ≤ rows * columns) × (rows * columns ≤ 64) × IsBoard (symbols number) (rows * columns) contents) }
    ensures only { (number rows columns : ℕ) (contents : List ℕ) (t : Meant) → board_of number rows columns (Some contents) ≡ Some t
        → (t ≡ board number rows columns contents) × (1 ≤ number) × (number ≤ 4) × (length contents ≤ 4) }
{}

/// The sign, the exponent and the chunks of a long number in range spell it, and only such numbers are spelled. A
/// number takes at most three cells.
pub fn long_numbers()
    ensures written { (x : Number) → InRange x → is_long x ≡ true
        → long_of (is_negative (num_of x)) (exp_of x) (Some (chunks_of (num_of x))) ≡ Some (form (number x)) }
    ensures only { (negative : Bool) (exp : ℕ) (contents : List ℕ) (t : Meant) → long_of negative exp (Some contents) ≡ Some t
        → (x : Number) × (t ≡ form (number x)) × InRange x × (is_long x ≡ true) × (negative ≡ is_negative (num_of x))
        × (exp ≡ exp_of x) × (contents ≡ chunks_of (num_of x)) }
    ensures few { (x : Number) → cells_of x ≤ 3 }
{}
