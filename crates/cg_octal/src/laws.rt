//! Laws of nimbers. Each function does nothing: its contract is the law.
ghost use Rattle.std.specs.Prelude.{ℕ, List, ◌≡◌, bit_xor};
ghost use Rattle.cg_form.specs.Game.{Game, lefts, node};
ghost use Rattle.cg_form.specs.Order.{Equal};
ghost use Rattle.cg_form.specs.Sum.{sum};
ghost use Rattle.cg_nimbers.specs.Nimbers.{nimber_form};
ghost use Rattle.cg_octal.specs.Heaps.{heap, heap_options};
ghost use Rattle.cg_octal.specs.Mex.{AreNimbers, IsLeastMissing, SameOptions};

/// The sum of two nimbers is the nimber of the exclusive or of their numbers. A game with the same
/// options on both sides, each equal to a nimber, equals the nimber of the least natural number
/// that none of them has.
pub fn l10()
    ensures sums { (a b : ℕ) → Equal (sum (nimber_form a) (nimber_form b)) (nimber_form (bit_xor a b)) }
    ensures least { (g : Game) (ks : List ℕ) (k : ℕ) → SameOptions g → AreNimbers (lefts g) ks
        → IsLeastMissing ks k → Equal g (nimber_form k) }
{}

/// A heap has the same options on both sides, those that its digits give.
pub fn heaps()
    ensures { (digits : List ℕ) (n : ℕ) → heap digits n
        ≡ node (heap_options (heap digits) digits n) (heap_options (heap digits) digits n) }
{}
