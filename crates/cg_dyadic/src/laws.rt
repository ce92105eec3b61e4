//! Laws of numbers: each function does nothing, and its contract is the law.
ghost use Rattle.std.specs.Prelude.{◌≡◌, ◌⊎◌, ◌↔◌, ◌<◌, ℤ, pos, ℕ, Bool, Option};
ghost use Rattle.cg_dyadic.specs.Number.{Number, whole, num_of, exp_of, IsFraction, ratio, NumberLe};
ghost use Rattle.cg_dyadic.specs.Number.{number_lefts, number_rights, AmongNumbers, weight, InRange};
ghost use Rattle.cg_dyadic.specs.Exact.{IsSum, IsNegative};
ghost use Rattle.cg_dyadic.specs.Cut.{in_gap, is_between};
ghost use Rattle.cg_dyadic.specs.Simplest.{NoOptionPasses, SimplestFor};
ghost use Rattle.cg_dyadic.specs.declared.cut.Cut.{Cut};

/// Each fraction `n / 2^k` is exactly one number, [`ratio`], and a number is the fraction of its own terms.
pub fn fractions()
    ensures exists { (n : ℤ) (k : ℕ) → IsFraction n k (ratio n k) }
    ensures unique { (n : ℤ) (k : ℕ) (x y : Number) → IsFraction n k x → IsFraction n k y → x ≡ y }
    ensures own_terms { (x : Number) → IsFraction (num_of x) (exp_of x) x }
{}

/// The order of numbers is total, and numbers that are each at most the other are the same number.
pub fn order()
    ensures reflexive { (x : Number) → NumberLe x x }
    ensures transitive { (x y z : Number) → NumberLe x y → NumberLe y z → NumberLe x z }
    ensures total { (x y : Number) → NumberLe x y ⊎ NumberLe y x }
    ensures antisymmetric { (x y : Number) → NumberLe x y → NumberLe y x → x ≡ y }
    ensures dense { (x y : Number) → ¬ NumberLe y x → (z : Number) × (¬ NumberLe z x) × (¬ NumberLe y z) }
{}

/// Any two numbers have a sum, and any number a negative. Sums don't depend on the order of the terms, keep the order
/// of numbers, and give 0 for a number and its negative; negatives turn the order.
pub fn arithmetic()
    ensures sum_exists { (x y : Number) → (z : Number) × IsSum x y z }
    ensures sum_commutes { (x y z : Number) → IsSum x y z → IsSum y x z }
    ensures sum_keeps_order { (x y z a b : Number) → IsSum x z a → IsSum y z b → NumberLe x y ↔ NumberLe a b }
    ensures negative_exists { (x : Number) → (y : Number) × IsNegative x y }
    ensures negative_turns_order { (x y a b : Number) → IsNegative x a → IsNegative y b → NumberLe x y ↔ NumberLe b a }
    ensures negative_cancels { (x y : Number) → IsNegative x y → IsSum x y (whole (pos 0)) }
{}

/// A Left option of a number is less than it, and a Right option greater; each is in range if the number is, and weighs
/// less. If one number isn't at most another, a Left option of the first is still at least the second, or a Right
/// option of the second at most the first.
pub fn options()
    ensures left_is_less { (x y : Number) → AmongNumbers y (number_lefts x) → NumberLe y x × (¬ NumberLe x y) }
    ensures right_is_greater { (x y : Number) → AmongNumbers y (number_rights x) → NumberLe x y × (¬ NumberLe y x) }
    ensures left_in_range { (x y : Number) → InRange x → AmongNumbers y (number_lefts x) → InRange y }
    ensures right_in_range { (x y : Number) → InRange x → AmongNumbers y (number_rights x) → InRange y }
    ensures left_weighs_less { (x y : Number) → AmongNumbers y (number_lefts x) → weight y < weight x }
    ensures right_weighs_less { (x y : Number) → AmongNumbers y (number_rights x) → weight y < weight x }
    ensures gap { (x y : Number) → ¬ NumberLe x y → ((a : Number) × AmongNumbers a (number_lefts x) × NumberLe y a) ⊎ ((b : Number) × AmongNumbers b (number_rights y) × NumberLe b x) }
{}

/// If a number lies between two cuts and none of its options does, it is simpler than every other number there.
pub fn simplest()
    ensures in_gap { (low high : Option Cut) (x : Number) → NoOptionPasses (in_gap low high) x → SimplestFor (in_gap low high) x }
    ensures between { (p q x : Number) (c d : Bool) → NoOptionPasses (is_between p c q d) x → SimplestFor (is_between p c q d) x }
{}
