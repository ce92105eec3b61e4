//! Laws of nimbers. Each function does nothing: its contract is the law.
ghost use Rattle.std.specs.Prelude.{ℕ, bit_xor};
ghost use Rattle.cg_form.specs.Order.{Equal};
ghost use Rattle.cg_form.specs.Sum.{sum};
ghost use Rattle.cg_nimbers.specs.Nimbers.{nimber_form};

/// The sum of two nimbers is the nimber of the exclusive or of their numbers (Siegel, Combinatorial Game
/// Theory (2013), IV.1).
pub fn nimber_sums()
    ensures { (a b : ℕ) → Equal (sum (nimber_form a) (nimber_form b)) (nimber_form (bit_xor a b)) }
{}
