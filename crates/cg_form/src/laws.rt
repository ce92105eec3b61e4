//! Laws on whole trees: each function does nothing, and its contract is the law, for all games.
//!
//! `order`, `sums` and `play` state the definitions of specs/ by their options, in the textbook's
//! words and both ways, so that nobody has to believe the bounds by which those definitions
//! recurse.
ghost use Rattle.std.specs.Prelude.{◌↔◌, ◌≡◌, ◌⊎◌, ◌++◌, ◌∷◌, [], IsTrue, List, map, true};
ghost use Rattle.std.specs.Prelude.{ℕ, ◌+◌, ◌*◌, ◌≤◌, ℤ, pos, ◌≤ℤ◌, ◌+ℤ◌, ◌-ℤ◌};
ghost use Rattle.cg_dyadic.specs.Number.{Number, NumberLe, exp_of, whole};
ghost use Rattle.cg_dyadic.specs.Exact.{IsSum};
ghost use Rattle.cg_dyadic.specs.Units.{units};
ghost use Rattle.cg_form.specs.Game.{Game, number, node, Among, IsNode, lefts, rights};
ghost use Rattle.cg_form.specs.Order.{Le, Equal};
ghost use Rattle.cg_form.specs.Structure.{Before, game_cmp, is_same};
ghost use Rattle.cg_form.specs.Sum.{sum, negative, nothing};
ghost use Rattle.cg_form.specs.Play.{left_survives, right_survives};
ghost use Rattle.cg_form.specs.Outcome.{left_wins, right_wins, previous_wins, next_wins, outcome};
ghost use Rattle.cg_form.specs.Simple.{FitsIn, NoNumber, SimplestValue, Decided, Decides};
ghost use Rattle.cg_form.specs.Translate.{translated};
ghost use Rattle.cg_form.specs.Canonical.{Canonical, IsCanonicalForm, LeftAbove, RightBelow};
ghost use Rattle.cg_form.specs.Canonical.{LeftDominated, LeftReversible, RightDominated, RightReversible};
ghost use Rattle.cg_form.specs.Positions.{EachOnce, all_positions, positions_of};
ghost use Rattle.cg_form.specs.Shifted.{number_sum, shifted};
ghost use Rattle.cg_form.specs.Stops.{stops, stops_by, greatest_number, least_number};
ghost use Rattle.cg_form.specs.Heights.{height};
ghost use Rattle.cg_form.specs.Walls.{walls, walls_by, scaffold_of, TemperatureIs, IsThermal, AtNext};

use std::cmp::Ordering;

/// The order by the options: G <= H exactly if no Left option of G is at least H and no Right
/// option of H is at most G.
///
/// So it is decided, an option is never on the wrong side of its game, numbers are ordered as
/// numbers, and equal games may replace each other as options.
pub fn order()
    ensures textbook { (g h : Game) → Le g h ↔ (((a : Game) → Among a (lefts g) → ¬ Le h a)
        × ((b : Game) → Among b (rights h) → ¬ Le b g)) }
    ensures decided { (g h : Game) → Le g h ⊎ (¬ Le g h) }
    ensures left_option { (g a : Game) → Among a (lefts g) → ¬ Le g a }
    ensures right_option { (g b : Game) → Among b (rights g) → ¬ Le b g }
    ensures numbers { (x y : Number) → Le (number x) (number y) ↔ NumberLe x y }
    ensures equal_left { (us vs rs : List Game) (a b : Game) → Equal a b
        → Equal (node (us ++ (a ∷ vs)) rs) (node (us ++ (b ∷ vs)) rs) }
    ensures equal_right { (ls us vs : List Game) (a b : Game) → Equal a b
        → Equal (node ls (us ++ (a ∷ vs))) (node ls (us ++ (b ∷ vs))) }
{}

/// The structural order is a strict total order of trees: of two different ones, one comes before
/// the other. `is_same` tests whether two games are one tree.
pub fn structure()
    ensures same { (g h : Game) → (game_cmp g h ≡ Ordering.Equal) ↔ (g ≡ h) }
    ensures turned { (g h : Game) → (game_cmp g h ≡ Ordering.Greater) ↔ Before h g }
    ensures transitive { (g h k : Game) → Before g h → Before h k → Before g k }
    ensures one_tree { (g h : Game) → (is_same g h ≡ true) ↔ (g ≡ h) }
{}

/// Sums and negatives by the options, and that up to equality sums commute, associate and have 0 as
/// neutral element.
pub fn sums()
    ensures sum_options { (g h : Game) → sum g h ≡ node
        (map (λ a. sum a h) (lefts g) ++ map (λ c. sum g c) (lefts h))
        (map (λ b. sum b h) (rights g) ++ map (λ d. sum g d) (rights h)) }
    ensures negative_options { (g : Game) → negative g ≡ node (map negative (rights g)) (map negative (lefts g)) }
    ensures commutative { (g h : Game) → Equal (sum g h) (sum h g) }
    ensures associative { (g h k : Game) → Equal (sum (sum g h) k) (sum g (sum h k)) }
    ensures neutral { (g : Game) → Equal (sum g nothing) g }
{}

/// Normal play by the options: a player survives as second player if for each option of the other
/// there is an option of it on which the player survives as second player. The outcome is that of
/// the comparison with 0.
pub fn play()
    ensures left_second { (g : Game) → IsTrue (left_survives g) ↔ ((y : Game) → Among y (rights g)
        → (z : Game) × Among z (lefts y) × IsTrue (left_survives z)) }
    ensures right_second { (g : Game) → IsTrue (right_survives g) ↔ ((y : Game) → Among y (lefts g)
        → (z : Game) × Among z (rights y) × IsTrue (right_survives z)) }
    ensures won_by_left { (g : Game) → (outcome g ≡ left_wins) ↔ (Le nothing g × (¬ Le g nothing)) }
    ensures won_by_right { (g : Game) → (outcome g ≡ right_wins) ↔ (Le g nothing × (¬ Le nothing g)) }
    ensures won_by_previous { (g : Game) → (outcome g ≡ previous_wins) ↔ Equal g nothing }
    ensures won_by_next { (g : Game) → (outcome g ≡ next_wins) ↔ ((¬ Le nothing g) × (¬ Le g nothing)) }
{}

/// The order is reflexive and transitive, and it is play: G <= H exactly if Left survives as second
/// player on H + (-G).
pub fn l1()
    ensures reflexive { (g : Game) → Le g g }
    ensures transitive { (g h k : Game) → Le g h → Le h k → Le g k }
    ensures play { (g h : Game) → Le g h ↔ IsTrue (left_survives (sum h (negative g))) }
    ensures second_wins { (g h : Game) → Equal g h ↔ (IsTrue (left_survives (sum g (negative h)))
        × IsTrue (right_survives (sum g (negative h)))) }
{}

/// Sums keep the order, negatives reverse it, and G - G equals 0.
pub fn l2()
    ensures sums { (a b c : Game) → Le a b ↔ Le (sum a c) (sum b c) }
    ensures negatives { (a b : Game) → Le (negative b) (negative a) ↔ Le a b }
    ensures inverse { (g : Game) → Equal (sum g (negative g)) nothing }
{}

/// Simplicity: a game in which some number strictly fits equals the simplest such number. A game
/// without Left options, or without Right options, equals an integer.
pub fn l3()
    ensures simplest { (x : Number) (g : Game) → FitsIn x g → SimplestValue g }
    ensures no_lefts { (g : Game) → lefts g ≡ [] → (n : ℤ) × Equal (number (whole n)) g }
    ensures no_rights { (g : Game) → rights g ≡ [] → (n : ℤ) × Equal (number (whole n)) g }
{}

/// Number translation: x + G = {x + A | x + B} if G equals no number.
///
/// Adding x to each number of a game, positions included, keeps the structural order; so for a canonical G it gives the
/// canonical form of x + G.
pub fn l4()
    ensures translation { (x : Number) (g : Game) → NoNumber g → Equal (sum (number x) g) (translated x g) }
    ensures number_sum { (x y : Number) → IsSum x y (number_sum x y) }
    ensures shifted_order { (x : Number) (g h : Game) → game_cmp (shifted x g) (shifted x h) ≡ game_cmp g h }
    ensures shifted_form { (x : Number) (g : Game) → Canonical g → IsCanonicalForm (sum (number x) g) (shifted x g) }
{}

/// Canonical forms: every game equals exactly one, in which no option is dominated or reversible, nor is any option of
/// a number. Removing a dominated option and bypassing a reversible one keep the value. If a game equals no number and
/// an option is reversible through a number, another option is as good as that number, and so dominates what the bypass
/// brings in.
pub fn l5()
    ensures exists { (g : Game) → (k : Game) × IsCanonicalForm g k }
    ensures unique { (g h k : Game) → IsCanonicalForm g h → IsCanonicalForm g k → h ≡ k }
    ensures left_undominated { (k a : Game) → Canonical k → Among a (lefts k) → ¬ LeftDominated k a }
    ensures right_undominated { (k a : Game) → Canonical k → Among a (rights k) → ¬ RightDominated k a }
    ensures left_irreversible { (k a : Game) → Canonical k → Among a (lefts k) → ¬ LeftReversible k a }
    ensures right_irreversible { (k a : Game) → Canonical k → Among a (rights k) → ¬ RightReversible k a }
    ensures left_dominated { (us vs rs : List Game) (a b : Game) → Among b (us ++ vs) → Le a b
        → Equal (node (us ++ (a ∷ vs)) rs) (node (us ++ vs) rs) }
    ensures right_dominated { (ls us vs : List Game) (a b : Game) → Among b (us ++ vs) → Le b a
        → Equal (node ls (us ++ (a ∷ vs))) (node ls (us ++ vs)) }
    ensures left_reversible { (us vs rs : List Game) (a b : Game) → Among b (rights a) → Le b (node (us ++ (a ∷ vs)) rs)
        → Equal (node (us ++ (a ∷ vs)) rs) (node (us ++ (lefts b ++ vs)) rs) }
    ensures right_reversible { (ls us vs : List Game) (a b : Game) → Among b (lefts a) → Le (node ls (us ++ (a ∷ vs))) b
        → Equal (node ls (us ++ (a ∷ vs))) (node ls (us ++ (rights b ++ vs))) }
    ensures left_through_number { (g a : Game) (x : Number) → NoNumber g → Among a (lefts g)
        → Among (number x) (rights a) → Le (number x) g → LeftAbove g a x }
    ensures right_through_number { (g a : Game) (x : Number) → NoNumber g → Among a (rights g)
        → Among (number x) (lefts a) → Le g (number x) → RightBelow g a x }
{}

/// A number has no positions but itself. `is_same` tests whether two games are one tree. The positions of any game are
/// those that play can reach, each once, with the game itself last; the options of a position that isn't a number stand
/// before it; and the positions of a canonical game are canonical.
pub fn position_lists()
    ensures number { (x : Number) → positions_of (number x) ≡ number x ∷ [] }
    ensures same { (g h : Game) → (is_same g h ≡ true) ↔ (g ≡ h) }
    ensures members { (g k : Game) → Among k (positions_of g) ↔ Among k (all_positions g) }
    ensures once { (g : Game) → EachOnce (positions_of g) }
    ensures last { (g : Game) → (front : List Game) × (positions_of g ≡ front ++ (g ∷ [])) }
    ensures options_first { (g : Game) (front : List Game) (f : Game) (back : List Game)
        → positions_of g ≡ front ++ (f ∷ back) → IsNode f → (a : Game) → Among a (lefts f) ⊎ Among a (rights f) → Among a front }
    ensures canonical { (g k : Game) → Canonical g → Among k (positions_of g) → Canonical k }
{}

/// Stops by the options: both stops of a game are the number that it equals; where it equals none,
/// the Left stop is the greatest Right stop of a Left option, and the Right stop the least Left
/// stop of a Right option.
///
/// Whether a game equals a number is decided, and the stops are the same by whatever decides it.
/// The Left stop is never less than the Right stop; a number less than the Right stop is less than
/// the game, and one greater than the Left stop is greater than the game. Equal games have equal
/// stops.
pub fn l6()
    ensures decided { (g : Game) → Decided g }
    ensures unique { (d e : Decides) (g : Game) → stops d g ≡ stops e g }
    ensures options { (d : Decides) (g : Game) → stops d g ≡ stops_by g (d g) (record {
      left = greatest_number (map (λ a. (stops d a).right) (lefts g));
      right = least_number (map (λ b. (stops d b).left) (rights g));
    }) }
    ensures ordered { (d : Decides) (g : Game) → NumberLe (stops d g).right (stops d g).left }
    ensures below { (d : Decides) (g : Game) (x : Number) → ¬ NumberLe (stops d g).right x
        → Le (number x) g × (¬ Le g (number x)) }
    ensures above { (d : Decides) (g : Game) (x : Number) → ¬ NumberLe x (stops d g).left
        → Le g (number x) × (¬ Le (number x) g) }
    ensures equal { (d : Decides) (g h : Game) → Equal g h → stops d g ≡ stops d h }
{}

/// Walls by the options, in whole units of a scale s of at least the height of the game.
///
/// A number that equals the game, and each of its stops, needs no more binary places than the
/// height, so it is a whole number of units; at t = 0 the walls are the stops.
///
/// From t to t + 1 the left wall falls by 0 or 1, and the right wall rises by 0 or 1; the left wall
/// is never less than the right wall. Where the game equals no number, the left scaffold starts at
/// least as great as the right one, and the scaffolds agree at some t, so that it has a temperature
/// and a mean: up to the temperature the walls are the scaffolds, and from there on both stay at
/// the mean. At the scale s + 1 a wall at 2 t is twice that at t, and at 2 t + 1 the sum of those
/// at t and t + 1, so no wall bends between whole units.
///
/// If G >= H, each wall of G is at least that of H; if not G <= H, the left wall of G is at least
/// the right wall of H less t.
///
/// Each game, numbers included, has one mean and one temperature, which need no more binary places
/// than the height. Equal games have equal walls, temperatures and means.
pub fn l7()
    ensures options { (d : Decides) (s t : ℕ) (g : Game) → walls d s t g ≡ walls_by g (d g) s (scaffold_of d s g) t }
    ensures unique { (d e : Decides) (s t : ℕ) (g : Game) → walls d s t g ≡ walls e s t g }
    ensures left_falls { (d : Decides) (s t : ℕ) (g : Game) → ((walls d s (t + 1) g).left ≤ℤ (walls d s t g).left)
        × ((walls d s t g).left ≤ℤ ((walls d s (t + 1) g).left +ℤ pos 1)) }
    ensures right_rises { (d : Decides) (s t : ℕ) (g : Game) → ((walls d s t g).right ≤ℤ (walls d s (t + 1) g).right)
        × ((walls d s (t + 1) g).right ≤ℤ ((walls d s t g).right +ℤ pos 1)) }
    ensures number_places { (g : Game) (x : Number) → Equal (number x) g → exp_of x ≤ height g }
    ensures stop_places { (d : Decides) (g : Game) → (exp_of (stops d g).left ≤ height g)
        × (exp_of (stops d g).right ≤ height g) }
    ensures at_zero { (d : Decides) (s : ℕ) (g : Game) → height g ≤ s
        → ((walls d s 0 g).left ≡ units s (stops d g).left) × ((walls d s 0 g).right ≡ units s (stops d g).right) }
    ensures ordered { (d : Decides) (s t : ℕ) (g : Game) → height g ≤ s
        → (walls d s t g).right ≤ℤ (walls d s t g).left }
    ensures start { (d : Decides) (s : ℕ) (g : Game) → height g ≤ s → NoNumber g
        → (scaffold_of d s g 0).right ≤ℤ (scaffold_of d s g 0).left }
    ensures temperature { (d : Decides) (s : ℕ) (g : Game) → height g ≤ s → NoNumber g
        → (t : ℕ) × TemperatureIs d s g t }
    ensures below { (d : Decides) (s : ℕ) (g : Game) (t : ℕ) → height g ≤ s → NoNumber g → TemperatureIs d s g t
        → (u : ℕ) → u ≤ t → walls d s u g ≡ scaffold_of d s g u }
    ensures mast { (d : Decides) (s : ℕ) (g : Game) (t : ℕ) → height g ≤ s → NoNumber g → TemperatureIs d s g t
        → (u : ℕ) → t ≤ u → walls d s u g ≡ scaffold_of d s g t }
    ensures finer { (d : Decides) (s : ℕ) (g : Game) → height g ≤ s → (t : ℕ) → AtNext (walls d (s + 1) (2 * t) g)
        (walls d (s + 1) (2 * t + 1) g) (walls d s t g) (walls d s (t + 1) g) }
    ensures greater_left { (d : Decides) (s : ℕ) (g h : Game) → height g ≤ s → height h ≤ s → Le h g
        → (t : ℕ) → (walls d s t h).left ≤ℤ (walls d s t g).left }
    ensures greater_right { (d : Decides) (s : ℕ) (g h : Game) → height g ≤ s → height h ≤ s → Le h g
        → (t : ℕ) → (walls d s t h).right ≤ℤ (walls d s t g).right }
    ensures not_less { (d : Decides) (s : ℕ) (g h : Game) → height g ≤ s → height h ≤ s → ¬ Le g h
        → (t : ℕ) → ((walls d s t h).right -ℤ pos t) ≤ℤ (walls d s t g).left }
    ensures equal { (d : Decides) (s : ℕ) (g h : Game) → height g ≤ s → height h ≤ s → Equal g h
        → (t : ℕ) → walls d s t g ≡ walls d s t h }
    ensures equal_temperature { (d : Decides) (s : ℕ) (g h : Game) → height g ≤ s → height h ≤ s
        → NoNumber g → NoNumber h → Equal g h → (t : ℕ) → TemperatureIs d s g t → TemperatureIs d s h t }
    ensures thermal { (g : Game) → (mean : Number) × (temp : Number) × IsThermal g mean temp }
    ensures one_thermal { (g : Game) (mean temp m t : Number) → IsThermal g mean temp → IsThermal g m t
        → (mean ≡ m) × (temp ≡ t) }
    ensures equal_thermal { (g h : Game) (mean temp : Number) → Equal g h → IsThermal g mean temp
        → IsThermal h mean temp }
    ensures thermal_places { (g : Game) (mean temp : Number) → IsThermal g mean temp
        → (exp_of mean ≤ height g) × (exp_of temp ≤ height g) }
{}
