//! Laws of the named games. Each function does nothing: its contract is the law.
ghost use Rattle.std.specs.Prelude.{ℕ, ◌≤◌, ◌<◌, ◌^◌, List, Bool, true, false, ◌≡◌};
ghost use Rattle.std.specs.Prelude.{◌+◌, ◌↔◌, suc, length, [], ◌∷◌, ◌++◌, Option};
ghost use Rattle.cg_dyadic.specs.Number.{Number, NumberLe};
ghost use Rattle.cg_dyadic.specs.Exact.{IsFromDigits, IsQuotient, number_negative};
ghost use Rattle.cg_form.specs.Canonical.{Canonical};
ghost use Rattle.cg_form.specs.Depth.{depth_of};
ghost use Rattle.cg_form.specs.Game.{Game, number};
ghost use Rattle.cg_form.specs.Order.{Equal};
ghost use Rattle.cg_form.specs.Shifted.{shifted};
ghost use Rattle.cg_form.specs.Sum.{negative, sum};
ghost use Rattle.cg_form.specs.Positions.{positions_of};
ghost use Rattle.cg_nodes.specs.Can.{can};
ghost use Rattle.cg_nodes.specs.Ranges.{AllInRange};
ghost use Rattle.cg_names.specs.Meaning.{fraction, literal};
ghost use Rattle.cg_names.specs.Name.{IsName};
ghost use Rattle.cg_names.specs.Reading.{IsNameInRange, ReadsAs, most_open};
ghost use Rattle.cg_names.specs.NamedForms.{Fits};
ghost use Rattle.cg_names.specs.declared.named_form.NamedForm.{NamedForm};
ghost use Rattle.cg_names.specs.Named.{zero_number, star_form, nimber_form, nimbers_below, ups_of, ups_chain};
ghost use Rattle.cg_names.specs.Named.{pair_positions, switch_form, tiny_form, first_number, second_number};

/// The named games are canonical: no position of one has a dominated or a reversible option, or equals a number and
/// isn't written as one, and each list of options rises in the structural order. Switches, tinies and minies are so
/// for every number of at least 0.
pub fn canonical()
    ensures nimbers { (k : ℕ) → Canonical (nimber_form k) }
    ensures ups { (down starred : Bool) (n : ℕ) → Canonical (ups_of down starred n) }
    ensures switches { (x : Number) → NumberLe zero_number x → Canonical (switch_form x) }
    ensures tinies { (miny : Bool) (x : Number) → NumberLe zero_number x → Canonical (tiny_form miny x) }
{}

/// Downs are the negatives of ups.
pub fn negatives()
    ensures { (starred : Bool) (n : ℕ) → Equal (ups_of true starred n) (negative (ups_of false starred n)) }
{}

/// The positions of the named games: `*k` has k + 1 of them, and the n-th up n + 2. A number that comes twice, as the
/// 0 of the switch of 0, is one position.
pub fn positions()
    ensures nimbers { (k : ℕ) → positions_of (nimber_form k) ≡ nimbers_below (suc k) }
    ensures nimber_count { (k : ℕ) → length (positions_of (nimber_form k)) ≡ k + 1 }
    ensures ups { (down starred : Bool) (n : ℕ) → positions_of (ups_of down starred (suc n)) ≡ ups_chain down starred
        (suc n) }
    ensures ups_count { (down starred : Bool) (n : ℕ) → length (positions_of (ups_of down starred (suc n))) ≡ suc n +
        2 }
    ensures switches { (x : Number) → positions_of (switch_form x) ≡ pair_positions x (number_negative x) }
    ensures tinies { (miny : Bool) (x : Number) → positions_of (tiny_form miny x)
        ≡ pair_positions (first_number miny x) (second_number miny x) ++ (tiny_form miny x ∷ []) }
{}

/// Number literals: `num/den` is the number that it spells, exactly where `den` is a power of two, and what
/// `Dyadic::from_digits` answers is the one in range.
pub fn literals()
    ensures fractions { (below : Bool) (num den : ℕ) (x : Number) → (fraction below num den ≡ Some x) ↔ IsQuotient
        below num den x }
    ensures literals { (below : Bool) (num den : ℕ) (o : Option Number) → IsFromDigits below num den o → o ≡ literal
        below num den }
{}

/// Names: every game has exactly one by the rules, and at most one rule with a named form fits, with one number and one
/// count. A canonical game with a number added throughout is the canonical form of the sum, so `x + *n` has the
/// canonical form of `*n` with x in the place of 0; and `n.^*` is `n.^ + *`.
pub fn names()
    ensures named { (g : Game) → (text : List ℕ) × IsName g text }
    ensures one_name { (g : Game) (text other : List ℕ) → IsName g text → IsName g other → text ≡ other }
    ensures one_named { (g : Game) (s t : NamedForm) → Fits s g → Fits t g → s ≡ t }
    ensures moved { (x : Number) (g : Game) → Canonical g → can (sum (number x) g) ≡ shifted x g }
    ensures starred { (down : Bool) (n : ℕ) → Equal (sum (ups_of down false n) star_form) (ups_of down true n) }
{}

/// A name in whose text at most 64 braces are open at once is an expression of the grammar, and the game is the
/// canonical form of what it means; the numbers in the name have to be in range, and its counts to have at most thirty
/// digits. That is so where the numbers of the game are in range, and its depth is below 10^30.
pub fn names_read_back()
    ensures reads { (g : Game) (text : List ℕ) → Canonical g → IsName g text → IsNameInRange g → most_open 0 text ≤ 64
        → ReadsAs g text }
    ensures in_range { (g : Game) → AllInRange g → depth_of g < 10 ^ 30 → IsNameInRange g }
{}
