//! Laws of keys and of claims: each function does nothing, and its contract is the law.
ghost use Rattle.std.specs.Prelude.{◌≡◌, ◌≢◌, ℕ, ◌+◌, ◌<◌, ◌↔◌, pos, negsuc, true, Option, Some};
ghost use Rattle.std.specs.Prelude.{None, List, slice_index, slice_set};
ghost use Rattle.std.specs.FinMap as map;
ghost use Rattle.std.specs.Ordering.{nat_cmp};
ghost use Rattle.cg_cells.specs.declared.key.KeyParts.{KeyParts};
ghost use Rattle.cg_cells.specs.declared.key.KeyParts.TheVariants.{Number, Cons, Game, Long};
ghost use Rattle.cg_cells.specs.Layout.{FieldsFit, TypesFit, word_of};
ghost use Rattle.cg_cells.specs.Meaning.{Has, IsReal, SpellsUnderFinite, Stands};
ghost use Rattle.cg_cells.specs.Parts.{parts_of};
ghost use Rattle.cg_cells.specs.Words.{AreFirst, IsCellFor, empty_words, marked, things_of};

use crate::Facts;

/// Parts that fit are the parts of their word. The parts of a word fit and have that word, and no other word has parts.
pub fn layout()
    ensures packed { (p : KeyParts) → FieldsFit p → TypesFit p → parts_of (word_of p) ≡ Some p }
    ensures unpacked { (w : ℕ) (p : KeyParts) → parts_of w ≡ Some p → FieldsFit p × TypesFit p
        × (word_of p ≡ w) }
    ensures others { (w : ℕ) → ((p : KeyParts) → FieldsFit p → TypesFit p → word_of p ≢ w)
        → parts_of w ≡ None }
{}

/// Six words: of the numbers 0, 1/2 and -1, of the list of the cell 0 alone, of the game with the
/// cell 1 as both lists, and of a negative long number over 2^3 whose first chunk is the cell 1.
pub fn six_words()
    ensures zero { word_of (Number (pos 0) 0) ≡ 0x2000_0000_0000_0000 }
    ensures half { word_of (Number (pos 1) 1) ≡ 0x2020_0000_0000_0001 }
    ensures minus_one { word_of (Number (negsuc 0) 0) ≡ 0x201f_ffff_ffff_ffff }
    ensures cons { word_of (Cons 0 None) ≡ 0x6000_0000_0000_0001 }
    ensures game { word_of (Game (Some 1) (Some 1)) ≡ 0x8000_0000_1000_0002 }
    ensures long { word_of (Long 1 3 true) ≡ 0xe000_0002_1800_0002 }
{}

/// The ids of a store that was made empty come in the order of first claims, from 0: if the cells with a key are the
/// first `n`, a key that has a cell keeps it, and a new key gets the cell `n`, after which the first `n + 1` have a
/// key.
pub fn order_of_claims()
    ensures none { (size : ℕ) → AreFirst (empty_words size).keys 0 }
    ensures found { (keys : List ℕ) (n key id : ℕ) → AreFirst keys n → key ≢ 0
        → slice_index keys id ≡ key → (id < n) × (slice_set keys id key ≡ keys) }
    ensures new { (keys : List ℕ) (n key id : ℕ) → AreFirst keys n → key ≢ 0
        → ((i : ℕ) → slice_index keys i ≢ key) → IsCellFor keys key id → (id ≡ n)
        × AreFirst (slice_set keys id key) (n + 1) }
{}

/// What a key spells under a map from ids to things, it spells under a finite part of that map.
pub fn finite_maps<F: Facts>()
    ensures { (key : ℕ) (f : ℕ → Option F.Thing) (t : F.Thing) → F.meaning.spells key f ≡ Some t
        → SpellsUnderFinite F.meaning key f t }
{}

/// If cells can stand for a thing, some key spells it under some finite map.
pub fn real_things<F: Facts>()
    ensures { (o : Option F.Thing) (t : F.Thing) → IsReal F.meaning o → o ≡ Some t
        → (key : ℕ) × (known : map.FinMap nat_cmp F.Thing)
        × (F.meaning.spells key (map.get known) ≡ Some t) }
{}

/// A store in plain memory knows exactly what its cells stand for, and exactly the cells with a value are noted.
pub fn what_stands<F: Facts>()
    ensures known { (keys : List ℕ) (id : ℕ) (t : F.Thing)
        → map.get (things_of F.meaning keys) id ≡ Some t
        → Stands F.meaning (slice_index keys) id t }
    ensures stands { (keys : List ℕ) (id : ℕ) (t : F.Thing)
        → Stands F.meaning (slice_index keys) id t
        → map.get (things_of F.meaning keys) id ≡ Some t }
    ensures noted { (values : List ℕ) (id : ℕ) → Has (marked 0 values) id
        ↔ (slice_index values id ≢ 0) }
{}
