//! Laws of walls in whole units, and of the line through points.
ghost use Rattle.std.specs.Prelude.{◌≡◌, ℕ, suc, ◌≤◌, ℤ, pos, ◌+ℤ◌, ◌≤ℤ◌, List, ◌∷◌};
ghost use Rattle.cg_walls.specs.Corners.{corners, marks};
ghost use Rattle.cg_walls.specs.Lines.{Mark, OnLine};

/// A function that moves by at most 1 from each time to the next, and is constant from some time on, is the line
/// through its corners up to that time. A line through points has one value at each time.
pub fn lines()
    ensures corners { (w : ℕ → ℤ) (end : ℕ) → ((t : ℕ) → w (suc t) ≤ℤ (w t +ℤ pos 1))
        → ((t : ℕ) → w t ≤ℤ (w (suc t) +ℤ pos 1)) → ((t : ℕ) → end ≤ t → w t ≡ w end)
        → (t : ℕ) → OnLine (marks (corners w end)) (pos t) (w t) }
    ensures some { (c : Mark) (cs : List Mark) (t : ℤ) → (x : ℤ) × OnLine (c ∷ cs) t x }
    ensures one { (cs : List Mark) (t x y : ℤ) → OnLine cs t x → OnLine cs t y → x ≡ y }
{}
