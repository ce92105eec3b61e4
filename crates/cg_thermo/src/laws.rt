//! Laws of thermographs.
ghost use Rattle.std.specs.Prelude.{◌≡◌, ◌≤◌, ◌+◌, ℕ, pos};
ghost use Rattle.cg_dyadic.specs.Number.{Number, exp_of};
ghost use Rattle.cg_dyadic.specs.Units.{units};
ghost use Rattle.cg_dyadic.specs.Wide.{places};
ghost use Rattle.cg_form.specs.Depth.{depth_of};
ghost use Rattle.cg_form.specs.Game.{Game};
ghost use Rattle.cg_form.specs.Heights.{height};
ghost use Rattle.cg_form.specs.Order.{Equal};
ghost use Rattle.cg_form.specs.Simple.{Decides};
ghost use Rattle.cg_form.specs.Walls.{IsThermal, walls};
ghost use Rattle.cg_walls.specs.Corners.{corners, marks};
ghost use Rattle.cg_walls.specs.Lines.{OnLine};
ghost use Rattle.cg_thermo.specs.declared.thermo.Walls as drawn;
ghost use Rattle.cg_nodes.specs.Ranges.{AllInRange};
ghost use Rattle.cg_thermo.specs.Thermal.{MastFrom, NeedsMore};
ghost use Rattle.cg_thermo.specs.Thermographs.{IsThermograph};
ghost use Rattle.cg_thermo.specs.WallLine.{IsOnLine};

/// The line through the corners of a wall is the wall, at every temperature.
pub fn lines()
    ensures left { (d : Decides) (s end t : ℕ) (g : Game) → height g ≤ s → MastFrom d s g end
        → OnLine (marks (corners (λ u. (walls d s u g).left) end)) (pos t) (walls d s t g).left }
    ensures right { (d : Decides) (s end t : ℕ) (g : Game) → height g ≤ s → MastFrom d s g end
        → OnLine (marks (corners (λ u. (walls d s u g).right) end)) (pos t) (walls d s t g).right }
{}

/// What is on the line of the corners of a thermograph is the wall: at every temperature of u units, and every scale of
/// at least the height at which both are whole.
pub fn readings()
    ensures left { (d : Decides) (g : Game) (w : drawn.Walls) (s u : ℕ) (t x : Number) → IsThermograph g w
        → height g ≤ s → exp_of t ≤ s → exp_of x ≤ s → units s t ≡ pos u → IsOnLine w.left t x → units s x ≡ (walls d s u g).left }
    ensures right { (d : Decides) (g : Game) (w : drawn.Walls) (s u : ℕ) (t x : Number) → IsThermograph g w
        → height g ≤ s → exp_of t ≤ s → exp_of x ≤ s → units s t ≡ pos u → IsOnLine w.right t x → units s x ≡ (walls d s u g).right }
{}

/// Each game has one thermograph, and equal games have the same.
pub fn thermographs()
    ensures some { (g : Game) → (w : drawn.Walls) × IsThermograph g w }
    ensures one { (g : Game) (v w : drawn.Walls) → IsThermograph g v → IsThermograph g w → v ≡ w }
    ensures equal { (g h : Game) (w : drawn.Walls) → Equal g h → IsThermograph g w → IsThermograph h w }
{}

/// No mean and no temperature needs more binary places than the height of its game; the height of a game whose numbers
/// are in range is at most 40 more than its depth. So no position of such a game of a depth of at most 20 needs more
/// than 60.
pub fn heights()
    ensures thermal { (g : Game) (mean temp : Number) → IsThermal g mean temp
        → (exp_of mean ≤ height g) × (exp_of temp ≤ height g) }
    ensures depth { (g : Game) → AllInRange g → height g ≤ 40 + depth_of g }
    ensures enough { (g : Game) → AllInRange g → depth_of g ≤ 20 → ¬ NeedsMore places g }
{}
