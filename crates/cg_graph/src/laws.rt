//! Laws of games on graphs: each function does nothing, and its contract is the law.
ghost use Rattle.std.specs.Prelude.{◌≡◌, ◌≢◌, ◌↔◌, ◌∷◌, [], ℕ, Bool, List, Ok, Err, codes, false, true};
ghost use Rattle.cg_dyadic.specs.Number.{Number};
ghost use Rattle.cg_form.specs.Game.{Among, Game, lefts, number, rights};
ghost use Rattle.cg_form.specs.Order.{Equal, Le};
ghost use Rattle.cg_moves.specs.declared.player.Player.{Player};
ghost use Rattle.cg_moves.specs.declared.player.Player.TheVariants.{Left, Right};
ghost use Rattle.cg_moves.specs.Grid.{Grid};
ghost use Rattle.cg_moves.specs.Raw.{raw};
ghost use Rattle.cg_moves.specs.Rising.{IsRising};
ghost use Rattle.cg_moves.specs.Lawful.{IsLawful};
ghost use Rattle.cg_moves.specs.Rules.{In, boards_after};
ghost use Rattle.cg_graph.specs.ColouredGraphs.{ColouredGraph, IsColouredGraphOf};
ghost use Rattle.cg_graph.specs.ColouredGraphs.{IsNoColouredGraph, coloured_graph_read};
ghost use Rattle.cg_graph.specs.Drawings.{IsDrawnAs, IsNotDrawn, colours_of, drawing_read, drawing_start, graph_of};
ghost use Rattle.cg_graph.specs.Hackenbush.{IsCutMove, IsRedBlue, cuts_of, green, hackenbush};
ghost use Rattle.cg_graph.specs.declared.edge.ColouredEdge.{ColouredEdge};
ghost use Rattle.cg_graph.specs.Paths.{Edge, IsJoined, IsSettled, colour, is_joined, settled};
ghost use Rattle.cg_graph.specs.Colouring.{IsColouringMove, colouring, colourings_of};
ghost use Rattle.cg_graph.specs.Worked.{pair, path};

use crate::GraphFault;

/// An edge counts as joined to the ground exactly where a path of edges that are there leads from the ground to one of
/// its ends. After what isn't joined is gone, each edge that is there is joined; so it is after each move.
pub fn paths()
    ensures joined { (edges : List Edge) (cells : List ℕ) (k : ℕ) → (is_joined edges cells k ≡ true) ↔ IsJoined edges cells k }
    ensures settled { (edges : List Edge) (cells : List ℕ) → IsSettled edges (settled edges cells) }
    ensures after { (edges : List Edge) (player : Player) (p q : Grid) → In q (boards_after (hackenbush edges) player p)
        → IsSettled edges q.cells }
{}

/// In a position of Hackenbush without green edges in which each edge that is there is joined to the ground, each Left
/// option is less than the position and each Right option greater. So the position equals a number. The start of a
/// drawing without green edges is such a position, and each move leads to such a position again.
pub fn l11()
    ensures left { (edges : List Edge) (p : Grid) (a : Game) → IsRedBlue edges p → Among a (lefts (raw (hackenbush edges) p))
        → Le a (raw (hackenbush edges) p) × (¬ Le (raw (hackenbush edges) p) a) }
    ensures right { (edges : List Edge) (p : Grid) (b : Game) → IsRedBlue edges p → Among b (rights (raw (hackenbush edges) p))
        → Le (raw (hackenbush edges) p) b × (¬ Le b (raw (hackenbush edges) p)) }
    ensures number { (edges : List Edge) (p : Grid) → IsRedBlue edges p
        → (x : Number) × Equal (number x) (raw (hackenbush edges) p) }
    ensures start { (drawing : List ColouredEdge) → ((k : ℕ) → colour (colours_of drawing) k ≢ green)
        → IsRedBlue (graph_of drawing) (drawing_start drawing) }
    ensures again { (edges : List Edge) (player : Player) (p q : Grid) → IsRedBlue edges p
        → In q (boards_after (hackenbush edges) player p) → IsRedBlue edges q }
{}

/// Worked cuts of the path of a blue, a red and a red edge from the ground: Left cuts the first, and all falls; Right
/// cuts the second, and the third falls, or the third.
pub fn worked()
    ensures left { cuts_of path Left (codes "brr") ≡ codes "..." ∷ [] }
    ensures right { cuts_of path Right (codes "brr") ≡ codes "b.." ∷ (codes "br." ∷ []) }
    ensures start { settled path (codes ".rr") ≡ codes "..." }
{}

/// The moves of Hackenbush are exactly the cuts of edges that the player may cut, and those of Col and Snort exactly
/// the colourings of free vertices without a neighbour of the forbidden colour, in rising order of the bytes of the
/// cells that they lead to, each once.
pub fn moves()
    ensures cuts { (edges : List Edge) (player : Player) (cells after : List ℕ)
        → In after (cuts_of edges player cells) ↔ IsCutMove edges player cells after }
    ensures colourings { (snort : Bool) (edges : List Edge) (player : Player) (cells after : List ℕ)
        → In after (colourings_of snort edges player cells) ↔ IsColouringMove snort edges player cells after }
    ensures cuts_rise { (edges : List Edge) (player : Player) (cells : List ℕ) → IsRising (cuts_of edges player cells) }
    ensures colourings_rise { (snort : Bool) (edges : List Edge) (player : Player) (cells : List ℕ)
        → IsRising (colourings_of snort edges player cells) }
{}

/// What a text is read as, computed: a drawing exactly where it is one, and a fault exactly where it is refused so.
pub fn drawings()
    ensures drawn { (text : List ℕ) (drawing : List ColouredEdge) → (drawing_read text ≡ Ok drawing) ↔ IsDrawnAs text drawing }
    ensures refused { (text : List ℕ) (fault : GraphFault) → fault ≢ GraphFault.Memory
        → (drawing_read text ≡ Err fault) ↔ IsNotDrawn text fault }
{}

/// What two texts are read as, computed: a position of Col or Snort exactly where they are one, and a fault exactly
/// where they are refused so.
pub fn coloured_graphs()
    ensures coloured { (snort : Bool) (vertices edges : List ℕ) (coloured_graph : ColouredGraph)
        → (coloured_graph_read snort vertices edges ≡ Ok coloured_graph) ↔ IsColouredGraphOf snort vertices edges coloured_graph }
    ensures refused { (snort : Bool) (vertices edges : List ℕ) (fault : GraphFault) → fault ≢ GraphFault.Memory
        → (coloured_graph_read snort vertices edges ≡ Err fault) ↔ IsNoColouredGraph vertices edges fault }
{}

/// The rules of Hackenbush, and those of Col and Snort, meet the law of rules.
pub fn lawful()
    ensures hackenbush { (edges : List Edge) → IsLawful (hackenbush edges) }
    ensures colouring { (snort : Bool) (vertices : ℕ) (edges : List Edge) → IsLawful (colouring snort vertices edges) }
{}

/// Worked moves on two joined vertices of which Left has the first: in Snort Right has no move and Left one, and in Col
/// Left has none and Right one.
pub fn worked_colours()
    ensures snort_right { colourings_of true pair Right (codes "x.") ≡ [] }
    ensures snort_left { colourings_of true pair Left (codes "x.") ≡ codes "xx" ∷ [] }
    ensures col_left { colourings_of false pair Left (codes "x.") ≡ [] }
    ensures col_right { colourings_of false pair Right (codes "x.") ≡ codes "xo" ∷ [] }
{}
