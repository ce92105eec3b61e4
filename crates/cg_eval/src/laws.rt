//! Laws of expressions and replies: a call puts its law into the caller's facts.
ghost use Rattle.std.specs.Prelude.{◌≡◌, ◌⊎◌, ◌++◌, ◌∷◌, [], ℕ, List, Result, Err, false};
ghost use Rattle.cg_nodes.specs.Can.{can};
ghost use Rattle.cg_canon.specs.declared.fault.ValueFault.{ValueFault};
ghost use Rattle.cg_canon.specs.Items.{Item, made, AllPass, IsStopped};
ghost use Rattle.cg_octal.specs.Codes.{IsRead, OctalHeap};
ghost use Rattle.cg_octal.specs.declared.fault.OctalFault.{OctalFault};
ghost use Rattle.cg_octal.specs.declared.fault.OctalFault.TheVariants.{Memory};
ghost use Rattle.cg_eval.specs.Boards.{IsStrip, Position, strip_position};
ghost use Rattle.cg_eval.specs.Meaning.{meaning};
ghost use Rattle.cg_eval.specs.Items.{items};
ghost use Rattle.cg_eval.specs.Octals.{octal_read};
ghost use Rattle.cg_eval.specs.Reply.{IsReply, IsReplyTo, Piece};
ghost use Rattle.cg_grammar.specs.Lines.{is_blank_line, IsComment};
ghost use Rattle.cg_query.specs.Tree.{Question, Tree};

use cg_syntax::laws::one_query;

/// Where all items of an expression pass, the last is the canonical form of what the expression means, for every share
/// and positions limit.
pub fn l8()
    ensures { (share limit spent : ℕ) (t : Tree) → AllPass share 0 (items limit t) spent
        → (front : List Item) × (extra : ℕ) × (items limit t ≡ front ++ (made (can (meaning t)) extra ∷ [])) }
{}

/// A list of items has one verdict, given the share and what was spent before: either all of them pass, or the first
/// that doesn't is refused for one cause. What was spent then is determined, too.
pub fn one_verdict()
    ensures decided { (share before : ℕ) (items : List Item) → ((after : ℕ) × AllPass share before items after)
        ⊎ ((fault : ValueFault) × (after : ℕ) × IsStopped fault share before items after) }
    ensures apart { (fault : ValueFault) (share before : ℕ) (items : List Item) (a b : ℕ) → AllPass share before items a
        → ¬ IsStopped fault share before items b }
    ensures passed { (share before : ℕ) (items : List Item) (a b : ℕ) → AllPass share before items a
        → AllPass share before items b → a ≡ b }
    ensures stopped { (f e : ValueFault) (share before : ℕ) (items : List Item) (a b : ℕ)
        → IsStopped f share before items a → IsStopped e share before items b → (f ≡ e) × (a ≡ b) }
{}

/// A line that is neither blank nor a comment has exactly one reply, given the share and the positions limit.
pub fn one_reply()
    ensures some { (share limit : ℕ) (line : List ℕ) → is_blank_line line ≡ false → ¬ IsComment line
        → (p : Piece) × IsReply share limit line p }
    ensures unique { (share limit : ℕ) (line : List ℕ) (p r : Piece) → is_blank_line line ≡ false → ¬ IsComment line
        → IsReply share limit line p → IsReply share limit line r → p ≡ r }
{
    one_query();
}

/// A question has exactly one reply, given the share and the positions limit.
pub fn one_reply_to()
    ensures some { (share limit : ℕ) (q : Question) → (p : Piece) × IsReplyTo share limit q p }
    ensures unique { (share limit : ℕ) (q : Question) (p r : Piece) → IsReplyTo share limit q p
        → IsReplyTo share limit q r → p ≡ r }
{}

/// A code and a heap are one heap of an octal game, or ill-formed for one cause.
pub fn octal_heaps()
    ensures some { (code : List ℕ) (tokens : ℕ) → IsRead code tokens (octal_read code tokens) }
    ensures only { (code : List ℕ) (tokens : ℕ) (r : Result OctalHeap OctalFault) → IsRead code tokens r
        → ¬ (r ≡ Err Memory) → octal_read code tokens ≡ r }
{}

/// The rules text and the row of a strip game are one position: a board of the game of these rules, or ill-formed for
/// one cause.
pub fn strip_boards()
    ensures some { (rules row : List ℕ) → IsStrip rules row (strip_position rules row) }
    ensures only { (rules row : List ℕ) (p : Position) → IsStrip rules row p → p ≡ strip_position rules row }
{}
