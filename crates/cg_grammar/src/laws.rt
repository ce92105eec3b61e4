//! Laws of the grammar, for all lines. A call puts its law into the caller's facts.
ghost use Rattle.std.specs.Prelude.{◌≡◌, ◌≤◌, ◌+◌, ◌↔◌, ◌⊎◌, ℕ, List, [], ◌∷◌, length, map, false, true};
ghost use Rattle.cg_query.specs.Tree.{Question, Statement};
ghost use Rattle.cg_query.specs.declared.format.Format.{Format};
ghost use Rattle.cg_grammar.specs.Braces.{Run_side, part_of, repeats, row_fault, row_tree};
ghost use Rattle.cg_grammar.specs.Found.{Found, Stated};
ghost use Rattle.cg_grammar.specs.Grammar.{Some_rows, expr, side as side_piece, special};
ghost use Rattle.cg_grammar.specs.Lines.{is_blank_line, IsColumn, IsColumnIn, IsComment, Reads, ReadsIn, line_of};
ghost use Rattle.cg_grammar.specs.Repeated.{RepeatsAt};
ghost use Rattle.cg_grammar.specs.Splitting.{AllWithin, IsFault, IsLeast, IsSplit, NoneRepeats, Repeats, RowLies};
ghost use Rattle.cg_grammar.specs.Values.{run_side};

/// No line reads as two questions, no blank line and no comment as one, and each line as one, or as none. A line that
/// reads as none has exactly one column.
pub fn one_query()
    ensures unique { (line : List ℕ) (p q : Question) → Reads line p → Reads line q → p ≡ q }
    ensures not_blank { (line : List ℕ) (q : Question) → Reads line q → is_blank_line line ≡ false }
    ensures not_comment { (line : List ℕ) (q : Question) → Reads line q → ¬ IsComment line }
    ensures decided { (line : List ℕ) → ((q : Question) × Reads line q) ⊎ (((q : Question) → ¬ Reads line q)
        × ((c : ℕ) × IsColumn line c)) }
    ensures one_column { (line : List ℕ) (c d : ℕ) → IsColumn line c → IsColumn line d → c ≡ d }
{}

/// No line of a format states two things, no blank line and no comment states anything, and each line states one thing,
/// or none. A line that states nothing has exactly one column.
pub fn one_statement()
    ensures unique { (format : Format) (line : List ℕ) (s t : Statement) → ReadsIn format line s → ReadsIn format line t
        → s ≡ t }
    ensures not_blank { (format : Format) (line : List ℕ) (s : Statement) → ReadsIn format line s
        → is_blank_line line ≡ false }
    ensures not_comment { (format : Format) (line : List ℕ) (s : Statement) → ReadsIn format line s
        → ¬ IsComment line }
    ensures decided { (format : Format) (line : List ℕ) → ((s : Statement) × ReadsIn format line s)
        ⊎ (((s : Statement) → ¬ ReadsIn format line s) × ((c : ℕ) × IsColumnIn format line c)) }
    ensures one_column { (format : Format) (line : List ℕ) (c d : ℕ) → IsColumnIn format line c
        → IsColumnIn format line d → c ≡ d }
{}

/// A brace is split at its longest run of bars, and so is each of its sides: where runs have one bar to eight, and none
/// repeats an earlier one, the tree that the grammar gives a row with a run is that of splitting at the longest run,
/// and so are the options that it gives each of its parts.
pub fn longest_run()
    ensures tree { (side : List Found) (row : Run_side) (rows : List Run_side) → AllWithin 8 (row ∷ rows)
        → NoneRepeats [] (row ∷ rows) → IsSplit side (row ∷ rows) (row_tree side (row ∷ rows) ∷ []) }
    ensures lengths { (side : List Found) (rows : List Run_side) → AllWithin 8 rows → NoneRepeats [] rows
        → IsSplit side rows (part_of 8 side rows) }
{}

/// A run of bars is refused where it repeats an earlier one of its brace: the test on the lengths says so exactly where
/// one of the earlier runs has its length and none longer stands behind that one.
pub fn repeated_run()
    ensures { (length : ℕ) (earlier : List ℕ) → (repeats length false earlier ≡ true) ↔ Repeats length earlier }
{}

/// The column at which a brace is refused is the least at which a run of bars repeats an earlier one of the brace, or
/// an expression in it is refused; and there is none exactly where no run does and no expression is. In each line the
/// expressions and the runs of a brace stand one behind the other, as that asks. So the column of a whole line of the
/// grammar is the least at which some brace of it, at any depth, repeats a run; and there is none exactly where no
/// brace does.
pub fn least_column()
    ensures least { (side : List Found) (rows : List Run_side) (from to : ℕ) → RowLies from side rows to
        → IsLeast (IsFault side rows) (row_fault side rows) }
    ensures in_order { (format : Format) (most at : ℕ) (side : List Found) (row : (ℕ × ℕ) × List Found)
        (rows : List ((ℕ × ℕ) × List Found)) (front behind : List ℕ)
        → side_piece (expr (special format most)) at side front
        → Some_rows (side_piece (expr (special format most))) (at + length front) (row, rows) behind
        → RowLies at side (map run_side (row ∷ rows)) (at + length front + length behind) }
    ensures whole { (format : Format) (line : List ℕ) (a : Stated) → line_of format 1 a line
        → IsLeast (RepeatsAt format line) a.fault }
{}
