//! Strip games.
ghost use Rattle.std.specs.Prelude.{◌≡◌, None, All, IfOk, IfErr};
ghost use Rattle.cg_strip.specs.Rulebook.{IsRulebook, symbols_of};
ghost use Rattle.cg_strip.specs.Boards.{IsBoardOf, IsBoardRefused};
ghost use Rattle.cg_strip.specs.RuleFaults.{IsReadAs, IsRefused, HasPlaces, book_of};
ghost use Rattle.cg_strip.specs.Faults.{fault_of, IsStripOf};
ghost use Rattle.cg_strip.specs.Views.{items_in};

use crate::faults::first_fault;
use crate::items::Layout;
use crate::reading::layout;
use crate::rule::Rule;
use crate::weighing::first_rising;
use crate::weight::Weight;
use cg_moves::{Board, BoardFault, read_grid};
use cg_reading::ReadFault;
use std::alloc::{AllocError, Global};
use std::marker::Model;

/// A strip game: what its symbols weigh, and its rules. Contracts see these two lists.
#[derive(Debug, Drop)]
pub struct Strip {
    weights: Vec<Weight>,
    rules: Vec<Rule>,
}

impl Model for Strip {
    ghost use Rattle.cg_strip.specs.Rulebook.{Rulebook, IsRulebook};

    ghost Value = { Rulebook };

    ghost view = { λ s. record { weights = s.weights.items; rules = s.rules.items } };

    ghost invariant = { λ s. IsRulebook (record { weights = s.weights.items; rules = s.rules.items }) };
}

impl Strip {
    /// The strip game of these rules.
    ///
    /// `Rules` comes exactly where the text is refused, with the place: 1 plus the length of the longest prefix that
    /// some text of the grammar has, too; and for a text of the grammar the first place at which a rule beyond it is
    /// broken.
    pub fn read(alloc: Global, rules: &[u8]) -> Result<Strip, BoardFault>
        ensures read { IfOk result (IsReadAs rules.now) }
        ensures refused { IfErr result (IsRefused rules.now) }
    {
        match layout(alloc, rules) {
            Ok(found) => strip_of(alloc, found),
            Err(ReadFault::Memory) => Err(BoardFault::Memory),
            Err(ReadFault::Stuck(left)) => {
                Err(BoardFault::Rules(rules.len() as u64 + 1 - left as u64))
            }
        }
    }

    /// The board of a text: one row of the symbols that have a weight.
    ///
    /// The first of these that applies is the refusal: the text is refused as one row of these symbols; or `Lowering`,
    /// with the number of the first rule that doesn't lower the sum of the weights at some cell where its pattern fits.
    pub fn board(&self, alloc: Global, text: &[u8]) -> Result<Board, BoardFault>
        ensures read { IfOk result (IsBoardOf self.now text.now) }
        ensures refused { IfErr result (IsBoardRefused self.now text.now) }
    {
        let symbols = self.symbols(alloc)?;
        let board = read_grid(alloc, text, &symbols, true)?;
        match first_rising(self.weights(), u64::from(board.size()), self.rules()) {
            Some(number) => Err(BoardFault::Lowering(number)),
            None => Ok(board),
        }
    }

    /// The symbols that have a weight, in the order of the weights.
    fn symbols(&self, alloc: Global) -> Result<Vec<u8>, AllocError>
        ensures value { IfOk result (λ symbols. symbols.items ≡ symbols_of self.now.weights) }
        ensures sound { IsRulebook self.now }
    {
        self.weights
            .iter()
            .map(|weight| weight.symbol)
            .collect(alloc)
    }

    /// What the symbols weigh, in the order of the text.
    pub fn weights(&self) -> &[Weight]
        ensures value { result.now ≡ self.now.weights }
        ensures sound { IsRulebook self.now }
    {
        &self.weights
    }

    /// The rules, in the order of the text.
    pub fn rules(&self) -> &[Rule]
        ensures value { result.now ≡ self.now.rules }
        ensures sound { IsRulebook self.now }
    {
        &self.rules
    }
}

/// The strip game of these items, if no rule beyond the grammar is broken.
fn strip_of(alloc: Global, found: Layout) -> Result<Strip, BoardFault>
    requires places { All HasPlaces found.rules.items }
    requires book { fault_of (items_in found) ≡ None → IsRulebook (book_of (items_in found)) }
    ensures { IsStripOf (items_in found) (fault_of (items_in found)) result }
{
    if let Some(place) = first_fault(&found) {
        return Err(BoardFault::Rules(place));
    }
    let Layout { weights, rules } = found;
    let weights = weights.into_iter().map(|item| item.weight).collect(alloc)?;
    let rules = rules.into_iter().map(|item| item.rule).collect(alloc)?;
    Ok(Strip { weights, rules })
}
