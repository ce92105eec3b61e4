//! What stands in the places of options, while a form is computed.
ghost use Rattle.std.specs.Prelude.{◌≡◌, ◌++◌, ◌∷◌, ◌⊎◌, [], ℕ, IfOk, IsTrue, OnOk};
ghost use Rattle.cg_arena.specs.Passed.{WasPassed};

use crate::game::Game;
use crate::verdicts::ByIndex;
use smallvec::SmallVec;
use std::alloc::{AllocError, Global};

/// Up to so many options are dealt with as they come, and nothing is kept beside them.
pub(crate) const FEW: usize = 8;

/// A list of options: up to 8 of them take no memory.
pub(crate) type Options = SmallVec<Game, 8>;

/// Puts the option behind the others: with no call where there is room for it, as there mostly is.
#[inline(always)]
pub(crate) fn push_option(options: &mut Options, x: Game) -> Result<(), AllocError>
    ensures { OnOk result (options.new.items ≡ options.old.items ++ (x ∷ [])) }
{
    if options.len() < options.capacity() {
        options.push_reserved(x);
        return Ok(());
    }
    options.push(x)?;
    Ok(())
}

/// Puts the options behind the others.
pub(crate) fn push_options(options: &mut Options, all: &[Game]) -> Result<(), AllocError>
    ensures { OnOk result (options.new.items ≡ options.old.items ++ all.now) }
{
    for x in all {
        push_option(options, *x)?;
    }
    Ok(())
}

/// What stands in the places of some options, and the indexes of these options. An option that is met again, as one of
/// many that share their own options, is not bypassed again.
#[derive(Drop)]
pub(crate) struct Substitutes {
    pub(crate) items: Options,
    pub(crate) passed: ByIndex,
}

impl Substitutes {
    /// Of no options.
    pub(crate) fn new(alloc: Global) -> Substitutes
        ensures items { result.items.items ≡ [] }
        ensures passed { (p : ℕ) → ¬ WasPassed result p }
    {
        Substitutes {
            items: SmallVec::new(alloc),
            passed: ByIndex::new(alloc),
        }
    }

    /// Whether they stand in the place of the option.
    pub(crate) fn has_passed(&self, option: Game) -> bool
        ensures { IsTrue result → WasPassed self.now option }
    {
        self.passed.recall(option).is_some()
    }

    /// Puts one option more behind the others.
    pub(crate) fn push(&mut self, option: Game) -> Result<(), AllocError>
        ensures items { IfOk result (λ _. self.new.items.items ≡ self.old.items.items ++ (option ∷ [])) }
        ensures passed { (p : ℕ) → WasPassed self.new p → WasPassed self.old p }
    {
        push_option(&mut self.items, option)
    }

    /// Notes that they stand in the place of the option, too.
    pub(crate) fn pass(&mut self, option: Game) -> Result<(), AllocError>
        ensures items { self.new.items.items ≡ self.old.items.items }
        ensures passed { (p : ℕ) → WasPassed self.new p → WasPassed self.old p ⊎ (p ≡ option) }
    {
        self.passed.remember(option, true)
    }
}
