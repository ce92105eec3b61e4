//! What was spent of a share.
ghost use Rattle.std.specs.Prelude.{◌≡◌, ◌+◌, ◌<◌, ◌≤◌, ◌^◌, IfOk, IfErr, OnOk, OnErr, [], ◌∷◌};
ghost use Rattle.cg_form.specs.Game.{Game};
ghost use Rattle.cg_canon.specs.Items.{AllPass, WasRefused, made};
ghost use Rattle.cg_arena.specs.Costs.{IsCharge};

use crate::fault::ValueFault;
use cg_arena::Charge;

/// What was spent, and what may be.
#[derive(Clone, Copy)]
pub(crate) struct Meter {
    pub spent: u64,
    pub share: u64,
}

/// The greatest depth of a form that is made.
const DEEPEST: u64 = 512;

impl Meter {
    /// Charges the item of a form, with a cost of `extra` more, unless it is too deep or too dear.
    pub fn charge_item(&mut self, charge: Charge, extra: u64) -> Result<(), ValueFault>
        requires extra { extra ≤ 8 }
        requires cost { charge.cost < 2 ^ 63 }
        requires within { self.old.spent ≤ self.old.share }
        requires small { self.old.share ≤ 67108864 }
        ensures ok { IfOk result (λ _. self.new ≡ record self.old { spent = self.old.spent + (charge.cost + extra) }) }
        ensures fits { IfOk result (λ _. self.old.spent + (charge.cost + extra) ≤ self.old.share) }
        ensures charged { (g : Game) → IsCharge g charge
            → OnOk result (AllPass self.old.share self.old.spent (made g extra ∷ []) self.new.spent) }
        ensures refused { (g : Game) → IsCharge g charge
            → IfErr result (λ fault. WasRefused fault self.old.share self.old.spent (made g extra ∷ []) self.new.spent) }
        ensures memory { IfErr result (λ fault. ¬ (fault ≡ ValueFault.Memory)) }
        ensures same { OnErr result (self.new ≡ self.old) }
    {
        if charge.depth > DEEPEST {
            return Err(ValueFault::Depth(charge.depth));
        }
        let total = self.spent + (charge.cost + extra);
        if total > self.share {
            return Err(ValueFault::Full(total));
        }
        self.spent = total;
        Ok(())
    }
}
