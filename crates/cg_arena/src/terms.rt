//! Which options of a sum come from which of its two terms.
ghost use Rattle.std.specs.Prelude.{◌≡◌};
ghost use Rattle.cg_arena.specs.Terms.{count_for};

/// How many of the Left and of the Right options of a sum come from its first term. In their lists, these stand before
/// those that come from its second.
#[derive(Clone, Copy, Debug)]
pub struct FirstTerm {
    /// Of the Left options.
    pub lefts: usize,
    /// Of the Right options.
    pub rights: usize,
}

impl FirstTerm {
    /// How many of the player's own options, who is Left with `left`, and else Right.
    pub(crate) fn own(&self, left: bool) -> usize
        ensures { result ≡ count_for left self.now }
    {
        if left { self.lefts } else { self.rights }
    }
}
