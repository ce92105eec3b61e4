//! The named forms that were found.
ghost use Rattle.std.specs.Prelude.{◌≡◌, ℕ, ◌==◌, ◌+◌, ◌<◌, ◌^◌, IfOk, None, OnOk, Some, if◌then◌else◌, is_some};
ghost use Rattle.cg_names.specs.Memos.{kept, recalled};

use crate::named_form::NamedForm;
use cg_canon::Game;
use std::alloc::{AllocError, Global};
use std::collections::HashMap;

/// The named forms of games, by the places of the games, or that a game has none.
#[derive(Drop)]
pub(crate) struct Memo {
    named_forms: HashMap<usize, Option<NamedForm>>,
}

impl Memo {
    /// Of nothing.
    pub fn new(alloc: Global) -> Memo
        ensures { (a : ℕ) → recalled result a ≡ None }
    {
        Memo {
            named_forms: HashMap::new(alloc),
        }
    }

    /// What was found for the game, if anything was.
    pub fn recall(&self, a: Game) -> Option<Option<NamedForm>>
        ensures { result ≡ recalled self.now a }
    {
        self.named_forms.get(&a.place()).copied()
    }

    /// Keeps what was found for the game.
    pub fn remember(&mut self, a: Game, named_form: &Option<NamedForm>) -> Result<(), AllocError>
        ensures ok { IfOk result (λ _. (b : ℕ) → recalled self.new b
            ≡ (if a == b then Some named_form.now else recalled self.old b)) }
        ensures count { OnOk result (kept self.new ≡ kept self.old + (if is_some (recalled self.old a) then 0 else 1)) }
    {
        self.named_forms.insert(a.place(), *named_form)?;
        Ok(())
    }

    /// Fewer named forms are kept than memory has room for. It does nothing, and its contract is the fact.
    pub fn has_room(&self)
        ensures { kept self.now < 2 ^ 63 }
    {
        let _count = self.named_forms.len();
    }
}
