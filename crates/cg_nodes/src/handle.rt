//! Handles of numbers and games, and lists of handles.
ghost use Rattle.std.specs.Prelude.{◌≡◌, ◌↔◌, IsTrue, [], length};

use cg_cells::Id;
use cg_dyadic::Dyadic;
use std::marker::Model;

/// The id of a number or a game. Contracts see it as the id's number.
#[derive(Clone, Copy, Debug, PartialEq, Eq)]
pub struct Handle {
    id: Id,
}

impl Model for Handle {
    ghost use Rattle.std.specs.Prelude.{ℕ};

    ghost Value = { ℕ };

    ghost view = { λ s. s.id };

    ghost inverse = { λ n. record { id = n } };
}

impl Handle {
    /// The handle of this id.
    pub fn of(id: Id) -> Handle
        ensures { result ≡ id }
    {
        Handle { id }
    }

    /// The id of the handle.
    pub fn id(&self) -> Id
        ensures { result ≡ self.now }
    {
        self.id
    }
}

impl Default for Handle {
    ghost is_default = { λ h. h ≡ 0 };

    /// The handle of the first cell, as a placeholder.
    fn default() -> Self {
        Handle { id: Id::new(0) }
    }
}

/// Whether a handle stands for a number.
#[derive(Clone, Copy, Debug, PartialEq, Eq)]
pub enum Kind {
    Number(Dyadic),
    /// A game that equals no number.
    Game,
}

/// The id of a list cell, or none for the empty list. Contracts see it as that option.
#[derive(Clone, Copy, Debug, PartialEq, Eq)]
pub struct ListId {
    pub(crate) id: Option<Id>,
}

impl Model for ListId {
    ghost use Rattle.std.specs.Prelude.{ℕ, Option};

    ghost Value = { Option ℕ };

    ghost view = { λ s. s.id };

    ghost inverse = { λ n. record { id = n } };
}

/// Handles in their order. Contracts see a list of handles.
#[derive(Debug, Drop)]
pub struct Handles {
    items: Vec<Handle>,
}

impl Model for Handles {
    ghost use Rattle.std.specs.Prelude.{ℕ, List};
    ghost use Rattle.std.specs.Coded.{coded_list, coded_ℕ};

    ghost Value = { List ℕ };

    ghost coded = { coded_list coded_ℕ };

    ghost view = { λ s. s.items.items };
}

impl Handles {
    /// The list of these handles.
    pub fn of(items: Vec<Handle>) -> Handles
        ensures { result ≡ items.items }
    {
        Handles { items }
    }

    /// How many handles there are.
    pub fn len(&self) -> usize
        ensures { result ≡ length self.now }
    {
        self.items.len()
    }

    /// Whether there is no handle.
    pub fn is_empty(&self) -> bool
        ensures { IsTrue result ↔ (self.now ≡ []) }
    {
        self.items.is_empty()
    }

    /// The handles in order.
    pub fn as_slice(&self) -> &[Handle]
        ensures { result.now ≡ self.now }
    {
        &self.items
    }

    /// The handles in order, taken out.
    pub fn into_vec(self) -> Vec<Handle>
        ensures { result.items ≡ self }
    {
        self.items
    }
}
