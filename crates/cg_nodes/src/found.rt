//! Handles that were found, each once.
ghost use Rattle.std.specs.Prelude.{◌≡◌, ◌==◌, ℕ, ◌<◌, ◌≤◌, ◌^◌, ◌∷◌, ◌++◌, []};
ghost use Rattle.std.specs.Prelude.{IfOk, OnOk, OnErr, IsTrue, ◌↔◌, length, Err};
ghost use Rattle.std.specs.HashSet.{contains};
ghost use Rattle.cg_cells.specs.Meaning.{Has};

use crate::{Handle, Handles, PositionsFault};
use std::alloc::{AllocError, Global};
use std::collections::HashSet;
use std::marker::Model;

// Up to this many handles are searched one by one.
const MOST_SEARCHED: usize = 64;
// The first capacity of the set of ids.
const ROOM_FOR_IDS: usize = 2 * MOST_SEARCHED;
// The first capacity of the vector of handles.
const ROOM_FOR_HANDLES: usize = 16;

/// Handles in the order in which they were found: a few are searched one by one, and more are looked up by their ids.
/// Contracts see the list of handles.
#[derive(Drop)]
pub struct Found {
    handles: Vec<Handle>,
    ids: HashSet<u32>,
    // Whether `ids` has the id of each handle, and no other.
    by_ids: bool,
}

impl Model for Found {
    ghost use Rattle.std.specs.Prelude.{ℕ, List, ◌==◌, ◌↔◌, IsTrue};
    ghost use Rattle.std.specs.Coded.{coded_list, coded_ℕ};
    ghost use Rattle.std.specs.HashSet.{contains};
    ghost use Rattle.cg_cells.specs.Meaning.{Has};

    ghost Value = { List ℕ };

    ghost coded = { coded_list coded_ℕ };

    ghost view = { λ s. s.handles.items };

    ghost invariant = { λ s. IsTrue s.by_ids → (h : ℕ) → IsTrue (contains (λ a b. a == b) s.ids h) ↔ Has s.handles.items h };
}

impl Found {
    /// No handles yet.
    pub fn new(alloc: Global) -> Result<Found, AllocError>
        ensures { IfOk result (λ found. found ≡ []) }
    {
        Ok(Found {
            handles: Vec::with_capacity(alloc, ROOM_FOR_HANDLES)?,
            ids: HashSet::new(alloc),
            by_ids: false,
        })
    }

    /// Whether the handle was found.
    pub fn has(&self, handle: Handle) -> bool
        ensures { IsTrue result ↔ Has self.now handle }
    {
        if self.by_ids {
            self.ids.contains(&handle.id().number())
        } else {
            self.handles.contains(&handle)
        }
    }

    /// Appends a handle, unless there are `limit` already. After an error nothing has changed.
    pub fn add(&mut self, handle: Handle, limit: u64) -> Result<(), PositionsFault>
        requires { length self.old ≤ limit }
        ensures added { OnOk result (self.new ≡ self.old ++ (handle ∷ [])) }
        ensures same { OnErr result (self.new ≡ self.old) }
        ensures within { OnOk result (length self.old < limit) }
        ensures refused { result ≡ Err PositionsFault.Positions → (limit ≡ length self.old) × (limit < 2 ^ 63) }
    {
        if self.handles.len() as u64 >= limit {
            return Err(PositionsFault::Positions);
        }
        self.handles.push(handle)?;
        if self.by_ids {
            // If the id has no room, the handles are searched one by one again.
            self.by_ids = false;
            if self.ids.insert(handle.id().number()).is_err() {
                self.handles.pop();
                return Err(PositionsFault::Memory);
            }
            self.by_ids = true;
        } else if self.handles.len() > MOST_SEARCHED {
            if put_ids(&mut self.ids, &self.handles).is_err() {
                self.handles.pop();
                return Err(PositionsFault::Memory);
            }
            self.by_ids = true;
        }
        Ok(())
    }

    /// The handles in the order in which they were found.
    pub fn into_handles(self) -> Handles
        ensures { result ≡ self }
    {
        let Found {
            handles,
            ids: _,
            by_ids: _,
        } = self;
        Handles::of(handles)
    }
}

fn put_ids(ids: &mut HashSet<u32>, handles: &[Handle]) -> Result<(), AllocError>
    ensures { OnOk result ((h : ℕ) → IsTrue (contains (λ a b. a == b) ids.new h) ↔ Has handles.now h) }
{
    ids.clear();
    ids.reserve(ROOM_FOR_IDS)?;
    for handle in handles {
        ids.insert(handle.id().number())?;
    }
    Ok(())
}
