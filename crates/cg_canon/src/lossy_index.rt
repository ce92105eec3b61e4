//! A hash index of hints: where the entries of a list are looked for.
//!
//! The entries are counted from 0, in the order in which they are added, each with a number. A table of slots says
//! which of them may have a number, and the owner of the list looks at the entry itself. So a slot that says something
//! wrong, or nothing for want of memory, only hides an entry.
ghost use Rattle.std.specs.Prelude.{ℕ, Some, IfSome};

use cg_nodes::Handle;
use std::alloc::{AllocError, Global};

/// The first size of a table.
const FIRST: usize = 64;

/// An entry with its number.
#[derive(Clone, Copy)]
struct Slot {
    number: u32,
    /// The entry and 1, or 0 where the slot is free.
    mark: u32,
}

/// The slots of entries.
#[derive(Drop)]
pub(crate) struct LossyIndex {
    alloc: Global,
    /// How many entries there are.
    count: usize,
    slots: Vec<Slot>,
}

/// A number for something, with the number of what comes before it.
pub(crate) fn mixed(before: u64, own: u64) -> u64 {
    let number = (before ^ own).wrapping_mul(0x9E37_79B9_7F4A_7C15);
    number ^ (number >> 32)
}

/// The number that an entry is added with.
pub(crate) fn half_of(number: u64) -> u32 {
    ((number >> 32) % 4_294_967_296) as u32
}

/// A number for the handle.
pub(crate) fn number_of_handle(handle: Handle) -> u32 {
    half_of(mixed(0, u64::from(handle.id().number())))
}

/// The slot that is tried after so many others, in a table of so many slots.
fn slot_at(number: u32, tried: usize, slots: usize) -> usize {
    (number as usize ^ tried) & slots.saturating_sub(1)
}

/// Puts an entry of this number into the first of its slots that is free.
fn put(slots: &mut [Slot], number: u32, entry: usize) {
    if entry >= u32::MAX as usize {
        return;
    }
    for tried in 0..slots.len() {
        let at = slot_at(number, tried, slots.len());
        if at < slots.len() && slots[at].mark == 0 {
            slots[at] = Slot {
                number,
                mark: entry as u32 + 1,
            };
            return;
        }
    }
}

/// Puts the entries of the first table into the second.
fn put_all(old: &[Slot], slots: &mut [Slot]) {
    for slot in old {
        if slot.mark > 0 {
            put(slots, slot.number, slot.mark as usize - 1);
        }
    }
}

impl LossyIndex {
    /// Of no entries.
    pub fn new(alloc: Global) -> LossyIndex {
        LossyIndex {
            alloc,
            count: 0,
            slots: Vec::new(alloc),
        }
    }

    /// What is found at the first entry of the number at which something is found.
    #[inline(always)]
    pub fn find<T, F: Fn(u32) -> Option<T>>(&self, number: u32, look: F) -> Option<T>
        requires { F.IsAlwaysCallable look }
        ensures { IfSome result (λ found. (entry : ℕ) × F.post look entry (Some found)) }
    {
        for tried in 0..self.slots.len() {
            let Some(slot) = self.slots.get(slot_at(number, tried, self.slots.len())) else {
                return None;
            };
            if slot.mark == 0 {
                return None;
            }
            if slot.number == number {
                if let Some(found) = look(slot.mark - 1) {
                    return Some(found);
                }
            }
        }
        None
    }

    /// Adds the next entry, with this number. The table grows before more than half of its slots are filled; where
    /// there is no memory for that, the entry may be hidden.
    #[inline(always)]
    pub fn add(&mut self, number: u32) {
        let entry = self.count;
        self.count = entry.saturating_add(1);
        if entry >= self.slots.len() / 2 && self.grow().is_err() {
            return;
        }
        put(&mut self.slots, number, entry);
    }

    /// Makes the table twice as large, or makes it.
    fn grow(&mut self) -> Result<(), AllocError> {
        let size = self.slots.len().saturating_mul(2).max(FIRST);
        let mut grown = vec![in self.alloc; Slot { number: 0, mark: 0 }; size]?;
        put_all(&self.slots, &mut grown);
        self.slots = grown;
        Ok(())
    }
}
