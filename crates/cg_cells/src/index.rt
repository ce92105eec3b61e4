//! The index of a store in plain memory: for each key the cell that has it, by open addressing from the key's home.
//!
//! The index has a slot for each cell: 0, or the number of a cell plus 1. A key's cell stands in the first slot, from
//! the key's home on and cyclically, that was free when it was put there. Slots are never freed.
ghost use Rattle.std.specs.Prelude.{◌≡◌, ◌≢◌, ℕ, ◌+◌, ◌<◌, ◌≤◌, ◌^◌, length, slice_index, IfOk};
ghost use Rattle.cg_cells.specs.Index.{IsProbeEnd, IsIndex};
ghost use Rattle.cg_cells.specs.Words.{filled};

use crate::Facts;
use std::alloc::{AllocError, Global};

/// Where a search for a key ends.
#[derive(Clone, Copy)]
pub(crate) enum ProbeEnd {
    Cell(u32),
    /// At an empty slot: no cell has the key.
    Slot(usize),
}

pub(crate) fn probe<F: Facts>(keys: &[u64], index: &[u32], key: u64) -> ProbeEnd
    requires size { (length index.now ≡ length keys.now) × (length keys.now ≤ 2 ^ 26) }
    requires inside { (s : ℕ) → slice_index index.now s ≤ length keys.now }
    requires room { filled (slice_index index.now) (length index.now) < length index.now }
    ensures { IsProbeEnd keys.now index.now (F.meaning.home key (length index.now)) key result }
{
    let home = F::home(key, index.len() as u64) as usize;
    for steps in 0..index.len() {
        let ahead = home + steps;
        let slot = if ahead < index.len() {
            ahead
        } else {
            ahead - index.len()
        };
        let entry = index[slot];
        if entry == 0 {
            return ProbeEnd::Slot(slot);
        }
        let cell = entry - 1;
        if keys[cell as usize] == key {
            return ProbeEnd::Cell(cell);
        }
    }
    unreachable!()
}

// Indexes one more cell, if it has a key.
fn put<F: Facts>(keys: &[u64], index: &mut [u32], cell: usize)
    requires size { (length index.old ≡ length keys.now) × (length keys.now ≤ 2 ^ 26) }
    requires cell { cell < length keys.now }
    requires once { (i j : ℕ) → slice_index keys.now i ≢ 0
        → slice_index keys.now i ≡ slice_index keys.now j → i ≡ j }
    requires before { IsIndex F.meaning (length keys.now) (slice_index keys.now)
        (slice_index index.old) cell }
    ensures { IsIndex F.meaning (length keys.now) (slice_index keys.now) (slice_index index.new)
        (cell + 1) }
{
    let key = keys[cell];
    if key == 0 {
        return;
    }
    let ProbeEnd::Slot(slot) = probe::<F>(keys, index, key) else {
        unreachable!()
    };
    index[slot] = cell as u32 + 1;
}

pub(crate) fn index_of<F: Facts>(alloc: Global, keys: &[u64]) -> Result<Vec<u32>, AllocError>
    requires size { length keys.now ≤ 2 ^ 26 }
    requires once { (i j : ℕ) → slice_index keys.now i ≢ 0
        → slice_index keys.now i ≡ slice_index keys.now j → i ≡ j }
    ensures size { IfOk result (λ index. length index.items ≡ length keys.now) }
    ensures indexed { IfOk result
        (λ index. IsIndex F.meaning (length keys.now) (slice_index keys.now)
        (slice_index index.items) (length keys.now)) }
{
    let mut index = vec![in alloc; 0u32; keys.len()]?;
    for cell in 0..keys.len() {
        put::<F>(keys, index.as_mut_slice(), cell);
    }
    Ok(index)
}
