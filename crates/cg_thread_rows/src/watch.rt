//! A gate that counts its calls.
use cg_pool::Gate;
use std::alloc::{AllocError, Global};
use std::sync::atomic::{AtomicU64, Ordering};

/// For how many turns a line waits for another at most.
pub(crate) const TURNS: u64 = 100_000_000;

/// What a gate was told of one line.
#[derive(Drop)]
struct Told {
    begun: AtomicU64,
    met: AtomicU64,
    done: AtomicU64,
}

/// Counts its calls. At the beginning of each of the first two lines it waits for so many turns at most until the other
/// is begun, too, and counts whether it was.
#[derive(Drop)]
pub(crate) struct Watch {
    turns: u64,
    lines: Vec<Told>,
}

impl Watch {
    pub(crate) fn new(alloc: Global, lines: u64, turns: u64) -> Result<Watch, AllocError> {
        let mut told = Vec::new(alloc);
        for _ in 0..lines {
            told.push(Told {
                begun: AtomicU64::new(0),
                met: AtomicU64::new(0),
                done: AtomicU64::new(0),
            })?;
        }
        Ok(Watch { turns, lines: told })
    }

    /// Whether each of the first lines was begun and done once and met the other so often, and no further line was.
    pub(crate) fn has_seen(&self, lines: usize, met: u64) -> bool {
        let mut all = true;
        for (line, told) in self.lines.iter().enumerate() {
            let once = u64::from(line < lines);
            all = all
                && told.begun.load(Ordering::SeqCst) == once
                && told.met.load(Ordering::SeqCst) == met
                && told.done.load(Ordering::SeqCst) == once;
        }
        all
    }
}

impl Gate for Watch {
    fn enter(&self, index: u64) {
        let Some(own) = self.lines.get(index as usize) else {
            return;
        };
        own.begun.fetch_add(1, Ordering::SeqCst);
        let Some(other) = self.lines.get(usize::from(index == 0)) else {
            return;
        };
        for _ in 0..self.turns {
            if other.begun.load(Ordering::SeqCst) > 0 {
                own.met.fetch_add(1, Ordering::SeqCst);
                return;
            }
        }
    }

    fn leave(&self, index: u64) {
        if let Some(own) = self.lines.get(index as usize) {
            own.done.fetch_add(1, Ordering::SeqCst);
        }
    }
}
