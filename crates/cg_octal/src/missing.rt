//! The least natural number that isn't in a list. It is at most the list's length.
ghost use Rattle.std.specs.Prelude.{IfOk};
ghost use Rattle.cg_octal.specs.Found.{AreMarks};
ghost use Rattle.cg_octal.specs.Mex.{IsLeastMissing};

use std::alloc::{AllocError, Global};

/// For each number from 0 up to the length of the list, whether the list has it.
fn marks_of(alloc: Global, list: &[u64]) -> Result<Vec<bool>, AllocError>
    ensures { IfOk result (λ marks. AreMarks list.now marks.items) }
{
    let mut marks = vec![in alloc; false; list.len() + 1]?;
    for number in list {
        let place = *number as usize;
        if place < marks.len() {
            marks[place] = true;
        }
    }
    Ok(marks)
}

pub(crate) fn least_missing(alloc: Global, list: &[u64]) -> Result<u64, AllocError>
    ensures { IfOk result (IsLeastMissing list.now) }
{
    let marks = marks_of(alloc, list)?;
    let mut least = 0;
    while marks[least] {
        least += 1;
    }
    Ok(least as u64)
}
